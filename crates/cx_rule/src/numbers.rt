//! Numbers that rules are made of.
ghost use Rattle.std.specs.Prelude.{◌≡◌, ◌≤◌, ◌<◌, ◌+◌, ◌*◌, ◌/◌, ◌%◌, ◌^◌, pos, bit_xor};
ghost use Rattle.std.specs.Int.{cast_unsigned, w64};
ghost use Rattle.cx_rule.specs.Numbers.{mix, mix_from, mixing, bit_of};

/// A number of 64 bits that is spread from a seed and a place in global order: the mixing of SplitMix64.
pub fn mix(seed: u64, index: u64) -> u64
    ensures { result ≡ mix seed index }
{
    let first = seed.wrapping_add(index.wrapping_mul(0x9E37_79B9_7F4A_7C15));
    let second = (first ^ (first >> 30)).wrapping_mul(0xBF58_476D_1CE4_E5B9);
    let third = (second ^ (second >> 27)).wrapping_mul(0x94D0_49BB_1331_11EB);
    third ^ (third >> 31)
}

/// A number of 64 bits that is spread by `mix` from a seed with a sign, whose 64 bits are taken as they are.
pub fn mix_from(seed: i64, index: usize) -> u64
    ensures { result ≡ mix_from seed index }
{
    mix(seed.cast_unsigned(), index as u64)
}

/// A bit of a number in two's complement, 0 or 1. Bit 0 is the lowest.
pub fn bit(number: i64, k: u32) -> i64
    requires { k < 64 }
    ensures { result ≡ pos (bit_of number k) }
{
    ((number.cast_unsigned() >> k) % 2) as i64
}
