//! Exact sums, told as 64 bits or as none.
ghost use Rattle.std.specs.Prelude.{◌≡◌, ◌≤ℤ◌, ◌^◌, ◌+ℤ◌, pos, negsuc};
ghost use Rattle.std.specs.Int.{int_div_euclid};
ghost use Rattle.cx_thorn_pde.specs.Exact.{in_64_bits, scaled};

/// The number where it has 64 bits, else none.
#[tactic(auto, using(crate::proofs::Ranges::fits, crate::proofs::Ranges::misfits))]
pub(crate) fn in_64_bits(number: i128) -> Option<i64>
    ensures { result ≡ in_64_bits number }
{
    i64::try_from(number).ok()
}

/// A number and the factor, in 256ths, times another one, rounded down; none where the sum leaves 64 bits.
#[tactic(auto, using(crate::proofs::Ranges::far))]
pub(crate) fn plus_scaled(base: i128, factor: i64, number: i128) -> Option<i64>
    requires low { negsuc (2 ^ 66) ≤ℤ base }
    requires high { base ≤ℤ pos (2 ^ 66) }
    ensures { result ≡ in_64_bits (base +ℤ scaled factor number) }
{
    // A product that leaves 128 bits is so far from 0 that its 256th part leaves 64 bits whatever the base is.
    match (factor as i128).checked_mul(number) {
        Some(product) => plus_256th(base, product),
        None => None,
    }
}

/// A base and a product in 256ths, which is rounded down; none if the sum has more than 64 bits.
fn plus_256th(base: i128, product: i128) -> Option<i64>
    requires low { negsuc (2 ^ 66) ≤ℤ base }
    requires high { base ≤ℤ pos (2 ^ 66) }
    ensures { result ≡ in_64_bits (base +ℤ int_div_euclid product (pos 256)) }
{
    let part = in_256ths(product);
    in_64_bits(plus(base, part))
}

/// The sum of a base and a part, exactly.
fn plus(base: i128, part: i128) -> i128
    requires low { (negsuc (2 ^ 66) ≤ℤ base) × (negsuc (2 ^ 119) ≤ℤ part) }
    requires high { (base ≤ℤ pos (2 ^ 66)) × (part ≤ℤ pos (2 ^ 119)) }
    ensures { result ≡ base +ℤ part }
{
    base + part
}

/// A number over 256, rounded down.
#[tactic(auto, using(crate::proofs::Ranges::above, crate::proofs::Ranges::below))]
fn in_256ths(number: i128) -> i128
    ensures value { result ≡ int_div_euclid number (pos 256) }
    ensures low { negsuc (2 ^ 119) ≤ℤ result }
    ensures high { result ≤ℤ pos (2 ^ 119) }
{
    number.div_euclid(256)
}
