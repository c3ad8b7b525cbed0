//! Numbers near 0, of which no sum on the way to the next number leaves 64 bits.
ghost use Rattle.std.specs.Prelude.{◌≡◌, ◌≤◌, ◌<◌, ◌^◌, length, true, pos, IfSome};
ghost use Rattle.cx_thorn_pde.specs.Near.{IsNear, AreNear};

/// A factor from 0 to 2^16 as a number without a sign, so that its products in lanes are short.
pub(crate) fn small_factor(factor: i64) -> Option<u32>
    ensures { IfSome result (λ small. (factor ≡ pos small) × (small ≤ 2 ^ 16)) }
{
    if 0 <= factor && factor <= 65536 {
        Some(factor as u32)
    } else {
        None
    }
}

/// Whether the numbers of a row from a place on, before another place, are at most 2^40 from 0.
pub(crate) fn are_near(numbers: &[i64], from: usize, to: usize) -> bool
    requires { to ≤ length numbers.now }
    ensures { result ≡ true → AreNear numbers.now from to }
{
    let mut spread = 0;
    'numbers: for i in from..to {
        spread |= raised(numbers[i]);
    }
    spread < 1 << 41
}

/// A number and 2^40, which is below 2^41 for a number near 0 alone.
#[inline(always)]
fn raised(number: i64) -> u64
    ensures { result < 2 ^ 41 → IsNear number }
{
    number.cast_unsigned().wrapping_add(1 << 40)
}
