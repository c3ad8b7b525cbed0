//! A number and its neighbours in three directions.
ghost use Rattle.std.specs.Prelude.{◌≡◌, ◌<◌, ◌+◌, ◌+ℤ◌, ◌-ℤ◌, ◌*ℤ◌, length, pos, IfSome};
ghost use Rattle.cx_thorn_pde.specs.Exact.{in_64_bits, scaled};
ghost use Rattle.cx_thorn_pde.specs.Rows.{bend_of, flat_of, lap_of, star_at, next_of};

use crate::around::{bend_of, sum};
use crate::exact::plus_scaled;
use crate::wave_step::stepped;

/// A number, those beside it along x, those below and above it along y, and those under and over it along z.
#[derive(Drop)]
pub(crate) struct Star {
    pub(crate) here: i64,
    pub(crate) left: i64,
    pub(crate) right: i64,
    pub(crate) below: i64,
    pub(crate) above: i64,
    pub(crate) under: i64,
    pub(crate) over: i64,
}

impl Star {
    /// The number after this one and the one before it, if it has 64 bits.
    #[inline(always)]
    pub(crate) fn next(&self, factor: i64, before: i64) -> Option<i64>
        ensures { result ≡ in_64_bits (next_of factor before self.now) }
    {
        match self.next_narrow(factor, before) {
            Some(number) => Some(number),
            None => self.next_wide(factor, before),
        }
    }

    /// The number after this one and the one before it, by sums of 64 bits; none if one of them doesn't fit.
    #[inline(always)]
    fn next_narrow(&self, factor: i64, before: i64) -> Option<i64>
        ensures { IfSome result (λ n. n ≡ next_of factor before self.now) }
    {
        let base = twice_minus(self.here, before)?;
        let bend = self.lap_narrow()?;
        plus_part(base, factor, bend)
    }

    /// The sum of the bends of all three directions; none if a sum on the way doesn't fit 64 bits.
    #[inline(always)]
    fn lap_narrow(&self) -> Option<i64>
        ensures { IfSome result (λ n. n ≡ lap_of self.now) }
    {
        let flat = self.flat_narrow()?;
        let z = bend_narrow(self.over, self.under, self.here)?;
        flat.checked_add(z)
    }

    /// The sum of the bends of the first two directions; none if a sum on the way doesn't fit 64 bits.
    #[inline(always)]
    fn flat_narrow(&self) -> Option<i64>
        ensures { IfSome result (λ n. n ≡ flat_of self.now) }
    {
        let x = bend_narrow(self.right, self.left, self.here)?;
        let y = bend_narrow(self.above, self.below, self.here)?;
        x.checked_add(y)
    }

    /// The number after this one and the one before it, by sums of 128 bits, which all fit.
    fn next_wide(&self, factor: i64, before: i64) -> Option<i64>
        ensures { result ≡ in_64_bits (next_of factor before self.now) }
    {
        stepped(self.here, before, factor, self.lap_wide())
    }

    /// The sum of the bends of all three directions, exactly.
    fn lap_wide(&self) -> i128
        ensures { result ≡ lap_of self.now }
    {
        let x = bend_of(self.right, self.left, self.here);
        let y = bend_of(self.above, self.below, self.here);
        let z = bend_of(self.over, self.under, self.here);
        sum(x, y, z)
    }
}

/// Twice the last number less the one before; none if it doesn't fit 64 bits.
#[inline(always)]
fn twice_minus(last: i64, before: i64) -> Option<i64>
    ensures { IfSome result (λ n. n ≡ pos 2 *ℤ last -ℤ before) }
{
    last.checked_mul(2)?.checked_sub(before)
}

/// How the numbers bend between two neighbours; none if a sum on the way doesn't fit 64 bits.
#[inline(always)]
fn bend_narrow(up: i64, down: i64, here: i64) -> Option<i64>
    ensures { IfSome result (λ n. n ≡ bend_of up down here) }
{
    let sum = up.checked_add(down)?;
    minus_twice(sum, here)
}

/// A sum less twice the number at the point; none if it doesn't fit 64 bits.
#[inline(always)]
fn minus_twice(sum: i64, here: i64) -> Option<i64>
    ensures { IfSome result (λ n. n ≡ sum -ℤ pos 2 *ℤ here) }
{
    let twice = here.checked_mul(2)?;
    sum.checked_sub(twice)
}

/// A base and a factor, in 256ths, times a bend; none if a number on the way doesn't fit 64 bits.
#[inline(always)]
fn plus_part(base: i64, factor: i64, bend: i64) -> Option<i64>
    ensures { IfSome result (λ n. n ≡ base +ℤ scaled factor bend) }
{
    let product = factor.checked_mul(bend)?;
    base.checked_add(product.div_euclid(256))
}
