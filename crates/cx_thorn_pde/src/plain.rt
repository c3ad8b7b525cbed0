//! The next numbers by sums without tests, where all numbers are near 0.
ghost use Rattle.std.specs.Prelude.{◌≡◌, ◌≤◌, ◌≤ℤ◌, ◌^◌, ◌+ℤ◌, ◌-ℤ◌, ◌*ℤ◌, pos, negsuc};
ghost use Rattle.std.specs.Int.{int_div_euclid};
ghost use Rattle.cx_thorn_pde.specs.Exact.{scaled};
ghost use Rattle.cx_thorn_pde.specs.Near.{IsNear, IsSmall, IsNearStar};
ghost use Rattle.cx_thorn_pde.specs.Rows.{bend_of, flat_of, lap_of, next_of};

use crate::star::Star;

impl Star {
    /// The number after this one and the one before it.
    #[inline(always)]
    pub(crate) fn next_plain(&self, factor: u32, before: i64) -> i64
        requires star { IsNearStar self.now }
        requires factor { factor ≤ 2 ^ 16 }
        requires before { IsNear before }
        ensures { result ≡ next_of (pos factor) before self.now }
    {
        let base = twice_minus(self.here, before);
        plus(base, part(factor, self.lap_plain()))
    }

    /// The sum of the bends of all three directions, near 0.
    #[inline(always)]
    fn lap_plain(&self) -> i64
        requires { IsNearStar self.now }
        ensures value { result ≡ lap_of self.now }
        ensures low { negsuc (2 ^ 46) ≤ℤ result }
        ensures high { result ≤ℤ pos (2 ^ 46) }
    {
        let z = bend_of(self.over, self.under, self.here);
        sum(self.flat_plain(), z)
    }

    /// The sum of the bends of the first two directions, near 0.
    #[inline(always)]
    fn flat_plain(&self) -> i64
        requires { IsNearStar self.now }
        ensures value { result ≡ flat_of self.now }
        ensures low { negsuc (2 ^ 45) ≤ℤ result }
        ensures high { result ≤ℤ pos (2 ^ 45) }
    {
        let x = bend_of(self.right, self.left, self.here);
        let y = bend_of(self.above, self.below, self.here);
        sum(x, y)
    }
}

/// Twice the last number less the one before, near 0.
#[inline(always)]
fn twice_minus(last: i64, before: i64) -> i64
    requires last { IsNear last }
    requires before { IsNear before }
    ensures value { result ≡ pos 2 *ℤ last -ℤ before }
    ensures low { negsuc (2 ^ 43) ≤ℤ result }
    ensures high { result ≤ℤ pos (2 ^ 43) }
{
    2 * last - before
}

/// How the numbers bend between two neighbours, near 0.
#[inline(always)]
fn bend_of(up: i64, down: i64, here: i64) -> i64
    requires up { IsNear up }
    requires down { IsNear down }
    requires here { IsNear here }
    ensures value { result ≡ bend_of up down here }
    ensures low { negsuc (2 ^ 43) ≤ℤ result }
    ensures high { result ≤ℤ pos (2 ^ 43) }
{
    minus_twice(both(up, down), here)
}

/// The sum of two neighbours, near 0.
#[inline(always)]
fn both(up: i64, down: i64) -> i64
    requires up { IsNear up }
    requires down { IsNear down }
    ensures value { result ≡ up +ℤ down }
    ensures low { negsuc (2 ^ 42) ≤ℤ result }
    ensures high { result ≤ℤ pos (2 ^ 42) }
{
    up + down
}

/// A sum less twice the number at the point, near 0.
#[inline(always)]
fn minus_twice(sum: i64, here: i64) -> i64
    requires low { negsuc (2 ^ 42) ≤ℤ sum }
    requires high { sum ≤ℤ pos (2 ^ 42) }
    requires here { IsNear here }
    ensures value { result ≡ sum -ℤ pos 2 *ℤ here }
    ensures low { negsuc (2 ^ 43) ≤ℤ result }
    ensures high { result ≤ℤ pos (2 ^ 43) }
{
    sum - 2 * here
}

/// The sum of two bends, near 0.
#[inline(always)]
fn sum(a: i64, b: i64) -> i64
    requires low { (negsuc (2 ^ 45) ≤ℤ a) × (negsuc (2 ^ 45) ≤ℤ b) }
    requires high { (a ≤ℤ pos (2 ^ 45)) × (b ≤ℤ pos (2 ^ 45)) }
    ensures { result ≡ a +ℤ b }
{
    a + b
}

/// The sum of a base and a part, near 0.
#[inline(always)]
fn plus(base: i64, part: i64) -> i64
    requires base { (negsuc (2 ^ 43) ≤ℤ base) × (base ≤ℤ pos (2 ^ 43)) }
    requires part { (negsuc (2 ^ 62) ≤ℤ part) × (part ≤ℤ pos (2 ^ 62)) }
    ensures { result ≡ base +ℤ part }
{
    base + part
}

/// A factor, in 256ths, times a bend, rounded down.
#[inline(always)]
fn part(factor: u32, bend: i64) -> i64
    requires factor { factor ≤ 2 ^ 16 }
    requires low { negsuc (2 ^ 46) ≤ℤ bend }
    requires high { bend ≤ℤ pos (2 ^ 46) }
    ensures value { result ≡ scaled (pos factor) bend }
    ensures low { negsuc (2 ^ 62) ≤ℤ result }
    ensures high { result ≤ℤ pos (2 ^ 62) }
{
    in_256ths(product(factor as i64, bend))
}

/// The product of a small factor and a bend.
#[inline(always)]
fn product(factor: i64, bend: i64) -> i64
    requires factor { IsSmall factor }
    requires low { negsuc (2 ^ 46) ≤ℤ bend }
    requires high { bend ≤ℤ pos (2 ^ 46) }
    ensures { result ≡ factor *ℤ bend }
{
    factor * bend
}

/// A number over 256, rounded down.
#[inline(always)]
fn in_256ths(number: i64) -> i64
    ensures value { result ≡ int_div_euclid number (pos 256) }
    ensures low { negsuc (2 ^ 62) ≤ℤ result }
    ensures high { result ≤ℤ pos (2 ^ 62) }
{
    number >> 8
}
