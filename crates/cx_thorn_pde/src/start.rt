//! The patterns that a field starts with.
ghost use Rattle.std.specs.Prelude.{◌≡◌, ◌≤◌, ◌<◌, ◌≤ℤ◌, ◌^◌, ◌+ℤ◌, ◌%◌, pos, length, nat_eq, unsigned_abs};
ghost use Rattle.cx_grid.specs.Boxes.{IsIn};
ghost use Rattle.cx_grid.specs.Grid.{IsShape, whole};
ghost use Rattle.cx_thorn_pde.specs.Start.{start_at, start_number, point_start, alternate_start, random_start};

use crate::exact::in_64_bits;
use cx_grid::Point;
use cx_rule::{Place, mix_from};

/// The start at a place, by its first four parameters: pattern, amount, start and seed; none where it leaves 64 bits.
pub(crate) fn start_at(at: &Place) -> Option<i64>
    requires shape { IsShape at.now.shape }
    requires point { IsIn (whole at.now.shape) at.now.at }
    requires params { 4 ≤ length at.now.params }
    ensures { result ≡ start_at at.now }
{
    let start = start_number(
        at.param(0),
        at.param(1),
        at.param(2),
        at.param(3),
        at.at,
        at.index(),
    );
    in_64_bits(start)
}

/// The number that a pattern gives a point: one point, a constant, alternating signs or random numbers.
fn start_number(pattern: i64, amount: i64, start: i64, seed: i64, p: Point, index: usize) -> i128
    requires index { index < 2 ^ 24 }
    requires x { (pos 0 ≤ℤ p.x) × (p.x ≤ℤ pos 16777216) }
    requires y { (pos 0 ≤ℤ p.y) × (p.y ≤ℤ pos 16777216) }
    requires z { (pos 0 ≤ℤ p.z) × (p.z ≤ℤ pos 16777216) }
    ensures { result ≡ start_number pattern amount start seed p index }
{
    match pattern {
        0 => point_start(amount, start, index),
        1 => amount as i128,
        2 => alternate_start(amount, p),
        _ => random_start(amount, seed, index),
    }
}

/// The amount at one place, else 0.
fn point_start(amount: i64, start: i64, index: usize) -> i128
    requires { index < 2 ^ 24 }
    ensures { result ≡ point_start amount start index }
{
    if start == index as i64 {
        amount as i128
    } else {
        0
    }
}

/// The amount where the sum of the coordinates is even, else its negative.
fn alternate_start(amount: i64, p: Point) -> i128
    requires x { (pos 0 ≤ℤ p.x) × (p.x ≤ℤ pos 16777216) }
    requires y { (pos 0 ≤ℤ p.y) × (p.y ≤ℤ pos 16777216) }
    requires z { (pos 0 ≤ℤ p.z) × (p.z ≤ℤ pos 16777216) }
    ensures { result ≡ alternate_start amount p }
{
    if is_even(p) {
        amount as i128
    } else {
        -(amount as i128)
    }
}

/// Whether the sum of the coordinates is even.
fn is_even(p: Point) -> bool
    requires x { (pos 0 ≤ℤ p.x) × (p.x ≤ℤ pos 16777216) }
    requires y { (pos 0 ≤ℤ p.y) × (p.y ≤ℤ pos 16777216) }
    requires z { (pos 0 ≤ℤ p.z) × (p.z ≤ℤ pos 16777216) }
    ensures { result ≡ nat_eq (unsigned_abs (p.x +ℤ p.y +ℤ p.z) % 2) 0 }
{
    let sum = p.x + p.y + p.z;
    sum.unsigned_abs() % 2 == 0
}

/// From 0 to the amount by the seed, and 0 for an amount below 0.
fn random_start(amount: i64, seed: i64, index: usize) -> i128
    ensures { result ≡ random_start amount seed index }
{
    if amount < 0 {
        return 0;
    }
    let choices = amount as u64 + 1;
    (mix_from(seed, index) % choices) as i128
}
