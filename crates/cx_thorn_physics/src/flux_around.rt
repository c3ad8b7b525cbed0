//! What the heat at a point gains from all sides.
ghost use Rattle.std.specs.Prelude.{◌≡◌, ◌≤◌, ◌≤ℤ◌, ◌^◌, ◌+ℤ◌, ◌∷◌, [], pos, negsuc};
ghost use Rattle.cx_rule.specs.Seen.{IsOffset};
ghost use Rattle.cx_thorn_physics.specs.Flux.{gain, gain_if, gain_between, gains, spot_at};
ghost use Rattle.cx_rule.specs.Single.{here};

use crate::flow::{Spot, gain_between};
use cx_grid::Point;
use cx_rule::Window;

/// What the heat at a point gains, over so many directions.
pub(crate) fn gains(w: &Window, dims: u8, factor: i64) -> i128
    requires directions { w.now.seen.dims ≡ dims }
    requires some { 1 ≤ dims }
    requires most { dims ≤ 3 }
    requires reads { w.now.seen.reaches ≡ 1 ∷ 1 ∷ [] }
    ensures value { result ≡ gains w.now.seen factor }
    ensures low { negsuc (2 ^ 123) ≤ℤ result }
    ensures high { result ≤ℤ pos (2 ^ 123) }
{
    let x = gain(
        w,
        factor,
        Point { x: -1, y: 0, z: 0 },
        Point { x: 1, y: 0, z: 0 },
    );
    let y = gain_y(w, dims, factor);
    let z = gain_z(w, dims, factor);
    sum(x, y, z)
}

/// The sum of three gains.
#[inline(always)]
pub(crate) fn sum(x: i128, y: i128, z: i128) -> i128
    requires low { (negsuc (2 ^ 121) ≤ℤ x) × (negsuc (2 ^ 121) ≤ℤ y) × (negsuc (2 ^ 121) ≤ℤ z) }
    requires high { (x ≤ℤ pos (2 ^ 121)) × (y ≤ℤ pos (2 ^ 121)) × (z ≤ℤ pos (2 ^ 121)) }
    ensures value { result ≡ x +ℤ y +ℤ z }
    ensures low { negsuc (2 ^ 123) ≤ℤ result }
    ensures high { result ≤ℤ pos (2 ^ 123) }
{
    x + y + z
}

/// What a point gains along the second direction, if the grid has one.
fn gain_y(w: &Window, dims: u8, factor: i64) -> i128
    requires directions { w.now.seen.dims ≡ dims }
    requires reads { w.now.seen.reaches ≡ 1 ∷ 1 ∷ [] }
    ensures value { result ≡ gain_if w.now.seen factor 1 }
    ensures low { negsuc (2 ^ 121) ≤ℤ result }
    ensures high { result ≤ℤ pos (2 ^ 121) }
{
    if dims < 2 {
        return 0;
    }
    gain(
        w,
        factor,
        Point { x: 0, y: -1, z: 0 },
        Point { x: 0, y: 1, z: 0 },
    )
}

/// What a point gains along the third direction, if the grid has one.
fn gain_z(w: &Window, dims: u8, factor: i64) -> i128
    requires directions { w.now.seen.dims ≡ dims }
    requires most { dims ≤ 3 }
    requires reads { w.now.seen.reaches ≡ 1 ∷ 1 ∷ [] }
    ensures value { result ≡ gain_if w.now.seen factor 2 }
    ensures low { negsuc (2 ^ 121) ≤ℤ result }
    ensures high { result ≤ℤ pos (2 ^ 121) }
{
    if dims < 3 {
        return 0;
    }
    gain_up(w, factor)
}

/// What a point gains along the third direction.
fn gain_up(w: &Window, factor: i64) -> i128
    requires directions { w.now.seen.dims ≡ 3 }
    requires reads { w.now.seen.reaches ≡ 1 ∷ 1 ∷ [] }
    ensures value { result ≡ gain w.now.seen factor 2 }
    ensures low { negsuc (2 ^ 121) ≤ℤ result }
    ensures high { result ≤ℤ pos (2 ^ 121) }
{
    gain(
        w,
        factor,
        Point { x: 0, y: 0, z: -1 },
        Point { x: 0, y: 0, z: 1 },
    )
}

/// What a point gains between two neighbours.
fn gain(w: &Window, factor: i64, down: Point, up: Point) -> i128
    requires reads { w.now.seen.reaches ≡ 1 ∷ 1 ∷ [] }
    requires down { IsOffset w.now.seen 0 down }
    requires up { IsOffset w.now.seen 0 up }
    ensures value { result ≡ gain_between factor (spot_at w.now.seen down)
        (spot_at w.now.seen here) (spot_at w.now.seen up) }
    ensures low { negsuc (2 ^ 121) ≤ℤ result }
    ensures high { result ≤ℤ pos (2 ^ 121) }
{
    let from = spot_at(w, down);
    let to = spot_at(w, up);
    gain_between(factor, from, spot_here(w), to)
}

/// The mask and the heat at an offset.
fn spot_at(w: &Window, offset: Point) -> Spot
    requires reads { w.now.seen.reaches ≡ 1 ∷ 1 ∷ [] }
    requires offset { IsOffset w.now.seen 0 offset }
    ensures { result ≡ spot_at w.now.seen offset }
{
    Spot {
        mask: w.value(1, offset),
        heat: w.value(0, offset),
    }
}

/// The mask and the heat at the point itself.
fn spot_here(w: &Window) -> Spot
    requires reads { w.now.seen.reaches ≡ 1 ∷ 1 ∷ [] }
    ensures { result ≡ spot_at w.now.seen here }
{
    Spot {
        mask: w.here(1),
        heat: w.here(0),
    }
}
