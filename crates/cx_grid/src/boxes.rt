//! Boxes of points.
ghost use Rattle.std.specs.Prelude.{◌≡◌, ◌<◌, ◌+◌, ◌*◌, ◌/◌, ◌%◌, ◌^◌, ◌&&◌, IsTrue, ◌↔◌, ◌≤ℤ◌, ◌<ℤ◌, pos, ◌+ℤ◌};
ghost use Rattle.std.specs.Int.{int_gap};
ghost use Rattle.cx_grid.specs.Boxes.{IsIn, IsOn, is_on, has_point, IsSmall, IsBox, point_count, index_in, point_in, points_in};

use crate::walk::Rows;

/// A point, or one number for each direction: an offset, a number of points or a ghost width.
#[derive(Clone, Copy, Debug, PartialEq, Eq)]
pub struct Point {
    pub x: i32,
    pub y: i32,
    pub z: i32,
}

/// A box of points, from `low` on and below `high` in each direction. It has no points where `high` isn't above `low`.
#[derive(Clone, Copy, PartialEq, Eq, Debug)]
pub struct Box3 {
    pub low: Point,
    pub high: Point,
}

/// Whether a number lies from the one up to the other, which is excluded.
fn is_on(low: i32, high: i32, c: i32) -> bool
    ensures { result ≡ is_on low high c }
{
    low <= c && c < high
}

/// Whether a box holds a point.
pub fn contains(b: &Box3, p: Point) -> bool
    ensures value { result ≡ has_point b.now p }
    ensures inside { IsTrue result ↔ IsIn b.now p }
{
    let x = is_on(b.low.x, b.high.x, p.x);
    let y = is_on(b.low.y, b.high.y, p.y);
    let z = is_on(b.low.z, b.high.z, p.z);
    all_three(x, y, z)
}

/// Whether all three hold, one for each direction.
fn all_three(x: bool, y: bool, z: bool) -> bool
    ensures { result ≡ (x && y && z) }
{
    x && y && z
}

/// How far the second number is above the first.
fn gap(low: i32, high: i32) -> usize
    requires { low ≤ℤ high }
    ensures value { result ≡ int_gap low high }
    ensures few { result < 2 ^ 32 }
{
    (high as i64 - low as i64) as usize
}

/// The number of points of a box.
pub fn count(b: &Box3) -> usize
    requires ordered { IsBox b.now }
    requires small { IsSmall b.now }
    ensures { result ≡ point_count b.now }
{
    product(
        gap(b.low.x, b.high.x),
        gap(b.low.y, b.high.y),
        gap(b.low.z, b.high.z),
    )
}

/// How many points three numbers of points make.
fn product(x: usize, y: usize, z: usize) -> usize
    requires all { x * y * z < 2 ^ 32 }
    requires x { x < 2 ^ 32 }
    requires y { y < 2 ^ 32 }
    ensures { result ≡ x * y * z }
{
    x * y * z
}

/// The place of a point of a box, x fastest.
pub fn index_of(b: &Box3, p: Point) -> usize
    requires point { IsIn b.now p }
    requires small { IsSmall b.now }
    ensures value { result ≡ index_in b.now p }
    ensures below { result < point_count b.now }
{
    let x = Step {
        at: gap(b.low.x, p.x),
        n: gap(b.low.x, b.high.x),
    };
    let y = Step {
        at: gap(b.low.y, p.y),
        n: gap(b.low.y, b.high.y),
    };
    let z = Step {
        at: gap(b.low.z, p.z),
        n: gap(b.low.z, b.high.z),
    };
    place(x, y, z)
}

/// A coordinate from a box's low end on, and the box's width.
#[derive(Clone, Copy)]
struct Step {
    at: usize,
    n: usize,
}

/// The place of a point among those of a box, x fastest.
fn place(x: Step, y: Step, z: Step) -> usize
    requires x { x.at < x.n }
    requires y { y.at < y.n }
    requires z { z.at < z.n }
    requires few { x.n * y.n * z.n < 2 ^ 32 }
    ensures value { result ≡ x.at + x.n * (y.at + y.n * z.at) }
    ensures below { result < x.n * y.n * z.n }
{
    x.at + x.n * (y.at + y.n * z.at)
}

/// The point at a place of a box.
pub fn point_at(b: &Box3, place: usize) -> Point
    requires small { IsSmall b.now }
    requires place { place < point_count b.now }
    requires ordered { IsBox b.now }
    ensures value { result ≡ point_in b.now place }
    ensures inside { IsIn b.now result }
{
    let (x, y, z) = coordinates(
        place,
        gap(b.low.x, b.high.x),
        gap(b.low.y, b.high.y),
        gap(b.low.z, b.high.z),
    );
    Point {
        x: moved(b.low.x, b.high.x, x),
        y: moved(b.low.y, b.high.y, y),
        z: moved(b.low.z, b.high.z, z),
    }
}

/// A coordinate so many steps above the low end, still below the high end.
fn moved(low: i32, high: i32, by: usize) -> i32
    requires below { by < int_gap low high }
    requires order { low ≤ℤ high }
    ensures value { result ≡ low +ℤ pos by }
    ensures on { IsOn low high result }
{
    (low as i64 + by as i64) as i32
}

/// Where the point at a place of a box is along x, y and z, counted from its low corner.
#[tactic(auto, using(crate::proofs::Places::sides))]
fn coordinates(place: usize, nx: usize, ny: usize, nz: usize) -> (usize, usize, usize)
    requires { place < nx * ny * nz }
    ensures value { result ≡ (place % nx, place / nx % ny, place / nx / ny) }
    ensures x { result.0 < nx }
    ensures y { result.1 < ny }
    ensures z { result.2 < nz }
{
    let rows = place / nx;
    (place % nx, rows % ny, rows / ny)
}

/// Each point of a box once, x fastest, then y.
pub fn rows(b: &Box3) -> Rows
    ensures { result ≡ points_in b.now }
{
    Rows::new(b)
}
