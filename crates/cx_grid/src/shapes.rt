//! Grids.
ghost use Rattle.std.specs.Prelude.{◌≡◌, ◌≤◌, ◌≤ℤ◌, ◌<ℤ◌, ◌-ℤ◌, ◌+ℤ◌, ◌*ℤ◌, pos, ◌^◌, ◌<◌, false, ◌⊎◌, IsTrue, if◌then◌else◌, nat_lt, not, ◌&&◌, ◌||◌, int_lt, int_le, neg_ℤ, ℤ, ◌+◌};
ghost use Rattle.std.specs.Int.{int_rem_euclid, int_min, int_max};
ghost use Rattle.cx_grid.specs.Boxes.{IsIn, IsOn, IsBox, point_count};
ghost use Rattle.cx_grid.specs.Grid.{IsShape, IsNearGrid, HasInterior, HasInner, wrap, wrap_along, source, source_along, is_boundary, in_face, whole};
ghost use Rattle.cx_grid.specs.Windows.{reach_box};

use crate::boxes::{Box3, Point};

/// A grid of one to three directions: x alone, x and y, or all. A direction above `dims` has one point and no ghost zone.
#[derive(Clone, Copy, Debug, PartialEq, Eq)]
pub struct Shape {
    /// The number of directions, 1 to 3.
    pub dims: u8,
    /// The number of points of each direction, 1 to 16,777,216; at most 2^24 in all.
    pub n: Point,
    /// The width of each direction's ghost zone, 0 to 8 points.
    pub ghost_: Point,
    /// Whether each of x, y and z is periodic: whether its last point is a neighbour of its first.
    pub periodic: [bool; 3],
}

/// A side of a direction.
#[derive(Clone, Copy, Debug, PartialEq, Eq)]
pub enum Side {
    Low,
    High,
}

/// The box of all points of the grid.
pub fn whole(shape: &Shape) -> Box3
    requires { IsShape shape.now }
    ensures value { result ≡ whole shape.now }
    ensures ordered { IsBox result }
    ensures few { point_count result ≤ 2 ^ 24 }
{
    Box3 {
        low: Point { x: 0, y: 0, z: 0 },
        high: shape.n,
    }
}

/// The point of the grid that a point stands for: its periodic coordinates are taken modulo their number of points.
pub fn wrap(shape: &Shape, p: Point) -> Point
    requires { IsShape shape.now }
    ensures value { result ≡ wrap shape.now p }
    ensures inside { IsNearGrid shape.now p → IsIn (whole shape.now) result }
{
    Point {
        x: wrapped(shape.periodic[0], shape.n.x, p.x),
        y: wrapped(shape.periodic[1], shape.n.y, p.y),
        z: wrapped(shape.periodic[2], shape.n.z, p.z),
    }
}

/// The coordinate on the grid of one in a periodic direction; in another direction it stays.
fn wrapped(periodic: bool, n: i32, c: i32) -> i32
    requires { pos 0 <ℤ n }
    ensures value { result ≡ (if periodic then int_rem_euclid c n else c) }
    ensures on { IsTrue periodic ⊎ IsOn (pos 0) n c → IsOn (pos 0) n result }
{
    if periodic { remainder(n, c) } else { c }
}

/// A number modulo `n`, without a division where it is one of 0 to `n - 1` already.
fn remainder(n: i32, c: i32) -> i32
    requires { pos 0 <ℤ n }
    ensures value { result ≡ int_rem_euclid c n }
    ensures on { IsOn (pos 0) n result }
{
    if 0 <= c && c < n { c } else { c.rem_euclid(n) }
}

/// The nearest point of the interior: each coordinate of a direction that isn't periodic is moved there. In a direction of
/// less than 2g + 1 points, which has no interior, it is moved to g, the width of the ghost zone.
pub fn clamp(shape: &Shape, p: Point) -> Point
    requires { IsShape shape.now }
    ensures value { result ≡ source shape.now p }
    ensures interior { HasInterior shape.now → is_boundary shape.now result ≡ false }
    ensures near { HasInterior shape.now → IsNearGrid shape.now result }
    ensures inside { HasInterior shape.now → IsIn (whole shape.now) p
        → IsIn (whole shape.now) result }
{
    Point {
        x: clamped(shape.periodic[0], shape.n.x, shape.ghost_.x, p.x),
        y: clamped(shape.periodic[1], shape.n.y, shape.ghost_.y, p.y),
        z: clamped(shape.periodic[2], shape.n.z, shape.ghost_.z, p.z),
    }
}

/// The nearest coordinate that isn't in the boundary; in a periodic direction it stays.
fn clamped(periodic: bool, n: i32, ghosts: i32, c: i32) -> i32
    requires ghosts { (pos 0 ≤ℤ ghosts) × (ghosts ≤ℤ pos 8) }
    requires n { (pos 1 ≤ℤ n) × (n ≤ℤ pos 16777216) }
    ensures value { result ≡ (if periodic then c
        else int_max ghosts (int_min c (n -ℤ ghosts -ℤ pos 1))) }
{
    if periodic {
        c
    } else {
        c.min(n - ghosts - 1).max(ghosts)
    }
}

/// Whether a point is a boundary point: whether it has, in a direction that isn't periodic, a coordinate below the ghost
/// width or from that width before the end on. All other points of the grid are interior.
pub fn is_boundary(shape: &Shape, p: Point) -> bool
    requires { IsShape shape.now }
    ensures { result ≡ is_boundary shape.now p }
{
    let x = is_in_face(shape.periodic[0], shape.n.x, shape.ghost_.x, p.x);
    let y = is_in_face(shape.periodic[1], shape.n.y, shape.ghost_.y, p.y);
    let z = is_in_face(shape.periodic[2], shape.n.z, shape.ghost_.z, p.z);
    any_of(x, y, z)
}

/// Whether one of three holds, one for each direction.
fn any_of(x: bool, y: bool, z: bool) -> bool
    ensures { result ≡ (x || (y || z)) }
{
    x || y || z
}

/// Whether a coordinate is in the boundary of a direction.
fn is_in_face(periodic: bool, n: i32, ghosts: i32, c: i32) -> bool
    requires ghosts { (pos 0 ≤ℤ ghosts) × (ghosts ≤ℤ pos 8) }
    requires n { pos 1 ≤ℤ n }
    ensures { result ≡ (not periodic && (int_lt c ghosts || int_le (n -ℤ ghosts) c)) }
{
    !periodic && (c < ghosts || n - ghosts <= c)
}

/// The offsets of at most this reach in each of the first `dims` directions, and of 0 in the others.
pub fn reach_box(dims: u8, reach: u8) -> Box3
    ensures value { result ≡ reach_box dims reach }
    ensures ordered { IsBox result }
    ensures few { point_count result ≤ 133432831 }
{
    Box3 {
        low: Point {
            x: lowest(0 < dims, reach),
            y: lowest(1 < dims, reach),
            z: lowest(2 < dims, reach),
        },
        high: Point {
            x: above_highest(0 < dims, reach),
            y: above_highest(1 < dims, reach),
            z: above_highest(2 < dims, reach),
        },
    }
}

/// The lowest offset in a direction that is there, or isn't.
fn lowest(there: bool, reach: u8) -> i32
    ensures value { result ≡ (if there then neg_ℤ (pos reach) else pos 0) }
    ensures below { result ≤ℤ pos 0 }
{
    if there { -(reach as i32) } else { 0 }
}

/// The end of the offsets in a direction that is there, or isn't.
fn above_highest(there: bool, reach: u8) -> i32
    ensures value { result ≡ (if there then pos (reach + 1) else pos 1) }
    ensures above { pos 1 ≤ℤ result }
{
    if there { reach as i32 + 1 } else { 1 }
}
