//! The values around a point.
ghost use Rattle.std.specs.Prelude.{◌≡◌, ◌≤◌, ◌<◌, ◌≤ℤ◌, ◌^◌, ◌+ℤ◌, ◌-ℤ◌, ◌*ℤ◌, pos, negsuc, length, slice_index_or};
ghost use Rattle.cx_rule.specs.Seen.{IsOffset};
ghost use Rattle.cx_thorn_pde.specs.Around.{lap, bend, bend_at, bend_if};
ghost use Rattle.cx_thorn_pde.specs.Rows.{bend_of};

use cx_grid::Point;
use cx_rule::Window;

/// The sum, over so many directions, of both neighbours minus twice the value, of the first read.
pub(crate) fn lap(w: &Window, dims: u8) -> i128
    requires directions { w.now.seen.dims ≡ dims }
    requires some { 1 ≤ dims }
    requires most { dims ≤ 3 }
    requires read { 0 < length w.now.seen.reaches }
    requires reach { slice_index_or w.now.seen.reaches 0 0 ≡ 1 }
    ensures value { result ≡ lap w.now.seen }
{
    let x = bend(w, Point { x: 1, y: 0, z: 0 }, Point { x: -1, y: 0, z: 0 });
    let y = bend_y(w, dims);
    let z = bend_z(w, dims);
    sum(x, y, z)
}

/// The sum of three numbers of 67 bits.
pub(crate) fn sum(x: i128, y: i128, z: i128) -> i128
    requires low { (negsuc (2 ^ 66) ≤ℤ x) × (negsuc (2 ^ 66) ≤ℤ y) × (negsuc (2 ^ 66) ≤ℤ z) }
    requires high { (x ≤ℤ pos (2 ^ 66)) × (y ≤ℤ pos (2 ^ 66)) × (z ≤ℤ pos (2 ^ 66)) }
    ensures { result ≡ x +ℤ y +ℤ z }
{
    x + y + z
}

/// What the second direction adds, if the grid has one.
fn bend_y(w: &Window, dims: u8) -> i128
    requires directions { w.now.seen.dims ≡ dims }
    requires read { 0 < length w.now.seen.reaches }
    requires reach { slice_index_or w.now.seen.reaches 0 0 ≡ 1 }
    ensures value { result ≡ bend_if w.now.seen 1 }
    ensures low { negsuc (2 ^ 66) ≤ℤ result }
    ensures high { result ≤ℤ pos (2 ^ 66) }
{
    if dims < 2 {
        return 0;
    }
    bend(w, Point { x: 0, y: 1, z: 0 }, Point { x: 0, y: -1, z: 0 })
}

/// What the third direction adds, if the grid has one.
fn bend_z(w: &Window, dims: u8) -> i128
    requires directions { w.now.seen.dims ≡ dims }
    requires most { dims ≤ 3 }
    requires read { 0 < length w.now.seen.reaches }
    requires reach { slice_index_or w.now.seen.reaches 0 0 ≡ 1 }
    ensures value { result ≡ bend_if w.now.seen 2 }
    ensures low { negsuc (2 ^ 66) ≤ℤ result }
    ensures high { result ≤ℤ pos (2 ^ 66) }
{
    if dims < 3 {
        return 0;
    }
    bend_up(w)
}

/// How the numbers bend at a point in the third direction: both neighbours less twice the number there.
fn bend_up(w: &Window) -> i128
    requires directions { w.now.seen.dims ≡ 3 }
    requires read { 0 < length w.now.seen.reaches }
    requires reach { slice_index_or w.now.seen.reaches 0 0 ≡ 1 }
    ensures value { result ≡ bend w.now.seen 2 }
    ensures low { negsuc (2 ^ 66) ≤ℤ result }
    ensures high { result ≤ℤ pos (2 ^ 66) }
{
    bend(w, Point { x: 0, y: 0, z: 1 }, Point { x: 0, y: 0, z: -1 })
}

/// The values at two offsets, minus twice the one at the point.
fn bend(w: &Window, up: Point, down: Point) -> i128
    requires read { 0 < length w.now.seen.reaches }
    requires up { IsOffset w.now.seen 0 up }
    requires down { IsOffset w.now.seen 0 down }
    ensures value { result ≡ bend_at w.now.seen up down }
    ensures low { negsuc (2 ^ 66) ≤ℤ result }
    ensures high { result ≤ℤ pos (2 ^ 66) }
{
    bend_of(w.value(0, up), w.value(0, down), w.here(0))
}

/// Two numbers, minus twice the one between them.
pub(crate) fn bend_of(up: i64, down: i64, here: i64) -> i128
    ensures value { result ≡ bend_of up down here }
    ensures low { negsuc (2 ^ 66) ≤ℤ result }
    ensures high { result ≤ℤ pos (2 ^ 66) }
{
    minus_twice(both(up, down), here)
}

/// The sum of two neighbours.
fn both(up: i64, down: i64) -> i128
    ensures value { result ≡ up +ℤ down }
    ensures low { negsuc (2 ^ 65) ≤ℤ result }
    ensures high { result ≤ℤ pos (2 ^ 65) }
{
    up as i128 + down as i128
}

/// A sum less twice the number at the point.
fn minus_twice(sum: i128, here: i64) -> i128
    requires low { negsuc (2 ^ 65) ≤ℤ sum }
    requires high { sum ≤ℤ pos (2 ^ 65) }
    ensures value { result ≡ sum -ℤ pos 2 *ℤ here }
    ensures low { negsuc (2 ^ 66) ≤ℤ result }
    ensures high { result ≤ℤ pos (2 ^ 66) }
{
    sum - 2 * here as i128
}
