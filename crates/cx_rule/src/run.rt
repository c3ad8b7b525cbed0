//! Runs of a zone's points along x, whose windows are taken one beside another too.
ghost use Rattle.std.specs.Prelude.{◌≡◌, ◌<◌, ◌<ℤ◌, ◌≤ℤ◌, ◌+ℤ◌, ◌-ℤ◌, ℕ, pos, true};
ghost use Rattle.std.specs.Int.{int_min, int_max};
ghost use Rattle.cx_grid.specs.Boxes.{IsIn};
ghost use Rattle.cx_grid.specs.Grid.{IsShape, source_along};
ghost use Rattle.cx_rule.specs.Patches.{beside};
ghost use Rattle.cx_rule.specs.Rows.{IsRun, IsRunEnd, hole_follows, Follows};
ghost use Rattle.cx_rule.specs.Zones.{in_zone};

use crate::sweep::{lesser, steps_to, window_point};
use crate::zone::Zone;
use cx_grid::{Box3, Point, Shape, contains};
use cx_plan::Region;

/// So many points along x from `low` on. The windows of their reads are taken at as many points from `from` on.
#[derive(Clone, Copy)]
pub(crate) struct Run {
    pub(crate) from: Point,
    pub(crate) low: Point,
    pub(crate) count: u32,
}

/// A run of a zone's points that begins at one of them.
pub(crate) fn run_from(shape: &Shape, region: Region, zone: &Zone, low: Point) -> Run
    requires shape { IsShape shape.now }
    requires all { IsIn zone.now.all low }
    requires zone { in_zone zone.now low ≡ true }
    ensures low { result.low ≡ low }
    ensures run { IsRun shape.now region zone.now result }
{
    let end = run_end(shape, region, zone, low);
    Run {
        from: window_point(shape, region, low),
        low,
        count: steps_to(low.x, end) as u32,
    }
}

/// Where a run of a zone's points ends.
fn run_end(shape: &Shape, region: Region, zone: &Zone, low: Point) -> i32
    requires shape { IsShape shape.now }
    requires all { IsIn zone.now.all low }
    requires zone { in_zone zone.now low ≡ true }
    ensures { IsRunEnd shape.now region zone.now low result }
{
    let end = zone_end(zone, low);
    match region {
        Region::Boundary => clamp_end(shape, low, end),
        Region::Interior | Region::Everywhere => end,
    }
}

/// Where the points of a zone end that follow one along x: at its hole, or at the end of its box.
fn zone_end(zone: &Zone, low: Point) -> i32
    requires all { IsIn zone.now.all low }
    requires zone { in_zone zone.now low ≡ true }
    ensures some { low.x <ℤ result }
    ensures zone { (i : ℕ) → (low.x +ℤ pos i) <ℤ result
        → in_zone zone.now (beside low i) ≡ true }
{
    if hole_follows(zone, low) {
        lesser(zone.hole.low.x, zone.all.high.x)
    } else {
        zone.all.high.x
    }
}

/// Whether a zone's hole begins behind a point in its row.
fn hole_follows(zone: &Zone, low: Point) -> bool
    ensures { result ≡ hole_follows zone.now low }
{
    let first = Point {
        x: zone.hole.low.x,
        y: low.y,
        z: low.z,
    };
    let holds = contains(&zone.hole, first);
    low.x < zone.hole.low.x && holds
}

/// Where the points that follow one along x end, of those before an end, that are moved along x by the same into the interior.
fn clamp_end(shape: &Shape, low: Point, end: i32) -> i32
    requires shape { IsShape shape.now }
    requires some { low.x <ℤ end }
    ensures some { low.x <ℤ result }
    ensures most { result ≤ℤ end }
    ensures along { (i : ℕ) → (low.x +ℤ pos i) <ℤ result
        → source_along shape.now 0 (low.x +ℤ pos i)
        ≡ (source_along shape.now 0 low.x +ℤ pos i) }
{
    if shape.periodic[0] {
        end
    } else {
        inner_end(shape.n.x, shape.ghost_.x, low.x, end)
    }
}

/// Where such points end along a direction of `n` points that isn't periodic.
fn inner_end(n: i32, ghosts: i32, c: i32, end: i32) -> i32
    requires n { (pos 1 ≤ℤ n) × (n ≤ℤ pos 16777216) }
    requires ghosts { (pos 0 ≤ℤ ghosts) × (ghosts ≤ℤ pos 8) }
    requires some { c <ℤ end }
    ensures some { c <ℤ result }
    ensures most { result ≤ℤ end }
    ensures along { (i : ℕ) → (c +ℤ pos i) <ℤ result
        → int_max ghosts (int_min (c +ℤ pos i) (n -ℤ ghosts -ℤ pos 1))
        ≡ (int_max ghosts (int_min c (n -ℤ ghosts -ℤ pos 1)) +ℤ pos i) }
{
    let behind = n - ghosts;
    if c < ghosts {
        return c + 1;
    }
    if behind <= c {
        return c + 1;
    }
    lesser(behind, end)
}

/// The point of a box that follows so many ones, from one on, which lie in one row; x is fastest.
pub(crate) fn after(b: &Box3, p: Point, count: usize) -> Point
    requires inside { IsIn b.now p }
    requires some { 0 < count }
    requires row { (p.x +ℤ pos count) ≤ℤ b.now.high.x }
    ensures { Follows b.now p count result }
{
    let x = moved(p.x, count, b.high.x);
    if x < b.high.x {
        return Point { x, y: p.y, z: p.z };
    }
    let y = next_up(p.y, b.high.y);
    if y < b.high.y {
        return Point {
            x: b.low.x,
            y,
            z: p.z,
        };
    }
    Point {
        x: b.low.x,
        y: b.low.y,
        z: next_up(p.z, b.high.z),
    }
}

/// A coordinate so many places on, up to an end.
fn moved(c: i32, by: usize, end: i32) -> i32
    requires { (c +ℤ pos by) ≤ℤ end }
    ensures { result ≡ c +ℤ pos by }
{
    (c as i64 + by as i64) as i32
}

/// The coordinate after one that is below an end.
fn next_up(c: i32, end: i32) -> i32
    requires { c <ℤ end }
    ensures { result ≡ c +ℤ pos 1 }
{
    let _ = end;
    c + 1
}
