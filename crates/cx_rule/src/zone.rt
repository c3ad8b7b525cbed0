//! The points that an item computes in a part.
ghost use Rattle.std.specs.Prelude.{◌≡◌, ◌-ℤ◌, ◌≤ℤ◌, pos, true, false, if◌then◌else◌};
ghost use Rattle.std.specs.Int.{int_min, int_max};
ghost use Rattle.cx_grid.specs.Boxes.{has_point};
ghost use Rattle.cx_grid.specs.Grid.{IsShape};
ghost use Rattle.cx_rule.specs.Zones.{in_zone, inner, nothing, zone_of};

use cx_grid::{Box3, Point, Shape, contains};
use cx_plan::Region;

/// The points of the one box outside the other.
#[derive(Clone, Copy, Debug, PartialEq, Eq)]
pub struct Zone {
    pub all: Box3,
    pub hole: Box3,
}

/// Whether a zone holds a point.
pub(crate) fn in_zone(zone: &Zone, p: Point) -> bool
    ensures { result ≡ in_zone zone.now p }
{
    let all = contains(&zone.all, p);
    let hole = contains(&zone.hole, p);
    all && !hole
}

/// Whether there are points in a zone's hole.
pub(crate) fn has_hole(zone: &Zone) -> bool
    ensures { result ≡ has_point zone.now.hole zone.now.hole.low }
{
    contains(&zone.hole, zone.hole.low)
}

/// Whether a zone's hole is all of its box. It then holds no point.
pub(crate) fn is_empty(zone: &Zone) -> bool
    ensures { result ≡ true → (p : Point) → in_zone zone.now p ≡ false }
{
    zone.all == zone.hole
}

/// The points of a part that an item which writes this region computes.
pub(crate) fn zone_of(shape: &Shape, owned: &Box3, local: &Box3, region: Region) -> Zone
    requires { IsShape shape.now }
    ensures { result ≡ zone_of shape.now owned.now local.now region }
{
    match region {
        Region::Interior => Zone {
            all: inner(shape, owned),
            hole: nothing(owned),
        },
        Region::Boundary => Zone {
            all: *local,
            hole: inner(shape, local),
        },
        Region::Everywhere => Zone {
            all: *local,
            hole: nothing(local),
        },
    }
}

/// A box without points.
pub(crate) fn nothing(b: &Box3) -> Box3
    ensures { result ≡ nothing b.now }
{
    Box3 {
        low: b.low,
        high: b.low,
    }
}

/// The interior points of a box.
fn inner(shape: &Shape, b: &Box3) -> Box3
    requires { IsShape shape.now }
    ensures { result ≡ inner shape.now b.now }
{
    Box3 {
        low: Point {
            x: inner_low(shape.periodic[0], shape.ghost_.x, b.low.x),
            y: inner_low(shape.periodic[1], shape.ghost_.y, b.low.y),
            z: inner_low(shape.periodic[2], shape.ghost_.z, b.low.z),
        },
        high: Point {
            x: inner_high(shape.periodic[0], shape.n.x, shape.ghost_.x, b.high.x),
            y: inner_high(shape.periodic[1], shape.n.y, shape.ghost_.y, b.high.y),
            z: inner_high(shape.periodic[2], shape.n.z, shape.ghost_.z, b.high.z),
        },
    }
}

/// The lowest coordinate of a part that isn't in the lower boundary of a direction.
fn inner_low(periodic: bool, ghosts: i32, low: i32) -> i32
    ensures { result ≡ (if periodic then low else int_max low ghosts) }
{
    if periodic { low } else { low.max(ghosts) }
}

/// The end of a part's coordinates that aren't in the upper boundary of a direction.
fn inner_high(periodic: bool, n: i32, ghosts: i32, high: i32) -> i32
    requires n { pos 1 ≤ℤ n }
    requires ghosts { (pos 0 ≤ℤ ghosts) × (ghosts ≤ℤ pos 8) }
    ensures { result ≡ (if periodic then high else int_min high (n -ℤ ghosts)) }
{
    if periodic { high } else { high.min(n - ghosts) }
}
