//! The sweep of a rule over the points of a part that an item computes.
ghost use Rattle.std.specs.Prelude.{◌≡◌, ◌<◌, ◌^◌, ◌<ℤ◌, ◌+ℤ◌, ℕ, pos, true};
ghost use Rattle.std.specs.Int.{int_min};
ghost use Rattle.cx_grid.specs.Boxes.{IsIn, IsSmall, point_count};
ghost use Rattle.cx_grid.specs.Grid.{IsShape};
ghost use Rattle.cx_plan.specs.Regions.{region_of};
ghost use Rattle.cx_plan.specs.declared.item.ItemKind.{ItemKind};
ghost use Rattle.cx_rule.specs.Patches.{IsPatch, beside};
ghost use Rattle.cx_rule.specs.Sweeps.{window_point};
ghost use Rattle.cx_rule.specs.Swept.{swept_zone, CanSweep, Sweeps, StagesZone};
ghost use Rattle.cx_rule.specs.Zones.{first_of, nothing, in_zone, IsOutside};

use crate::patch::Patch;
use crate::zone::{Zone, nothing};
use crate::{Meter, Overflow, PointRule};
use cx_grid::{Box3, Point, Shape, clamp, contains, count, point_at};
use cx_plan::{Item, ItemKind, Region};

impl Patch {
    /// The points that an item computes: a Cell item those of the region that it writes, as `sweep_points` has them, a Scalar item the
    /// first owned point, and a reduction none.
    pub fn item_points(&self, item: &Item) -> Zone
        ensures { result ≡ swept_zone self.now item.now }
    {
        match item.kind {
            ItemKind::Cell => self.sweep_points(region_of(item)),
            ItemKind::Scalar => first_owned(self),
            ItemKind::Sum | ItemKind::Least | ItemKind::Greatest | ItemKind::Count => {
                no_points(self)
            }
        }
    }
}

/// The first point that a part owns.
fn first_owned(patch: &Patch) -> Zone
    ensures all { result.all ≡ first_of patch.now.owned }
    ensures hole { result.hole ≡ nothing patch.now.owned }
{
    let low = patch.owned().low;
    let high = Point {
        x: low.x + 1,
        y: low.y + 1,
        z: low.z + 1,
    };
    Zone {
        all: Box3 { low, high },
        hole: Box3 { low, high: low },
    }
}

/// No point of a part.
fn no_points(patch: &Patch) -> Zone
    ensures all { result.all ≡ nothing patch.now.owned }
    ensures hole { result.hole ≡ nothing patch.now.owned }
{
    let none = nothing(patch.owned());
    Zone {
        all: none,
        hole: none,
    }
}

/// Computes an item of a rule at each point of its zone: all from the numbers before, which are set when all are computed.
///
/// # Errors
///
/// `Overflow` exactly where the rule gives no numbers at one of these points, or a number leaves its variable's type. No number
/// of the part has changed then, though some may be staged.
pub(crate) fn sweep_rule<R: PointRule>(
    rule: &R,
    item: &Item,
    patch: &mut Patch,
    zone: &Zone,
    iteration: u64,
    meter: &mut Meter,
) -> Result<(), Overflow>
    requires can { CanSweep R.said item.now patch.old }
    requires zone { zone.now ≡ swept_zone patch.old item.now }
    ensures { Sweeps patch.old R.law item.now iteration patch.new meter.old meter.new result }
{
    let _ = patch.local();
    match item.kind {
        ItemKind::Scalar => sweep_scalar(rule, item, patch, zone, iteration, meter),
        _ => sweep_zone(rule, item, patch, zone, iteration, meter),
    }
}

/// Computes a Cell item at each point of its zone.
fn sweep_zone<R: PointRule>(
    rule: &R,
    item: &Item,
    patch: &mut Patch,
    zone: &Zone,
    iteration: u64,
    meter: &mut Meter,
) -> Result<(), Overflow>
    requires can { CanSweep R.said item.now patch.old }
    requires kind { item.now.kind ≡ ItemKind.Cell }
    requires zone { zone.now ≡ swept_zone patch.old item.now }
    requires patch { IsPatch patch.old }
    ensures { Sweeps patch.old R.law item.now iteration patch.new meter.old meter.new result }
{
    stage_zone(rule, item, patch, zone, iteration, meter)?;
    patch.commit(item, zone)
}

/// Stages the numbers of a Cell item's rule at each point of its zone.
fn stage_zone<R: PointRule>(
    rule: &R,
    item: &Item,
    patch: &mut Patch,
    zone: &Zone,
    iteration: u64,
    meter: &mut Meter,
) -> Result<(), Overflow>
    requires can { CanSweep R.said item.now patch.old }
    requires kind { item.now.kind ≡ ItemKind.Cell }
    requires zone { zone.now ≡ swept_zone patch.old item.now }
    requires patch { IsPatch patch.old }
    ensures { StagesZone patch.old R.law item.now iteration patch.new meter.old meter.new result }
{
    let count = count_of(&zone.all);
    let mut at = 0;
    'points: while at < count {
        let p = point_at(&zone.all, at);
        let skipped = hole_from(zone, p);
        if skipped > 0 {
            at += skipped;
            continue;
        }
        let from = window_point(patch.shape(), region_of(item), p);
        meter.add(1);
        patch.stage_rule(rule, item, from, p, iteration)?;
        at += 1;
    }
    Ok(())
}

/// How many points a box has: none where it ends before it begins.
pub(crate) fn count_of(b: &Box3) -> usize
    requires { IsSmall b.now }
    ensures { result ≡ point_count b.now }
{
    if b.low.x < b.high.x && b.low.y < b.high.y && b.low.z < b.high.z {
        count(b)
    } else {
        0
    }
}

/// How many points of a zone's box lie in its hole, one after another along x from this one on.
pub(crate) fn hole_from(zone: &Zone, p: Point) -> usize
    requires { IsIn zone.now.all p }
    ensures none { result ≡ 0 → in_zone zone.now p ≡ true }
    ensures outside { (k : ℕ) → k < result → IsOutside zone.now (beside p k) }
    ensures few { result < 2 ^ 32 }
{
    if !contains(&zone.hole, p) {
        return 0;
    }
    let end = lesser(zone.hole.high.x, zone.all.high.x);
    steps_to(p.x, end)
}

/// The lesser of two coordinates.
pub(crate) fn lesser(a: i32, b: i32) -> i32
    ensures { result ≡ int_min a b }
{
    a.min(b)
}

/// How many steps lead from one coordinate to a greater one.
pub(crate) fn steps_to(from: i32, to: i32) -> usize
    requires { from <ℤ to }
    ensures value { (from +ℤ pos result) ≡ to }
    ensures few { result < 2 ^ 32 }
{
    (to as i64 - from as i64) as usize
}

/// Computes a Scalar item.
fn sweep_scalar<R: PointRule>(
    rule: &R,
    item: &Item,
    patch: &mut Patch,
    zone: &Zone,
    iteration: u64,
    meter: &mut Meter,
) -> Result<(), Overflow>
    requires can { CanSweep R.said item.now patch.old }
    requires kind { item.now.kind ≡ ItemKind.Scalar }
    requires zone { zone.now ≡ swept_zone patch.old item.now }
    requires patch { IsPatch patch.old }
    ensures { Sweeps patch.old R.law item.now iteration patch.new meter.old meter.new result }
{
    let p = zone.all.low;
    meter.add(1);
    patch.stage_rule(rule, item, p, p, iteration)?;
    patch.commit(item, zone)
}

/// Where the window of a point of a region is taken.
pub(crate) fn window_point(shape: &Shape, region: Region, p: Point) -> Point
    requires { IsShape shape.now }
    ensures { result ≡ window_point shape.now region p }
{
    match region {
        Region::Boundary => clamp(shape, p),
        Region::Interior | Region::Everywhere => p,
    }
}

/// The region that an item writes: that of its first write.
pub(crate) fn region_of(item: &Item) -> Region
    ensures { result ≡ region_of item.now.writes }
{
    match item.writes.as_slice().first() {
        Some(write) => write.region,
        None => Region::Everywhere,
    }
}
