//! The turn of an item at a part.
ghost use Rattle.std.specs.Prelude.{◌≡◌, ◌<◌, ◌↔◌, ℕ, IsTrue, map, length};
ghost use Rattle.cx_plan.specs.Lookups.{item as item_of};
ghost use Rattle.cx_plan.specs.Regions.{region_of};
ghost use Rattle.cx_plan.specs.declared.item.Region.TheVariants as regions;
ghost use Rattle.cx_plan.specs.Setups.{setup_of};
ghost use Rattle.cx_plan.specs.Steering.{item_at};
ghost use Rattle.cx_cut.specs.Faults.{parts_of};
ghost use Rattle.cx_rule.specs.Jobs.{FitJob};
ghost use Rattle.cx_rule.specs.Routine.{rule_at};
ghost use Rattle.cx_field.specs.Patches.{IsPart};
ghost use Rattle.cx_field.specs.Sweeps.{Sweeps, IsBoundaryWriter, RoseWithin};
ghost use Rattle.cx_flat.specs.declared.op.Op.TheVariants as ops;
ghost use Rattle.law_parts.specs.Nets.{points_of};
ghost use Rattle.law_parts.specs.Runs.{Run, cut_of};
ghost use Rattle.cx_core_part.specs.Copies.{copies_at};
ghost use Rattle.cx_core_part.specs.Jobs.{IsChecked, IsOperation, IsRunOf};
ghost use Rattle.cx_core_part.specs.Frames.{IsPatchFor, IsPatchOf, IsInCut, KeepsFrame};
ghost use Rattle.cx_core_part.specs.Items.{CanTurn, Computes};

use crate::copies::Items;
use cx_field::{Patch, apply_boundary, sweep_item};
use cx_plan::{Item, ItemKind, Job, Region};
use cx_rule::{Meter, Overflow, Routine, object};

/// The operation `Sweep`: the turn of a Cell item at the points that a part computes, of the interior those that it owns, else all
/// that it holds. The part's items are those of its iteration. The patch is that of a part of the job's cut, since no such part has
/// more points than the routine's cap.
///
/// # Errors
///
/// `Overflow` exactly where the rule gives no numbers at one of these points, or a number leaves its variable's type. No number of
/// the part has changed then, and the meter rose by at most the number of the points.
pub fn sweep(
    job: &Job,
    items: &Items,
    routines: &[Box<dyn Routine>],
    item: u32,
    patch: &mut Patch,
    iteration: u64,
    meter: &mut Meter,
) -> Result<(), Overflow>
    requires job { IsChecked job.now }
    requires routines { FitJob (map spec_of routines.now) job.now }
    requires items { items.now ≡ copies_at (setup_of job.now) iteration }
    requires operation { IsOperation (setup_of job.now) (ops.Sweep item) }
    requires patch { IsPatchFor (setup_of job.now) patch.old }
    requires cut { IsInCut (parts_of job.now.shape job.now.cut) patch.old }
    ensures frame { KeepsFrame patch.old patch.new }
    ensures numbers { (r : Run) (k : ℕ) → IsRunOf job.now r
        → r.rules ≡ map rule routines.now
        → IsPatchOf r.setup (cut_of r) k patch.old
        → Computes r k (ops.Sweep item) iteration patch.old.numbers patch.new.numbers
        meter.old meter.new result }
    ensures rises { (r : Run) (k : ℕ) → IsRunOf job.now r
        → IsPatchOf r.setup (cut_of r) k patch.old
        → RoseWithin (points_of r k (ops.Sweep item)) meter.old meter.new }
{
    has_boxes(patch);
    turn(job, items, routines, item, patch, iteration, meter)
}

/// The operation `Apply`: the turn of a Scalar item, which counts one point. The patch is that of a part of the job's cut.
///
/// # Errors
///
/// `Overflow` as for `sweep`.
pub fn apply(
    job: &Job,
    items: &Items,
    routines: &[Box<dyn Routine>],
    item: u32,
    patch: &mut Patch,
    iteration: u64,
    meter: &mut Meter,
) -> Result<(), Overflow>
    requires job { IsChecked job.now }
    requires routines { FitJob (map spec_of routines.now) job.now }
    requires items { items.now ≡ copies_at (setup_of job.now) iteration }
    requires operation { IsOperation (setup_of job.now) (ops.Apply item) }
    requires patch { IsPatchFor (setup_of job.now) patch.old }
    requires cut { IsInCut (parts_of job.now.shape job.now.cut) patch.old }
    ensures frame { KeepsFrame patch.old patch.new }
    ensures numbers { (r : Run) (k : ℕ) → IsRunOf job.now r
        → r.rules ≡ map rule routines.now
        → IsPatchOf r.setup (cut_of r) k patch.old
        → Computes r k (ops.Apply item) iteration patch.old.numbers patch.new.numbers
        meter.old meter.new result }
    ensures rises { (r : Run) (k : ℕ) → IsRunOf job.now r
        → IsPatchOf r.setup (cut_of r) k patch.old
        → RoseWithin (points_of r k (ops.Apply item)) meter.old meter.new }
{
    turn(job, items, routines, item, patch, iteration, meter)
}

/// The turn of an item with its routine.
fn turn(
    job: &Job,
    items: &Items,
    routines: &[Box<dyn Routine>],
    item: u32,
    patch: &mut Patch,
    iteration: u64,
    meter: &mut Meter,
) -> Result<(), Overflow>
    requires item { item < length job.now.items }
    requires items { items.now ≡ copies_at (setup_of job.now) iteration }
    requires can { CanTurn (map spec_of routines.now)
        (item_at (setup_of job.now) item iteration) patch.old }
    ensures { Sweeps patch.old
        (rule_at (map rule routines.now) (item_of (setup_of job.now) item).routine)
        (item_at (setup_of job.now) item iteration) iteration
        patch.new meter.old meter.new result }
{
    let item = items.item(job, item);
    let routine = object(routines, item.routine as usize);
    if is_boundary_writer(item) {
        apply_boundary(routine, item, patch, iteration, meter)
    } else {
        sweep_item(routine, item, patch, iteration, meter)
    }
}

/// The boxes of a patch are those of a part of its grid. It does nothing that shows; its clause is the law.
fn has_boxes(patch: &Patch)
    ensures { IsPart patch.now.shape patch.now.owned patch.now.local }
{
    patch.shape();
}

/// The item of this number.
pub(crate) fn item_at(job: &Job, number: u32) -> &Item
    requires { number < length job.now.items }
    ensures { result.now ≡ item_of (setup_of job.now) number }
{
    &job.items.as_slice()[number as usize]
}

/// Whether an item writes boundary points.
fn is_boundary_writer(item: &Item) -> bool
    ensures { IsTrue result ↔ IsBoundaryWriter item.now }
{
    match item.kind {
        ItemKind::Cell => writes_boundary(item),
        _ => false,
    }
}

/// Whether the region of an item's first write is the boundary.
fn writes_boundary(item: &Item) -> bool
    ensures { IsTrue result ↔ (region_of item.now.writes ≡ regions.Boundary) }
{
    match item.writes.as_slice().first() {
        Some(write) => write.region == Region::Boundary,
        None => false,
    }
}
