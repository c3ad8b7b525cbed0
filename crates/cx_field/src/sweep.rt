//! The sweep of an item over the points of a part that it computes.
ghost use Rattle.cx_rule.specs.Swept.{CanSweep, Sweeps, IsBoundaryWriter};

use cx_plan::Item;
use cx_rule::{Meter, Overflow, Patch, Routine};

/// Computes an item that writes interior points, all points, or scalars. A writer of the interior computes the part's own
/// interior points, a writer of everywhere each local point. All of them are computed from the numbers before, each with the
/// window at the point itself, and are counted. A Scalar item is one application of its rule, at the place of the point
/// (0, 0, 0), and counts one point.
///
/// It asks for an item in a shape of the table of regions, no larger than the items that the patch was made for, that names
/// stored levels alone, and for the routine of this item, whose `cap` is at least the points of the part, its ghosts among them.
///
/// # Errors
///
/// `Overflow` exactly where the rule gives no numbers at one of these points, or a number leaves its variable's type. No number
/// of the part has changed then, though some may be staged, and the meter rose by at most the number of the points.
pub fn sweep_item(
    routine: &Box<dyn Routine>,
    item: &Item,
    patch: &mut Patch,
    iteration: u64,
    meter: &mut Meter,
) -> Result<(), Overflow>
    requires can { CanSweep (spec_of routine.now) item.now patch.old }
    requires region { IsBoundaryWriter item.now → ⊥ }
    ensures { Sweeps patch.old (rule routine.now) item.now iteration patch.new
        meter.old meter.new result }
{
    sweep_part(routine, item, patch, iteration, meter)
}

/// Computes an item that writes boundary points, at each local one, with the window at the nearest interior point. All else is
/// as for `sweep_item`.
///
/// # Errors
///
/// `Overflow` as for `sweep_item`.
pub fn apply_boundary(
    routine: &Box<dyn Routine>,
    item: &Item,
    patch: &mut Patch,
    iteration: u64,
    meter: &mut Meter,
) -> Result<(), Overflow>
    requires can { CanSweep (spec_of routine.now) item.now patch.old }
    requires region { IsBoundaryWriter item.now }
    ensures { Sweeps patch.old (rule routine.now) item.now iteration patch.new
        meter.old meter.new result }
{
    sweep_part(routine, item, patch, iteration, meter)
}

/// Computes an item at its points of a part, as its routine does.
fn sweep_part(
    routine: &Box<dyn Routine>,
    item: &Item,
    patch: &mut Patch,
    iteration: u64,
    meter: &mut Meter,
) -> Result<(), Overflow>
    requires { CanSweep (spec_of routine.now) item.now patch.old }
    ensures { Sweeps patch.old (rule routine.now) item.now iteration patch.new
        meter.old meter.new result }
{
    let zone = patch.item_points(item);
    routine.sweep(item, patch, &zone, iteration, meter)
}
