//! Reductions at a part: the number that it gives, and the number of all parts.
ghost use Rattle.std.specs.Prelude.{◌≡◌, ◌<◌, ℕ, length};
ghost use Rattle.cx_grid.specs.Boxes.{point_count};
ghost use Rattle.cx_plan.specs.Lookups.{item as item_of, variable};
ghost use Rattle.cx_plan.specs.Setups.{setup_of};
ghost use Rattle.cx_flat.specs.declared.op.Op.TheVariants as ops;
ghost use Rattle.law_parts.specs.Moves.{number_by, held_values};
ghost use Rattle.law_parts.specs.Runs.{Run, cut_of};
ghost use Rattle.cx_core_part.specs.Jobs.{IsChecked, IsOperation, IsRunOf};
ghost use Rattle.cx_core_part.specs.Frames.{IsPatchFor, IsPatchOf, KeepsFrame};
ghost use Rattle.cx_core_part.specs.Reductions.{Joins};

use crate::items::item_at;
use cx_field::Patch;
use cx_plan::{Job, VarId, VarInfo};
use cx_reduce::{Partial, finish, partial};
use cx_rule::Overflow;

/// The operation `Give`: a part's number for a reduction, over the points that it owns.
pub fn give(job: &Job, item: u32, patch: &Patch) -> Partial
    requires job { IsChecked job.now }
    requires operation { IsOperation (setup_of job.now) (ops.Give item) }
    requires patch { IsPatchFor (setup_of job.now) patch.now }
    ensures kind { result.kind ≡ (item_of (setup_of job.now) item).kind }
    ensures points { result.points ≡ point_count patch.now.owned }
    ensures number { (r : Run) (k : ℕ) → IsRunOf job.now r
        → IsPatchOf r.setup (cut_of r) k patch.now
        → result.number ≡ number_by r k (held_values r k patch.now.numbers) item }
{
    let item = item_at(job, item);
    let read = &item.reads.as_slice()[0];
    partial(item.kind, patch, read.var, read.level)
}

/// The operation `Join`: the number of all parts goes to the item's scalar.
///
/// # Errors
///
/// `Overflow` exactly where the number leaves the scalar's type. Nothing has changed then.
pub fn join(job: &Job, item: u32, patch: &mut Patch, number: Partial) -> Result<(), Overflow>
    requires job { IsChecked job.now }
    requires operation { IsOperation (setup_of job.now) (ops.Join item) }
    requires patch { IsPatchFor (setup_of job.now) patch.old }
    ensures frame { KeepsFrame patch.old patch.new }
    ensures numbers { Joins (setup_of job.now) (item_of (setup_of job.now) item) number.number
        patch.old.numbers patch.new.numbers result }
{
    let scalar = item_at(job, item).writes.as_slice()[0].var;
    let info = info_of(job, scalar);
    let number = finish(number, info.low(), info.high())?;
    patch.set_scalar(scalar, number);
    Ok(())
}

/// What is known of a variable.
fn info_of(job: &Job, v: VarId) -> &VarInfo
    requires { v.0 < length job.now.vars }
    ensures { result.now ≡ variable (setup_of job.now) v }
{
    &job.vars.as_slice()[v.0 as usize]
}
