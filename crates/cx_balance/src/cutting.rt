//! The cut of a job's grid by what its points weigh.
ghost use Rattle.std.specs.Prelude.{◌≡◌, ◌<◌, [], ◌∷◌, None, IfOk};
ghost use Rattle.cx_plan.specs.Whole.{IsWhole};
ghost use Rattle.cx_cut.specs.Cuts.{parts_along, widths};
ghost use Rattle.cx_cut.specs.Faults.{parts_of, cut_fault};
ghost use Rattle.cx_balance.specs.Choosing.{chosen};
ghost use Rattle.cx_balance.specs.Cutting.{chosen_cut, least_width, HasAsManyParts};
ghost use Rattle.cx_balance.specs.Weighing.{planes, HasWeight};

use crate::choosing::choose;
use crate::weighing::{along, planes};
use cx_chk::Checkpoint;
use cx_plan::{Cuts, Job};
use cx_text::{List, Memory};
use std::alloc::Global;

/// The cut that the weights of a checkpoint's points choose: in each direction as many parts as the
/// job's own cut has, each at least as wide as the ghost zone, and at least one point wide.
///
/// A direction that the grid doesn't have keeps its one part of width 1. The grid can be cut so
/// wherever it can be cut as the job says. How many local points a routine takes in one part isn't
/// looked at: where a part would have more of them, the caller is to take the job's own cut.
///
/// # Errors
///
/// `Memory` when out of memory.
pub fn cut_by_weight(alloc: Global, job: &Job, state: &Checkpoint) -> Result<Cuts, Memory>
    requires whole { IsWhole job.now }
    requires cut { cut_fault (parts_of job.now.shape job.now.cut) ≡ None }
    requires state { HasWeight job.now state.now }
    ensures value { IfOk result (λ cuts.
        cuts ≡ chosen_cut job.now.shape job.now.cut (planes job.now state.now)) }
    ensures accepted { IfOk result (λ cuts. cut_fault (parts_of job.now.shape cuts) ≡ None) }
    ensures parts { IfOk result (λ cuts. HasAsManyParts job.now.cut cuts) }
{
    Ok(Cuts {
        x: widths(alloc, job, state, 0)?,
        y: widths(alloc, job, state, 1)?,
        z: widths(alloc, job, state, 2)?,
    })
}

/// The widths of the parts of a direction.
///
/// Where the job's own cut has one part, that has all points of the direction: nothing is weighed.
fn widths(alloc: Global, job: &Job, state: &Checkpoint, dir: u8) -> Result<List<u32>, Memory>
    requires whole { IsWhole job.now }
    requires cut { cut_fault (parts_of job.now.shape job.now.cut) ≡ None }
    requires state { HasWeight job.now state.now }
    requires direction { dir < 3 }
    ensures { IfOk result (λ widths. widths ≡ chosen (planes job.now state.now dir)
        (parts_along (parts_of job.now.shape job.now.cut) dir)
        (least_width (parts_of job.now.shape job.now.cut) dir)) }
{
    let parts = own_widths(job, dir).len();
    if parts == 1 {
        return one_part(alloc, along(job.shape.n, dir));
    }
    let weights = planes(alloc, job, state, dir)?;
    choose(
        alloc,
        &weights,
        parts as u32,
        along(job.shape.ghost_, dir).max(1),
    )
}

/// The one width of a direction of so many points that is left whole.
fn one_part(alloc: Global, points: u32) -> Result<List<u32>, Memory>
    ensures { IfOk result (λ widths. widths ≡ points ∷ []) }
{
    let mut widths = List::empty(alloc);
    widths.push(points)?;
    Ok(widths)
}

/// The widths of the parts of a direction in the job's own cut.
fn own_widths(job: &Job, dir: u8) -> &[u32]
    ensures { result.now ≡ widths (parts_of job.now.shape job.now.cut) dir }
{
    match dir {
        0 => job.cut.x.as_slice(),
        1 => job.cut.y.as_slice(),
        _ => job.cut.z.as_slice(),
    }
}
