//! The cut that a run goes on with after a checkpoint.
ghost use Rattle.std.specs.Prelude.{◌≡◌, ◌<◌, ◌*◌, nat_le, map, None, IfOk, OnOk};
ghost use Rattle.std.specs.Int.{int_gap};
ghost use Rattle.cx_cut.specs.Cuts.{IsWhole as IsWholeCut, local, part_count};
ghost use Rattle.cx_cut.specs.Faults.{cut_fault, parts_of};
ghost use Rattle.cx_grid.specs.Boxes.{point_count};
ghost use Rattle.cx_grid.specs.Grid.{IsShape};
ghost use Rattle.cx_plan.specs.Setups.{setup_of};
ghost use Rattle.cx_rule.specs.Jobs.{FitJob};
ghost use Rattle.cx_core_buffers.specs.Checkpoints.{HoldsState};
ghost use Rattle.cx_core.specs.Starts.{IsReady};
ghost use Rattle.cx_run_loop.specs.Recuts.{all_sweep, cut_or, has_small_parts, next_cut, with_cut};

use cx_balance::{checkpoints_weigh, cut_by_weight};
use cx_chk::Checkpoint;
use cx_cut::{Cut, cut};
use cx_grid::{Box3, Shape};
use cx_plan::{Cuts, Job};
use cx_rule::Routine;
use cx_text::{List, Memory};
use std::alloc::Global;

/// Cuts a job anew, if it is balanced: by the weights of a checkpoint's points, into as many parts in each direction as its own
/// cut has. Where a part would have more points than some routine sweeps, the job gets its own cut.
pub(crate) fn recut(
    alloc: Global,
    job: &mut Job,
    own: &Cuts,
    routines: &[Box<dyn Routine>],
    c: &Checkpoint,
) -> Result<(), Memory>
    requires ready { IsReady (with_cut job.old own.now) }
    requires routines { FitJob (map spec_of routines.now) (with_cut job.old own.now) }
    requires cut { cut_fault (parts_of job.old.shape own.now) ≡ None }
    requires state { HoldsState (setup_of job.old) c.now }
    ensures job { job.new ≡ with_cut job.old job.new.cut }
    ensures cut { OnOk result (job.new.cut
        ≡ next_cut (map spec_of routines.now) (with_cut job.old own.now) c.now) }
    ensures ready { OnOk result (IsReady job.new) }
    ensures routines { OnOk result (FitJob (map spec_of routines.now) job.new) }
    ensures parts { OnOk result (part_count (parts_of job.new.shape job.new.cut)
        ≡ part_count (parts_of job.old.shape own.now)) }
{
    job.cut = copy_cuts(alloc, own)?;
    if let Some(cut) = weighed(alloc, job, routines, c)? {
        job.cut = cut;
    }
    Ok(())
}

/// The cut that the weights of a checkpoint choose, where a job is balanced and each routine sweeps each of its parts.
fn weighed(
    alloc: Global,
    job: &Job,
    routines: &[Box<dyn Routine>],
    c: &Checkpoint,
) -> Result<Option<Cuts>, Memory>
    requires ready { IsReady job.now }
    requires routines { FitJob (map spec_of routines.now) job.now }
    requires cut { cut_fault (parts_of job.now.shape job.now.cut) ≡ None }
    requires state { HoldsState (setup_of job.now) c.now }
    ensures cut { IfOk result (λ cut. cut_or cut job.now.cut
        ≡ next_cut (map spec_of routines.now) job.now c.now) }
    ensures ready { IfOk result (λ cut. IsReady (with_cut job.now (cut_or cut job.now.cut))) }
    ensures routines { IfOk result (λ cut. FitJob (map spec_of routines.now)
        (with_cut job.now (cut_or cut job.now.cut))) }
    ensures parts { IfOk result (λ cut.
        part_count (parts_of job.now.shape (cut_or cut job.now.cut))
        ≡ part_count (parts_of job.now.shape job.now.cut)) }
{
    if !job.balance {
        return Ok(None);
    }
    checkpoints_weigh();
    let chosen = cut_by_weight(alloc, job, c)?;
    if all_sweep(alloc, routines, &job.shape, &chosen)? {
        Ok(Some(chosen))
    } else {
        Ok(None)
    }
}

/// Whether each routine sweeps each part of a grid that is cut so.
fn all_sweep(
    alloc: Global,
    routines: &[Box<dyn Routine>],
    shape: &Shape,
    widths: &Cuts,
) -> Result<bool, Memory>
    requires shape { IsShape shape.now }
    requires cut { cut_fault (parts_of shape.now widths.now) ≡ None }
    ensures { IfOk result (λ all. all
        ≡ all_sweep (map spec_of routines.now) (parts_of shape.now widths.now)) }
{
    match cut(alloc, shape, widths) {
        Ok(cut) => Ok(sweep_all(routines, &cut)),
        Err(_) => Err(Memory),
    }
}

/// Whether each routine sweeps each part of a cut.
fn sweep_all(routines: &[Box<dyn Routine>], cut: &Cut) -> bool
    requires { IsWholeCut cut.now }
    ensures { result ≡ all_sweep (map spec_of routines.now) cut.now }
{
    'each: for routine in routines {
        if !sweeps(routine, cut) {
            return false;
        }
    }
    true
}

/// Whether a routine sweeps each part of a cut.
fn sweeps(routine: &Box<dyn Routine>, cut: &Cut) -> bool
    requires { IsWholeCut cut.now }
    ensures { result ≡ has_small_parts cut.now (spec_of routine.now).cap }
{
    has_small_parts(cut, routine.cap())
}

/// Whether no part of a cut has more points than so many.
fn has_small_parts(cut: &Cut, most: u64) -> bool
    requires { IsWholeCut cut.now }
    ensures { result ≡ has_small_parts cut.now most }
{
    'parts: for part in 0..cut.count() {
        if !is_small(cut, part, most) {
            return false;
        }
    }
    true
}

/// Whether a part of a cut has no more points than so many.
fn is_small(cut: &Cut, part: u32, most: u64) -> bool
    requires { part < part_count cut.now }
    ensures { result ≡ nat_le (point_count (local cut.now part)) most }
{
    points_of(&cut.local(part)) <= most as u128
}

/// How many points a box has.
fn points_of(b: &Box3) -> u128
    ensures { result ≡ point_count b.now }
{
    product(
        gap(b.low.x, b.high.x),
        gap(b.low.y, b.high.y),
        gap(b.low.z, b.high.z),
    )
}

/// How far the second number is above the first.
fn gap(low: i32, high: i32) -> u32
    ensures { result ≡ int_gap low high }
{
    if high < low {
        0
    } else {
        (high as i64 - low as i64) as u32
    }
}

/// The product of three numbers.
fn product(x: u32, y: u32, z: u32) -> u128
    ensures { result ≡ x * y * z }
{
    x as u128 * y as u128 * z as u128
}

/// The same widths once more.
///
/// # Errors
///
/// There was no memory left.
pub fn copy_cuts(alloc: Global, cuts: &Cuts) -> Result<Cuts, Memory>
    ensures { IfOk result (λ copy. copy ≡ cuts.now) }
{
    Ok(Cuts {
        x: copy_widths(alloc, &cuts.x)?,
        y: copy_widths(alloc, &cuts.y)?,
        z: copy_widths(alloc, &cuts.z)?,
    })
}

/// The widths of a direction once more.
fn copy_widths(alloc: Global, widths: &List<u32>) -> Result<List<u32>, Memory>
    ensures { IfOk result (λ copy. copy ≡ widths.now) }
{
    Ok(List::new(widths.as_slice().to_vec(alloc)?))
}
