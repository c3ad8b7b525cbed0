//! A part filled from a checkpoint.
ghost use Rattle.std.specs.Prelude.{◌≡◌, ◌<◌, ◌≤◌, ◌+◌, ◌+ℤ◌, ◌≤ℤ◌, ℕ, ℤ, pos, List as ListOf, [], length, slice_index_or, All};
ghost use Rattle.cx_grid.specs.Boxes.{IsIn, point_count};
ghost use Rattle.cx_grid.specs.Grid.{IsShape, whole, wrap};
ghost use Rattle.cx_plan.specs.Setups.{setup_of};
ghost use Rattle.cx_plan.specs.Whole.{IsWhole};
ghost use Rattle.cx_rule.specs.States.{with_level};
ghost use Rattle.cx_field.specs.Patches.{IsGridLevel, IsScalar, with_numbers};
ghost use Rattle.cx_core_buffers.specs.Checkpoints.{HoldsState};
ghost use Rattle.cx_core_buffers.specs.Gathering.{IsPatchOf, scattered};
ghost use Rattle.cx_core_buffers.specs.Filling.{scalar_filled, levels_filled, local_level, numbers_from};

use crate::sizes::{level_count, scalar_count};
use cx_chk::Checkpoint;
use cx_field::Patch;
use cx_grid::{Box3, Point, Shape, count, index_of, point_at, whole, wrap};
use cx_plan::{Job, VarId};
use cx_text::List;

/// Fills a part from the whole state that a checkpoint holds: each local point, a ghost too, has the number of the point of the grid
/// that it names, and each scalar its number. All else of the part stays.
pub fn scatter(job: &Job, checkpoint: &Checkpoint, patch: &mut Patch)
    requires whole { IsWhole job.now }
    requires patch { IsPatchOf (setup_of job.now) patch.old }
    requires state { HoldsState (setup_of job.now) checkpoint.now }
    ensures { patch.new ≡ with_numbers patch.old
        (scattered (setup_of job.now) checkpoint.now patch.old) }
{
    let vars = job.vars.as_slice();
    let _ = patch.local();
    let mut scalars = 0;
    let mut levels = 0;
    'vars: for v in 0..vars.len() {
        let (number, stored) = (scalar_count(&vars[v]), level_count(&vars[v]));
        let v = VarId(v as u32);
        fill_scalar(patch, v, number, checkpoint.scalars.as_slice(), scalars);
        fill_levels(patch, v, stored, checkpoint.levels.as_slice(), levels);
        scalars += number as usize;
        levels += stored as usize;
    }
}

/// Sets a scalar to the number at a place, if it has a number.
fn fill_scalar(patch: &mut Patch, v: VarId, numbers: u8, scalars: &[i64], at: usize)
    requires scalar { 0 < numbers → IsScalar patch.old v }
    requires there { at + numbers ≤ length scalars.now }
    ensures { patch.new ≡ with_numbers patch.old
        (scalar_filled v at numbers scalars.now patch.old.numbers) }
{
    if 0 < numbers {
        patch.set_scalar(v, scalars[at]);
    }
}

/// Fills the first levels of a variable from whole ones that stand from a place on.
fn fill_levels(patch: &mut Patch, v: VarId, levels: u8, all: &[List<i64>], from: usize)
    requires stored { (level : ℕ) → level < levels → IsGridLevel patch.old v level }
    requires there { from + levels ≤ length all.now }
    requires points { All (λ (level : ListOf ℤ). length level ≡ point_count (whole patch.old.shape))
        all.now }
    ensures { patch.new ≡ with_numbers patch.old
        (levels_filled patch.old v from levels all.now patch.old.numbers) }
{
    'levels: for level in 0..levels {
        fill_level(patch, v, level, all[from + level as usize].as_slice());
    }
}

/// Fills a level from a whole one, run by run.
fn fill_level(patch: &mut Patch, v: VarId, level: u8, numbers: &[i64])
    requires stored { IsGridLevel patch.old v level }
    requires points { length numbers.now ≡ point_count (whole patch.old.shape) }
    ensures { patch.new ≡ with_numbers patch.old
        (with_level patch.old.numbers v level (local_level patch.old numbers.now)) }
{
    let (shape, local) = (*patch.shape(), *patch.local());
    let end = count(&local);
    let mut at = 0;
    'runs: while at < end {
        let low = point_at(&local, at);
        let run = run_from(&shape, &local, numbers, low);
        patch.put_row(v, level, low, run);
        at += run.len();
    }
}

/// The numbers of a whole level from a point on, as far as both the row of the box and that of the grid go.
fn run_from<'a>(shape: &Shape, local: &Box3, numbers: &'a [i64], low: Point) -> &'a [i64]
    requires shape { IsShape shape.now }
    requires points { length numbers.now ≡ point_count (whole shape.now) }
    requires low { IsIn local.now low }
    requires near { IsIn (whole shape.now) (wrap shape.now low) }
    ensures some { 0 < length result.now }
    ensures within { (low.x +ℤ pos (length result.now)) ≤ℤ local.now.high.x }
    ensures numbers { result.now ≡ numbers_from shape.now numbers.now low (length result.now) }
{
    let first = wrap(shape, low);
    let at = index_of(&whole(shape), first);
    let end = at + run_length(shape, local, low, first);
    &numbers[at..end]
}

/// How many points there are along x from one of a box and from one of the grid on, whichever are fewer.
fn run_length(shape: &Shape, local: &Box3, low: Point, first: Point) -> usize
    requires low { IsIn local.now low }
    requires first { IsIn (whole shape.now) first }
    ensures some { 0 < result }
    ensures local { (low.x +ℤ pos result) ≤ℤ local.now.high.x }
    ensures grid { (first.x +ℤ pos result) ≤ℤ shape.now.n.x }
{
    gap(low.x, local.high.x).min(gap(first.x, shape.n.x))
}

/// How far the second number is above the first.
fn gap(low: i32, high: i32) -> usize
    requires { low ≤ℤ high }
    ensures { (low +ℤ pos result) ≡ high }
{
    (high as i64 - low as i64) as usize
}
