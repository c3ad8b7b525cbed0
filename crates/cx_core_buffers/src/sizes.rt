//! How much a job's variables take in a checkpoint.
ghost use Rattle.std.specs.Prelude.{◌≡◌, ◌≤◌, ◌<◌, IfOk, replicate, pos, length};
ghost use Rattle.cx_grid.specs.Boxes.{point_count};
ghost use Rattle.cx_grid.specs.Grid.{IsShape, whole};
ghost use Rattle.cx_core_buffers.specs.Checkpoints.{total};
ghost use Rattle.cx_plan.specs.Whole.{scalar_count, level_count};

use cx_grid::{Shape, count, whole};
use cx_plan::VarInfo;
use cx_text::{List, Memory};
use std::alloc::Global;

/// How many numbers a checkpoint holds of a variable that is a scalar.
pub(crate) fn scalar_count(info: &VarInfo) -> u8
    ensures { result ≡ scalar_count info.now }
{
    if info.scalar { info.levels } else { 0 }
}

/// How many levels a checkpoint holds of a grid variable.
pub(crate) fn level_count(info: &VarInfo) -> u8
    ensures { result ≡ level_count info.now }
{
    if info.scalar { 0 } else { info.levels }
}

/// How many scalars' numbers a checkpoint holds.
pub(crate) fn scalar_total(vars: &[VarInfo]) -> usize
    requires { length vars.now ≤ 256 }
    ensures { result ≡ total scalar_count vars.now }
{
    let mut sum = 0;
    'vars: for v in 0..vars.len() {
        sum += scalar_count(&vars[v]) as usize;
    }
    sum
}

/// How many levels of grid variables a checkpoint holds.
pub(crate) fn level_total(vars: &[VarInfo]) -> usize
    requires { length vars.now ≤ 256 }
    ensures { result ≡ total level_count vars.now }
{
    let mut sum = 0;
    'vars: for v in 0..vars.len() {
        sum += level_count(&vars[v]) as usize;
    }
    sum
}

/// How many points a grid has.
pub(crate) fn points(shape: &Shape) -> usize
    requires { IsShape shape.now }
    ensures { result ≡ point_count (whole shape.now) }
{
    count(&whole(shape))
}

/// So many numbers, all 0.
pub(crate) fn zeros(alloc: Global, count: usize) -> Result<List<i64>, Memory>
    ensures { IfOk result (λ numbers. numbers ≡ replicate count (pos 0)) }
{
    Ok(List::new(vec![in alloc; 0; count]?))
}

/// So many lists of so many numbers, all 0.
pub(crate) fn zero_levels(
    alloc: Global,
    levels: usize,
    count: usize,
) -> Result<List<List<i64>>, Memory>
    ensures { IfOk result (λ all. all ≡ replicate levels (replicate count (pos 0))) }
{
    let mut all = List::empty(alloc);
    'levels: for _ in 0..levels {
        all.push(zeros(alloc, count)?)?;
    }
    Ok(all)
}
