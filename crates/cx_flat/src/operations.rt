//! From a job's trees to operations.

ghost use Rattle.std.specs.Prelude.{◌≡◌, ◌++◌, ◌∷◌, [], ◌+◌, ◌<◌, ◌^◌, length, map, IfOk, OnOk};
ghost use Rattle.cx_plan.specs.Bins.{bin_number};
ghost use Rattle.cx_plan.specs.Lookups.{bin};
ghost use Rattle.cx_plan.specs.Setups.{setup_of};
ghost use Rattle.cx_plan.specs.Whole.{IsWhole};
ghost use Rattle.cx_flat.specs.Code.{bins_code, checkpoint_code, before_code, pieces_code, from_code, code};

use crate::Op;
use crate::trees::push_tree;
use cx_plan::{Bin, Job, VarId};
use cx_text::{List, Memory};
use std::alloc::Global;

/// The number of so many operations, as one that is skipped. A job has far fewer than 2^32.
fn count_of(ops: &[Op]) -> u32
    ensures { length ops.now < 2 ^ 32 → result ≡ length ops.now }
{
    ops.len().min(u32::MAX as usize) as u32
}

/// The number of so many operations and one more.
pub(crate) fn count_behind(ops: &[Op]) -> u32
    ensures { length ops.now + 1 < 2 ^ 32 → result ≡ length ops.now + 1 }
{
    count_of(ops).saturating_add(1)
}

/// The number of the operations of both.
fn count_of_both(first: &[Op], second: &[Op]) -> u32
    ensures { length first.now + length second.now < 2 ^ 32
        → result ≡ length first.now + length second.now }
{
    count_of(first).saturating_add(count_of(second))
}

/// Adds the operations of one bin.
fn push_bin(alloc: Global, job: &Job, ops: &mut Vec<Op>, bin: Bin) -> Result<(), Memory>
    requires { IsWhole job.now }
    ensures { OnOk result (ops.new.items
        ≡ ops.old.items ++ bins_code (setup_of job.now) (bin_number bin ∷ [])) }
{
    let bins = job.plan.bins.as_slice();
    push_tree(alloc, job, ops, &bins[bin.number()])
}

/// Adds the operations of these bins, one after another.
fn push_bins(alloc: Global, job: &Job, ops: &mut Vec<Op>, bins: &[Bin]) -> Result<(), Memory>
    requires { IsWhole job.now }
    ensures { OnOk result (ops.new.items
        ≡ ops.old.items ++ bins_code (setup_of job.now) (map bin_number bins.now)) }
{
    'bins: for bin in bins {
        push_bin(alloc, job, ops, *bin)?;
    }
    Ok(())
}

/// Adds one operation for each variable whose pieces are gathered.
fn push_pieces(ops: &mut Vec<Op>, variables: &[VarId]) -> Result<(), Memory>
    ensures { OnOk result (ops.new.items ≡ ops.old.items ++ pieces_code variables.now) }
{
    'variables: for variable in variables {
        ops.push(Op::Piece(*variable))?;
    }
    Ok(())
}

/// The bin CHECKPOINT, and the piece of the checkpoint.
fn checkpoint_operations(alloc: Global, job: &Job) -> Result<Vec<Op>, Memory>
    requires { IsWhole job.now }
    ensures { IfOk result (λ ops. ops.items ≡ checkpoint_code (setup_of job.now)) }
{
    let mut ops = Vec::new(alloc);
    push_bin(alloc, job, &mut ops, Bin::Checkpoint)?;
    ops.push(Op::Save)?;
    Ok(ops)
}

/// An iteration before ANALYSIS.
fn before_operations(alloc: Global, job: &Job) -> Result<Vec<Op>, Memory>
    requires { IsWhole job.now }
    ensures { IfOk result (λ ops. ops.items ≡ before_code (setup_of job.now)) }
{
    let mut checkpoint = checkpoint_operations(alloc, job)?;
    let mut ops = Vec::new(alloc);
    ops.push(Op::Rotate)?;
    push_bins(alloc, job, &mut ops, Bin::STEP)?;
    ops.push(Op::Due(count_behind(&checkpoint)))?;
    ops.append(&mut checkpoint)?;
    Ok(ops)
}

/// An iteration from ANALYSIS on.
fn from_operations(alloc: Global, job: &Job) -> Result<Vec<Op>, Memory>
    requires { IsWhole job.now }
    ensures { IfOk result (λ ops. ops.items ≡ from_code (setup_of job.now)) }
{
    let mut pieces = Vec::new(alloc);
    push_pieces(&mut pieces, job.out_vars.as_slice())?;
    let mut ops = Vec::new(alloc);
    push_bin(alloc, job, &mut ops, Bin::Analysis)?;
    ops.push(Op::Written(count_behind(&pieces)))?;
    ops.append(&mut pieces)?;
    Ok(ops)
}

/// The operations of a run of the job, in one list with jumps.
pub fn flatten(alloc: Global, job: &Job) -> Result<List<Op>, Memory>
    requires { IsWhole job.now }
    ensures { IfOk result (λ ops. ops ≡ code (setup_of job.now)) }
{
    let mut before = before_operations(alloc, job)?;
    let mut from = from_operations(alloc, job)?;
    let back = count_of_both(&before, &from);
    let mut ops = Vec::new(alloc);
    push_bins(alloc, job, &mut ops, Bin::START)?;
    ops.push(Op::Skip(count_behind(&before)))?;
    ops.append(&mut before)?;
    ops.append(&mut from)?;
    ops.push(Op::Next(back))?;
    push_bins(alloc, job, &mut ops, Bin::END)?;
    ops.push(Op::Halt)?;
    Ok(List::new(ops))
}
