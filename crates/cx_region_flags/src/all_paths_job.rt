//! The flags that are set on every way through a job.

ghost use Rattle.std.specs.Prelude.{◌≡◌, OnOk, length, map};
ghost use Rattle.cx_plan.specs.Bins.{bin_number};
ghost use Rattle.cx_plan.specs.Setups.{setup_of};
ghost use Rattle.cx_plan.specs.Paths.{PathOfBins, PathOfAnalysis, PathOfCheckpoint, PathOfStart, PathOfIteration, Sound};
ghost use Rattle.cx_plan.specs.Whole.{IsWhole};
ghost use Rattle.cx_region_flags.specs.AllPaths.{IsBelow, Leads, PathOfBin, PathOfOutput, PathOfAllIterations};

use crate::all_paths_step::{Stop, output, rotate};
use crate::all_paths_tree::walk_tree;
use crate::flag_table::FlagTable;
use crate::left_by_loop::{leave, leave_if_taken};
use crate::trees::tree_of;
use cx_plan::{Bin, Job};
use cx_text::Memory;
use std::alloc::Global;

/// Walks all ways through one bin, if the job has items in it.
fn walk_bin<'a>(
    alloc: Global,
    job: &'a Job,
    table: &mut FlagTable,
    bin: Bin,
) -> Result<(), Stop<'a>>
    requires { IsWhole job.now }
    ensures { OnOk result (Leads job.now (PathOfBin job.now (bin_number bin)) table.old table.new) }
{
    match tree_of(job, bin) {
        Some(tree) => walk_tree(alloc, job, table, tree),
        None => Ok(()),
    }
}

/// Walks all ways through these bins, one after another.
fn walk_bins<'a>(
    alloc: Global,
    job: &'a Job,
    table: &mut FlagTable,
    bins: &[Bin],
) -> Result<(), Stop<'a>>
    requires { IsWhole job.now }
    ensures { let Way = PathOfBins (setup_of job.now) (map bin_number bins.now) in
        OnOk result (Leads job.now Way table.old table.new) }
{
    'bins: for bin in bins {
        walk_bin(alloc, job, table, *bin)?;
    }
    Ok(())
}

/// Output, where there is any.
fn output_if_any(job: &Job, table: &FlagTable) -> Result<(), Stop<'static>>
    requires { IsWhole job.now }
    ensures { OnOk result (Leads job.now (PathOfOutput job.now) table.now table.now) }
{
    if job.out_every > 0 {
        return output(job, table);
    }
    Ok(())
}

/// Walks the ANALYSIS bin, and then the output after it.
fn walk_analysis<'a>(alloc: Global, job: &'a Job, table: &mut FlagTable) -> Result<(), Stop<'a>>
    requires { IsWhole job.now }
    ensures { OnOk result (Leads job.now (PathOfAnalysis (setup_of job.now)) table.old table.new) }
{
    walk_bin(alloc, job, table, Bin::Analysis)?;
    output_if_any(job, table)
}

/// Walks the CHECKPOINT bin, which runs or not: only flags set either way stay set.
fn walk_checkpoint<'a>(alloc: Global, job: &'a Job, table: &mut FlagTable) -> Result<(), Stop<'a>>
    requires { IsWhole job.now }
    ensures { OnOk result
        (Leads job.now (PathOfCheckpoint (setup_of job.now)) table.old table.new) }
{
    let mut behind = table.copy(alloc)?;
    walk_bin(alloc, job, &mut behind, Bin::Checkpoint)?;
    table.meet(&behind);
    Ok(())
}

/// Walks iteration 0: the bins before ANALYSIS, then ANALYSIS and the output.
fn walk_start<'a>(alloc: Global, job: &'a Job, table: &mut FlagTable) -> Result<(), Stop<'a>>
    requires { IsWhole job.now }
    ensures { OnOk result (Leads job.now (PathOfStart (setup_of job.now)) table.old table.new) }
{
    walk_bins(alloc, job, table, Bin::START)?;
    walk_analysis(alloc, job, table)
}

/// Walks one later iteration: levels rotate, then bins, CHECKPOINT, ANALYSIS and the output.
fn walk_iteration<'a>(alloc: Global, job: &'a Job, table: &mut FlagTable) -> Result<(), Stop<'a>>
    requires { IsWhole job.now }
    ensures { OnOk result (Leads job.now (PathOfIteration (setup_of job.now)) table.old table.new) }
{
    rotate(job, table);
    walk_bins(alloc, job, table, Bin::STEP)?;
    walk_checkpoint(alloc, job, table)?;
    walk_analysis(alloc, job, table)
}

/// What one bin leaves of the flags, whatever it needs.
fn leave_bin(alloc: Global, job: &Job, table: &mut FlagTable, bin: Bin) -> Result<(), Memory>
    ensures { length table.new ≡ length table.old }
{
    match tree_of(job, bin) {
        Some(tree) => leave(alloc, job, table, tree),
        None => Ok(()),
    }
}

/// What these bins leave of flags, whatever they need.
fn leave_bins(alloc: Global, job: &Job, table: &mut FlagTable, bins: &[Bin]) -> Result<(), Memory>
    ensures { length table.new ≡ length table.old }
{
    'bins: for bin in bins {
        leave_bin(alloc, job, table, *bin)?;
    }
    Ok(())
}

/// What the CHECKPOINT bin leaves of the flags, whether it runs or not.
fn leave_checkpoint(alloc: Global, job: &Job, table: &mut FlagTable) -> Result<(), Memory>
    ensures { length table.new ≡ length table.old }
{
    match tree_of(job, Bin::Checkpoint) {
        Some(tree) => leave_if_taken(alloc, job, table, tree),
        None => Ok(()),
    }
}

/// What an iteration leaves of flags.
fn leave_iteration(alloc: Global, job: &Job, table: &mut FlagTable) -> Result<(), Memory>
    ensures { length table.new ≡ length table.old }
{
    table.rotate(job);
    leave_bins(alloc, job, table, Bin::STEP)?;
    leave_checkpoint(alloc, job, table)?;
    leave_bin(alloc, job, table, Bin::Analysis)
}

/// Clears the flags that any number of iterations may clear, whatever they need. Flags move through eight
/// levels, so this takes about nine passes.
fn settle(alloc: Global, job: &Job, table: &mut FlagTable) -> Result<(), Memory>
    ensures { IsBelow table.new table.old }
{
    'turns: loop {
        let mut behind = table.copy(alloc)?;
        leave_iteration(alloc, job, &mut behind)?;
        if table.is_below(&behind) {
            return Ok(());
        }
        table.meet(&behind);
    }
}

/// Walks iterations until no flag falls. The flags have settled before, so the first walk is the last one.
fn walk_iterations<'a>(alloc: Global, job: &'a Job, table: &mut FlagTable) -> Result<(), Stop<'a>>
    requires { IsWhole job.now }
    ensures { OnOk result
        (Leads job.now (PathOfAllIterations (setup_of job.now)) table.old table.new) }
{
    settle(alloc, job, table)?;
    'iterations: loop {
        let mut behind = table.copy(alloc)?;
        walk_iteration(alloc, job, &mut behind)?;
        if table.is_below(&behind) {
            return Ok(());
        }
        table.meet(&behind);
    }
}

/// Walks all ways through a job. Where no need is unmet, on no path one is.
pub fn walk_job(alloc: Global, job: &Job) -> Result<(), Stop<'_>>
    requires { IsWhole job.now }
    ensures { OnOk result (Sound (setup_of job.now)) }
{
    let mut table = FlagTable::new(alloc, job)?;
    walk_start(alloc, job, &mut table)?;
    walk_iterations(alloc, job, &mut table)?;
    walk_bins(alloc, job, &mut table, Bin::END)
}
