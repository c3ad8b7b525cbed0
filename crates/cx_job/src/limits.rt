//! The limits of a job.

ghost use Rattle.std.specs.Prelude.{ℕ, ◌≡◌, ◌^◌, codes, take, IfOk};
ghost use Rattle.cx_plan.specs.Lists.{first_of_each};
ghost use Rattle.cx_job.specs.declared.fault.JobFault.TheVariants as faults;
ghost use Rattle.cx_text.specs.Telling.{Tells};
ghost use Rattle.cx_job.specs.JobLimits.{over, writes_fault, reads_fault, parameters_fault, each_limit, item_limits, points_fault, cells_fault, grid_limits, key_limit};
ghost use Rattle.cx_text.specs.Numbers.{in_64_bits};

use crate::JobFault;
use cx_grid::Shape;
use cx_job_values::{owned_cells, point_count};
use cx_plan::{Item, VarInfo};
use cx_text::{List, Memory, Text};
use std::alloc::Global;

/// The most writes of an item.
const MAX_WRITES: u64 = 16;

/// The most reads of an item.
const MAX_READS: u64 = 32;

/// The most parameters of an item.
const MAX_PARAMETERS: u64 = 32;

/// The most points of the grid.
const MAX_POINTS: u64 = 16_777_216;

/// The most cells: points, once for each stored level of each grid variable.
const MAX_CELLS: u64 = 67_108_864;

/// The most bytes of the key.
const MAX_KEY: u64 = 4_294_967_295;

/// The most numbers that all parts hold together.
const MAX_LOCAL_CELLS: u64 = 134_217_728;

/// The fault of a number above its limit, with what it counts.
fn limit_fault(alloc: Global, what: &[u8], number: u64) -> Result<JobFault, Memory>
    ensures { IfOk result (λ fault. fault ≡ faults.Limit what.now number) }
{
    Ok(JobFault::Limit(Text::from_slice(alloc, what)?, number))
}

/// Tests that a number isn't above its limit.
fn check_limit(alloc: Global, what: &[u8], number: u64, limit: u64) -> Result<(), JobFault>
    ensures { Tells faults.Memory (over what.now number limit) result }
{
    if number > limit {
        return Err(limit_fault(alloc, what, number)?);
    }
    Ok(())
}

/// Tests that an item doesn't write too many levels.
fn check_writes_of(alloc: Global, item: &Item) -> Result<(), JobFault>
    ensures { Tells faults.Memory (writes_fault item.now) result }
{
    check_limit(alloc, b"writes", item.writes.len() as u64, MAX_WRITES)
}

/// Tests that an item doesn't read too many levels.
fn check_reads_of(alloc: Global, item: &Item) -> Result<(), JobFault>
    ensures { Tells faults.Memory (reads_fault item.now) result }
{
    check_limit(alloc, b"reads", item.reads.len() as u64, MAX_READS)
}

/// Tests that an item doesn't take too many parameters.
fn check_parameters_of(alloc: Global, item: &Item) -> Result<(), JobFault>
    ensures { Tells faults.Memory (parameters_fault item.now) result }
{
    check_limit(
        alloc,
        b"parameters",
        item.params.len() as u64,
        MAX_PARAMETERS,
    )
}

/// Tests the number of writes of each item; the first item above the limit counts.
fn check_writes(alloc: Global, items: &[Item]) -> Result<(), JobFault>
    ensures { Tells faults.Memory (first_of_each writes_fault items.now) result }
{
    for item in items {
        check_writes_of(alloc, item)?;
    }
    Ok(())
}

/// Tests the number of reads of each item; the first item above the limit counts.
fn check_reads(alloc: Global, items: &[Item]) -> Result<(), JobFault>
    ensures { Tells faults.Memory (first_of_each reads_fault items.now) result }
{
    for item in items {
        check_reads_of(alloc, item)?;
    }
    Ok(())
}

/// Tests the number of parameters of each item; the first item above the limit counts.
fn check_parameters(alloc: Global, items: &[Item]) -> Result<(), JobFault>
    ensures { Tells faults.Memory (first_of_each parameters_fault items.now) result }
{
    for item in items {
        check_parameters_of(alloc, item)?;
    }
    Ok(())
}

/// Tests that none of these items writes or reads too much, or has too many parameters.
fn check_each(alloc: Global, items: &[Item]) -> Result<(), JobFault>
    ensures { Tells faults.Memory (each_limit items.now) result }
{
    check_writes(alloc, items)?;
    check_reads(alloc, items)?;
    check_parameters(alloc, items)
}

/// The first items.
pub(crate) fn first_items(items: &[Item], run: usize) -> &[Item]
    ensures { result.now ≡ take run items.now }
{
    &items[..run.min(items.len())]
}

/// Tests the items of the bins that are run, which are the first ones.
pub(crate) fn check_item_limits(alloc: Global, run: usize, items: &[Item]) -> Result<(), JobFault>
    ensures { Tells faults.Memory (item_limits run items.now) result }
{
    check_each(alloc, first_items(items, run))
}

/// Tests that the grid doesn't have too many points.
fn check_points(alloc: Global, shape: &Shape) -> Result<(), JobFault>
    ensures { Tells faults.Memory (points_fault shape.now) result }
{
    check_limit(alloc, b"points", point_count(shape), MAX_POINTS)
}

/// Tests that the stored levels of all grid variables together don't have too many points.
fn check_cells(alloc: Global, shape: &Shape, vars: &List<VarInfo>) -> Result<(), JobFault>
    ensures { Tells faults.Memory (cells_fault shape.now vars.now) result }
{
    check_limit(alloc, b"owned cells", owned_cells(shape, vars), MAX_CELLS)
}

/// Tests that the grid hasn't too many points, and then that not too many numbers are stored at them.
pub(crate) fn check_grid_limits(
    alloc: Global,
    shape: &Shape,
    vars: &List<VarInfo>,
) -> Result<(), JobFault>
    ensures { Tells faults.Memory (grid_limits shape.now vars.now) result }
{
    check_points(alloc, shape)?;
    check_cells(alloc, shape, vars)
}

/// Tests that the key isn't too long.
pub(crate) fn check_key(alloc: Global, key: &Text) -> Result<(), JobFault>
    ensures { Tells faults.Memory (key_limit key.now) result }
{
    check_limit(alloc, b"key", key.len() as u64, MAX_KEY)
}

/// Tests that the parts don't hold too many numbers.
pub(crate) fn check_local_cells(alloc: Global, cells: u64) -> Result<(), JobFault>
    ensures { (number : ℕ) → cells ≡ in_64_bits number
        → Tells faults.Memory (over (codes "local cells") number (2 ^ 27)) result }
{
    check_limit(alloc, b"local cells", cells, MAX_LOCAL_CELLS)
}
