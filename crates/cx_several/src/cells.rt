//! How many cells the jobs of a batch have together.
ghost use Rattle.std.specs.Prelude.{◌≡◌, ◌<◌, ◌^◌, ◌∷◌, ℕ, List, IfOk};
ghost use Rattle.cx_plan.specs.declared.job.Job.{Job};
ghost use Rattle.std.specs.List.{AllByRecursion};
ghost use Rattle.cx_run_batch.specs.Members.{jobs_of};
ghost use Rattle.cx_text.specs.Numbers.{in_64_bits};
ghost use Rattle.cx_text.specs.Telling.{Tells};
ghost use Rattle.cx_job.specs.LocalCells.{local_cells};
ghost use Rattle.cx_several.specs.Cells.{IsCuttable, local_by_all, owned_by_all, owned_cells};
ghost use Rattle.cx_several.specs.Faults.{above, cells_fault};
ghost use Rattle.cx_several.specs.declared.fault.BatchFault.TheVariants as faults;

use crate::fault::BatchFault;
use cx_cut::cut;
use cx_job::local_cells;
use cx_job_values::owned_cells;
use cx_plan::Job;
use cx_run_batch::Member;
use cx_text::Memory;
use std::alloc::Global;

/// The most owned cells of all jobs.
const MOST_OWNED: u64 = 67_108_864;

/// The most cells of all their parts.
const MOST_LOCAL: u64 = 134_217_728;

/// Tests that all jobs together don't have too many cells.
pub(crate) fn check_cells(alloc: Global, members: &[Member]) -> Result<(), BatchFault>
    requires { AllByRecursion (λ m. IsCuttable m.job) members.now }
    ensures { Tells faults.Memory (cells_fault (jobs_of members.now)) result }
{
    check_owned(members)?;
    check_local(alloc, members)
}

/// Tests that the owned cells of all jobs aren't above their limit.
fn check_owned(members: &[Member]) -> Result<(), BatchFault>
    ensures { Tells faults.Memory (above (owned_by_all (jobs_of members.now)) (2 ^ 26)) result }
{
    check(owned_by_all(members), MOST_OWNED)
}

/// Tests that the local cells of all jobs aren't above their limit.
fn check_local(alloc: Global, members: &[Member]) -> Result<(), BatchFault>
    requires { AllByRecursion (λ m. IsCuttable m.job) members.now }
    ensures { Tells faults.Memory (above (local_by_all (jobs_of members.now)) (2 ^ 27)) result }
{
    let cells = local_by_all(alloc, members)?;
    check(cells, MOST_LOCAL)
}

/// Tests that a number of cells isn't above its limit.
fn check(number: u64, most: u64) -> Result<(), BatchFault>
    requires { most < 2 ^ 32 }
    ensures { (n : ℕ) → number ≡ in_64_bits n → Tells faults.Memory (above n most) result }
{
    if number > most {
        Err(BatchFault::Limit(number))
    } else {
        Ok(())
    }
}

/// The owned cells of all jobs, or the greatest number of 64 bits.
fn owned_by_all(members: &[Member]) -> u64
    ensures { result ≡ in_64_bits (owned_by_all (jobs_of members.now)) }
{
    match members {
        [] => 0,
        [member, others @ ..] => owned_by(&member.job).saturating_add(owned_by_all(others)),
    }
}

/// The owned cells of a job.
fn owned_by(job: &Job) -> u64
    ensures { result ≡ in_64_bits (owned_cells job.now) }
{
    owned_cells(&job.shape, &job.vars)
}

/// The local cells of all jobs, or the greatest number of 64 bits.
#[tactic(auto, using(crate::proofs::CellLaws::others_cuttable, crate::proofs::CellLaws::first_cuttable))]
fn local_by_all(alloc: Global, members: &[Member]) -> Result<u64, Memory>
    requires { AllByRecursion (λ m. IsCuttable m.job) members.now }
    ensures { IfOk result (λ n. n ≡ in_64_bits (local_by_all (jobs_of members.now))) }
{
    let Some((member, others)) = members.split_first() else {
        return Ok(0);
    };
    let more = local_by_all(alloc, others)?;
    local_with(alloc, &member.job, more)
}

/// The local cells of a job and so many more, or the greatest number of 64 bits.
fn local_with(alloc: Global, job: &Job, more: u64) -> Result<u64, Memory>
    requires { IsCuttable job.now }
    ensures { (jobs : List Job) → more ≡ in_64_bits (local_by_all jobs)
        → IfOk result (λ n. n ≡ in_64_bits (local_by_all (job.now ∷ jobs))) }
{
    let cells = local_by(alloc, job)?;
    Ok(cells.saturating_add(more))
}

/// The local cells of a job, or the greatest number of 64 bits.
fn local_by(alloc: Global, job: &Job) -> Result<u64, Memory>
    requires { IsCuttable job.now }
    ensures { IfOk result (λ n. n ≡ in_64_bits (local_cells job.now)) }
{
    match cut(alloc, &job.shape, &job.cut) {
        Ok(cut) => Ok(local_cells(&cut, job)),
        Err(_) => Err(Memory),
    }
}
