//! The jobs of a batch, made in the order of the words.
ghost use Rattle.std.specs.Prelude.{◌≡◌, ◌⊎◌, ◌≤◌, ◌^◌, ◌++◌, ◌∷◌, [], length, map, None, Some, MatchResult};
ghost use Rattle.std.specs.List.{AllByRecursion};
ghost use Rattle.cx_text.specs.Telling.{Tells};
ghost use Rattle.cx_run_batch.specs.Members.{jobs_of, waiting};
ghost use Rattle.cx_run.specs.Calls.{lent_shelf};
ghost use Rattle.cx_several.specs.Cells.{IsCuttable};
ghost use Rattle.cx_several.specs.Faults.{jobs_fault};
ghost use Rattle.cx_several.specs.declared.fault.BatchFault.TheVariants as faults;
ghost use Rattle.cx_several.specs.Making.{HasMembers, IsShelfKept, IsWhy, PushesJobs};

use crate::cells::check_cells;
use crate::fault::{BatchFault, of_file};
use crate::folders::check_folders;
use cx_job::{Shelf, make_job};
use cx_plan::Job;
use cx_rule::Routine;
use cx_run_batch::Member;
use cx_text::Text;
use law_course::trails_begin;
use std::alloc::Global;

/// The members of a batch of these files, whose runs haven't begun.
pub(crate) fn members_of<H: Shelf>(
    alloc: Global,
    files: &[Text],
    shelf: &mut H,
    routines: &[Box<dyn Routine>],
) -> Result<Vec<Member>, BatchFault>
    requires few { length routines.now ≤ 2 ^ 32 }
    ensures made { MatchResult result
        (λ members. HasMembers (lent_shelf H.Shelf shelf.old shelf.new) (map spec_of routines.now)
        files.now members.items)
        (IsWhy (lent_shelf H.Shelf shelf.old shelf.new) (map spec_of routines.now) files.now) }
    ensures kept { IsShelfKept (lent_shelf H.Shelf shelf.old shelf.new) }
{
    let mut members = Vec::new(alloc);
    match make_all(alloc, files, shelf, routines, &mut members) {
        Ok(()) => checked(alloc, files, members),
        Err(fault) => Err(fault),
    }
}

/// Members of jobs that have no fault together.
fn checked(alloc: Global, files: &[Text], members: Vec<Member>) -> Result<Vec<Member>, BatchFault>
    requires { AllByRecursion (λ m. IsCuttable m.job) members.items }
    ensures { MatchResult result
        (λ found. (found.items ≡ members.items)
        × (jobs_fault files.now (jobs_of members.items) ≡ None))
        (λ e. (e ≡ faults.Memory) ⊎ (jobs_fault files.now (jobs_of members.items) ≡ Some e)) }
{
    match check_jobs(alloc, files, &members) {
        Ok(()) => Ok(members),
        Err(fault) => Err(fault),
    }
}

/// Tests that no two jobs have a folder in common, and then that all together don't have too many cells.
fn check_jobs(alloc: Global, files: &[Text], members: &[Member]) -> Result<(), BatchFault>
    requires { AllByRecursion (λ m. IsCuttable m.job) members.now }
    ensures { Tells faults.Memory (jobs_fault files.now (jobs_of members.now)) result }
{
    check_folders(alloc, files, members)?;
    check_cells(alloc, members)
}

/// Makes the job of each file, and adds a member for it. The first fault counts.
fn make_all<H: Shelf>(
    alloc: Global,
    files: &[Text],
    shelf: &mut H,
    routines: &[Box<dyn Routine>],
    members: &mut Vec<Member>,
) -> Result<(), BatchFault>
    requires few { length routines.now ≤ 2 ^ 32 }
    ensures pushes { PushesJobs (lent_shelf H.Shelf shelf.old shelf.new) (map spec_of routines.now)
        files.now members.old.items members.new.items result }
    ensures kept { IsShelfKept (lent_shelf H.Shelf shelf.old shelf.new) }
{
    let Some((file, more)) = files.split_first() else {
        return Ok(());
    };
    match make_one(alloc, file, shelf, routines, members) {
        Ok(()) => make_all(alloc, more, shelf, routines, members),
        Err(fault) => Err(fault),
    }
}

/// Makes the job of a file, and adds a member for it.
fn make_one<H: Shelf>(
    alloc: Global,
    file: &Text,
    shelf: &mut H,
    routines: &[Box<dyn Routine>],
    members: &mut Vec<Member>,
) -> Result<(), BatchFault>
    requires few { length routines.now ≤ 2 ^ 32 }
    ensures pushes { PushesJobs (lent_shelf H.Shelf shelf.old shelf.new) (map spec_of routines.now)
        (file.now ∷ []) members.old.items members.new.items result }
    ensures kept { IsShelfKept (lent_shelf H.Shelf shelf.old shelf.new) }
{
    match make_job(alloc, shelf, file, routines) {
        Ok(job) => {
            trails_begin(&job);
            add(members, job)
        }
        Err(fault) => Err(of_file(alloc, file, fault)),
    }
}

/// Adds a member for a job.
fn add(members: &mut Vec<Member>, job: Job) -> Result<(), BatchFault>
    ensures { MatchResult result
        (λ u. members.new.items ≡ members.old.items ++ waiting job ∷ [])
        (λ e. e ≡ faults.Memory) }
{
    match members.push(Member::new(job)) {
        Ok(()) => Ok(()),
        Err(_) => Err(BatchFault::Memory),
    }
}
