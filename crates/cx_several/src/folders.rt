//! Folders that two jobs of a batch have in common.
ghost use Rattle.std.specs.Prelude.{◌≡◌, ◌⊎◌, IfOk, option_map};
ghost use Rattle.cx_run_batch.specs.Members.{jobs_of};
ghost use Rattle.cx_text.specs.Telling.{Tells};
ghost use Rattle.cx_several.specs.Faults.{folder_fault};
ghost use Rattle.cx_several.specs.Folders.{is_folder, same_folder, shared_with, shares};
ghost use Rattle.cx_several.specs.declared.fault.BatchFault.TheVariants as faults;

use crate::fault::BatchFault;
use cx_plan::Job;
use cx_run_batch::Member;
use cx_text::{Memory, Text};
use std::alloc::Global;

/// Tests that no two jobs have a folder in common.
pub(crate) fn check_folders(
    alloc: Global,
    files: &[Text],
    members: &[Member],
) -> Result<(), BatchFault>
    ensures { Tells faults.Memory (folder_fault files.now (jobs_of members.now)) result }
{
    match same_folder(files, members) {
        Some((a, b)) => Err(shared(alloc, a, b)),
        None => Ok(()),
    }
}

/// The fault of two files whose jobs have a folder in common, or want of memory.
fn shared(alloc: Global, a: &Text, b: &Text) -> BatchFault
    ensures { (result ≡ faults.Memory) ⊎ (result ≡ faults.SameFolder a.now b.now) }
{
    match copies(alloc, a, b) {
        Ok((a, b)) => BatchFault::SameFolder(a, b),
        Err(Memory) => BatchFault::Memory,
    }
}

/// Copies of two texts.
fn copies(alloc: Global, a: &Text, b: &Text) -> Result<(Text, Text), Memory>
    ensures { IfOk result (λ pair. pair ≡ (a.now, b.now)) }
{
    let first = a.copy(alloc)?;
    Ok((first, b.copy(alloc)?))
}

/// The first two files whose jobs have a folder in common.
fn same_folder<'a>(files: &'a [Text], members: &[Member]) -> Option<(&'a Text, &'a Text)>
    ensures { option_map (λ pair. (pair.0.now, pair.1.now)) result
        ≡ same_folder files.now (jobs_of members.now) }
{
    match files {
        [] => None,
        [file, more @ ..] => match members {
            [] => None,
            [member, others @ ..] => match shared_with(&member.job, more, others) {
                Some(other) => Some((file, other)),
                None => same_folder(more, others),
            },
        },
    }
}

/// The first file whose job has a folder in common with this one.
fn shared_with<'a>(job: &Job, files: &'a [Text], members: &[Member]) -> Option<&'a Text>
    ensures { option_map (λ file. file.now) result
        ≡ shared_with job.now files.now (jobs_of members.now) }
{
    match files {
        [] => None,
        [file, more @ ..] => match members {
            [] => None,
            [member, others @ ..] => {
                if shares(job, &member.job) {
                    Some(file)
                } else {
                    shared_with(job, more, others)
                }
            }
        },
    }
}

/// Whether a folder of the one job is a folder of the other, as text.
fn shares(a: &Job, b: &Job) -> bool
    ensures { result ≡ shares a.now b.now }
{
    is_folder(a.out_dir.as_slice(), b) || is_folder(a.chk_dir.as_slice(), b)
}

/// Whether a text is one of a job's folders.
fn is_folder(name: &[u8], job: &Job) -> bool
    ensures { result ≡ is_folder name.now job.now }
{
    name == job.out_dir.as_slice() || name == job.chk_dir.as_slice()
}
