//! The former output, which version 1 has: one file of all variables, split into an output for each.
ghost use Rattle.std.specs.Prelude.{◌≡◌, ◌≢◌, ◌≤◌, Some, take, map, length, IsTrue, IfOk, IfErr};
ghost use Rattle.cx_disk.specs.Files.{count_with, old_output_file};
ghost use Rattle.cx_disk.specs.Keeps.{Keeps};
ghost use Rattle.cx_disk.specs.Moments.{IsQuiet};
ghost use Rattle.cx_plan.specs.Setups.{setup_of};
ghost use Rattle.cx_plan.specs.Whole.{IsWhole};
ghost use Rattle.cx_outputs.specs.Names.{full_names, output_count};
ghost use Rattle.cx_ascii_read.specs.Splitting.{split_of};
ghost use Rattle.cx_chk.specs.declared.checkpoint.Checkpoint.{Checkpoint as Spelled};
ghost use Rattle.cx_keep.specs.Tests.{Answers, IsFaultOf, former_judged, former_read, or_damaged, renewed, split_at};

use crate::fault::BeginFault;
use cx_ascii_read::split;
use cx_chk::Checkpoint;
use cx_disk::{Disk, OLD_OUTPUT};
use cx_outputs::{full_names, output_names};
use cx_plan::Job;
use cx_text::{List, Memory, Text};
use std::alloc::Global;

/// The greatest length of a former output that is split.
const GREATEST: u64 = 268_435_456;

/// So many bytes of the former output, which has them, and isn't too long.
fn read_former<D: Disk>(alloc: Global, disk: &mut D, count: u64) -> Result<Text, BeginFault>
    requires mounted { IsTrue (D.mounted disk.old) }
    requires files { count_with 0 ≤ D.file_count disk.old }
    ensures read { D.tells → Answers (λ bytes. bytes) result
        (former_read (D.view disk.old).seen count) }
    ensures quiet { D.tells → IsQuiet (D.view disk.old) (D.view disk.new) }
    ensures kept { Keeps D.Disk BeginFault.Disk disk.old disk.new result }
{
    let there = disk.length(OLD_OUTPUT)?;
    if there < count {
        return Err(BeginFault::OutputShort(there, count));
    }
    if GREATEST < count {
        return Err(BeginFault::OldTooLong(count, GREATEST));
    }
    let mut bytes = vec![in alloc; 0u8; count as usize]?;
    disk.read(OLD_OUTPUT, 0, &mut bytes)?;
    Ok(Text::new(bytes))
}

/// The former output's bytes split by the variables' names.
fn split_bytes(alloc: Global, job: &Job, slot: u32, bytes: &[u8]) -> Result<List<Text>, BeginFault>
    requires whole { IsWhole job.now }
    ensures fault { (c : Spelled) → IfErr result (λ e. IsFaultOf e
        (or_damaged job.now slot c (split_of bytes.now (full_names (setup_of job.now))))) }
    ensures told { IfErr result (λ e. e ≢ BeginFault.Disk) }
    ensures split { IfOk result
        (λ texts. split_of bytes.now (full_names (setup_of job.now)) ≡ Some texts) }
    ensures many { IfOk result (λ texts. length texts ≡ output_count (setup_of job.now)) }
{
    let names = full_names(alloc, job)?;
    match split(alloc, bytes, &names)? {
        Some(texts) => Ok(texts),
        None => Err(BeginFault::Damaged(slot)),
    }
}

/// The texts that the former output splits into by the variables' names, as far as this length goes; else the fault of the
/// first test that fails. It changes no byte.
///
/// `OutputShort`: the former output is shorter. `OldTooLong`: the length is more than 268,435,456. `Damaged`: it doesn't split.
pub fn split_former<D: Disk>(
    alloc: Global,
    disk: &mut D,
    job: &Job,
    slot: u32,
    count: u64,
) -> Result<List<Text>, BeginFault>
    requires mounted { IsTrue (D.mounted disk.old) }
    requires files { count_with 0 ≤ D.file_count disk.old }
    requires whole { IsWhole job.now }
    ensures tests { D.tells → (c : Spelled) → Answers (λ texts. renewed job.now c texts) result
        (former_judged job.now (D.view disk.old).seen slot c count) }
    ensures split { D.tells → IfOk result
        (λ texts. split_at job.now count (D.view disk.old).seen ≡ Some texts) }
    ensures many { IfOk result (λ texts. length texts ≡ output_count (setup_of job.now)) }
    ensures quiet { D.tells → IsQuiet (D.view disk.old) (D.view disk.new) }
    ensures kept { Keeps D.Disk BeginFault.Disk disk.old disk.new result }
{
    let bytes = read_former(alloc, disk, count)?;
    split_bytes(alloc, job, slot, bytes.as_slice())
}

/// The lengths of some texts.
fn lengths_of(alloc: Global, texts: &[Text]) -> Result<List<u64>, Memory>
    ensures { IfOk result (λ lengths. lengths ≡ map (λ text. length text) texts.now) }
{
    let mut lengths = List::empty(alloc);
    'each: for text in texts {
        lengths.push(text.len() as u64)?;
    }
    Ok(lengths)
}

/// A checkpoint of version 1 as one of version 2, with these outputs.
pub fn renewed(
    alloc: Global,
    job: &Job,
    found: Checkpoint,
    texts: &[Text],
) -> Result<Checkpoint, Memory>
    requires whole { IsWhole job.now }
    ensures { IfOk result (λ c. c ≡ renewed job.now found texts.now) }
{
    let names = output_names(alloc, job)?;
    let lengths = lengths_of(alloc, texts)?;
    Ok(Checkpoint {
        version: 2,
        iteration: found.iteration,
        key: found.key,
        names,
        lengths,
        scalars: found.scalars,
        levels: found.levels,
    })
}
