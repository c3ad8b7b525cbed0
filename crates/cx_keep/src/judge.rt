//! The tests of what the newest slot holds.
ghost use Rattle.std.specs.Prelude.{◌≡◌, ◌≢◌, ◌<◌, ◌≤◌, true, Some, length, IsTrue, IfOk, IfErr, OnOk};
ghost use Rattle.cx_disk.specs.Disk.{Files};
ghost use Rattle.cx_disk.specs.Files.{output_limit, slot_count};
ghost use Rattle.cx_disk.specs.Keeps.{Keeps};
ghost use Rattle.cx_disk.specs.Moments.{IsQuiet};
ghost use Rattle.cx_plan.specs.Whole.{IsWhole};
ghost use Rattle.cx_chk.specs.Encoding.{IsVersion};
ghost use Rattle.cx_chk.specs.Reading.{decoded};
ghost use Rattle.cx_keep.specs.Agreement.{Agree};
ghost use Rattle.cx_keep.specs.Fits.{fits_job};
ghost use Rattle.cx_keep.specs.Resuming.{AreLong};
ghost use Rattle.cx_keep.specs.Tests.{Answers, IsFaultOf, SpellsAgreeing, judged, key_judged, tested, or_short, short_in, short_from};
ghost use Rattle.cx_keep.specs.Trails.{file_of_output, with_key};

use crate::agreement::first_apart;
use crate::fault::BeginFault;
use crate::fits::fits;
use cx_chk::{Checkpoint, decode};
use cx_disk::{Disk, DiskFault, named_output, read_whole};
use cx_outputs::output_names;
use cx_plan::Job;
use cx_text::{Memory, Text};
use std::alloc::Global;

/// Tests that a checkpoint's key agrees with the job's up to its iteration.
fn test_key(alloc: Global, found: &Checkpoint, job: &Job) -> Result<(), BeginFault>
    ensures fault { IfErr result (λ e. IsFaultOf e (key_judged job.now found.now)) }
    ensures told { IfErr result (λ e. e ≢ BeginFault.Disk) }
    ensures agrees { OnOk result (Agree found.now.iteration found.now.key job.now.key) }
{
    match first_apart(found.iteration, found.key.as_slice(), job.key.as_slice()) {
        None => Ok(()),
        Some((kept, own)) => {
            let kept = Text::from_slice(alloc, kept)?;
            let own = Text::from_slice(alloc, own)?;
            Err(BeginFault::OtherJob(kept, own))
        }
    }
}

/// A checkpoint under the job's own key.
fn with_own_key(alloc: Global, found: Checkpoint, job: &Job) -> Result<Checkpoint, Memory>
    ensures { IfOk result (λ c. c ≡ with_key job.now.key found) }
{
    let key = job.key.copy(alloc)?;
    Ok(Checkpoint {
        version: found.version,
        iteration: found.iteration,
        key,
        names: found.names,
        lengths: found.lengths,
        scalars: found.scalars,
        levels: found.levels,
    })
}

/// The checkpoint that a slot's bytes spell, if its key agrees with the job's and it fits the job.
fn judge_bytes(alloc: Global, job: &Job, slot: u32, bytes: &[u8]) -> Result<Checkpoint, BeginFault>
    requires whole { IsWhole job.now }
    ensures fault { (files : Files) →
        IfErr result (λ e. IsFaultOf e (judged job.now files slot (decoded bytes.now))) }
    ensures told { IfErr result (λ e. e ≢ BeginFault.Disk) }
    ensures spelled { IfOk result (λ c. SpellsAgreeing bytes.now c) }
    ensures version { IfOk result (λ c. IsVersion c.version c.names c.lengths) }
    ensures key { IfOk result (λ c. c.key ≡ job.now.key) }
    ensures fits { IfOk result (λ c. fits_job job.now c ≡ true) }
{
    let Some(found) = decode(alloc, bytes)? else {
        return Err(BeginFault::Damaged(slot));
    };
    test_key(alloc, &found, job)?;
    let names = output_names(alloc, job)?;
    if !fits(job, names.as_slice(), &found) {
        return Err(BeginFault::Damaged(slot));
    }
    Ok(with_own_key(alloc, found, job)?)
}

/// The checkpoint of a slot under the job's own key, if the slot's key agrees with it and the checkpoint fits the job; else the
/// fault of the first of these tests that fails. It changes no byte.
pub fn judge<D: Disk>(
    alloc: Global,
    disk: &mut D,
    job: &Job,
    slot: u32,
) -> Result<Checkpoint, BeginFault>
    requires mounted { IsTrue (D.mounted disk.old) }
    requires files { slot_count ≤ D.file_count disk.old }
    requires slot { slot < slot_count }
    requires whole { IsWhole job.now }
    ensures fault { D.tells →
        IfErr result (λ e. IsFaultOf e (tested job.now (D.view disk.old).seen slot)) }
    ensures spelled { D.tells →
        IfOk result (λ c. SpellsAgreeing ((D.view disk.old).seen slot) c) }
    ensures version { IfOk result (λ c. IsVersion c.version c.names c.lengths) }
    ensures key { IfOk result (λ c. c.key ≡ job.now.key) }
    ensures fits { IfOk result (λ c. fits_job job.now c ≡ true) }
    ensures quiet { D.tells → IsQuiet (D.view disk.old) (D.view disk.new) }
    ensures kept { Keeps D.Disk BeginFault.Disk disk.old disk.new result }
{
    let bytes = read_whole(alloc, disk, slot)?;
    judge_bytes(alloc, job, slot, bytes.as_slice())
}

/// The first output that is shorter than recorded, as both lengths.
fn short_of<D: Disk>(disk: &mut D, lengths: &[u64]) -> Result<Option<(u64, u64)>, DiskFault>
    requires mounted { IsTrue (D.mounted disk.old) }
    requires few { length lengths.now ≤ output_limit }
    requires files { file_of_output (length lengths.now) ≤ D.file_count disk.old }
    ensures short { D.tells → IfOk result
        (λ found. found ≡ short_from 0 lengths.now (D.view disk.old).seen) }
    ensures quiet { D.tells → IsQuiet (D.view disk.old) (D.view disk.new) }
    ensures kept { Keeps D.Disk DiskFault.Failed disk.old disk.new result }
{
    'each: for output in 0..lengths.len() {
        let count = disk.length(named_output(output as u32))?;
        if count < lengths[output] {
            return Ok(Some((count, lengths[output])));
        }
    }
    Ok(None)
}

/// Tests that no output is shorter than a checkpoint records. It changes no byte.
///
/// `OutputShort`: one is; the first such one counts.
pub fn long_enough<D: Disk>(disk: &mut D, found: &Checkpoint) -> Result<(), BeginFault>
    requires mounted { IsTrue (D.mounted disk.old) }
    requires few { length found.now.lengths ≤ output_limit }
    requires files { file_of_output (length found.now.lengths) ≤ D.file_count disk.old }
    ensures tests { D.tells → Answers (λ _. found.now) result
        (or_short found.now (short_in found.now (D.view disk.old).seen)) }
    ensures long { D.tells → OnOk result (AreLong found.now.lengths (D.view disk.new).seen) }
    ensures quiet { D.tells → IsQuiet (D.view disk.old) (D.view disk.new) }
    ensures kept { Keeps D.Disk BeginFault.Disk disk.old disk.new result }
{
    match short_of(disk, found.lengths.as_slice())? {
        None => Ok(()),
        Some((count, recorded)) => Err(BeginFault::OutputShort(count, recorded)),
    }
}
