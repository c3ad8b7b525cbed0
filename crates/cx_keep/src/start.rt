//! The start of a run on a mounted disk: the tests, and then the slots settled and the outputs cut or made.
ghost use Rattle.std.specs.Prelude.{◌≡◌, ◌≢◌, ◌<◌, true, Some, None, length, IsTrue, OnOk, IfOk, IfErr, IfSome};
ghost use Rattle.cx_disk.specs.Keeps.{Keeps};
ghost use Rattle.cx_plan.specs.Setups.{setup_of};
ghost use Rattle.cx_plan.specs.Whole.{IsWhole};
ghost use Rattle.cx_outputs.specs.Names.{output_count};
ghost use Rattle.cx_plan.specs.declared.job.Recover.TheVariants as recovers;
ghost use Rattle.cx_disk.specs.Files.{count_with, slot_count};
ghost use Rattle.cx_chk.specs.Encoding.{IsVersion};
ghost use Rattle.cx_chk.specs.Slots.{newest_below};
ghost use Rattle.cx_keep.specs.Fits.{fits_job};
ghost use Rattle.cx_keep.specs.Tests.{Answers, SpellsAgreeing, tested, begun, IsRenewal};
ghost use Rattle.cx_keep.specs.Beginning.{HasLengths, LeavesAsIs, IsStarted, StartMoments};

use crate::fault::BeginFault;
use crate::fits::outputs_are_few;
use crate::judge::{judge, long_enough};
use crate::renew::renew;
use crate::resume::{empty, resume, settle_slots};
use crate::splitting::{renewed, split_former};
use cx_chk::{Checkpoint, Slots};
use cx_disk::{Disk, DiskFault};
use cx_plan::{Job, Recover};
use std::alloc::Global;

/// Begins with nothing where no slot is open: settles the slots, and cuts the outputs to nothing.
fn afresh<D: Disk>(alloc: Global, disk: &mut D, job: &Job) -> Result<(), DiskFault>
    requires mounted { IsTrue (D.mounted disk.old) }
    requires files { D.file_count disk.old
        ≡ count_with (output_count (setup_of job.now)) }
    requires whole { IsWhole job.now }
    requires none { D.tells → newest_below slot_count (D.view disk.old).seen ≡ None }
    ensures started { D.tells → OnOk result
        (IsStarted job.now recovers.Autoprobe None (D.view disk.old) (D.view disk.new)) }
    ensures moments { D.tells →
        StartMoments job.now recovers.Autoprobe (D.view disk.old) (D.view disk.new) }
    ensures kept { Keeps D.Disk DiskFault.Failed disk.old disk.new result }
{
    outputs_are_few(job);
    settle_slots(disk)?;
    empty(alloc, disk, job.out_vars.len())
}

/// Gives up all checkpoints, and cuts the outputs to nothing.
fn give_up<D: Disk>(alloc: Global, disk: &mut D, job: &Job) -> Result<(), DiskFault>
    requires mounted { IsTrue (D.mounted disk.old) }
    requires files { D.file_count disk.old
        ≡ count_with (output_count (setup_of job.now)) }
    requires whole { IsWhole job.now }
    ensures started { D.tells → OnOk result
        (IsStarted job.now recovers.No None (D.view disk.old) (D.view disk.new)) }
    ensures moments { D.tells →
        StartMoments job.now recovers.No (D.view disk.old) (D.view disk.new) }
    ensures kept { Keeps D.Disk DiskFault.Failed disk.old disk.new result }
{
    outputs_are_few(job);
    settle_slots(disk)?;
    Slots::close_all(disk)?;
    empty(alloc, disk, job.out_vars.len())
}

/// Goes on from a checkpoint of version 2 that the newest slot holds, if no output is too short.
fn go_on_second<D: Disk>(
    disk: &mut D,
    job: &Job,
    slot: u32,
    iteration: u64,
    found: Checkpoint,
) -> Result<Checkpoint, BeginFault>
    requires mounted { IsTrue (D.mounted disk.old) }
    requires files { D.file_count disk.old
        ≡ count_with (output_count (setup_of job.now)) }
    requires whole { IsWhole job.now }
    requires newest { D.tells →
        newest_below slot_count (D.view disk.old).seen ≡ Some (slot, iteration) }
    requires spelled { D.tells → SpellsAgreeing ((D.view disk.old).seen slot) found }
    requires key { found.key ≡ job.now.key }
    requires fits { fits_job job.now found ≡ true }
    requires version { found.version ≡ 2 }
    requires many { length found.lengths ≡ output_count (setup_of job.now) }
    ensures tests { D.tells → Answers (λ c. c) result
        (tested job.now (D.view disk.old).seen slot) }
    ensures refused { D.tells → IfErr result (LeavesAsIs (D.view disk.old) (D.view disk.new)) }
    ensures started { D.tells → IfOk result
        (λ c. IsStarted job.now recovers.Autoprobe (Some c) (D.view disk.old) (D.view disk.new)) }
    ensures moments { D.tells →
        StartMoments job.now recovers.Autoprobe (D.view disk.old) (D.view disk.new) }
    ensures same { IfOk result (λ c. c ≡ found) }
    ensures kept { Keeps D.Disk BeginFault.Disk disk.old disk.new result }
{
    outputs_are_few(job);
    long_enough(disk, &found)?;
    resume(disk, &found)?;
    Ok(found)
}

/// Goes on from a checkpoint of version 1 that the newest slot holds, if the former output splits.
fn go_on_first<D: Disk>(
    alloc: Global,
    disk: &mut D,
    job: &Job,
    slot: u32,
    iteration: u64,
    found: Checkpoint,
) -> Result<Checkpoint, BeginFault>
    requires mounted { IsTrue (D.mounted disk.old) }
    requires files { D.file_count disk.old
        ≡ count_with (output_count (setup_of job.now)) }
    requires whole { IsWhole job.now }
    requires newest { D.tells →
        newest_below slot_count (D.view disk.old).seen ≡ Some (slot, iteration) }
    requires spelled { D.tells → SpellsAgreeing ((D.view disk.old).seen slot) found }
    requires key { found.key ≡ job.now.key }
    requires fits { fits_job job.now found ≡ true }
    requires version { found.version ≢ 2 }
    requires one { length found.lengths ≡ 1 }
    ensures tests { D.tells → Answers (λ c. c) result
        (tested job.now (D.view disk.old).seen slot) }
    ensures refused { D.tells → IfErr result (LeavesAsIs (D.view disk.old) (D.view disk.new)) }
    ensures started { D.tells → IfOk result
        (λ c. IsStarted job.now recovers.Autoprobe (Some c) (D.view disk.old) (D.view disk.new)) }
    ensures moments { D.tells →
        StartMoments job.now recovers.Autoprobe (D.view disk.old) (D.view disk.new) }
    ensures renewed { IfOk result (IsRenewal job.now found) }
    ensures kept { Keeps D.Disk BeginFault.Disk disk.old disk.new result }
{
    outputs_are_few(job);
    let texts = split_former(alloc, disk, job, slot, found.lengths.as_slice()[0])?;
    let now = renewed(alloc, job, found, texts.as_slice())?;
    renew(disk, texts.as_slice())?;
    Ok(now)
}

/// Goes on from a checkpoint that the newest slot holds, by its version.
fn go_on_from<D: Disk>(
    alloc: Global,
    disk: &mut D,
    job: &Job,
    slot: u32,
    iteration: u64,
    found: Checkpoint,
) -> Result<Checkpoint, BeginFault>
    requires mounted { IsTrue (D.mounted disk.old) }
    requires files { D.file_count disk.old
        ≡ count_with (output_count (setup_of job.now)) }
    requires whole { IsWhole job.now }
    requires newest { D.tells →
        newest_below slot_count (D.view disk.old).seen ≡ Some (slot, iteration) }
    requires spelled { D.tells → SpellsAgreeing ((D.view disk.old).seen slot) found }
    requires key { found.key ≡ job.now.key }
    requires fits { fits_job job.now found ≡ true }
    requires version { IsVersion found.version found.names found.lengths }
    ensures tests { D.tells → Answers (λ c. c) result
        (tested job.now (D.view disk.old).seen slot) }
    ensures refused { D.tells → IfErr result (LeavesAsIs (D.view disk.old) (D.view disk.new)) }
    ensures started { D.tells → IfOk result
        (λ c. IsStarted job.now recovers.Autoprobe (Some c) (D.view disk.old) (D.view disk.new)) }
    ensures moments { D.tells →
        StartMoments job.now recovers.Autoprobe (D.view disk.old) (D.view disk.new) }
    ensures key { IfOk result (λ c. c.key ≡ job.now.key) }
    ensures fits { IfOk result (λ c. fits_job job.now c ≡ true) }
    ensures many { IfOk result (λ c. length c.lengths ≡ output_count (setup_of job.now)) }
    ensures kept { Keeps D.Disk BeginFault.Disk disk.old disk.new result }
{
    if found.version == 2 {
        go_on_second(disk, job, slot, iteration, found)
    } else {
        go_on_first(alloc, disk, job, slot, iteration, found)
    }
}

/// Goes on from what the newest slot holds, if it passes the tests.
fn go_on<D: Disk>(
    alloc: Global,
    disk: &mut D,
    job: &Job,
    slot: u32,
    iteration: u64,
) -> Result<Checkpoint, BeginFault>
    requires mounted { IsTrue (D.mounted disk.old) }
    requires files { D.file_count disk.old
        ≡ count_with (output_count (setup_of job.now)) }
    requires slot { slot < slot_count }
    requires whole { IsWhole job.now }
    requires newest { D.tells →
        newest_below slot_count (D.view disk.old).seen ≡ Some (slot, iteration) }
    ensures tests { D.tells → Answers (λ c. c) result
        (tested job.now (D.view disk.old).seen slot) }
    ensures refused { D.tells → IfErr result (LeavesAsIs (D.view disk.old) (D.view disk.new)) }
    ensures started { D.tells → IfOk result
        (λ c. IsStarted job.now recovers.Autoprobe (Some c) (D.view disk.old) (D.view disk.new)) }
    ensures moments { D.tells →
        StartMoments job.now recovers.Autoprobe (D.view disk.old) (D.view disk.new) }
    ensures key { IfOk result (λ c. c.key ≡ job.now.key) }
    ensures fits { IfOk result (λ c. fits_job job.now c ≡ true) }
    ensures many { IfOk result (λ c. length c.lengths ≡ output_count (setup_of job.now)) }
    ensures kept { Keeps D.Disk BeginFault.Disk disk.old disk.new result }
{
    let found = judge(alloc, disk, job, slot)?;
    go_on_from(alloc, disk, job, slot, iteration, found)
}

/// Where no slot is open.
fn with_none<D: Disk>(
    alloc: Global,
    disk: &mut D,
    job: &Job,
) -> Result<Option<Checkpoint>, BeginFault>
    requires mounted { IsTrue (D.mounted disk.old) }
    requires files { D.file_count disk.old
        ≡ count_with (output_count (setup_of job.now)) }
    requires whole { IsWhole job.now }
    requires kept { job.now.recover ≢ recovers.No }
    requires none { D.tells → newest_below slot_count (D.view disk.old).seen ≡ None }
    ensures begun { D.tells → Answers (λ c. c) result (begun job.now (D.view disk.old).seen) }
    ensures refused { D.tells → IfErr result (LeavesAsIs (D.view disk.old) (D.view disk.new)) }
    ensures started { D.tells → IfOk result
        (λ found. IsStarted job.now job.now.recover found (D.view disk.old) (D.view disk.new)) }
    ensures moments { D.tells →
        StartMoments job.now job.now.recover (D.view disk.old) (D.view disk.new) }
    ensures key { IfOk result (λ found. IfSome found (λ c. c.key ≡ job.now.key)) }
    ensures fits { IfOk result (λ found. IfSome found (λ c. fits_job job.now c ≡ true)) }
    ensures one { IfOk result (HasLengths (output_count (setup_of job.now))) }
    ensures kept { Keeps D.Disk BeginFault.Disk disk.old disk.new result }
{
    if let Recover::Auto = job.recover {
        return Err(BeginFault::NoCheckpoint);
    }
    afresh(alloc, disk, job)?;
    Ok(None)
}

/// Where this slot is the newest.
fn with_newest<D: Disk>(
    alloc: Global,
    disk: &mut D,
    job: &Job,
    slot: u32,
    iteration: u64,
) -> Result<Option<Checkpoint>, BeginFault>
    requires mounted { IsTrue (D.mounted disk.old) }
    requires files { D.file_count disk.old
        ≡ count_with (output_count (setup_of job.now)) }
    requires slot { slot < slot_count }
    requires whole { IsWhole job.now }
    requires kept { job.now.recover ≢ recovers.No }
    requires newest { D.tells →
        newest_below slot_count (D.view disk.old).seen ≡ Some (slot, iteration) }
    ensures begun { D.tells → Answers (λ c. c) result (begun job.now (D.view disk.old).seen) }
    ensures refused { D.tells → IfErr result (LeavesAsIs (D.view disk.old) (D.view disk.new)) }
    ensures started { D.tells → IfOk result
        (λ found. IsStarted job.now job.now.recover found (D.view disk.old) (D.view disk.new)) }
    ensures moments { D.tells →
        StartMoments job.now job.now.recover (D.view disk.old) (D.view disk.new) }
    ensures key { IfOk result (λ found. IfSome found (λ c. c.key ≡ job.now.key)) }
    ensures fits { IfOk result (λ found. IfSome found (λ c. fits_job job.now c ≡ true)) }
    ensures one { IfOk result (HasLengths (output_count (setup_of job.now))) }
    ensures kept { Keeps D.Disk BeginFault.Disk disk.old disk.new result }
{
    let found = go_on(alloc, disk, job, slot, iteration)?;
    Ok(Some(found))
}

/// By the newest slot, if there is one.
fn with_slot<D: Disk>(
    alloc: Global,
    disk: &mut D,
    job: &Job,
    newest: Option<(u32, u64)>,
) -> Result<Option<Checkpoint>, BeginFault>
    requires mounted { IsTrue (D.mounted disk.old) }
    requires files { D.file_count disk.old
        ≡ count_with (output_count (setup_of job.now)) }
    requires slot { IfSome newest (λ f. f.0 < slot_count) }
    requires whole { IsWhole job.now }
    requires kept { job.now.recover ≢ recovers.No }
    requires newest { D.tells → newest_below slot_count (D.view disk.old).seen ≡ newest }
    ensures begun { D.tells → Answers (λ c. c) result (begun job.now (D.view disk.old).seen) }
    ensures refused { D.tells → IfErr result (LeavesAsIs (D.view disk.old) (D.view disk.new)) }
    ensures started { D.tells → IfOk result
        (λ found. IsStarted job.now job.now.recover found (D.view disk.old) (D.view disk.new)) }
    ensures moments { D.tells →
        StartMoments job.now job.now.recover (D.view disk.old) (D.view disk.new) }
    ensures key { IfOk result (λ found. IfSome found (λ c. c.key ≡ job.now.key)) }
    ensures fits { IfOk result (λ found. IfSome found (λ c. fits_job job.now c ≡ true)) }
    ensures one { IfOk result (HasLengths (output_count (setup_of job.now))) }
    ensures kept { Keeps D.Disk BeginFault.Disk disk.old disk.new result }
{
    match newest {
        Some((slot, iteration)) => with_newest(alloc, disk, job, slot, iteration),
        None => with_none(alloc, disk, job),
    }
}

/// Where old checkpoints aren't given up.
fn with_kept<D: Disk>(
    alloc: Global,
    disk: &mut D,
    job: &Job,
) -> Result<Option<Checkpoint>, BeginFault>
    requires mounted { IsTrue (D.mounted disk.old) }
    requires files { D.file_count disk.old
        ≡ count_with (output_count (setup_of job.now)) }
    requires whole { IsWhole job.now }
    requires kept { job.now.recover ≢ recovers.No }
    ensures begun { D.tells → Answers (λ c. c) result (begun job.now (D.view disk.old).seen) }
    ensures refused { D.tells → IfErr result (LeavesAsIs (D.view disk.old) (D.view disk.new)) }
    ensures started { D.tells → IfOk result
        (λ found. IsStarted job.now job.now.recover found (D.view disk.old) (D.view disk.new)) }
    ensures moments { D.tells →
        StartMoments job.now job.now.recover (D.view disk.old) (D.view disk.new) }
    ensures key { IfOk result (λ found. IfSome found (λ c. c.key ≡ job.now.key)) }
    ensures fits { IfOk result (λ found. IfSome found (λ c. fits_job job.now c ≡ true)) }
    ensures one { IfOk result (HasLengths (output_count (setup_of job.now))) }
    ensures kept { Keeps D.Disk BeginFault.Disk disk.old disk.new result }
{
    let newest = Slots::newest(disk)?;
    with_slot(alloc, disk, job, newest)
}

/// A run's start on a mounted disk: from the newest checkpoint, or with none.
pub fn start<D: Disk>(
    alloc: Global,
    disk: &mut D,
    job: &Job,
) -> Result<Option<Checkpoint>, BeginFault>
    requires mounted { IsTrue (D.mounted disk.old) }
    requires files { D.file_count disk.old
        ≡ count_with (output_count (setup_of job.now)) }
    requires whole { IsWhole job.now }
    ensures begun { D.tells → Answers (λ c. c) result (begun job.now (D.view disk.old).seen) }
    ensures refused { D.tells → IfErr result (LeavesAsIs (D.view disk.old) (D.view disk.new)) }
    ensures started { D.tells → IfOk result
        (λ found. IsStarted job.now job.now.recover found (D.view disk.old) (D.view disk.new)) }
    ensures moments { D.tells →
        StartMoments job.now job.now.recover (D.view disk.old) (D.view disk.new) }
    ensures key { IfOk result (λ found. IfSome found (λ c. c.key ≡ job.now.key)) }
    ensures fits { IfOk result (λ found. IfSome found (λ c. fits_job job.now c ≡ true)) }
    ensures one { IfOk result (HasLengths (output_count (setup_of job.now))) }
    ensures kept { Keeps D.Disk BeginFault.Disk disk.old disk.new result }
{
    if let Recover::No = job.recover {
        give_up(alloc, disk, job)?;
        return Ok(None);
    }
    with_kept(alloc, disk, job)
}
