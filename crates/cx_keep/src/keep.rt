//! The keeper of a run's outputs and checkpoints.
ghost use Rattle.std.specs.Prelude.{◌≡◌, ◌<◌, ◌≤◌, ◌+◌, ◌^◌, true, length, IsTrue, OnOk, OnErr, IfOk, IfErr, IfSome};
ghost use Rattle.cx_disk.specs.Disk.{IsNamed};
ghost use Rattle.cx_disk.specs.Files.{count_with, output_limit};
ghost use Rattle.cx_disk.specs.Cause.{HasCause};
ghost use Rattle.cx_disk.specs.Keeps.{Keeps};
ghost use Rattle.cx_disk.specs.Moments.{IsQuiet};
ghost use Rattle.cx_plan.specs.Whole.{IsWhole};
ghost use Rattle.cx_plan.specs.Setups.{setup_of};
ghost use Rattle.cx_outputs.specs.Names.{output_count, output_names};
ghost use Rattle.cx_chk.specs.Encoding.{IsCheckpoint};
ghost use Rattle.cx_chk.specs.Slots.{SlotsSettled, OutputsSame, IsSaving, IsSaved};
ghost use Rattle.cx_keep.specs.Fits.{fits_job};
ghost use Rattle.cx_keep.specs.Tests.{Answers, begun};
ghost use Rattle.cx_keep.specs.Trails.{Counts, OutputsSettled, file_of_output};
ghost use Rattle.cx_keep.specs.Beginning.{HasLengths, LeavesAsIs, IsStarted, StartMoments, lengths_left};
ghost use Rattle.cx_keep.specs.Keeping.{HasOutputOf, keeper_of, place_of, written, grown};
ghost use Rattle.cx_keep.specs.Keeping.{IsAppended, KeepsRest, AppendMoments, SaveStands, SaveMoments};

use crate::fault::BeginFault;
use crate::fits::outputs_are_few;
use crate::start::start;
use cx_chk::{Checkpoint, Slots};
use cx_disk::{Disk, DiskFault, named_output};
use cx_outputs::{output_names, place_in};
use cx_plan::{Job, VarId};
use cx_text::Memory;
use std::alloc::Global;
use std::marker::Model;

/// A keeper of a run's outputs and checkpoints. It appends to the output of each variable that is written, and saves checkpoints
/// to the slots, so that at each moment a crash leaves files from which the run can go on. It knows the lengths of the outputs by
/// its own count. Between two calls the disk is changed by this keeper alone, and after a call that failed it isn't used again.
#[derive(Debug, Drop)]
pub struct Keep {
    keep: u32,
    vars: Vec<VarId>,
    lengths: Vec<u64>,
}

impl Model for Keep {
    ghost use Rattle.cx_keep.specs.Keeping.{Keeper, IsKeeper};

    ghost Value = { Keeper };

    ghost view = { λ k. record { keep = k.keep; vars = k.vars.items; lengths = k.lengths.items } };

    ghost invariant = { λ k. IsKeeper
        (record { keep = k.keep; vars = k.vars.items; lengths = k.lengths.items }) };
}

/// Settles so many outputs.
fn settle<D: Disk>(disk: &mut D, outputs: u32) -> Result<(), DiskFault>
    requires mounted { IsTrue (D.mounted disk.old) }
    requires few { outputs ≤ output_limit }
    requires files { count_with outputs ≤ D.file_count disk.old }
    ensures quiet { D.tells → IsQuiet (D.view disk.old) (D.view disk.new) }
    ensures settled { D.tells → OnOk result (OutputsSettled outputs (D.view disk.new)) }
    ensures kept { Keeps D.Disk DiskFault.Failed disk.old disk.new result }
{
    'each: for output in 0..outputs {
        disk.sync(named_output(output))?;
    }
    Ok(())
}

/// Appends a piece to the output with this place, which ends at this offset.
fn append<D: Disk>(disk: &mut D, place: usize, at: u64, piece: &[u8]) -> Result<(), DiskFault>
    requires mounted { IsTrue (D.mounted disk.old) }
    requires few { place < output_limit }
    requires file { file_of_output place < D.file_count disk.old }
    requires end { D.tells → at ≡ length ((D.view disk.old).seen (file_of_output place)) }
    ensures appended { D.tells → OnOk result
        (IsAppended place piece.now (D.view disk.old) (D.view disk.new)) }
    ensures rest { D.tells → KeepsRest place (D.view disk.old) (D.view disk.new) }
    ensures moments { D.tells →
        AppendMoments place piece.now (D.view disk.old) (D.view disk.new) }
    ensures kept { Keeps D.Disk DiskFault.Failed disk.old disk.new result }
{
    disk.write_at(named_output(place as u32), at, piece)
}

/// The lengths of so many outputs after a start.
fn lengths_of(alloc: Global, outputs: usize, found: &Option<Checkpoint>) -> Result<Vec<u64>, Memory>
    ensures { IfOk result (λ lengths. lengths.items ≡ lengths_left outputs found.now) }
{
    match found {
        Some(found) => Ok(found.lengths.as_slice().to_vec(alloc)?),
        None => Ok(vec![in alloc; 0u64; outputs]?),
    }
}

impl Keep {
    /// A run's start on a mounted disk.
    fn begin_mounted<D: Disk>(
        alloc: Global,
        disk: &mut D,
        job: &Job,
    ) -> Result<(Keep, Option<Checkpoint>), BeginFault>
        requires mounted { IsTrue (D.mounted disk.old) }
        requires files { D.file_count disk.old
            ≡ count_with (output_count (setup_of job.now)) }
        requires whole { IsWhole job.now }
        ensures begun { D.tells → Answers (λ r. r.1) result
            (begun job.now (D.view disk.old).seen) }
        ensures refused { D.tells →
            IfErr result (LeavesAsIs (D.view disk.old) (D.view disk.new)) }
        ensures started { D.tells → IfOk result
            (λ r. IsStarted job.now job.now.recover r.1 (D.view disk.old) (D.view disk.new)) }
        ensures moments { D.tells →
            StartMoments job.now job.now.recover (D.view disk.old) (D.view disk.new) }
        ensures key { IfOk result (λ r. IfSome r.1 (λ c. c.key ≡ job.now.key)) }
        ensures fits { IfOk result (λ r. IfSome r.1 (λ c. fits_job job.now c ≡ true)) }
        ensures keeper { IfOk result (λ r. (r.0 ≡ keeper_of job.now r.1)
            × HasLengths (output_count (setup_of job.now)) r.1) }
        ensures kept { Keeps D.Disk BeginFault.Disk disk.old disk.new result }
    {
        outputs_are_few(job);
        let found = start(alloc, disk, job)?;
        let lengths = lengths_of(alloc, job.out_vars.len(), &found)?;
        let vars = job.out_vars.as_slice().to_vec(alloc)?;
        let keep = Keep {
            keep: job.keep,
            vars,
            lengths,
        };
        Ok((keep, found))
    }

    /// Begins a run: mounts the disk with the job's folders and output files, tests its files, settles the slots, and cuts or
    /// makes the outputs. The run goes on from the checkpoint of the answer, whose recorded lengths the outputs then have, or with
    /// none from empty outputs. On any disk, a checkpoint that is answered has the job's key, fits the job and records a length for
    /// each output. The key of its slot may differ from the job's in steer lines of later iterations alone.
    ///
    /// The newest slot is the open one of the greatest iteration; of equal ones those whose version byte is 2 go before the
    /// others, and then the first. From version 2 each output is cut to its recorded length. From version 1 the old output is
    /// split by the variables' names: the open slots of version 2 are closed, each output is written anew with its part, and the
    /// old output stays. The answer is then that state in version 2. With no checkpoint each output is cut to nothing, and the old
    /// output where it isn't empty. With `Recover::No` all slots are closed and none is tested. A start that is refused by one of
    /// the tests, which are made in this order, changes no byte.
    ///
    /// `NoCheckpoint`: no slot is open, under `Recover::Auto`. `Damaged`: the newest slot spells no checkpoint. `OtherJob`: its
    /// key and the job's, both without steer lines of later iterations, have lines that differ. `Damaged`: its iteration isn't
    /// due, or its counts, names or values don't fit the job. `OutputShort`: an output is shorter than it records, the first such
    /// one in the order of the variables, or for version 1 the old output. `OldTooLong`: that of version 1 is recorded with more
    /// than 268,435,456 bytes. `Damaged`: it doesn't split. `Disk`: the disk failed. After `Disk` and `Memory` some slots may be
    /// closed under `Recover::No` or from version 1, and the outputs cut.
    pub fn begin<D: Disk>(
        alloc: Global,
        disk: &mut D,
        job: &Job,
    ) -> Result<(Keep, Option<Checkpoint>), BeginFault>
        requires whole { IsWhole job.now }
        ensures begun { D.tells → Answers (λ r. r.1) result
            (begun job.now (D.view disk.old).seen) }
        ensures refused { D.tells →
            IfErr result (LeavesAsIs (D.view disk.old) (D.view disk.new)) }
        ensures started { D.tells → IfOk result
            (λ r. IsStarted job.now job.now.recover r.1 (D.view disk.old) (D.view disk.new)) }
        ensures moments { D.tells →
            StartMoments job.now job.now.recover (D.view disk.old) (D.view disk.new) }
        ensures key { IfOk result (λ r. IfSome r.1 (λ c. c.key ≡ job.now.key)) }
        ensures fits { IfOk result (λ r. IfSome r.1 (λ c. fits_job job.now c ≡ true)) }
        ensures keeper { IfOk result (λ r. (r.0 ≡ keeper_of job.now r.1)
            × HasLengths (output_count (setup_of job.now)) r.1) }
        ensures mounted { OnOk result (IsTrue (D.mounted disk.new)) }
        ensures folders { OnOk result (IsNamed job.now.out_dir
            (output_names (setup_of job.now)) job.now.chk_dir (D.folders disk.new)) }
        ensures count { OnOk result
            (D.file_count disk.new ≡ count_with (output_count (setup_of job.now))) }
        ensures cause { HasCause BeginFault.Disk (D.faults disk.old) (D.faults disk.new) result }
    {
        let names = output_names(alloc, job)?;
        disk.mount(&job.out_dir, &names, &job.chk_dir)?;
        Keep::begin_mounted(alloc, disk, job)
    }

    /// Appends a piece to the output of a variable that is written, which with it has at most 2^32 bytes. It is settled by the
    /// next `save` or `finish`.
    ///
    /// `Failed`: the disk failed. The output then has what it had, and maybe bytes behind it. So it may after `Memory`.
    pub fn write_out<D: Disk>(
        &mut self,
        disk: &mut D,
        var: VarId,
        bytes: &[u8],
    ) -> Result<(), DiskFault>
        requires mounted { IsTrue (D.mounted disk.old) }
        requires var { HasOutputOf self.old var }
        requires files { count_with (length self.old.vars) ≤ D.file_count disk.old }
        requires room { written self.old var + length bytes.now ≤ 2 ^ 32 }
        requires counts { D.tells → Counts self.old.lengths (D.view disk.old) }
        ensures counts { D.tells → OnOk result (Counts self.new.lengths (D.view disk.new)) }
        ensures keeper { OnOk result (self.new ≡ grown self.old var (length bytes.now)) }
        ensures same { OnErr result (self.new ≡ self.old) }
        ensures appended { D.tells → OnOk result (IsAppended (place_of self.old var) bytes.now
            (D.view disk.old) (D.view disk.new)) }
        ensures rest { D.tells →
            KeepsRest (place_of self.old var) (D.view disk.old) (D.view disk.new) }
        ensures moments { D.tells → AppendMoments (place_of self.old var) bytes.now
            (D.view disk.old) (D.view disk.new) }
        ensures kept { Keeps D.Disk DiskFault.Failed disk.old disk.new result }
    {
        let place = place_in(&self.vars, var);
        let at = self.lengths[place];
        append(disk, place, at, bytes)?;
        self.lengths[place] = at + bytes.len() as u64;
        Ok(())
    }

    /// Settles the outputs and saves a checkpoint, to the first slot that isn't open, else to the oldest one. The checkpoint is of
    /// version 2, names the output files as the disk was mounted with them, and records the lengths that they have. Its key and its
    /// lists have fewer than 2^32 items each.
    ///
    /// `Failed`: the disk failed, and the slot may be left closed. So it may after `Memory`.
    pub fn save<D: Disk>(
        &mut self,
        alloc: Global,
        disk: &mut D,
        c: &Checkpoint,
    ) -> Result<(), DiskFault>
        requires mounted { IsTrue (D.mounted disk.old) }
        requires files { count_with (length self.old.vars) ≤ D.file_count disk.old }
        requires fits { IsCheckpoint c.now }
        requires version { c.now.version ≡ 2 }
        requires names { c.now.names ≡ (D.folders disk.old).names }
        requires lengths { c.now.lengths ≡ self.old.lengths }
        requires counts { D.tells → Counts self.old.lengths (D.view disk.old) }
        requires slots { D.tells → SlotsSettled (D.view disk.old) }
        ensures keeper { self.new ≡ self.old }
        ensures outputs { D.tells → OutputsSame (D.view disk.old).seen (D.view disk.new).seen }
        ensures saving { D.tells →
            IsSaving self.old.keep c.now (D.view disk.old) (D.view disk.new) }
        ensures saved { D.tells → OnOk result
            (IsSaved self.old.keep c.now (D.view disk.old) (D.view disk.new)) }
        ensures stands { D.tells → OnOk result
            (SaveStands c.now (D.view disk.old) (D.view disk.new)) }
        ensures moments { D.tells → SaveMoments c.now (D.view disk.old) (D.view disk.new) }
        ensures kept { Keeps D.Disk DiskFault.Failed disk.old disk.new result }
    {
        settle(disk, self.lengths.len() as u32)?;
        Slots::save(alloc, disk, self.keep, c)
    }

    /// Settles the outputs.
    ///
    /// `Failed`: the disk failed.
    pub fn finish<D: Disk>(&mut self, disk: &mut D) -> Result<(), DiskFault>
        requires mounted { IsTrue (D.mounted disk.old) }
        requires files { count_with (length self.old.vars) ≤ D.file_count disk.old }
        ensures keeper { self.new ≡ self.old }
        ensures quiet { D.tells → IsQuiet (D.view disk.old) (D.view disk.new) }
        ensures settled { D.tells → OnOk result
            (OutputsSettled (length self.old.lengths) (D.view disk.new)) }
        ensures kept { Keeps D.Disk DiskFault.Failed disk.old disk.new result }
    {
        settle(disk, self.lengths.len() as u32)
    }
}
