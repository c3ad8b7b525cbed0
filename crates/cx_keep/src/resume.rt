//! The end of a start: the slots are settled, and each output is cut to what the checkpoint records, or to nothing.
ghost use Rattle.std.specs.Prelude.{◌≡◌, ◌<◌, ◌≤◌, [], length, IsTrue, OnOk};
ghost use Rattle.cx_disk.specs.Keeps.{Keeps};
ghost use Rattle.cx_disk.specs.Disk.{CutShort, Front, LeavesOnly};
ghost use Rattle.cx_disk.specs.Files.{count_with, old_output_file, output_limit, slot_count};
ghost use Rattle.cx_disk.specs.Moments.{IsDone, IsQuiet, Stepped};
ghost use Rattle.cx_chk.specs.Slots.{SlotsSettled};
ghost use Rattle.cx_keep.specs.Resuming.{AreLong, CutsOutputs, LeavesCut, AreCut, EarlierSame, ResumeMoments, IsWithinEmptying, AreEmptied, SlotsSame};
ghost use Rattle.cx_plan.specs.declared.job.Job.{Job as AnyJob};
ghost use Rattle.cx_keep.specs.Beginning.{IsLeft, ResumeStands};
ghost use Rattle.cx_keep.specs.Trails.{file_of_output};

use cx_chk::Checkpoint;
use cx_disk::{Disk, DiskFault, OLD_OUTPUT, SLOTS, named_output, trim};
use std::alloc::Global;

/// Settles the slots.
pub fn settle_slots<D: Disk>(disk: &mut D) -> Result<(), DiskFault>
    requires mounted { IsTrue (D.mounted disk.old) }
    requires files { slot_count ≤ D.file_count disk.old }
    ensures quiet { D.tells → IsQuiet (D.view disk.old) (D.view disk.new) }
    ensures settled { D.tells → OnOk result (SlotsSettled (D.view disk.new)) }
    ensures kept { Keeps D.Disk DiskFault.Failed disk.old disk.new result }
{
    'each: for slot in 0..SLOTS {
        disk.sync(slot)?;
    }
    Ok(())
}

/// Cuts the output with this place, and settles it.
fn cut_output<D: Disk>(disk: &mut D, place: usize, to: u64) -> Result<(), DiskFault>
    requires mounted { IsTrue (D.mounted disk.old) }
    requires few { place < output_limit }
    requires file { file_of_output place < D.file_count disk.old }
    requires within { D.tells → to ≤ length ((D.view disk.old).seen (file_of_output place)) }
    ensures done { D.tells → OnOk result
        (IsDone (Front to) (file_of_output place) (D.view disk.old) (D.view disk.new)) }
    ensures after { D.tells → Stepped
        (CutShort to) (file_of_output place) (D.view disk.old) (D.view disk.new) }
    ensures kept { Keeps D.Disk DiskFault.Failed disk.old disk.new result }
{
    trim(disk, named_output(place as u32), to)
}

/// Cuts each output to its length, and settles it.
fn cut_outputs<D: Disk>(disk: &mut D, lengths: &[u64]) -> Result<(), DiskFault>
    requires mounted { IsTrue (D.mounted disk.old) }
    requires few { length lengths.now ≤ output_limit }
    requires files { file_of_output (length lengths.now) ≤ D.file_count disk.old }
    requires long { D.tells → AreLong lengths.now (D.view disk.old).seen }
    ensures crash { D.tells → CutsOutputs lengths.now (D.view disk.old) (D.view disk.new) }
    ensures moments { D.tells → LeavesCut lengths.now (D.view disk.old) (D.view disk.new) }
    ensures earlier { D.tells → EarlierSame (D.view disk.old).seen (D.view disk.new).seen }
    ensures cut { D.tells → OnOk result
        (AreCut lengths.now (D.view disk.old) (D.view disk.new)) }
    ensures kept { Keeps D.Disk DiskFault.Failed disk.old disk.new result }
{
    'each: for output in 0..lengths.len() {
        cut_output(disk, output, lengths[output])?;
    }
    Ok(())
}

/// Goes on from a checkpoint: settles the slots, and cuts the outputs to what it records.
pub fn resume<D: Disk>(disk: &mut D, c: &Checkpoint) -> Result<(), DiskFault>
    requires mounted { IsTrue (D.mounted disk.old) }
    requires few { length c.now.lengths ≤ output_limit }
    requires files { file_of_output (length c.now.lengths) ≤ D.file_count disk.old }
    requires long { D.tells → AreLong c.now.lengths (D.view disk.old).seen }
    ensures stands { D.tells → OnOk result
        (ResumeStands c.now (D.view disk.old) (D.view disk.new)) }
    ensures moments { D.tells → ResumeMoments c.now (D.view disk.old) (D.view disk.new) }
    ensures left { D.tells → (job : AnyJob) → OnOk result
        (IsLeft job c.now.lengths (D.view disk.old) (D.view disk.new)) }
    ensures earlier { D.tells → EarlierSame (D.view disk.old).seen (D.view disk.new).seen }
    ensures kept { Keeps D.Disk DiskFault.Failed disk.old disk.new result }
{
    settle_slots(disk)?;
    cut_outputs(disk, c.lengths.as_slice())
}

/// Cuts the former output to nothing where it isn't empty, and settles it.
fn empty_former<D: Disk>(disk: &mut D) -> Result<(), DiskFault>
    requires mounted { IsTrue (D.mounted disk.old) }
    requires files { count_with 0 ≤ D.file_count disk.old }
    ensures after { D.tells → Stepped
        (CutShort 0) old_output_file (D.view disk.old) (D.view disk.new) }
    ensures empty { D.tells → OnOk result ((D.view disk.new).seen old_output_file ≡ []) }
    ensures kept { Keeps D.Disk DiskFault.Failed disk.old disk.new result }
{
    if disk.length(OLD_OUTPUT)? == 0 {
        return Ok(());
    }
    trim(disk, OLD_OUTPUT, 0)
}

/// Cuts each of so many outputs to nothing, and then the former output where it isn't empty. The slots are settled.
pub fn empty<D: Disk>(alloc: Global, disk: &mut D, outputs: usize) -> Result<(), DiskFault>
    requires mounted { IsTrue (D.mounted disk.old) }
    requires few { outputs ≤ output_limit }
    requires files { count_with outputs ≤ D.file_count disk.old }
    requires settled { D.tells → SlotsSettled (D.view disk.old) }
    ensures moments { D.tells → LeavesOnly (D.view disk.old) (D.view disk.new)
        (IsWithinEmptying outputs (D.view disk.old)) }
    ensures slots { D.tells → SlotsSame (D.view disk.old).seen (D.view disk.new).seen }
    ensures emptied { D.tells → OnOk result (AreEmptied outputs (D.view disk.new)) }
    ensures kept { Keeps D.Disk DiskFault.Failed disk.old disk.new result }
{
    let nothing = vec![in alloc; 0u64; outputs]?;
    cut_outputs(disk, &nothing)?;
    empty_former(disk)
}
