//! The end of a start from a checkpoint of version 1: each output is written anew.
ghost use Rattle.std.specs.Prelude.{◌≡◌, ◌<◌, ◌≤◌, length, IsTrue, OnOk};
ghost use Rattle.cx_disk.specs.Files.{old_output_file, output_limit};
ghost use Rattle.cx_disk.specs.Disk.{Anew, NoLonger};
ghost use Rattle.cx_disk.specs.Keeps.{Keeps};
ghost use Rattle.cx_disk.specs.Moments.{IsDone, Stepped};
ghost use Rattle.cx_chk.specs.Slots.{SlotsSettled};
ghost use Rattle.cx_keep.specs.Beginning.{RenewMoments, RenewStands};
ghost use Rattle.cx_keep.specs.Renewing.{AreRenewed, LeavesRenewal, RenewsOutputs};
ghost use Rattle.cx_keep.specs.Resuming.{EarlierSame, SlotsKept};
ghost use Rattle.cx_keep.specs.Trails.{file_of_output};

use crate::resume::settle_slots;
use cx_chk::Slots;
use cx_disk::{Disk, DiskFault, named_output, rewrite};
use cx_text::Text;

/// Writes the output with this place anew, and settles it.
fn write_output<D: Disk>(disk: &mut D, place: usize, bytes: &[u8]) -> Result<(), DiskFault>
    requires mounted { IsTrue (D.mounted disk.old) }
    requires few { place < output_limit }
    requires file { file_of_output place < D.file_count disk.old }
    ensures done { D.tells → OnOk result
        (IsDone (Anew bytes.now) (file_of_output place) (D.view disk.old) (D.view disk.new)) }
    ensures after { D.tells → Stepped
        (NoLonger (length bytes.now)) (file_of_output place) (D.view disk.old) (D.view disk.new) }
    ensures kept { Keeps D.Disk DiskFault.Failed disk.old disk.new result }
{
    rewrite(disk, named_output(place as u32), bytes)
}

/// Writes each output anew with its text, and settles it.
fn write_outputs<D: Disk>(disk: &mut D, texts: &[Text]) -> Result<(), DiskFault>
    requires mounted { IsTrue (D.mounted disk.old) }
    requires few { length texts.now ≤ output_limit }
    requires files { file_of_output (length texts.now) ≤ D.file_count disk.old }
    ensures crash { D.tells → RenewsOutputs texts.now (D.view disk.old) (D.view disk.new) }
    ensures moments { D.tells → LeavesRenewal texts.now (D.view disk.old) (D.view disk.new) }
    ensures earlier { D.tells → EarlierSame (D.view disk.old).seen (D.view disk.new).seen }
    ensures renewed { D.tells → OnOk result (AreRenewed texts.now (D.view disk.new)) }
    ensures kept { Keeps D.Disk DiskFault.Failed disk.old disk.new result }
{
    'each: for output in 0..texts.len() {
        write_output(disk, output, texts[output].as_slice())?;
    }
    Ok(())
}

/// Goes on from a checkpoint of version 1: settles the slots, closes those of version 2, and writes each output anew with its
/// text. The former output stays.
pub fn renew<D: Disk>(disk: &mut D, texts: &[Text]) -> Result<(), DiskFault>
    requires mounted { IsTrue (D.mounted disk.old) }
    requires few { length texts.now ≤ output_limit }
    requires files { file_of_output (length texts.now) ≤ D.file_count disk.old }
    ensures stands { D.tells → OnOk result
        (RenewStands texts.now (D.view disk.old) (D.view disk.new)) }
    ensures moments { D.tells → RenewMoments texts.now (D.view disk.old) (D.view disk.new) }
    ensures renewed { D.tells → OnOk result (AreRenewed texts.now (D.view disk.new)) }
    ensures settled { D.tells → OnOk result (SlotsSettled (D.view disk.new)) }
    ensures former { D.tells →
        (D.view disk.new).seen old_output_file ≡ (D.view disk.old).seen old_output_file }
    ensures slots { D.tells → SlotsKept (D.view disk.old).seen (D.view disk.new).seen }
    ensures kept { Keeps D.Disk DiskFault.Failed disk.old disk.new result }
{
    settle_slots(disk)?;
    Slots::close_second(disk)?;
    write_outputs(disk, texts)
}
