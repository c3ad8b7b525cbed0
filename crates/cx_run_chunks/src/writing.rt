//! Files that are written anew.

ghost use Rattle.std.specs.Prelude.{◌≡◌, ◌<◌, ◌≤◌, ◌+◌, length, IsTrue, OnOk};
ghost use Rattle.cx_disk.specs.Disk.{Anew, NoLonger};
ghost use Rattle.cx_disk.specs.Keeps.{Keeps};
ghost use Rattle.cx_disk.specs.Moments.{IsDone, Stepped};
ghost use Rattle.cx_run_chunks.specs.Writing.{AreFiles, AreWritten, Writes};

use cx_disk::{Disk, DiskFault, rewrite};
use cx_text::Text;

/// Writes the file at a place anew, and settles it.
fn write_one<D: Disk>(
    disk: &mut D,
    first: u32,
    count: usize,
    place: usize,
    bytes: &[u8],
) -> Result<(), DiskFault>
    requires mounted { IsTrue (D.mounted disk.old) }
    requires files { AreFiles (D.file_count disk.old) first count }
    requires place { place < count }
    ensures done { D.tells → OnOk result
        (IsDone (Anew bytes.now) (first + place) (D.view disk.old) (D.view disk.new)) }
    ensures after { D.tells → Stepped (NoLonger (length bytes.now)) (first + place)
        (D.view disk.old) (D.view disk.new) }
    ensures kept { Keeps D.Disk DiskFault.Failed disk.old disk.new result }
{
    rewrite(disk, first + place as u32, bytes)
}

/// Writes a file for each text from this one on, and settles it.
pub(crate) fn write_files<D: Disk>(
    disk: &mut D,
    first: u32,
    texts: &[Text],
) -> Result<(), DiskFault>
    requires mounted { IsTrue (D.mounted disk.old) }
    requires files { AreFiles (D.file_count disk.old) first (length texts.now) }
    ensures written { D.tells → OnOk result (AreWritten first texts.now (D.view disk.new)) }
    ensures writes { D.tells →
        Writes first (length texts.now) (D.view disk.old) (D.view disk.new) }
    ensures kept { Keeps D.Disk DiskFault.Failed disk.old disk.new result }
{
    'files: for place in 0..texts.len() {
        write_one(disk, first, texts.len(), place, texts[place].as_slice())?;
    }
    Ok(())
}
