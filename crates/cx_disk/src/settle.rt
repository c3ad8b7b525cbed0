//! A change of one file with the sync that settles it.
ghost use Rattle.std.specs.Prelude.{◌≡◌, ◌≤◌, ◌<◌, length, IsTrue, OnOk};
ghost use Rattle.cx_disk.specs.Keeps.{Keeps};
ghost use Rattle.cx_disk.specs.Disk.{Holds, Torn, Front, CutShort};
ghost use Rattle.cx_disk.specs.Files.{IsFile};
ghost use Rattle.cx_disk.specs.Moments.{Stepped, IsDone};

use crate::{Disk, DiskFault};

/// Writes bytes to a file from the offset `at` on, and settles it. The offset isn't past the end.
///
/// `Failed`: the device failed, or it tells nothing and the offset is past the end. The write is then left undone in
/// part or not settled, as after `Memory`.
pub fn put<D: Disk>(disk: &mut D, file: u32, at: u64, bytes: &[u8]) -> Result<(), DiskFault>
    requires mounted { IsTrue (D.mounted disk.old) }
    requires file { IsFile (D.file_count disk.old) file }
    requires start { D.tells → at ≤ length ((D.view disk.old).seen file) }
    ensures done { D.tells → OnOk result
        (IsDone (Holds at bytes.now) file (D.view disk.old) (D.view disk.new)) }
    ensures after { D.tells →
        Stepped (Torn at (length bytes.now)) file (D.view disk.old) (D.view disk.new) }
    ensures kept { Keeps D.Disk DiskFault.Failed disk.old disk.new result }
{
    disk.write_at(file, at, bytes)?;
    disk.sync(file)
}

/// Cuts a file to its first `to` bytes, of which it has at least so many, and settles it.
///
/// `Failed`: the device failed, or it tells nothing and the file is shorter. The cut is then left undone in part or not
/// settled, as after `Memory`.
pub fn trim<D: Disk>(disk: &mut D, file: u32, to: u64) -> Result<(), DiskFault>
    requires mounted { IsTrue (D.mounted disk.old) }
    requires file { IsFile (D.file_count disk.old) file }
    requires within { D.tells → to ≤ length ((D.view disk.old).seen file) }
    ensures done { D.tells → OnOk result
        (IsDone (Front to) file (D.view disk.old) (D.view disk.new)) }
    ensures after { D.tells → Stepped (CutShort to) file (D.view disk.old) (D.view disk.new) }
    ensures kept { Keeps D.Disk DiskFault.Failed disk.old disk.new result }
{
    disk.cut(file, to)?;
    disk.sync(file)
}
