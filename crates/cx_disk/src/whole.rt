//! A whole file, which is read, or written anew.
ghost use Rattle.std.specs.Prelude.{◌≡◌, length, IsTrue, IfOk, OnOk};
ghost use Rattle.cx_disk.specs.Keeps.{Keeps};
ghost use Rattle.cx_disk.specs.Files.{IsFile};
ghost use Rattle.cx_disk.specs.Disk.{Anew, NoLonger};
ghost use Rattle.cx_disk.specs.Moments.{IsQuiet, Stepped, IsDone};

use crate::{Disk, DiskFault};
use cx_text::Text;
use std::alloc::Global;

/// The bytes of a file.
///
/// `Failed`: the device failed.
pub fn read_whole<D: Disk>(alloc: Global, disk: &mut D, file: u32) -> Result<Text, DiskFault>
    requires mounted { IsTrue (D.mounted disk.old) }
    requires file { IsFile (D.file_count disk.old) file }
    ensures bytes { D.tells → IfOk result (λ bytes. bytes ≡ (D.view disk.old).seen file) }
    ensures quiet { D.tells → IsQuiet (D.view disk.old) (D.view disk.new) }
    ensures kept { Keeps D.Disk DiskFault.Failed disk.old disk.new result }
{
    let count = disk.length(file)?;
    let mut bytes = vec![in alloc; 0u8; count as usize]?;
    disk.read(file, 0, &mut bytes)?;
    Ok(Text::new(bytes))
}

/// Writes a file anew: it has these bytes then, and no others, and is settled.
///
/// `Failed`: the device failed. The file may then hold any bytes, of which there are no more than it had or was given. So it
/// may after `Memory`.
pub fn rewrite<D: Disk>(disk: &mut D, file: u32, bytes: &[u8]) -> Result<(), DiskFault>
    requires mounted { IsTrue (D.mounted disk.old) }
    requires file { IsFile (D.file_count disk.old) file }
    ensures done { D.tells → OnOk result
        (IsDone (Anew bytes.now) file (D.view disk.old) (D.view disk.new)) }
    ensures after { D.tells →
        Stepped (NoLonger (length bytes.now)) file (D.view disk.old) (D.view disk.new) }
    ensures kept { Keeps D.Disk DiskFault.Failed disk.old disk.new result }
{
    disk.cut(file, 0)?;
    disk.write_at(file, 0, bytes)?;
    disk.sync(file)
}
