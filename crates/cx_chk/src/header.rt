//! What the first bytes of a slot say.
ghost use Rattle.std.specs.Prelude.{◌≡◌, ◌<◌, ◌≤◌, length, IsTrue, IfOk};
ghost use Rattle.cx_disk.specs.Keeps.{Keeps};
ghost use Rattle.cx_disk.specs.Moments.{IsQuiet};
ghost use Rattle.cx_disk.specs.Files.{IsFile};
ghost use Rattle.cx_chk.specs.Slots.{header_of, mark_of};

use cx_disk::{Disk, DiskFault};

/// Where the version is: after the gate and the format.
const VERSION: u64 = 8;

/// The bytes that an open slot has at least: the gate, the format and the iteration.
const HEADER: u64 = 17;

/// The iteration of a slot, if it is open.
pub fn header<D: Disk>(disk: &mut D, slot: u32) -> Result<Option<u64>, DiskFault>
    requires mounted { IsTrue (D.mounted disk.old) }
    requires file { IsFile (D.file_count disk.old) slot }
    ensures value { D.tells → IfOk result
        (λ found. found ≡ header_of ((D.view disk.old).seen slot)) }
    ensures quiet { D.tells → IsQuiet (D.view disk.old) (D.view disk.new) }
    ensures kept { Keeps D.Disk DiskFault.Failed disk.old disk.new result }
{
    let count = disk.length(slot)?;
    if count < HEADER {
        return Ok(None);
    }
    let mut gate = [0; 1];
    disk.read(slot, 0, &mut gate)?;
    if gate[0] != 1 {
        return Ok(None);
    }
    let mut number = [0; 8];
    disk.read(slot, 9, &mut number)?;
    Ok(Some(u64::from_be_bytes(number)))
}

/// The iteration of a slot and whether its version byte is 2, if it is open.
pub fn mark<D: Disk>(disk: &mut D, slot: u32) -> Result<Option<(u64, bool)>, DiskFault>
    requires mounted { IsTrue (D.mounted disk.old) }
    requires file { IsFile (D.file_count disk.old) slot }
    ensures value { D.tells → IfOk result
        (λ found. found ≡ mark_of ((D.view disk.old).seen slot)) }
    ensures quiet { D.tells → IsQuiet (D.view disk.old) (D.view disk.new) }
    ensures kept { Keeps D.Disk DiskFault.Failed disk.old disk.new result }
{
    match header(disk, slot)? {
        Some(iteration) => {
            let mut version = [0; 1];
            disk.read(slot, VERSION, &mut version)?;
            Ok(Some((iteration, version[0] == 2)))
        }
        None => Ok(None),
    }
}
