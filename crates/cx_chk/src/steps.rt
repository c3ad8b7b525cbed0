//! The steps by which a slot is closed, filled and opened.
ghost use Rattle.std.specs.Prelude.{◌≡◌, ◌≢◌, ◌<◌, ◌≤◌, [], ◌∷◌, ℕ, List, length, IsTrue, OnOk};
ghost use Rattle.cx_disk.specs.Disk.{IsSettled};
ghost use Rattle.cx_disk.specs.Files.{IsFile};
ghost use Rattle.cx_disk.specs.Keeps.{Keeps};
ghost use Rattle.cx_chk.specs.Slots.{Closes, IsShutIn, StaysClosed, Opens};

use crate::header::header;
use cx_disk::{Disk, DiskFault, put, trim};

/// Closes a slot, and leaves a shut gate in it.
pub fn shut<D: Disk>(disk: &mut D, slot: u32) -> Result<(), DiskFault>
    requires mounted { IsTrue (D.mounted disk.old) }
    requires file { IsFile (D.file_count disk.old) slot }
    requires settled { D.tells → IsSettled (D.view disk.old) slot }
    ensures after { D.tells → Closes slot (D.view disk.old) (D.view disk.new) }
    ensures shut { D.tells → OnOk result (IsShutIn slot (D.view disk.new)) }
    ensures seen { D.tells → OnOk result ((D.view disk.new).seen slot ≡ 0 ∷ []) }
    ensures kept { Keeps D.Disk DiskFault.Failed disk.old disk.new result }
{
    match header(disk, slot)? {
        Some(_) => {
            put(disk, slot, 0, &[0])?;
            disk.cut(slot, 1)
        }
        None => {
            trim(disk, slot, 0)?;
            put(disk, slot, 0, &[0])
        }
    }
}

/// Writes the body of a slot after its shut gate.
pub fn fill<D: Disk>(disk: &mut D, slot: u32, body: &[u8]) -> Result<(), DiskFault>
    requires mounted { IsTrue (D.mounted disk.old) }
    requires file { IsFile (D.file_count disk.old) slot }
    requires shut { D.tells → IsShutIn slot (D.view disk.old) }
    requires seen { D.tells → (D.view disk.old).seen slot ≡ 0 ∷ [] }
    ensures after { D.tells → StaysClosed slot (D.view disk.old) (D.view disk.new) }
    ensures settled { D.tells → OnOk result (IsSettled (D.view disk.new) slot) }
    ensures seen { D.tells → OnOk result ((D.view disk.new).seen slot ≡ 0 ∷ body.now) }
    ensures kept { Keeps D.Disk DiskFault.Failed disk.old disk.new result }
{
    put(disk, slot, 1, body)
}

/// Opens the gate of a slot.
pub fn open<D: Disk>(disk: &mut D, slot: u32, body: &[u8]) -> Result<(), DiskFault>
    requires mounted { IsTrue (D.mounted disk.old) }
    requires file { IsFile (D.file_count disk.old) slot }
    requires settled { D.tells → IsSettled (D.view disk.old) slot }
    requires seen { D.tells → (D.view disk.old).seen slot ≡ 0 ∷ body.now }
    ensures after { D.tells → Opens slot (1 ∷ body.now) (D.view disk.old) (D.view disk.new) }
    ensures settled { D.tells → OnOk result (IsSettled (D.view disk.new) slot) }
    ensures seen { D.tells → OnOk result ((D.view disk.new).seen slot ≡ 1 ∷ body.now) }
    ensures kept { Keeps D.Disk DiskFault.Failed disk.old disk.new result }
{
    put(disk, slot, 0, &[1])
}
