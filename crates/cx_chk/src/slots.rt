//! Saving to the slots, and closing them.
ghost use Rattle.std.specs.Prelude.{◌≡◌, ◌<◌, ◌≤◌, ◌^◌, ◌⊎◌, ◌∷◌, ℕ, Option, None, length, IsTrue, IfOk, IfSome, OnOk};
ghost use Rattle.cx_disk.specs.Disk.{IsSettled};
ghost use Rattle.cx_disk.specs.Files.{IsFile, slot_count};
ghost use Rattle.cx_disk.specs.Keeps.{Keeps};
ghost use Rattle.cx_disk.specs.Moments.{IsQuiet};
ghost use Rattle.cx_chk.specs.Encoding.{IsCheckpoint};
ghost use Rattle.cx_chk.specs.Slots.{header_of, IsNewestIn, NoneOpen, SlotsSettled, OutputsSame};
ghost use Rattle.cx_chk.specs.Slots.{Closes, Replaces, IsSaving, IsSaved, ClosesSlots, LeavesClosing};
ghost use Rattle.cx_chk.specs.Slots.{ShutsOne, IsShutSecond, ShutsSecond, LeavesShutting, KeepsFirst, NoneSecond};

use crate::Checkpoint;
use crate::choose::{newest, next};
use crate::header::{header, mark};
use crate::steps::{fill, open, shut};
use crate::writing::encode;
use cx_disk::{Disk, DiskFault, SLOTS, put, trim};
use std::alloc::Global;

/// The slots of a disk, its first `SLOTS` files. A slot is open where it has at least 17 bytes and the first is 1.
pub struct Slots;

/// Closes a slot, writes a body after its gate, and opens it.
fn save_in<D: Disk>(disk: &mut D, slot: u32, body: &[u8]) -> Result<(), DiskFault>
    requires mounted { IsTrue (D.mounted disk.old) }
    requires file { IsFile (D.file_count disk.old) slot }
    requires settled { D.tells → IsSettled (D.view disk.old) slot }
    ensures after { D.tells → Replaces slot (1 ∷ body.now) (D.view disk.old) (D.view disk.new) }
    ensures settled { D.tells → OnOk result (IsSettled (D.view disk.new) slot) }
    ensures seen { D.tells → OnOk result ((D.view disk.new).seen slot ≡ 1 ∷ body.now) }
    ensures kept { Keeps D.Disk DiskFault.Failed disk.old disk.new result }
{
    shut(disk, slot)?;
    fill(disk, slot, body)?;
    open(disk, slot, body)
}

/// Closes a slot, whatever it holds.
fn close<D: Disk>(disk: &mut D, slot: u32) -> Result<(), DiskFault>
    requires mounted { IsTrue (D.mounted disk.old) }
    requires file { IsFile (D.file_count disk.old) slot }
    requires settled { D.tells → IsSettled (D.view disk.old) slot }
    ensures after { D.tells → Closes slot (D.view disk.old) (D.view disk.new) }
    ensures settled { D.tells → OnOk result (IsSettled (D.view disk.new) slot) }
    ensures closed { D.tells → OnOk result (header_of ((D.view disk.new).seen slot) ≡ None) }
    ensures kept { Keeps D.Disk DiskFault.Failed disk.old disk.new result }
{
    match header(disk, slot)? {
        Some(_) => put(disk, slot, 0, &[0]),
        None => trim(disk, slot, 0),
    }
}

/// Closes a slot that is open and of version 2.
fn shut_second<D: Disk>(disk: &mut D, slot: u32) -> Result<(), DiskFault>
    requires mounted { IsTrue (D.mounted disk.old) }
    requires file { IsFile (D.file_count disk.old) slot }
    requires settled { D.tells → IsSettled (D.view disk.old) slot }
    ensures after { D.tells → ShutsOne slot (D.view disk.old) (D.view disk.new) }
    ensures settled { D.tells → OnOk result (IsSettled (D.view disk.new) slot) }
    ensures closed { D.tells → OnOk result
        (IsShutSecond ((D.view disk.old).seen slot) ((D.view disk.new).seen slot)) }
    ensures kept { Keeps D.Disk DiskFault.Failed disk.old disk.new result }
{
    match mark(disk, slot)? {
        Some((_, true)) => put(disk, slot, 0, &[0]),
        _ => Ok(()),
    }
}

impl Slots {
    /// The newest open slot and its iteration; None where none is open. Of equally new ones those of version 2 go before
    /// the others, and then the first.
    ///
    /// `Failed`: the device failed.
    pub fn newest<D: Disk>(disk: &mut D) -> Result<Option<(u32, u64)>, DiskFault>
        requires mounted { IsTrue (D.mounted disk.old) }
        requires files { slot_count ≤ D.file_count disk.old }
        ensures newest { D.tells → IfOk result (IsNewestIn (D.view disk.old).seen) }
        ensures known { IfOk result (λ found. IfSome found (λ f. f.0 < slot_count)) }
        ensures quiet { D.tells → IsQuiet (D.view disk.old) (D.view disk.new) }
        ensures kept { Keeps D.Disk DiskFault.Failed disk.old disk.new result }
    {
        newest(disk)
    }

    /// Saves a checkpoint to the first of the slots 0 to `keep` that isn't open, else to the oldest of them, the least
    /// number at a tie. At each moment the slot is as it was, or closed, or has the checkpoint, and no other changes.
    ///
    /// `Failed`: the device failed, and the slot may be left closed. So it may after `Memory`.
    pub fn save<D: Disk>(
        alloc: Global,
        disk: &mut D,
        keep: u32,
        c: &Checkpoint,
    ) -> Result<(), DiskFault>
        requires mounted { IsTrue (D.mounted disk.old) }
        requires files { slot_count ≤ D.file_count disk.old }
        requires keep { (1 ≤ keep) × (keep < slot_count) }
        requires fits { IsCheckpoint c.now }
        requires settled { D.tells → SlotsSettled (D.view disk.old) }
        ensures moments { D.tells → IsSaving keep c.now (D.view disk.old) (D.view disk.new) }
        ensures saved { D.tells → OnOk result
            (IsSaved keep c.now (D.view disk.old) (D.view disk.new)) }
        ensures kept { Keeps D.Disk DiskFault.Failed disk.old disk.new result }
    {
        let slot = next(disk, keep)?;
        let Ok(bytes) = encode(alloc, c) else {
            return Err(DiskFault::Memory);
        };
        save_in(disk, slot, &bytes.as_slice()[1..])
    }

    /// Closes all slots. At each moment each is as it was or closed.
    ///
    /// `Failed`: the device failed, and some may be left open. So they may after `Memory`.
    pub fn close_all<D: Disk>(disk: &mut D) -> Result<(), DiskFault>
        requires mounted { IsTrue (D.mounted disk.old) }
        requires files { slot_count ≤ D.file_count disk.old }
        requires settled { D.tells → SlotsSettled (D.view disk.old) }
        ensures crash { D.tells → ClosesSlots (D.view disk.old) (D.view disk.new) }
        ensures moments { D.tells → LeavesClosing (D.view disk.old) (D.view disk.new) }
        ensures seen { D.tells → OutputsSame (D.view disk.old).seen (D.view disk.new).seen }
        ensures closed { D.tells → OnOk result (NoneOpen (D.view disk.new).seen) }
        ensures settled { D.tells → OnOk result (SlotsSettled (D.view disk.new)) }
        ensures kept { Keeps D.Disk DiskFault.Failed disk.old disk.new result }
    {
        'each: for slot in 0..SLOTS {
            close(disk, slot)?;
        }
        Ok(())
    }

    /// Closes the open slots of version 2, and leaves the others as they are. At each moment each is as it was or closed.
    ///
    /// `Failed`: the device failed, and some may be left open. So they may after `Memory`.
    pub fn close_second<D: Disk>(disk: &mut D) -> Result<(), DiskFault>
        requires mounted { IsTrue (D.mounted disk.old) }
        requires files { slot_count ≤ D.file_count disk.old }
        requires settled { D.tells → SlotsSettled (D.view disk.old) }
        ensures crash { D.tells → ShutsSecond (D.view disk.old) (D.view disk.new) }
        ensures moments { D.tells → LeavesShutting (D.view disk.old) (D.view disk.new) }
        ensures seen { D.tells → OutputsSame (D.view disk.old).seen (D.view disk.new).seen }
        ensures first_same { D.tells → KeepsFirst (D.view disk.old).seen (D.view disk.new).seen }
        ensures closed { D.tells → OnOk result
            (NoneSecond (D.view disk.old).seen (D.view disk.new).seen) }
        ensures settled { D.tells → OnOk result (SlotsSettled (D.view disk.new)) }
        ensures kept { Keeps D.Disk DiskFault.Failed disk.old disk.new result }
    {
        'each: for slot in 0..SLOTS {
            shut_second(disk, slot)?;
        }
        Ok(())
    }
}
