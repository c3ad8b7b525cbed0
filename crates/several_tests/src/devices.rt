//! Eight disks and eight wires, of which those of the second job may fail.
ghost use Rattle.std.specs.Prelude.{◌≡◌, ◌≤◌, IfOk, length};
ghost use Rattle.std.specs.List.{AllByRecursion};
ghost use Rattle.cx_core.specs.Starts.{AreEmpty};
ghost use Rattle.cx_wire.specs.Memory.{told_queue};

use cx_disk::{FuseDisk, MemoryDisk, NotingDisk};
use cx_text::{List, Memory};
use cx_wire::{FailingWire, MemoryWire};
use sample_runs::{failing, wire};
use std::alloc::{AllocError, Global};
use std::cell::RefCell;
use std::rc::Rc;

/// A disk without files.
fn disk(alloc: Global) -> MemoryDisk {
    MemoryDisk::new(alloc, List::empty(alloc))
}

/// Disks without files.
pub(crate) fn disks(alloc: Global) -> Result<Vec<MemoryDisk>, Memory> {
    let mut disks = Vec::new(alloc);
    for _ in 0..8_u8 {
        disks.push(disk(alloc))?;
    }
    Ok(disks)
}

/// The same, but the second one stops after so many calls.
pub(crate) fn fuses(alloc: Global, calls: u64) -> Result<Vec<FuseDisk>, Memory> {
    let mut disks = Vec::new(alloc);
    for job in 0..8_u8 {
        let most = if job == 1 { calls } else { u64::MAX };
        disks.push(FuseDisk::new(disk(alloc), most))?;
    }
    Ok(disks)
}

/// A list that several disks may hold.
pub(crate) fn new_list(alloc: Global) -> Result<Rc<RefCell<Vec<u32>>>, AllocError> {
    Ok(Rc::new(alloc, RefCell::new(Vec::new(alloc)))?)
}

/// Disks that note in one list whose calls change a file.
pub(crate) fn noting(
    alloc: Global,
    list: &Rc<RefCell<Vec<u32>>>,
) -> Result<Vec<NotingDisk>, Memory> {
    let mut disks = Vec::new(alloc);
    for job in 0..8_u32 {
        disks.push(NotingDisk::new(disk(alloc), job, list.clone()?))?;
    }
    Ok(disks)
}

/// Wires in memory.
pub(crate) fn wires(alloc: Global) -> Result<Vec<MemoryWire>, Memory>
    ensures many { IfOk result (λ wires. length wires.items ≡ 8) }
    ensures served { IfOk result (λ wires. AllByRecursion
        (λ wire. (512 ≤ wire.parts) × AreEmpty (told_queue wire)) wires.items) }
{
    let mut wires = Vec::new(alloc);
    'wires: for _ in 0..8_u8 {
        wires.push(wire(alloc)?)?;
    }
    Ok(wires)
}

/// The same, but one call of the second one fails.
pub(crate) fn cut_wires(alloc: Global, call: u64) -> Result<Vec<FailingWire>, Memory>
    ensures many { IfOk result (λ wires. length wires.items ≡ 8) }
    ensures served { IfOk result (λ wires. AllByRecursion
        (λ wire. (512 ≤ wire.wire.parts) × AreEmpty (told_queue wire.wire)) wires.items) }
{
    let mut wires = Vec::new(alloc);
    'wires: for job in 0..8_u8 {
        let fail = if job == 1 { call } else { u64::MAX };
        wires.push(failing(alloc, fail)?)?;
    }
    Ok(wires)
}
