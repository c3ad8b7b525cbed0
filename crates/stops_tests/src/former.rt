//! What a former version left of the box.

use crate::boxes::{BOX, FORMER};
use cx_disk::{MemoryDisk, OLD_OUTPUT};
use cx_text::{List, Memory, Text};
use sample_runs::{answer_over, shelf_with};
use std::alloc::Global;
use std::test::Fail;

/// How long the part of a checkpoint is that has the two output files, with their names and their lengths.
const OUTPUTS: usize = 56;

/// Where the key of a checkpoint in a slot ends: the four bytes before it are its length.
fn key_end(slot: &[u8]) -> usize {
    let high = slot.get(19).copied().unwrap_or(0) as usize;
    let low = slot.get(20).copied().unwrap_or(0) as usize;
    21 + 256 * high + low
}

/// The same checkpoint as a former version saved it: of version 1, with one length, of four bytes here, and no name.
pub(crate) fn former_slot(alloc: Global, slot: &[u8], length: &[u8]) -> Result<Text, Memory> {
    let end = key_end(slot);
    let mut text = Text::from_slice(alloc, slot.get(..8).unwrap_or(&[]))?;
    text.push_slice(b"\x01")?;
    text.push_slice(slot.get(9..end).unwrap_or(&[]))?;
    text.push_slice(b"\0\0\0\x01\0\0\0\0")?;
    text.push_slice(length)?;
    text.push_slice(slot.get(end.saturating_add(OUTPUTS)..).unwrap_or(&[]))?;
    Ok(text)
}

/// Which version the slot of iteration 20 is of.
#[derive(Clone, Copy)]
pub(crate) enum Older {
    Former,
    Today,
}

/// The slot of iteration 20, which records 149 bytes of the former output.
fn older_slot(alloc: Global, slot: &[u8], older: Older) -> Result<Text, Memory> {
    match older {
        Older::Former => former_slot(alloc, slot, b"\0\0\0\x95"),
        Older::Today => Text::from_slice(alloc, slot),
    }
}

/// The disk as the box leaves it.
fn box_disk(rt: &HostRuntime) -> Result<MemoryDisk, Fail> {
    let alloc = rt.alloc();
    let mut left = MemoryDisk::new(alloc, List::empty(alloc));
    let mut shelf = shelf_with(alloc, BOX, "", &[])?;
    answer_over(rt, &["run", "t.par"], &mut shelf, &mut left)?;
    Ok(left)
}

/// Adds the two slots as a former version saved them.
fn push_slots(
    alloc: Global,
    files: &mut List<Text>,
    left: &MemoryDisk,
    older: Older,
) -> Result<(), Memory> {
    files.push(older_slot(alloc, left.bytes(0), older)?)?;
    files.push(former_slot(alloc, left.bytes(1), b"\0\0\x01\x2c")?)
}

/// The disk as a former version left it after the checkpoint of iteration 40, with one output of 300 bytes.
pub(crate) fn former_disk(rt: &HostRuntime, older: Older) -> Result<MemoryDisk, Fail> {
    let alloc = rt.alloc();
    let left = box_disk(rt)?;
    let mut files = List::empty(alloc);
    push_slots(alloc, &mut files, &left, older)?;
    for _ in 2..OLD_OUTPUT {
        files.push(Text::new(Vec::new(alloc)))?;
    }
    files.push(Text::from_slice(alloc, FORMER)?)?;
    Ok(MemoryDisk::new(alloc, files))
}
