//! The top call over objects in memory.
ghost use Rattle.std.specs.Prelude.{◌≤◌};
ghost use Rattle.cx_core.specs.Starts.{AreEmpty};

use crate::carriers::wire;
use crate::routines::status_of;
use cx_disk::{Disk, MemoryDisk};
use cx_rule::Meter;
use cx_run::{MemoryShelf, MemorySink, Shelf};
use cx_text::{List, Memory, Text};
use cx_turns::{SeededTurns, Turns};
use cx_wire::Wire;
use sample_files::{FILES, File};
use std::alloc::Global;
use std::test::Fail;

/// The words of a command.
pub fn texts(alloc: Global, words: &[&str]) -> Result<Vec<Text>, Memory> {
    let mut texts = Vec::new(alloc);
    for word in words {
        texts.push(Text::from_slice(alloc, word.as_bytes())?)?;
    }
    Ok(texts)
}

/// Adds files to those of a shelf.
pub fn push_files(
    alloc: Global,
    list: &mut Vec<(Text, Text)>,
    files: &[File],
) -> Result<(), Memory> {
    for file in files {
        list.push((
            Text::from_slice(alloc, file.name.as_bytes())?,
            Text::from_slice(alloc, file.bytes)?,
        ))?;
    }
    Ok(())
}

/// A shelf of files; of several of one name the first counts.
pub fn shelf(alloc: Global, files: &[File], more: &[File]) -> Result<MemoryShelf, Memory> {
    let mut list = Vec::new(alloc);
    push_files(alloc, &mut list, files)?;
    push_files(alloc, &mut list, more)?;
    Ok(MemoryShelf::new(List::new(list)))
}

/// A sink that fails in the calls of these numbers.
pub fn sink(alloc: Global, fail: &[u64]) -> Result<MemorySink, Memory> {
    MemorySink::new(alloc, 10_000, List::new(fail.to_vec(alloc)?))
}

/// The output files of the first variable that is written, and of the second one.
pub const FIRST_OUTPUT: usize = 9;

pub const SECOND_OUTPUT: usize = 10;

/// What a call came to: its status, what is printed, the two output files, and how much is computed and exchanged.
#[derive(Drop)]
pub struct Outcome {
    pub status: u8,
    pub printed: Vec<u8>,
    pub first: Vec<u8>,
    pub second: Vec<u8>,
    pub points: u128,
    pub received: u64,
    pub sum: u64,
}

/// The status of a command over these devices.
pub fn status_over<H: Shelf, D: Disk, W: Wire, T: Turns>(
    rt: &HostRuntime,
    words: &[&str],
    shelf: &mut H,
    disk: &mut D,
    wire: &mut W,
    turns: &mut T,
    out: &mut MemorySink,
    meter: &mut Meter,
) -> Result<u8, Fail>
    requires parts { 512 ≤ W.parts wire.old }
    requires empty { AreEmpty (W.queue wire.old) }
{
    let words = texts(rt.alloc(), words)?;
    let status = status_of(rt.alloc(), &words, shelf, disk, wire, turns, out, meter)?;
    Ok(status)
}

/// What a command comes to over a shelf and a disk, whose outputs aren't looked at.
pub fn answer_over<H: Shelf, D: Disk>(
    rt: &HostRuntime,
    words: &[&str],
    shelf: &mut H,
    disk: &mut D,
) -> Result<Outcome, Fail> {
    let alloc = rt.alloc();
    let mut wire = wire(alloc)?;
    let mut turns = SeededTurns::new();
    let mut out = sink(alloc, &[])?;
    let mut meter = Meter::new(rt);
    let status = status_over(
        rt, words, shelf, disk, &mut wire, &mut turns, &mut out, &mut meter,
    )?;
    Ok(Outcome {
        status,
        printed: out.bytes().to_vec(alloc)?,
        first: Vec::new(alloc),
        second: Vec::new(alloc),
        points: meter.count(),
        received: wire.received(),
        sum: wire.received_sum(),
    })
}

/// What a command comes to over a shelf, on this disk.
pub fn answer_on(
    rt: &HostRuntime,
    words: &[&str],
    shelf: &mut MemoryShelf,
    disk: &mut MemoryDisk,
) -> Result<Outcome, Fail> {
    let mut came = answer_over(rt, words, shelf, disk)?;
    came.first = disk.bytes(FIRST_OUTPUT).to_vec(rt.alloc())?;
    came.second = disk.bytes(SECOND_OUTPUT).to_vec(rt.alloc())?;
    Ok(came)
}

/// What a command comes to over a shelf, on a new disk.
pub fn answer_to(
    rt: &HostRuntime,
    words: &[&str],
    shelf: &mut MemoryShelf,
) -> Result<Outcome, Fail> {
    let alloc = rt.alloc();
    let mut disk = MemoryDisk::new(alloc, List::empty(alloc));
    answer_on(rt, words, shelf, &mut disk)
}

/// A shelf with the parameter file `t.par`, which has more lines behind those of a file, and with other files.
pub fn shelf_with(
    alloc: Global,
    file: &[u8],
    more: &str,
    others: &[File],
) -> Result<MemoryShelf, Memory> {
    let mut text = Text::from_slice(alloc, file)?;
    text.push_slice(more.as_bytes())?;
    let mut list = Vec::new(alloc);
    list.push((Text::from_slice(alloc, b"t.par")?, text))?;
    push_files(alloc, &mut list, others)?;
    push_files(alloc, &mut list, FILES)?;
    Ok(MemoryShelf::new(List::new(list)))
}
