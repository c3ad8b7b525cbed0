//! A job whose disk or wire fails, beside one that goes on.

use crate::calls::{Came, call, holds, is_told};
use crate::devices::{cut_wires, disks, fuses, wires};
use cx_disk::{FuseDisk, MemoryDisk};
use sample_runs::samples::{BOX_FIELDS, BOX_SUMS, CA_OUTPUT};
use std::alloc::Global;
use std::test::Fail;
use test_cases::same;

/// The box, and the automaton, whose devices fail.
const BOX_FIRST: &[&str] = &["batch", "box.par", "ca.par"];

/// The automaton, and the box, whose disk fails.
const BOX_LAST: &[&str] = &["batch", "ca.par", "box.par"];

/// How many calls of its disk the automaton makes: 36 up to the first piece (the mount; a sync, a look, a cut and a sync of each
/// slot; a cut and a sync of the output; a look at the old one), three pieces, and the output's sync.
const DISK_CALLS: u64 = 40;

/// How many calls of its wire: it exchanges twice, and then sends and receives two messages.
const WIRE_CALLS: u64 = 8;

/// What a crash leaves of each disk, of all that came since its last syncs nothing.
fn images(alloc: Global, disks: Vec<FuseDisk>) -> Result<Vec<MemoryDisk>, Fail> {
    let mut images = Vec::new(alloc);
    for disk in disks {
        images.push(disk.into_image(0)?)?;
    }
    Ok(images)
}

/// What words come to where the second disk stops after so many calls, and what all disks hold then.
fn stopped(rt: &HostRuntime, words: &[&str], calls: u64) -> Result<(Came, Vec<MemoryDisk>), Fail> {
    let alloc = rt.alloc();
    let mut disks = fuses(alloc, calls)?;
    let mut wires = wires(alloc)?;
    let came = call(rt, words, &mut disks, &mut wires)?;
    let left = images(alloc, disks)?;
    Ok((came, left))
}

/// Tests that the box ends as ever where the automaton's disk stops after so many calls.
fn disk_fails(rt: &HostRuntime, calls: u64) -> Result<(), Fail> {
    let (came, left) = stopped(rt, BOX_FIRST, calls)?;
    let lines = "box.par: done: iteration 40\nca.par: device: disk\n";
    is_told(&calls, &came, 4, lines)?;
    holds(&left, 0, 9, BOX_FIELDS)
}

#[test]
fn each_call_of_a_disk_fails(rt: HostRuntime) -> Result<(), Fail> {
    for calls in 0..DISK_CALLS {
        disk_fails(&rt, calls)?;
    }
    let (came, _left) = stopped(&rt, BOX_FIRST, DISK_CALLS)?;
    same(&"with all calls", &came.status, &0)
}

/// Tests that the box ends as ever, and what is told of the automaton, whose wire fails in this call.
fn wire_fails(rt: &HostRuntime, call_that_fails: u64, status: u8, lines: &str) -> Result<(), Fail> {
    let alloc = rt.alloc();
    let mut disks = disks(alloc)?;
    let mut wires = cut_wires(alloc, call_that_fails)?;
    let came = call(rt, BOX_FIRST, &mut disks, &mut wires)?;
    is_told(&call_that_fails, &came, status, lines)?;
    holds(&disks, 0, 9, BOX_FIELDS)
}

#[test]
fn each_call_of_a_wire_fails(rt: HostRuntime) -> Result<(), Fail> {
    let lines = "box.par: done: iteration 40\nca.par: device: wire\n";
    for calls in 0..WIRE_CALLS {
        wire_fails(&rt, calls, 4, lines)?;
    }
    let lines = "box.par: done: iteration 40\nca.par: done: iteration 2\n";
    wire_fails(&rt, WIRE_CALLS, 0, lines)
}

#[test]
fn stopped_and_started_again(rt: HostRuntime) -> Result<(), Fail> {
    let (came, mut left) = stopped(&rt, BOX_LAST, 30)?;
    is_told(
        &BOX_LAST,
        &came,
        4,
        "ca.par: done: iteration 2\nbox.par: device: disk\n",
    )?;
    holds(&left, 0, 9, CA_OUTPUT)?;
    let mut wires = wires(rt.alloc())?;
    let again = call(&rt, BOX_LAST, &mut left, &mut wires)?;
    same(&"again", &again.status, &0)?;
    holds(&left, 1, 9, BOX_FIELDS)?;
    holds(&left, 1, 10, BOX_SUMS)
}
