//! A start from what a former version left is stopped after each of its calls of the disk, and so is the start after
//! it. The third one comes to the end, and computes nothing: after the checkpoint of iteration 40 only reductions and
//! output are left.

use crate::boxes::{BOX, FORMER};
use crate::former::{Older, former_disk};
use cx_disk::{Disk, FuseDisk, MemoryDisk};
use cx_run::MemoryShelf;
use cx_text::{List, Memory, Text};
use sample_runs::samples::{BOX_FIELDS, BOX_SUMS};
use sample_runs::{Outcome, answer_over, shelf_with};
use std::alloc::Global;
use std::test::Fail;
use test_cases::same;

/// The files of a run with two outputs: eight slots, the former output, and the outputs.
const FILES: usize = 11;

/// What a start of the box over a disk comes to.
fn start<D: Disk>(
    rt: &HostRuntime,
    shelf: &mut MemoryShelf,
    disk: &mut D,
) -> Result<Outcome, Fail> {
    answer_over(rt, &["run", "t.par"], shelf, disk)
}

/// A disk with the files of another.
fn same_disk(alloc: Global, disk: &MemoryDisk) -> Result<MemoryDisk, Memory> {
    let mut files = List::empty(alloc);
    for file in 0..FILES {
        files.push(Text::from_slice(alloc, disk.bytes(file))?)?;
    }
    Ok(MemoryDisk::new(alloc, files))
}

/// The status of a start that stops after so many calls of a disk, and an image that a crash may then leave.
fn stopped(
    rt: &HostRuntime,
    shelf: &mut MemoryShelf,
    disk: &MemoryDisk,
    calls: u64,
) -> Result<(u8, MemoryDisk), Fail> {
    let mut fuse = FuseDisk::new(same_disk(rt.alloc(), disk)?, calls);
    let came = start(rt, shelf, &mut fuse)?;
    Ok((came.status, fuse.into_image(calls)?))
}

/// Which case this is, after how many calls the first start stopped, and after how many the second one.
type Case<'a> = (&'a str, u64, u64);

/// Fails, and names the case, unless a start comes to the end, and leaves both outputs and the former one.
fn ends(
    case: Case,
    rt: &HostRuntime,
    shelf: &mut MemoryShelf,
    mut disk: MemoryDisk,
) -> Result<(), Fail> {
    let came = start(rt, shelf, &mut disk)?;
    let outputs = (disk.bytes(9), disk.bytes(10), disk.bytes(8));
    let found = (came.status, came.points, came.printed.as_slice(), outputs);
    same(
        &case,
        &found,
        &(
            0,
            0,
            b"done: iteration 40\n",
            (BOX_FIELDS, BOX_SUMS, FORMER),
        ),
    )
}

/// The status of a start that is stopped after so many calls. The next one comes to the end.
fn stop_then_end(
    case: Case,
    rt: &HostRuntime,
    shelf: &mut MemoryShelf,
    left: &MemoryDisk,
) -> Result<u8, Fail> {
    let (status, disk) = stopped(rt, shelf, left, case.2)?;
    ends(case, rt, shelf, disk)?;
    Ok(status)
}

/// More calls than any of these starts makes.
const MANY_CALLS: u64 = 100;

/// The status of a start that isn't stopped, after starts that were stopped after each call. A third one follows each
/// of them.
fn stop_again(
    rt: &HostRuntime,
    shelf: &mut MemoryShelf,
    name: &str,
    first: u64,
    left: &MemoryDisk,
) -> Result<u8, Fail> {
    for second in 0..MANY_CALLS {
        let status = stop_then_end((name, first, second), rt, shelf, left)?;
        if status != 4 {
            return Ok(status);
        }
    }
    Ok(4)
}

/// The first start is stopped after so many calls, and the second one after each of its own. It fails unless these are
/// the statuses of the first one and of the last one.
fn stop_first(
    rt: &HostRuntime,
    shelf: &mut MemoryShelf,
    name: &str,
    left: &MemoryDisk,
    first: u64,
    want: (u8, u8),
) -> Result<(), Fail> {
    let (status, disk) = stopped(rt, shelf, left, first)?;
    let second = stop_again(rt, shelf, name, first, &disk)?;
    same(&(name, first), &(status, second), &want)
}

/// The first start is stopped after each of these numbers of calls, and so is the second one after each of its own.
fn stop_twice(rt: &HostRuntime, name: &str, older: Older, from: u64, to: u64) -> Result<(), Fail> {
    let left = former_disk(rt, older)?;
    let mut shelf = shelf_with(rt.alloc(), BOX, "", &[])?;
    for first in from..to {
        stop_first(rt, &mut shelf, name, &left, first, (4, 0))?;
    }
    Ok(())
}

/// The first start makes exactly so many calls, and the second one is stopped after each of its own.
fn stop_after(rt: &HostRuntime, name: &str, older: Older, calls: u64) -> Result<(), Fail> {
    let left = former_disk(rt, older)?;
    let mut shelf = shelf_with(rt.alloc(), BOX, "", &[])?;
    stop_first(rt, &mut shelf, name, &left, calls, (0, 0))
}

/// The calls of a start where both slots are of the former version: the mount, 14 looks at slots, 2 at the newest (17),
/// 2 at the old output, 8 syncs of slots, 14 looks at what is to be closed, three calls for each output (47), two
/// pieces, and the outputs' syncs.
const CALLS: u64 = 51;

/// Where the older slot is of today's version, a write of 0 and a sync close it.
const MIXED_CALLS: u64 = 53;

#[test]
fn former_slots_stop_early(rt: HostRuntime) -> Result<(), Fail> {
    stop_twice(&rt, "both are former", Older::Former, 0, 17)
}

#[test]
fn former_slots_stop_in_between(rt: HostRuntime) -> Result<(), Fail> {
    stop_twice(&rt, "both are former", Older::Former, 17, 34)
}

#[test]
fn former_slots_stop_late(rt: HostRuntime) -> Result<(), Fail> {
    stop_twice(&rt, "both are former", Older::Former, 34, CALLS)
}

#[test]
fn former_slots_stop_at_the_end(rt: HostRuntime) -> Result<(), Fail> {
    stop_after(&rt, "both are former", Older::Former, CALLS)
}

#[test]
fn slots_of_both_versions_stop_early(rt: HostRuntime) -> Result<(), Fail> {
    stop_twice(&rt, "one is of today", Older::Today, 0, 17)
}

#[test]
fn slots_of_both_versions_stop_in_between(rt: HostRuntime) -> Result<(), Fail> {
    stop_twice(&rt, "one is of today", Older::Today, 17, 35)
}

#[test]
fn slots_of_both_versions_stop_late(rt: HostRuntime) -> Result<(), Fail> {
    stop_twice(&rt, "one is of today", Older::Today, 35, MIXED_CALLS)
}

#[test]
fn slots_of_both_versions_stop_at_the_end(rt: HostRuntime) -> Result<(), Fail> {
    stop_after(&rt, "one is of today", Older::Today, MIXED_CALLS)
}
