//! Saves and closings that are stopped at each of their calls, and eight images that a crash may leave of each.
ghost use Rattle.std.specs.Prelude.{◌<◌, ◌≤◌};
ghost use Rattle.cx_disk.specs.Files.{slot_count};

use crate::checks::{closing_kept, newest_after_closing, newest_after_save, one_closed, save_kept};
use crate::disks::{close_on, close_second_on, disk_before, newest_in, save_on, stopping_disk};
use crate::slots::{checkpoint, slot};
use cx_disk::MemoryDisk;
use std::alloc::Global;
use std::test::Fail;
use test_cases::same;

// Images of each stop.
const CHOICES: u64 = 8;

// A save makes so many calls on these disks, with the mount.
const SAVE_CALLS: u64 = 17;

// A closing makes so many.
const CLOSE_CALLS: u64 = 32;

// A closing of the slots of version 2 makes so many.
const CLOSE_SECOND_CALLS: u64 = 21;

// The open slot of version 2.
const SECOND: usize = 4;

/// Whether a save was done, and an image of the disk then.
fn save_image(alloc: Global, keep: u32, calls: u64, choice: u64) -> Result<(bool, MemoryDisk), Fail>
    requires least { 1 ≤ keep }
    requires keep { keep < slot_count }
{
    let c = checkpoint(alloc, 30)?;
    let mut disk = stopping_disk(alloc, calls)?;
    let done = save_on(alloc, &mut disk, keep, &c).is_ok();
    Ok((done, disk.into_image(choice)?))
}

/// Whether a closing was done, and an image of the disk then.
fn close_image(alloc: Global, calls: u64, choice: u64) -> Result<(bool, MemoryDisk), Fail> {
    let mut disk = stopping_disk(alloc, calls)?;
    let done = close_on(alloc, &mut disk).is_ok();
    Ok((done, disk.into_image(choice)?))
}

/// Whether a closing of the slots of version 2 was done, and an image of the disk then.
fn close_second_image(alloc: Global, calls: u64, choice: u64) -> Result<(bool, MemoryDisk), Fail> {
    let mut disk = stopping_disk(alloc, calls)?;
    let done = close_second_on(alloc, &mut disk).is_ok();
    Ok((done, disk.into_image(choice)?))
}

/// The slot that a save takes.
fn slot_taken(second: bool) -> u32
    ensures least { 1 ≤ result }
    ensures keep { result < slot_count }
{
    if second { 2 } else { 1 }
}

/// Whether the files of an image are as before, but for the slot that a save takes, which has what it may.
fn files_after_save(alloc: Global, image: &MemoryDisk, taken: u32) -> Result<bool, Fail> {
    let before = disk_before(alloc)?;
    let saved = slot(alloc, 30)?;
    Ok(save_kept(&before, image, taken as usize, &saved))
}

/// Whether a save that is stopped leaves what it may in an image.
fn save_leaves(alloc: Global, second: bool, calls: u64, choice: u64) -> Result<bool, Fail> {
    let taken = slot_taken(second);
    let (done, image) = save_image(alloc, taken, calls, choice)?;
    let kept = files_after_save(alloc, &image, taken)?;
    let newest = newest_in(alloc, image)?;
    Ok(kept && done == (calls == SAVE_CALLS) && newest_after_save(newest, done, taken))
}

/// Whether the files of an image are as before, but for slots that are closed.
fn files_after_closing(alloc: Global, image: &MemoryDisk) -> Result<bool, Fail> {
    let before = disk_before(alloc)?;
    Ok(closing_kept(&before, image))
}

/// Whether a closing that is stopped leaves what it may in an image.
fn closing_leaves(alloc: Global, calls: u64, choice: u64) -> Result<bool, Fail> {
    let (done, image) = close_image(alloc, calls, choice)?;
    let kept = files_after_closing(alloc, &image)?;
    let newest = newest_in(alloc, image)?;
    Ok(kept && done == (calls == CLOSE_CALLS) && newest_after_closing(newest, done))
}

/// Whether a closing of the slots of version 2 that is stopped leaves what it may in an image.
fn closing_second_leaves(alloc: Global, calls: u64, choice: u64) -> Result<bool, Fail> {
    let (done, image) = close_second_image(alloc, calls, choice)?;
    let before = disk_before(alloc)?;
    let kept = one_closed(&before, &image, SECOND, done);
    Ok(kept && done == (calls == CLOSE_SECOND_CALLS))
}

/// What is stopped.
enum Act {
    Save,
    SecondSave,
    Closing,
    SecondClosing,
}

/// Whether what is stopped leaves what it may in an image.
fn leaves(alloc: Global, act: &Act, calls: u64, choice: u64) -> Result<bool, Fail> {
    match act {
        Act::Save => save_leaves(alloc, false, calls, choice),
        Act::SecondSave => save_leaves(alloc, true, calls, choice),
        Act::Closing => closing_leaves(alloc, calls, choice),
        Act::SecondClosing => closing_second_leaves(alloc, calls, choice),
    }
}

/// What is stopped, and how many stops and images there are of it.
const ACTS: &[(&str, Act, u64)] = &[
    ("a save to slot 1", Act::Save, (SAVE_CALLS + 1) * CHOICES),
    (
        "a save to slot 2",
        Act::SecondSave,
        (SAVE_CALLS + 1) * CHOICES,
    ),
    ("a closing", Act::Closing, (CLOSE_CALLS + 1) * CHOICES),
    (
        "a closing of version 2",
        Act::SecondClosing,
        (CLOSE_SECOND_CALLS + 1) * CHOICES,
    ),
];

/// One stop leaves what it may in one image.
fn stop_leaves(alloc: Global, name: &str, act: &Act, stop: u64) -> Result<(), Fail> {
    let (calls, choice) = (stop / CHOICES, stop % CHOICES);
    let kept = leaves(alloc, act, calls, choice)?;
    same(&(name, "calls", calls, "image", choice), &kept, &true)
}

/// Each stop leaves what it may in each image.
fn stops_leave(alloc: Global, name: &str, act: &Act, stops: u64) -> Result<(), Fail> {
    for stop in 0..stops {
        stop_leaves(alloc, name, act, stop)?;
    }
    Ok(())
}

#[test]
fn slots_behind_each_stop(rt: HostRuntime) -> Result<(), Fail> {
    for (name, act, stops) in ACTS {
        stops_leave(rt.alloc(), name, act, *stops)?;
    }
    Ok(())
}
