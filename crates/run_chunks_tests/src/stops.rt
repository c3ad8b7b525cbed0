//! Commands that are stopped at each of their calls, and images that a crash may leave of each.

use crate::commands::{has_outputs, words};
use crate::samples::{CELLS, FIRST, LIVE, SECOND, disk};
use cx_disk::{FailingDisk, FuseDisk, MemoryDisk};
use cx_text::{List, Memory};
use std::alloc::Global;
use std::test::Fail;
use test_cases::same;

// Images of each stop.
const CHOICES: u64 = 8;

// A command makes fewer calls than so many, with the mount.
const CALLS: u64 = 24;

const TEXTS: [&[u8]; 5] = [CELLS, LIVE, FIRST, SECOND, b"old"];

/// Whether the outputs of an image are as before, where a command stops after so many calls.
fn keeps_image(alloc: Global, cuts: bool, calls: u64, choice: u64) -> Result<bool, Fail> {
    let mut disk = FuseDisk::new(disk(alloc, &TEXTS)?, calls);
    let _words = words(alloc, &mut disk, cuts)?;
    let image = disk.into_image(choice)?;
    Ok(has_outputs(&image, &TEXTS))
}

/// A disk of which one call fails.
fn failing_disk(alloc: Global, call: u64) -> Result<FailingDisk, Memory> {
    let calls = Vec::from_array(alloc, [call])?;
    Ok(FailingDisk::new(disk(alloc, &TEXTS)?, List::new(calls)))
}

/// The disk after a command of which one call fails.
fn after_failure(alloc: Global, cuts: bool, call: u64) -> Result<MemoryDisk, Fail> {
    let mut disk = failing_disk(alloc, call)?;
    let _words = words(alloc, &mut disk, cuts)?;
    Ok(disk.into_inner())
}

#[test]
fn a_stop_leaves_the_outputs(rt: HostRuntime) -> Result<(), Fail> {
    let alloc = rt.alloc();
    for cuts in [true, false] {
        for calls in 0..CALLS {
            for choice in 0..CHOICES {
                let kept = keeps_image(alloc, cuts, calls, choice)?;
                same(&(cuts, calls, choice), &kept, &true)?;
            }
        }
    }
    Ok(())
}

#[test]
fn a_failure_leaves_the_outputs(rt: HostRuntime) -> Result<(), Fail> {
    let alloc = rt.alloc();
    for cuts in [true, false] {
        for call in 1..CALLS {
            let mut disk = after_failure(alloc, cuts, call)?;
            same(&(cuts, call), &has_outputs(&disk, &TEXTS), &true)?;
            let again = words(alloc, &mut disk, cuts)?;
            let want = if cuts {
                "parts 2 records 4"
            } else {
                "records 3 bytes 141"
            };
            same(&(cuts, call), &again.as_str(), &want)?;
        }
    }
    Ok(())
}
