//! Calls of the program over eight disks and eight wires.
ghost use Rattle.std.specs.Prelude.{◌≤◌, length};
ghost use Rattle.std.specs.List.{AllByRecursion};
ghost use Rattle.cx_core.specs.Starts.{AreEmpty};

use crate::files::FILES;
use cx_disk::{Disk, MemoryDisk};
use cx_program::answer;
use cx_rule::Meter;
use cx_turns::SeededTurns;
use cx_wire::Wire;
use sample_runs::{shelf, sink, texts};
use std::fmt::Debug;
use std::test::Fail;
use test_cases::same;

/// What a call came to: its status, what is printed, and how many points were computed.
#[derive(Drop)]
pub(crate) struct Came {
    pub(crate) status: u8,
    pub(crate) printed: Vec<u8>,
    pub(crate) points: u128,
}

/// What words come to on these devices.
pub(crate) fn call<D: Disk, W: Wire>(
    rt: &HostRuntime,
    words: &[&str],
    disks: &mut Vec<D>,
    wires: &mut Vec<W>,
) -> Result<Came, Fail>
    requires wires { 8 ≤ length wires.old.items }
    requires empty { AllByRecursion
        (λ wire. (512 ≤ W.parts wire) × AreEmpty (W.queue wire)) wires.old.items }
{
    if disks.len() < 8 {
        return Err(Fail::new("there are too few disks"));
    }
    let alloc = rt.alloc();
    let words = texts(alloc, words)?;
    let mut shelf = shelf(alloc, FILES, sample_files::FILES)?;
    let mut turns = SeededTurns::new();
    let mut out = sink(alloc, &[])?;
    let mut meter = Meter::new(rt);
    let status = answer(
        alloc, &words, &mut shelf, disks, wires, &mut turns, &mut out, &mut meter,
    )?;
    Ok(Came {
        status,
        printed: out.bytes().to_vec(alloc)?,
        points: meter.count(),
    })
}

/// Tests what a call came to.
pub(crate) fn is_told<C: Debug>(
    case: &C,
    came: &Came,
    status: u8,
    printed: &str,
) -> Result<(), Fail> {
    same(case, &came.status, &status)?;
    same(case, &came.printed.as_slice(), &printed.as_bytes())
}

/// Tests what a disk holds of a file.
pub(crate) fn holds(
    disks: &[MemoryDisk],
    job: usize,
    file: usize,
    bytes: &[u8],
) -> Result<(), Fail> {
    match disks.get(job) {
        Some(disk) => same(&(job, file), &disk.bytes(file), &bytes),
        None => Err(Fail::new("there is no such disk")),
    }
}
