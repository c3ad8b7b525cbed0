//! Each call of each device fails once, and what the next call over the same devices comes to.

use crate::devices::{failing_disk, failing_shelf};
use crate::stops::{BOX_FILE, BOX_THORNS, RUN};
use cx_disk::{Disk, MemoryDisk};
use cx_rule::Meter;
use cx_run::{MemorySink, Shelf};
use cx_text::List;
use cx_turns::SeededTurns;
use sample_files::File;
use sample_runs::samples::{BOX_FIELDS, BOX_SUMS, CA, CA_OUTPUT, EACH};
use sample_runs::{
    FIRST_OUTPUT, SECOND_OUTPUT, answer_to, failing, shelf_with, sink, status_over, wire,
};
use std::alloc::Global;
use std::test::Fail;
use test_cases::same;

/// A job, with how many calls of the disk, the wire and the shelf its run from nothing makes; the sink is called once.
struct Job {
    name: &'static str,
    file: &'static [u8],
    more: &'static str,
    others: &'static [File],
    disk: u64,
    wire: u64,
    shelf: u64,
    status: u8,
    printed: &'static [u8],
    first: &'static [u8],
    second: &'static [u8],
}

/// The automaton with a checkpoint in each iteration, in one part and in two, and a run that ends earlier. The automaton exchanges twice,
/// and each of its parts sends and receives two messages then. What is read are the parameter file, the list of thorns, and four files of
/// a thorn.
const JOBS: &[Job] = &[
    Job {
        name: "cells in one part",
        file: CA,
        more: EACH,
        others: &[],
        disk: 49,
        wire: 8,
        shelf: 6,
        status: 0,
        printed: b"done: iteration 2\n",
        first: CA_OUTPUT,
        second: b"",
    },
    Job {
        name: "cells in two parts",
        file: CA,
        more: "driver::parts_x = 2\n\
            IO::checkpoint_every = 1\n\
            IO::recover = \"autoprobe\"\n",
        others: &[],
        disk: 49,
        wire: 16,
        shelf: 6,
        status: 0,
        printed: b"done: iteration 2\n",
        first: CA_OUTPUT,
        second: b"",
    },
    Job {
        name: "a count past its limit",
        file: b"ActiveThorns = \"Control\"\n\
            control::drop = 0\n\
            IO::out_vars = \"control::count\"\n",
        more: "IO::recover = \"autoprobe\"\n",
        others: &[],
        disk: 22,
        wire: 0,
        shelf: 6,
        status: 3,
        printed: b"ended: WhileLimit 1 EVOL/control_spin\n",
        first: b"# control::count iteration 0 value 3\n",
        second: b"",
    },
];

/// What a call comes to: its status, and what it prints.
#[derive(Drop)]
struct Reply {
    status: u8,
    printed: Vec<u8>,
}

/// What two calls over the same devices come to, of which one fails once, and the two output files.
#[derive(Drop)]
struct Twice {
    first: Reply,
    second: Reply,
    first_output: Vec<u8>,
    second_output: Vec<u8>,
}

/// Runs `t.par` over these devices and a new wire.
fn run_anew<H: Shelf, D: Disk>(
    rt: &HostRuntime,
    shelf: &mut H,
    disk: &mut D,
    out: &mut MemorySink,
) -> Result<u8, Fail> {
    let mut wire = wire(rt.alloc())?;
    let mut turns = SeededTurns::new();
    let mut meter = Meter::new(rt);
    status_over(rt, RUN, shelf, disk, &mut wire, &mut turns, out, &mut meter)
}

/// Runs it over a wire that fails in one call.
fn run_cut_off<H: Shelf, D: Disk>(
    rt: &HostRuntime,
    shelf: &mut H,
    disk: &mut D,
    out: &mut MemorySink,
    fail: u64,
) -> Result<u8, Fail> {
    let mut wire = failing(rt.alloc(), fail)?;
    let mut turns = SeededTurns::new();
    let mut meter = Meter::new(rt);
    status_over(rt, RUN, shelf, disk, &mut wire, &mut turns, out, &mut meter)
}

/// What a call comes to of this status, with what was printed after so many bytes.
fn reply_after(alloc: Global, status: u8, out: &MemorySink, before: usize) -> Result<Reply, Fail> {
    let printed = out.bytes().get(before..).unwrap_or(&[]).to_vec(alloc)?;
    Ok(Reply { status, printed })
}

/// What a call over these devices comes to.
fn called<H: Shelf, D: Disk>(
    rt: &HostRuntime,
    shelf: &mut H,
    disk: &mut D,
    out: &mut MemorySink,
) -> Result<Reply, Fail> {
    let before = out.bytes().len();
    let status = run_anew(rt, shelf, disk, out)?;
    reply_after(rt.alloc(), status, out, before)
}

/// What a call over them and a wire that fails in one call comes to.
fn called_cut_off<H: Shelf, D: Disk>(
    rt: &HostRuntime,
    shelf: &mut H,
    disk: &mut D,
    out: &mut MemorySink,
    fail: u64,
) -> Result<Reply, Fail> {
    let before = out.bytes().len();
    let status = run_cut_off(rt, shelf, disk, out, fail)?;
    reply_after(rt.alloc(), status, out, before)
}

/// What two calls come to, and the outputs on a disk.
fn both_calls(alloc: Global, calls: (Reply, Reply), disk: &MemoryDisk) -> Result<Twice, Fail> {
    let (first, second) = calls;
    Ok(Twice {
        first,
        second,
        first_output: disk.bytes(FIRST_OUTPUT).to_vec(alloc)?,
        second_output: disk.bytes(SECOND_OUTPUT).to_vec(alloc)?,
    })
}

/// Two calls over these devices.
fn call_twice<H: Shelf, D: Disk>(
    rt: &HostRuntime,
    shelf: &mut H,
    disk: &mut D,
    out: &mut MemorySink,
) -> Result<(Reply, Reply), Fail> {
    let first = called(rt, shelf, disk, out)?;
    let second = called(rt, shelf, disk, out)?;
    Ok((first, second))
}

/// Two calls over these devices and an empty disk.
fn call_on_memory<H: Shelf>(
    rt: &HostRuntime,
    shelf: &mut H,
    out: &mut MemorySink,
) -> Result<Twice, Fail> {
    let alloc = rt.alloc();
    let mut disk = MemoryDisk::new(alloc, List::empty(alloc));
    let calls = call_twice(rt, shelf, &mut disk, out)?;
    both_calls(alloc, calls, &disk)
}

/// The same where the first call's wire fails in one call of its own.
fn cut_off_on_memory<H: Shelf>(
    rt: &HostRuntime,
    shelf: &mut H,
    out: &mut MemorySink,
    fail: u64,
) -> Result<Twice, Fail> {
    let alloc = rt.alloc();
    let mut disk = MemoryDisk::new(alloc, List::empty(alloc));
    let first = called_cut_off(rt, shelf, &mut disk, out, fail)?;
    let second = called(rt, shelf, &mut disk, out)?;
    both_calls(alloc, (first, second), &disk)
}

/// Two calls over a disk that fails in one call.
fn call_on_failing<H: Shelf>(
    rt: &HostRuntime,
    shelf: &mut H,
    out: &mut MemorySink,
    fail: u64,
) -> Result<Twice, Fail> {
    let alloc = rt.alloc();
    let mut disk = failing_disk(alloc, fail)?;
    let calls = call_twice(rt, shelf, &mut disk, out)?;
    both_calls(alloc, calls, &disk.into_inner())
}

/// Over a disk that fails in one call.
fn disk_fails(rt: &HostRuntime, job: &Job, fail: u64) -> Result<Twice, Fail> {
    let mut shelf = shelf_with(rt.alloc(), job.file, job.more, job.others)?;
    let mut out = sink(rt.alloc(), &[])?;
    call_on_failing(rt, &mut shelf, &mut out, fail)
}

/// Over a wire that fails in one call, and then a new one.
fn wire_fails(rt: &HostRuntime, job: &Job, fail: u64) -> Result<Twice, Fail> {
    let mut shelf = shelf_with(rt.alloc(), job.file, job.more, job.others)?;
    let mut out = sink(rt.alloc(), &[])?;
    cut_off_on_memory(rt, &mut shelf, &mut out, fail)
}

/// Over a shelf that fails in one reading.
fn shelf_fails(rt: &HostRuntime, job: &Job, fail: u64) -> Result<Twice, Fail> {
    let files = shelf_with(rt.alloc(), job.file, job.more, job.others)?;
    let mut shelf = failing_shelf(rt.alloc(), files, fail)?;
    let mut out = sink(rt.alloc(), &[])?;
    call_on_memory(rt, &mut shelf, &mut out)
}

/// Over a sink that fails in one call.
fn sink_fails(rt: &HostRuntime, job: &Job, fail: u64) -> Result<Twice, Fail> {
    let mut shelf = shelf_with(rt.alloc(), job.file, job.more, job.others)?;
    let mut out = sink(rt.alloc(), &[fail])?;
    call_on_memory(rt, &mut shelf, &mut out)
}

/// Whether the first call failed by the device of that text, or in silence, and the second one came to what the job's run comes to.
fn is_whole(came: &Twice, said: &[u8], job: &Job) -> bool {
    came.first.status == 4
        && came.first.printed.as_slice() == said
        && came.second.status == job.status
        && came.second.printed.as_slice() == job.printed
        && came.first_output.as_slice() == job.first
        && came.second_output.as_slice() == job.second
}

/// The box with checkpoints of iterations 20 and 40, with one call of each device that fails: the disk's first sync, after the mount and a
/// look at each slot; the first message; and the list of thorns, the second file.
const BOX_JOB: &Job = &Job {
    name: "the box",
    file: BOX_FILE,
    more: "",
    others: BOX_THORNS,
    disk: 9,
    wire: 0,
    shelf: 1,
    status: 0,
    printed: b"done: iteration 40\n",
    first: BOX_FIELDS,
    second: BOX_SUMS,
};

/// A device of a call.
#[derive(Clone, Copy, Debug)]
enum Device {
    Disk,
    Wire,
    Shelf,
    Sink,
}

const DEVICES: &[Device] = &[Device::Disk, Device::Wire, Device::Shelf, Device::Sink];

/// What a first call prints whose device fails.
fn said(device: Device) -> &'static [u8] {
    match device {
        Device::Disk => b"device: disk\n",
        Device::Wire => b"device: wire\n",
        Device::Shelf => b"device: shelf\n",
        Device::Sink => b"",
    }
}

/// How many calls of a device the run of a job makes.
fn calls_of(device: Device, job: &Job) -> u64 {
    match device {
        Device::Disk => job.disk,
        Device::Wire => job.wire,
        Device::Shelf => job.shelf,
        Device::Sink => 1,
    }
}

/// Over devices of which one fails in one call.
fn device_fails(rt: &HostRuntime, device: Device, job: &Job, fail: u64) -> Result<Twice, Fail> {
    match device {
        Device::Disk => disk_fails(rt, job, fail),
        Device::Wire => wire_fails(rt, job, fail),
        Device::Shelf => shelf_fails(rt, job, fail),
        Device::Sink => sink_fails(rt, job, fail),
    }
}

/// The first call of a device after whose failure something else comes than should, or the number of its calls if one more is made.
fn wrong_call(rt: &HostRuntime, device: Device, job: &Job) -> Result<Option<u64>, Fail> {
    let calls = calls_of(device, job);
    for fail in 0..calls {
        let came = device_fails(rt, device, job, fail)?;
        if !is_whole(&came, said(device), job) {
            return Ok(Some(fail));
        }
    }
    let came = device_fails(rt, device, job, calls)?;
    Ok((came.first.status != job.status).then_some(calls))
}

/// Tests that the box comes to its end after a device of it has failed.
fn box_ends(rt: &HostRuntime, device: Device) -> Result<(), Fail> {
    let came = device_fails(rt, device, BOX_JOB, calls_of(device, BOX_JOB))?;
    let is_whole = is_whole(&came, said(device), BOX_JOB);
    same(&(device, "the box"), &is_whole, &true)
}

#[test]
fn devices_that_fail_once(rt: HostRuntime) -> Result<(), Fail> {
    for device in DEVICES {
        for job in JOBS {
            let wrong = wrong_call(&rt, *device, job)?;
            same(&(device, job.name), &wrong, &None)?;
        }
    }
    for device in [Device::Disk, Device::Wire, Device::Shelf] {
        box_ends(&rt, device)?;
    }
    Ok(())
}

/// What is within a shelf that would fail doesn't.
#[test]
fn shelf_that_is_given_back(rt: HostRuntime) -> Result<(), Fail> {
    let alloc = rt.alloc();
    let files = shelf_with(alloc, CA, EACH, &[])?;
    let mut within = failing_shelf(alloc, files, 0)?.into_inner();
    let came = answer_to(&rt, RUN, &mut within)?;
    same(&"the shelf within", &came.status, &0)
}
