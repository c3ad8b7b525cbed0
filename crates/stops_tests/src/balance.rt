//! Runs that are cut anew at their checkpoints, beside the same runs in their own cuts.
ghost use Rattle.std.specs.Prelude.{◌≤◌};
ghost use Rattle.cx_core.specs.Starts.{AreEmpty};

use crate::stops::{AUTOMATON_CALLS, RUN, empty_disk, is_whole, run_on, run_stopped};
use cx_disk::MemoryDisk;
use cx_rule::Meter;
use cx_text::Memory;
use cx_turns::SeededTurns;
use cx_wire::{Head, Wire};
use sample_runs::samples::CA;
use sample_runs::{FIRST_OUTPUT, noting, shelf_with, sink, status_over};
use std::alloc::Global;
use std::test::Fail;
use test_cases::same;

/// A glider on a sheet that is periodic both ways, in three parts along y, with a checkpoint of iteration 4.
const GLIDER: &[u8] = b"ActiveThorns = \"Life2D\"\n\
    Cactus::cctk_itlast = 5\n\
    driver::global_nx = 8\n\
    driver::global_ny = 8\n\
    driver::periodic = yes\n\
    driver::parts_y = 3\n\
    life::pattern = \"glider\"\n\
    IO::checkpoint_every = 4\n\
    IO::out_vars = \"life::cell\"\n";

/// Living cells weigh 101. So the planes of y weigh 8, 108, 108, 308 and four times 8 at iteration 4.
const BALANCED: &[&str] = &[
    "driver::balance = yes\n\
        driver::weight = \"life::cell\"\n\
        driver::weight_factor = 100\n",
    "driver::balance = yes\n\
        driver::weight = \"life::cell\"\n\
        driver::weight_factor = 100\n\
        driver::lead = 8\n",
];

/// The same from the newest checkpoint on.
const RESUMED: &str = "driver::balance = yes\n\
    driver::weight = \"life::cell\"\n\
    driver::weight_factor = 100\n\
    IO::recover = \"auto\"\n";

/// The heights of the parts in their own cut, and in that by weight.
const OWN: [u32; 3] = [3, 3, 2];

const CHOSEN: [u32; 3] = [3, 1, 4];

/// A message: from which part, to which, and its head.
type Note = (u32, u32, Head);

/// Those along x.
fn along_x(alloc: Global, notes: &[Note]) -> Result<Vec<Note>, Memory> {
    let mut along = Vec::new(alloc);
    for note in notes {
        if note.2.dir == 0 {
            along.push(*note)?;
        }
    }
    Ok(along)
}

/// Whether each message has as many values as its sender is high.
fn are_as_high(notes: &[Note], heights: &[u32; 3]) -> bool {
    for note in notes {
        if heights.get(note.0 as usize) != Some(&note.2.count) {
            return false;
        }
    }
    true
}

/// A run of the glider with more lines, on a disk and over a wire.
fn run_over<W: Wire>(
    rt: &HostRuntime,
    more: &str,
    disk: &mut MemoryDisk,
    wire: &mut W,
) -> Result<(), Fail>
    requires parts { 512 ≤ W.parts wire.old }
    requires empty { AreEmpty (W.queue wire.old) }
{
    let alloc = rt.alloc();
    let mut shelf = shelf_with(alloc, GLIDER, more, &[])?;
    let mut out = sink(alloc, &[])?;
    let mut turns = SeededTurns::new();
    let mut meter = Meter::new(rt);
    let status = status_over(
        rt, RUN, &mut shelf, disk, wire, &mut turns, &mut out, &mut meter,
    )?;
    same(&more, &status, &0)
}

/// The messages along x of such a run.
fn notes_of(rt: &HostRuntime, more: &str, disk: &mut MemoryDisk) -> Result<Vec<Note>, Fail> {
    let mut wire = noting(rt.alloc())?;
    run_over(rt, more, disk, &mut wire)?;
    let notes = along_x(rt.alloc(), wire.notes().as_slice())?;
    Ok(notes)
}

/// Tests the heights by which the glider's parts send: up to its checkpoint, and in the last iteration. Answers what the run leaves.
fn left_by(rt: &HostRuntime, more: &str, last: &[u32; 3]) -> Result<MemoryDisk, Fail> {
    let mut disk = empty_disk(rt.alloc());
    let notes = notes_of(rt, more, &mut disk)?;
    same(&more, &notes.len(), &30)?;
    let (before, after) = notes.as_slice().split_at(24.min(notes.len()));
    let found = (are_as_high(before, &OWN), are_as_high(after, last));
    same(&(more, OWN, last), &found, &(true, true))?;
    Ok(disk)
}

/// Tests the heights in a run that goes on from the checkpoint, and the output that it leaves.
fn goes_on(rt: &HostRuntime, mut left: MemoryDisk, output: &[u8]) -> Result<(), Fail> {
    let notes = notes_of(rt, RESUMED, &mut left)?;
    let found = (notes.len(), are_as_high(notes.as_slice(), &CHOSEN));
    same(&RESUMED, &found, &(6, true))?;
    same(&"the resumed output", &left.bytes(FIRST_OUTPUT), &output)
}

#[test]
fn a_glider_is_cut_anew(rt: HostRuntime) -> Result<(), Fail> {
    let own = left_by(&rt, "", &OWN)?;
    let output = own.bytes(FIRST_OUTPUT).to_vec(rt.alloc())?;
    for more in BALANCED {
        let chosen = left_by(&rt, more, &CHOSEN)?;
        same(more, &chosen.bytes(FIRST_OUTPUT), &output.as_slice())?;
    }
    goes_on(&rt, own, &output)
}

/// The automaton in three parts, which are 3, 3 and 2 wide. Those by weight are 3, 2 and 3 wide from iteration 1 on, and 2, 4 and 2 from
/// iteration 2 on.
const ANEW: &str = "IO::checkpoint_every = 1\n\
    IO::recover = \"autoprobe\"\n\
    driver::parts_x = 3\n\
    driver::balance = yes\n\
    driver::weight = \"ca::cell\"\n\
    driver::weight_factor = 100\n";

const AS_IT_WAS: &str = "IO::checkpoint_every = 1\n\
    IO::recover = \"autoprobe\"\n\
    driver::parts_x = 3\n";

/// Starts one after another.
const IN_TURNS: &[[&str; 4]] = &[
    [ANEW, AS_IT_WAS, ANEW, AS_IT_WAS],
    [AS_IT_WAS, ANEW, AS_IT_WAS, ANEW],
];

/// A run of the automaton that stops after so many calls of the disk: its status, and what is left.
fn stopped(
    rt: &HostRuntime,
    more: &str,
    disk: MemoryDisk,
    calls: u64,
) -> Result<(u8, MemoryDisk), Fail> {
    run_stopped(rt, CA, more, disk, calls, calls)
}

/// What starts one after another leave, each of which stops after so many calls.
fn left_in_turns(rt: &HostRuntime, starts: &[&str; 4], calls: u64) -> Result<MemoryDisk, Fail> {
    let mut disk = empty_disk(rt.alloc());
    for more in starts {
        let (status, left) = stopped(rt, more, disk, calls)?;
        same(&(more, calls), &matches!(status, 0 | 4), &true)?;
        disk = left;
    }
    Ok(disk)
}

/// Whether a run comes to its end after starts in turns that stop after so many calls.
fn ends_after(rt: &HostRuntime, starts: &[&str; 4], calls: u64) -> Result<bool, Fail> {
    let mut disk = left_in_turns(rt, starts, calls)?;
    let came = run_on(rt, CA, starts[0], &[], &mut disk)?;
    Ok(is_whole(&came))
}

/// Tests that it does, wherever they stop.
fn ends_wherever_stopped(rt: &HostRuntime, starts: &[&str; 4]) -> Result<(), Fail> {
    for calls in 0..AUTOMATON_CALLS + 1 {
        let ends = ends_after(rt, starts, calls)?;
        same(&(starts[0], calls), &ends, &true)?;
    }
    Ok(())
}

/// The status of a run on an empty disk that stops after so many calls.
fn status_after(rt: &HostRuntime, more: &str, calls: u64) -> Result<u8, Fail> {
    let (status, _) = stopped(rt, more, empty_disk(rt.alloc()), calls)?;
    Ok(status)
}

#[test]
fn automaton_that_is_cut_anew_and_stops(rt: HostRuntime) -> Result<(), Fail> {
    for starts in IN_TURNS {
        ends_wherever_stopped(&rt, starts)?;
        let stops = status_after(&rt, starts[0], AUTOMATON_CALLS - 1)?;
        let ends = status_after(&rt, starts[0], AUTOMATON_CALLS)?;
        same(&starts[0], &(stops, ends), &(4, 0))?;
    }
    Ok(())
}
