//! A row of cells with a checkpoint in each iteration: a run of it that is stopped twice, and started again in another
//! cut.

use cx_disk::{MemoryDisk, named_output};
use cx_rule::{Meter, Routine};
use cx_run::{MemoryShelf, MemorySink};
use cx_text::{List, Memory, Text};
use cx_thorn_ca::{CaCount, CaInit, CaStep, CaZero};
use cx_turns::SeededTurns;
use law_restarts::{Stop, empty_disk, run_through_stops};
use sample_files::{FILES, File};
use sample_runs::{push_files, sink, texts};
use std::alloc::Global;
use std::test::Fail;
use test_cases::same;

/// The row in one part.
const ONE: &[u8] = b"ActiveThorns = \"ElemCA\"\n\
    Cactus::cctk_itlast = 2\n\
    driver::global_nx = 8\n\
    driver::periodic = yes\n\
    ca::start = 3\n\
    IO::out_vars = \"ca::cell\"\n\
    IO::checkpoint_every = 1\n\
    IO::recover = \"autoprobe\"\n";

/// The row in two parts.
const TWO: &[u8] = b"ActiveThorns = \"ElemCA\"\n\
    Cactus::cctk_itlast = 2\n\
    driver::global_nx = 8\n\
    driver::periodic = yes\n\
    driver::parts_x = 2\n\
    ca::start = 3\n\
    IO::out_vars = \"ca::cell\"\n\
    IO::checkpoint_every = 1\n\
    IO::recover = \"autoprobe\"\n";

/// The output of the undivided run: a cell becomes 1 where one of its neighbours is 1 and the other one isn't.
const OUTPUT: &[u8] = b"# ca::cell iteration 0 size 8\n\
    0 0 0 1 0 0 0 0\n\
    \n\
    # ca::cell iteration 1 size 8\n\
    0 0 1 0 1 0 0 0\n\
    \n\
    # ca::cell iteration 2 size 8\n\
    0 1 0 0 0 1 0 0\n\
    \n";

/// What the three starts print, one after another.
const PRINTED: &[u8] = b"device: disk\ndevice: disk\ndone: iteration 2\n";

/// The points that they compute. The first start begins in one part and comes to the checkpoint of iteration 2: ten,
/// and twice eight. The others go on from the checkpoint of iteration 1: eight each.
const POINTS: u128 = 42;

/// The calls of the first start, and which image it leaves:
/// - up to the first piece (20): the mount, 8 looks at slots, 8 syncs of slots, a cut and a sync of the output, and a
///   look at the old one;
/// - a piece (21);
/// - the checkpoint of iteration 1 (32): the output's sync, 2 looks, a cut, a sync, a write of 0, a sync, and the body
///   and the gate with their syncs;
/// - the piece of iteration 1.
///
/// Nothing is left of what isn't synced.
const FIRST: (u64, u64) = (33, 0);

/// The same of the second start:
/// - up to the first piece (25): the mount, 11 looks at slots, 2 at the newest, a look at the output, 8 syncs of slots,
///   and the output's cut and sync;
/// - a piece (26);
/// - the checkpoint of iteration 2: the output's sync, 5 looks, a cut, a sync, a write of 0, a sync, and the body.
///
/// All is left of what isn't synced: the body is whole, and the gate is shut.
const SECOND: (u64, u64) = (37, 1);

/// Both parameter files.
const PARAMETER_FILES: &[File] = &[
    File {
        name: "one.par",
        bytes: ONE,
    },
    File {
        name: "two.par",
        bytes: TWO,
    },
];

/// A shelf with both parameter files and the thorns' files.
fn shelf(alloc: Global) -> Result<MemoryShelf, Memory> {
    let mut files = Vec::new(alloc);
    push_files(alloc, &mut files, PARAMETER_FILES)?;
    push_files(alloc, &mut files, FILES)?;
    Ok(MemoryShelf::new(List::new(files)))
}

/// A start of the row in one part that stops after so many calls of the disk, and leaves the image of a choice.
fn stop(alloc: Global, at: (u64, u64)) -> Result<Stop, Memory> {
    let (calls, choice) = at;
    Ok(Stop {
        words: List::new(texts(alloc, &["run", "one.par"])?),
        calls,
        choice,
    })
}

/// The first start stops after the piece of iteration 1, whose checkpoint it has saved. The second one goes on from
/// there, and stops within the checkpoint of iteration 2.
fn stops(alloc: Global) -> Result<Vec<Stop>, Memory> {
    let mut stops = Vec::new(alloc);
    stops.push(stop(alloc, FIRST)?)?;
    stops.push(stop(alloc, SECOND)?)?;
    Ok(stops)
}

/// The automaton's routines.
#[derive(Drop)]
struct Automaton {
    init: Box<CaInit>,
    step: Box<CaStep>,
    zero: Box<CaZero>,
    count: Box<CaCount>,
}

/// All of them, new.
fn new_automaton(alloc: Global) -> Result<Automaton, Memory> {
    Ok(Automaton {
        init: Box::new(alloc, CaInit::new(alloc)?)?,
        step: Box::new(alloc, CaStep::new(alloc)?)?,
        zero: Box::new(alloc, CaZero::new(alloc)?)?,
        count: Box::new(alloc, CaCount::new(alloc)?)?,
    })
}

/// The starts of the row over a shelf with these routines, from a disk without files.
fn run_chain(
    alloc: Global,
    words: &[Text],
    stops: &[Stop],
    shelf: &mut MemoryShelf,
    cells: Automaton,
    out: &mut MemorySink,
    meter: &mut Meter,
) -> Result<(u8, MemoryDisk), Memory> {
    let routines: [Box<dyn Routine>; 4] = [cells.init, cells.step, cells.zero, cells.count];
    let mut turns = SeededTurns::new();
    run_through_stops(
        alloc,
        words,
        stops,
        shelf,
        empty_disk(alloc),
        &mut turns,
        out,
        &routines,
        meter,
    )
}

/// The status of a start in two parts after those that stop, and the disk that it leaves.
fn chain(
    alloc: Global,
    out: &mut MemorySink,
    meter: &mut Meter,
) -> Result<(u8, MemoryDisk), Memory> {
    let cells = new_automaton(alloc)?;
    let words = texts(alloc, &["run", "two.par"])?;
    let stops = stops(alloc)?;
    let mut shelf = shelf(alloc)?;
    run_chain(alloc, &words, &stops, &mut shelf, cells, out, meter)
}

#[test]
fn row_that_stops_twice(rt: HostRuntime) -> Result<(), Fail> {
    let alloc = rt.alloc();
    let mut out = sink(alloc, &[])?;
    let mut meter = Meter::new(&rt);
    let (status, disk) = chain(alloc, &mut out, &mut meter)?;
    let output = disk.bytes(named_output(0) as usize);
    let found = (status, meter.count(), out.bytes(), output);
    same(&"two stops", &found, &(0, POINTS, PRINTED, OUTPUT))
}
