//! Checkpoints: runs that stop anywhere and are started again, and starts that are refused.

use crate::devices::LongDisk;
use crate::former::former_slot;
use cx_disk::{FuseDisk, MemoryDisk};
use cx_run::MemoryShelf;
use cx_text::{List, Memory, Text};
use sample_files::File;
use sample_runs::samples::{BOX_FIELDS, BOX_SUMS, CA, CA_OUTPUT, EACH};
use sample_runs::{
    FIRST_OUTPUT, Outcome, SECOND_OUTPUT, answer_on, answer_over, answer_to, shelf_with,
};
use std::alloc::Global;
use std::test::Fail;
use test_cases::same;

/// Waves in a box of forty points, with two checkpoints.
pub(crate) const BOX_FILE: &[u8] = b"!DESC \"Waves in a box of forty points\"\n\
    ActiveThorns = \"PUGH IOUtil\"\n\
    ActiveThorns = \"WaveInt DiffInt ElemCA Control\"\n\
    \n\
    Cactus::cctk_run_title = \"box\"\n\
    Cactus::terminate      = \"iteration\"\n\
    Cactus::cctk_itlast    = 40\n\
    \n\
    driver::global_nx  = 40\n\
    driver::ghost_size = 1      # one ghost point per side\n\
    driver::parts_x    = 3\n\
    \n\
    wave::pattern = \"uniform\"\n\
    wave::amount  = 5\n\
    wave::sum     = yes\n\
    \n\
    IO::out_dir          = $parfile\n\
    IO::out_every        = 20\n\
    IO::out_vars         = \"wave::phi\n\
    \x20                       wave::total\"\n\
    IO::checkpoint_every = 20\n\
    IO::checkpoint_keep  = 2\n\
    IO::recover          = \"autoprobe\"\n";

/// The same without the number of parts, the amount and how it begins.
const BOX_REST: &[u8] = b"ActiveThorns = \"PUGH IOUtil\"\n\
    ActiveThorns = \"WaveInt DiffInt ElemCA Control\"\n\
    Cactus::cctk_run_title = \"box\"\n\
    Cactus::terminate = \"iteration\"\n\
    Cactus::cctk_itlast = 40\n\
    driver::global_nx = 40\n\
    driver::ghost_size = 1\n\
    wave::pattern = \"uniform\"\n\
    wave::sum = yes\n\
    IO::out_dir = $parfile\n\
    IO::out_every = 20\n\
    IO::out_vars = \"wave::phi\n\
    \x20                       wave::total\"\n\
    IO::checkpoint_every = 20\n\
    IO::checkpoint_keep = 2\n";

pub(crate) const BOX_THORNS: &[File] = &[File {
    name: "ThornList",
    bytes: b"# thorns of the box\n\
        !TARGET = $ARR\n\
        CactusPUGH/PUGH\n\
        CactusBase/IOUtil\n\
        Integer/WaveInt\n\
        Integer/DiffInt\n\
        Integer/ElemCA\n\
        Integer/Control\n",
}];

/// The words of a run.
pub(crate) const RUN: &[&str] = &["run", "t.par"];

/// What a run of a job over a disk comes to.
pub(crate) fn run_on(
    rt: &HostRuntime,
    file: &[u8],
    more: &str,
    others: &[File],
    disk: &mut MemoryDisk,
) -> Result<Outcome, Fail> {
    let mut shelf = shelf_with(rt.alloc(), file, more, others)?;
    answer_on(rt, RUN, &mut shelf, disk)
}

/// What a run over a disk that stops behind so many calls comes to, and what is left of the disk.
pub(crate) fn run_stopped(
    rt: &HostRuntime,
    file: &[u8],
    more: &str,
    disk: MemoryDisk,
    calls: u64,
    choice: u64,
) -> Result<(u8, MemoryDisk), Fail> {
    let mut shelf = shelf_with(rt.alloc(), file, more, &[])?;
    let mut fuse = FuseDisk::new(disk, calls);
    let came = answer_over(rt, RUN, &mut shelf, &mut fuse)?;
    Ok((came.status, fuse.into_image(choice)?))
}

pub(crate) fn empty_disk(alloc: Global) -> MemoryDisk {
    MemoryDisk::new(alloc, List::empty(alloc))
}

/// A disk with the files of another, of which one is cut to a length.
fn cut_disk(alloc: Global, disk: &MemoryDisk, cut: usize, to: usize) -> Result<MemoryDisk, Fail> {
    let mut files = List::empty(alloc);
    for file in 0..SECOND_OUTPUT + 1 {
        let bytes = disk.bytes(file);
        let kept = if file == cut {
            bytes.get(..to).unwrap_or(bytes)
        } else {
            bytes
        };
        files.push(Text::from_slice(alloc, kept)?)?;
    }
    Ok(MemoryDisk::new(alloc, files))
}

/// The disk that the box leaves.
fn box_disk(rt: &HostRuntime) -> Result<MemoryDisk, Fail> {
    let mut disk = empty_disk(rt.alloc());
    run_on(rt, BOX_FILE, "", BOX_THORNS, &mut disk)?;
    Ok(disk)
}

/// How its two slots begin, with the checkpoints of iterations 20 and 40.
const BOX_SLOTS: &[(usize, &[u8])] = &[
    (0, b"\x01CXCHKPT\x02\0\0\0\0\0\0\0\x14"),
    (1, b"\x01CXCHKPT\x02\0\0\0\0\0\0\0\x28"),
];

/// Tests what the box comes to.
fn is_box(came: &Outcome) -> Result<(), Fail> {
    let outputs = (came.first.as_slice(), came.second.as_slice());
    let found = (came.status, came.printed.as_slice(), outputs);
    let want = (
        0,
        b"done: iteration 40\n".as_slice(),
        (BOX_FIELDS, BOX_SUMS),
    );
    same(&"the run", &found, &want)?;
    let lengths = (came.first.len(), came.second.len());
    let found = (came.points, came.received, lengths);
    same(
        &"points, values and bytes",
        &found,
        &(4944, 480, (341, 110)),
    )
}

/// Tests that a slot has a checkpoint of an iteration.
fn slot_begins(disk: &MemoryDisk, slot: usize, front: &[u8]) -> Result<(), Fail> {
    same(&("slot", slot), &disk.bytes(slot).starts_with(front), &true)
}

#[test]
fn box_with_checkpoints(rt: HostRuntime) -> Result<(), Fail> {
    let mut disk = empty_disk(rt.alloc());
    let came = run_on(&rt, BOX_FILE, "", BOX_THORNS, &mut disk)?;
    is_box(&came)?;
    for (slot, front) in BOX_SLOTS {
        slot_begins(&disk, *slot, front)?;
    }
    same(&"slot 2", &disk.bytes(2).len(), &0)
}

/// How a run starts on a disk that the box has left, of which one file is cut, or on an empty one.
struct Start {
    name: &'static str,
    /// Which file is cut, and to which length from its end.
    cut: Option<(usize, usize)>,
    more: &'static str,
    status: u8,
    printed: &'static [u8],
    points: u128,
    first: &'static [u8],
}

const STARTS: &[Start] = &[
    Start {
        name: "another job",
        cut: None,
        more: "driver::parts_x = 3\nwave::amount = 6\nIO::recover = \"autoprobe\"\n",
        status: 6,
        printed: b"recovery: OtherJob\n\
            parameter wave::amount = \"5\"\n\
            parameter wave::amount = \"6\"\n",
        points: 0,
        first: BOX_FIELDS,
    },
    Start {
        name: "a damaged slot",
        cut: Some((1, 1)),
        more: "driver::parts_x = 3\nwave::amount = 5\nIO::recover = \"autoprobe\"\n",
        status: 6,
        printed: b"recovery: Damaged 1\n",
        points: 0,
        first: BOX_FIELDS,
    },
    Start {
        name: "a short output",
        cut: Some((FIRST_OUTPUT, 331)),
        more: "driver::parts_x = 3\nwave::amount = 5\nIO::recover = \"autoprobe\"\n",
        status: 6,
        printed: b"recovery: OutputShort 10 227\n",
        points: 0,
        first: b"# wave::ph",
    },
    // The newest checkpoint, that of iteration 40, has nothing left to do but the output of iteration 40.
    Start {
        name: "four parts",
        cut: None,
        more: "driver::parts_x = 4\nwave::amount = 5\nIO::recover = \"auto\"\n",
        status: 0,
        printed: b"done: iteration 40\n",
        points: 0,
        first: BOX_FIELDS,
    },
    Start {
        name: "without recovery",
        cut: None,
        more: "driver::parts_x = 3\nwave::amount = 5\nIO::recover = \"no\"\n",
        status: 0,
        printed: b"done: iteration 40\n",
        points: 4944,
        first: BOX_FIELDS,
    },
];

/// The disk that a start finds.
fn start_disk(alloc: Global, left: &MemoryDisk, start: &Start) -> Result<MemoryDisk, Fail> {
    let (file, less) = start.cut.unwrap_or((0, 0));
    let length = left.bytes(file).len();
    cut_disk(alloc, left, file, length.saturating_sub(less))
}

/// Tests what a start comes to.
fn is_started(start: &Start, came: &Outcome) -> Result<(), Fail> {
    let outputs = (came.first.as_slice(), came.second.as_slice());
    let found = (came.status, came.printed.as_slice(), outputs, came.points);
    let want = (
        start.status,
        start.printed,
        (start.first, BOX_SUMS),
        start.points,
    );
    same(&start.name, &found, &want)
}

/// Tests a start on what the box has left.
fn starts(rt: &HostRuntime, left: &MemoryDisk, start: &Start) -> Result<(), Fail> {
    let mut disk = start_disk(rt.alloc(), left, start)?;
    let came = run_on(rt, BOX_REST, start.more, &[], &mut disk)?;
    is_started(start, &came)
}

#[test]
fn starts_from_the_box(rt: HostRuntime) -> Result<(), Fail> {
    let left = box_disk(&rt)?;
    for start in STARTS {
        starts(&rt, &left, start)?;
    }
    Ok(())
}

/// Tests a start of the automaton on an empty disk.
fn starts_from_nothing(
    rt: &HostRuntime,
    more: &str,
    status: u8,
    printed: &[u8],
    first: &[u8],
) -> Result<(), Fail> {
    let mut shelf = shelf_with(rt.alloc(), CA, more, &[])?;
    let came = answer_to(rt, RUN, &mut shelf)?;
    let found = (came.status, came.printed.as_slice(), came.first.as_slice());
    same(&more, &found, &(status, printed, first))
}

#[test]
fn start_from_nothing(rt: HostRuntime) -> Result<(), Fail> {
    let auto = "IO::recover = \"auto\"\n";
    starts_from_nothing(&rt, auto, 6, b"recovery: NoCheckpoint\n", b"")?;
    let probe = "IO::recover = \"autoprobe\"\n";
    starts_from_nothing(&rt, probe, 0, b"done: iteration 2\n", CA_OUTPUT)
}

/// The box in three parts and in four: at leads 0 and 3, cut anew in the last run alone, and cut anew in each run at lead 8. By weight
/// the four parts are equal, since all points weigh the same.
const BOX_LEADS: &[(&str, &str)] = &[
    (
        "driver::parts_x = 3\nwave::amount = 5\nIO::recover = \"autoprobe\"\n",
        "driver::parts_x = 4\nwave::amount = 5\nIO::recover = \"autoprobe\"\n",
    ),
    (
        "driver::parts_x = 3\nwave::amount = 5\nIO::recover = \"autoprobe\"\ndriver::lead = 3\n",
        "driver::parts_x = 4\nwave::amount = 5\nIO::recover = \"autoprobe\"\ndriver::lead = 3\n",
    ),
    (
        "driver::parts_x = 3\nwave::amount = 5\nIO::recover = \"autoprobe\"\n",
        "driver::parts_x = 4\nwave::amount = 5\nIO::recover = \"autoprobe\"\ndriver::balance = yes\n",
    ),
    (
        "driver::widths_x = \"5 30 5\"\nwave::amount = 5\nIO::recover = \"autoprobe\"\ndriver::lead = 8\n\
            driver::balance = yes\ndriver::weight = \"wave::phi\"\n",
        "driver::widths_x = \"4 29 4 3\"\nwave::amount = 5\nIO::recover = \"autoprobe\"\ndriver::lead = 8\n\
            driver::balance = yes\ndriver::weight = \"wave::phi\"\n",
    ),
];

// The calls of the first run are: the mount, 8 looks at slots, 8 syncs of slots, a cut and a sync of each output, and a look at the old one
// (22); two pieces (24); the first checkpoint, with the outputs' syncs, 2 looks, a cut, a sync, a write of 0, a sync, the body and the gate
// with their syncs (36); two pieces (38); the second one, with the outputs' syncs, 5 looks, a cut, a sync, a write of 0 and a sync (49); and
// its body.
const WITHIN_BODY: u64 = 49;

// Those of the second run are: the mount, 11 looks at slots, or one more where the body is left; 2 at the newest, one at each output, and 8
// syncs of slots; and the first output's cut.
const STOPS: &[(u64, u64)] = &[(0, 24), (1, 25)];

/// A run of the box that goes on behind two that have stopped, by a choice of what a crash leaves and the calls of the second run.
fn third_run(rt: &HostRuntime, three: &str, four: &str, stop: (u64, u64)) -> Result<Outcome, Fail> {
    let (choice, calls) = stop;
    let disk = empty_disk(rt.alloc());
    let (first, disk) = run_stopped(rt, BOX_REST, three, disk, WITHIN_BODY, choice)?;
    let (second, mut disk) = run_stopped(rt, BOX_REST, three, disk, calls, choice)?;
    let mut came = run_on(rt, BOX_REST, four, &[], &mut disk)?;
    if first != 4 || second != 4 {
        came.status = 100;
    }
    Ok(came)
}

#[test]
fn box_that_stops_twice(rt: HostRuntime) -> Result<(), Fail> {
    for (three, four) in BOX_LEADS {
        for stop in STOPS {
            let came = third_run(&rt, three, four, *stop)?;
            let found = (came.status, came.first.as_slice(), came.second.as_slice());
            let want = (0, BOX_FIELDS, BOX_SUMS);
            same(&(four, stop), &found, &want)?;
            let found = (came.points, came.received);
            same(&(four, stop), &found, &(2400, 360))?;
        }
    }
    Ok(())
}

/// Commands on the box in three parts, with two outputs, where each file has 300,000,000 bytes.
const LONG: &[(&str, u8, &[u8])] = &[
    ("run", 6, b"recovery: OldTooLong 300000000 268435456\n"),
    ("chunk", 7, b"chunks: TooLong 600000000 268435456\n"),
    ("recombine", 7, b"chunks: TooLong 900000000 268435456\n"),
];

/// A disk with a slot of the box, and with files of 300,000,000 bytes.
fn long_disk(alloc: Global, slot: &[u8]) -> Result<LongDisk, Memory> {
    let slot = former_slot(alloc, slot, b"\x11\xe1\xa3\x00")?;
    Ok(LongDisk::new(alloc, slot, 300_000_000))
}

/// Tests what a command prints over such a disk.
fn is_too_long(
    rt: &HostRuntime,
    shelf: &mut MemoryShelf,
    slot: &[u8],
    row: &(&str, u8, &[u8]),
) -> Result<(), Fail> {
    let (word, status, printed) = *row;
    let mut disk = long_disk(rt.alloc(), slot)?;
    let came = answer_over(rt, &[word, "t.par"], shelf, &mut disk)?;
    let found = (came.status, came.printed.as_slice(), came.points);
    same(&word, &found, &(status, printed, 0))
}

#[test]
fn files_that_are_too_long(rt: HostRuntime) -> Result<(), Fail> {
    let left = box_disk(&rt)?;
    let mut shelf = shelf_with(rt.alloc(), BOX_FILE, "", BOX_THORNS)?;
    for row in LONG {
        is_too_long(&rt, &mut shelf, left.bytes(1), row)?;
    }
    Ok(())
}

/// How many calls a run of the automaton makes on an empty disk, with a checkpoint in each iteration: 20 up to the first piece, three
/// pieces, 11 for the first checkpoint, 14 for the second one, and the output's sync.
pub(crate) const AUTOMATON_CALLS: u64 = 49;

/// More calls than any run of it makes.
const MANY_CALLS: u64 = 100;

/// A disk with the files of another.
fn same_disk(alloc: Global, disk: &MemoryDisk) -> Result<MemoryDisk, Fail> {
    cut_disk(alloc, disk, FIRST_OUTPUT, disk.bytes(FIRST_OUTPUT).len())
}

/// The status of a run of the automaton that stops behind so many calls of the disk, and the image of that choice.
fn automaton_stopped(
    rt: &HostRuntime,
    disk: MemoryDisk,
    calls: u64,
) -> Result<(u8, MemoryDisk), Fail> {
    run_stopped(rt, CA, EACH, disk, calls, calls)
}

/// The status of a run that stops behind so many calls, on the files of a disk, and what one comes to that is started on what it leaves.
fn started_again(rt: &HostRuntime, left: &MemoryDisk, calls: u64) -> Result<(u8, Outcome), Fail> {
    let disk = same_disk(rt.alloc(), left)?;
    let (stopped, mut disk) = automaton_stopped(rt, disk, calls)?;
    let came = run_on(rt, CA, EACH, &[], &mut disk)?;
    Ok((stopped, came))
}

/// Whether a run of the automaton has come to its end, with its whole output.
pub(crate) fn is_whole(came: &Outcome) -> bool {
    came.status == 0
        && came.printed.as_slice() == b"done: iteration 2\n".as_slice()
        && came.first.as_slice() == CA_OUTPUT
}

/// How many calls a run makes on the files of a disk, where runs that stop at each of them are followed by one with the whole output.
fn calls_from(rt: &HostRuntime, left: &MemoryDisk) -> Result<Option<u64>, Fail> {
    for calls in 0..MANY_CALLS {
        let (stopped, came) = started_again(rt, left, calls)?;
        if !is_whole(&came) {
            return Ok(None);
        }
        match stopped {
            0 => return Ok(Some(calls)),
            4 => {}
            _ => return Ok(None),
        }
    }
    Ok(None)
}

/// The status of a run on an empty disk that stops behind so many calls, and of how many calls one is that follows, as `calls_from` has it.
fn stopped_twice(rt: &HostRuntime, calls: u64) -> Result<(u8, Option<u64>), Fail> {
    let (stopped, left) = automaton_stopped(rt, empty_disk(rt.alloc()), calls)?;
    Ok((stopped, calls_from(rt, &left)?))
}

#[test]
fn automaton_that_stops_once(rt: HostRuntime) -> Result<(), Fail> {
    let calls = calls_from(&rt, &empty_disk(rt.alloc()))?;
    same(&"calls of the disk", &calls, &Some(AUTOMATON_CALLS))
}

/// The status of a run that stops after so many calls, and whether one that follows can stop anywhere.
fn stopped_anywhere(rt: &HostRuntime, calls: u64) -> Result<(u8, bool), Fail> {
    let (stopped, second) = stopped_twice(rt, calls)?;
    Ok((stopped, second.is_some()))
}

/// Up to the first piece.
#[test]
fn automaton_that_stops_at_its_start_and_again(rt: HostRuntime) -> Result<(), Fail> {
    for calls in 0..21 {
        let found = stopped_anywhere(&rt, calls)?;
        same(&("stopped", calls), &found, &(4, true))?;
    }
    Ok(())
}

/// Up to the second piece.
#[test]
fn automaton_that_stops_at_its_first_checkpoint_and_again(rt: HostRuntime) -> Result<(), Fail> {
    for calls in 21..33 {
        let found = stopped_anywhere(&rt, calls)?;
        same(&("stopped", calls), &found, &(4, true))?;
    }
    Ok(())
}

/// Up to its end.
#[test]
fn automaton_that_stops_at_its_second_checkpoint_and_again(rt: HostRuntime) -> Result<(), Fail> {
    for calls in 33..AUTOMATON_CALLS {
        let found = stopped_anywhere(&rt, calls)?;
        same(&("stopped", calls), &found, &(4, true))?;
    }
    let found = stopped_anywhere(&rt, AUTOMATON_CALLS)?;
    same(&"after all its calls", &found, &(0, true))
}

/// What stands in a slot behind the key of the automaton's checkpoint of iteration 2: one output with its name and
/// its 94 bytes, 2 living cells, and one level of 8 points.
const VALUES: &[u8] = b"\0\0\0\x01\0\0\0\x0cca::cell.asc\0\0\0\0\0\0\0\x5e\
    \0\0\0\x01\0\0\0\0\0\0\0\x02\
    \0\0\0\x01\0\0\0\0\0\0\0\x08\
    \0\0\0\0\0\0\0\0\0\0\0\0\0\0\0\x01\0\0\0\0\0\0\0\0\0\0\0\0\0\0\0\0\
    \0\0\0\0\0\0\0\0\0\0\0\0\0\0\0\x01\0\0\0\0\0\0\0\0\0\0\0\0\0\0\0\0";

const TWO: &str = "IO::checkpoint_every = 2\ndriver::parts_x = 3\n";

/// What stands before the key, with the iteration.
const FRONT: &[u8] = b"\x01CXCHKPT\x02\0\0\0\0\0\0\0\x02\0\0";

/// What `describe` prints after the key.
const AFTER_KEY: &[u8] = b"parameter driver::parts_x = \"3\"\n";

/// The disk that the automaton leaves with this checkpoint.
fn automaton_disk(rt: &HostRuntime) -> Result<MemoryDisk, Fail> {
    let mut disk = empty_disk(rt.alloc());
    run_on(rt, CA, TWO, &[], &mut disk)?;
    Ok(disk)
}

/// What `describe` prints of it.
fn described(rt: &HostRuntime) -> Result<Outcome, Fail> {
    let mut shelf = shelf_with(rt.alloc(), CA, TWO, &[])?;
    answer_to(rt, &["describe", "t.par"], &mut shelf)
}

/// Tests that a text begins with another one.
fn begins(what: &str, text: &[u8], front: &[u8]) -> Result<(), Fail> {
    same(&what, &text.get(..front.len()), &Some(front))
}

/// The key of a slot of the automaton.
fn key_of(slot: &[u8]) -> &[u8] {
    let end = slot.len().saturating_sub(VALUES.len());
    slot.get(21..end).unwrap_or(&[])
}

/// Tests a slot beside what `describe` prints.
fn is_described(slot: &[u8], described: &[u8]) -> Result<(), Fail> {
    let key = key_of(slot);
    begins("the iteration before the key", slot, FRONT)?;
    same(&"the values after the key", &slot.ends_with(VALUES), &true)?;
    begins("the key", described, key)?;
    let rest = described.get(key.len()..).unwrap_or(&[]);
    begins("what comes after the key", rest, AFTER_KEY)
}

#[test]
fn checkpoint_of_the_automaton(rt: HostRuntime) -> Result<(), Fail> {
    let disk = automaton_disk(&rt)?;
    let described = described(&rt)?;
    is_described(disk.bytes(0), &described.printed)
}
