//! Commands on the chunks of runs.

use crate::parts::{THORN_JOBS, Thorn};
use cx_disk::MemoryDisk;
use cx_run::MemoryShelf;
use cx_text::{List, Memory, Text};
use sample_runs::samples::CA;
use sample_runs::{FIRST_OUTPUT, SECOND_OUTPUT, answer_on, shelf_with};
use std::alloc::Global;
use std::test::Fail;
use test_cases::same;

const RUN: &[&str] = &["run", "t.par"];

/// The lines that a parameter file has more, a command, its status and what it prints.
struct Step {
    more: &'static str,
    word: &'static str,
    status: u8,
    printed: &'static str,
}

const CUT: &str = "driver::widths_x = \"3 5\"\n";

const OTHER_CUT: &str = "driver::widths_x = \"4 4\"\n";

const MORE_PARTS: &str = "driver::widths_x = \"3 3 2\"\n";

const STEPS: &[Step] = &[
    Step {
        more: CUT,
        word: "chunk",
        status: 0,
        printed: "chunked: parts 2 records 0\n",
    },
    Step {
        more: CUT,
        word: "recombine",
        status: 0,
        printed: "recombined: records 0 bytes 0\n",
    },
    Step {
        more: CUT,
        word: "run",
        status: 0,
        printed: "done: iteration 2\n",
    },
    Step {
        more: CUT,
        word: "chunk",
        status: 0,
        printed: "chunked: parts 2 records 3\n",
    },
    Step {
        more: OTHER_CUT,
        word: "recombine",
        status: 7,
        printed: "chunks: Stranger 0 ca::cell 0\n",
    },
    Step {
        more: MORE_PARTS,
        word: "recombine",
        status: 7,
        printed: "chunks: Stranger 0 ca::cell 0\n",
    },
    Step {
        more: CUT,
        word: "recombine",
        status: 0,
        printed: "recombined: records 3 bytes 141\n",
    },
];

/// The files of the chunks of two parts, and of the whole output.
const FIRST_CHUNK: usize = 1024;

const SECOND_CHUNK: usize = 1025;

const WHOLE: usize = 1536;

/// Tests a row of `STEPS` on what the former ones have left.
fn is_done(rt: &HostRuntime, step: &Step, disk: &mut MemoryDisk) -> Result<(), Fail> {
    let mut shelf = shelf_with(rt.alloc(), CA, step.more, &[])?;
    let came = answer_on(rt, &[step.word, "t.par"], &mut shelf, disk)?;
    let found = (came.status, came.printed.as_slice());
    let want = (step.status, step.printed.as_bytes());
    same(&(step.word, step.more), &found, &want)
}

#[test]
fn chunks_of_a_run(rt: HostRuntime) -> Result<(), Fail> {
    let alloc = rt.alloc();
    let mut disk = MemoryDisk::new(alloc, List::empty(alloc));
    for step in STEPS {
        is_done(&rt, step, &mut disk)?;
    }
    same(
        &"put together again",
        &disk.bytes(WHOLE),
        &disk.bytes(FIRST_OUTPUT),
    )
}

/// The status of a run, and the disk that it leaves.
fn left_by_run(rt: &HostRuntime, shelf: &mut MemoryShelf) -> Result<(u8, MemoryDisk), Fail> {
    let alloc = rt.alloc();
    let mut disk = MemoryDisk::new(alloc, List::empty(alloc));
    let ran = answer_on(rt, RUN, shelf, &mut disk)?;
    Ok((ran.status, disk))
}

/// The outputs on a disk, one after another.
fn outputs_of(alloc: Global, disk: &MemoryDisk) -> Result<Text, Memory> {
    let mut outputs = Text::from_slice(alloc, disk.bytes(FIRST_OUTPUT))?;
    outputs.push_slice(disk.bytes(SECOND_OUTPUT))?;
    Ok(outputs)
}

/// The statuses of both commands, one after another, on a disk.
fn both_commands(
    rt: &HostRuntime,
    shelf: &mut MemoryShelf,
    disk: &mut MemoryDisk,
) -> Result<(u8, u8), Fail> {
    let cut = answer_on(rt, &["chunk", "t.par"], shelf, disk)?;
    let whole = answer_on(rt, &["recombine", "t.par"], shelf, disk)?;
    Ok((cut.status, whole.status))
}

/// Whether the outputs of a job come together again, byte for byte, after they have been cut into chunks.
fn comes_together(rt: &HostRuntime, thorn: &Thorn, cut: &str) -> Result<bool, Fail> {
    let alloc = rt.alloc();
    let mut shelf = shelf_with(alloc, thorn.file, cut, thorn.others)?;
    let (ran, mut disk) = left_by_run(rt, &mut shelf)?;
    let done = both_commands(rt, &mut shelf, &mut disk)?;
    let outputs = outputs_of(alloc, &disk)?;
    Ok(ran == 0 && done == (0, 0) && disk.bytes(WHOLE) == outputs.as_slice())
}

#[test]
fn chunks_of_sample_thorns(rt: HostRuntime) -> Result<(), Fail> {
    for thorn in THORN_JOBS {
        for cut in thorn.cuts {
            let found = comes_together(&rt, thorn, cut)?;
            same(&(thorn.name, cut), &found, &true)?;
        }
    }
    Ok(())
}

/// The bytes of the automaton's output and of the chunks of two parts, a command, and what it prints.
struct Fault {
    output: &'static [u8],
    chunks: [&'static [u8]; 2],
    word: &'static str,
    printed: &'static str,
}

const FAULTS: &[Fault] = &[
    Fault {
        output: b"# ca::cell iteration 0 size 8\n0 0 0 1\n\n",
        chunks: [b"", b""],
        word: "chunk",
        printed: "chunks: NotOutput ca::cell.asc\n",
    },
    Fault {
        output: b"",
        chunks: [b"", b"0 1\n"],
        word: "recombine",
        printed: "chunks: Bad 1\n",
    },
    // chunk 1 copied over chunk 0
    Fault {
        output: b"",
        chunks: [
            b"# ca::cell iteration 0 part 1 of 2 from 3 size 5\n1 0 0 0 0\n\n",
            b"# ca::cell iteration 0 part 1 of 2 from 3 size 5\n1 0 0 0 0\n\n",
        ],
        word: "recombine",
        printed: "chunks: Stranger 0 ca::cell 0\n",
    },
    Fault {
        output: b"",
        chunks: [
            b"# ca::cell iteration 1 part 0 of 2 from 0 size 3\n0 0 1\n\n",
            b"# ca::cell iteration 1 part 1 of 2 from 3 size 5\n0 1 0 0 0\n\n\
                # ca::cell iteration 1 part 1 of 2 from 3 size 5\n0 1 0 0 0\n\n",
        ],
        word: "recombine",
        printed: "chunks: Double 1 ca::cell 1\n",
    },
    Fault {
        output: b"",
        chunks: [
            b"# ca::cell iteration 0 part 0 of 2 from 0 size 3\n0 0 0\n\n\
                # ca::cell iteration 1 part 0 of 2 from 0 size 3\n0 0 1\n\n",
            b"# ca::cell iteration 0 part 1 of 2 from 3 size 5\n1 0 0 0 0\n\n",
        ],
        word: "recombine",
        printed: "chunks: Missing 1 ca::cell 1\n",
    },
];

/// The bytes that a file has before a command that finds a fault.
fn bytes_before(fault: &Fault, file: usize) -> &'static [u8] {
    match file {
        FIRST_OUTPUT => fault.output,
        FIRST_CHUNK => fault.chunks[0],
        SECOND_CHUNK => fault.chunks[1],
        _ => b"",
    }
}

/// The disk on which a command finds a fault.
fn disk_before(alloc: Global, fault: &Fault) -> Result<MemoryDisk, Memory> {
    let mut files = List::empty(alloc);
    for file in 0..=SECOND_CHUNK {
        files.push(Text::from_slice(alloc, bytes_before(fault, file))?)?;
    }
    Ok(MemoryDisk::new(alloc, files))
}

/// Tests a row of `FAULTS`.
fn is_refused(rt: &HostRuntime, shelf: &mut MemoryShelf, fault: &Fault) -> Result<(), Fail> {
    let mut disk = disk_before(rt.alloc(), fault)?;
    let came = answer_on(rt, &[fault.word, "t.par"], shelf, &mut disk)?;
    let found = (came.status, came.printed.as_slice());
    let want = (7, fault.printed.as_bytes());
    same(&fault.printed, &found, &want)
}

#[test]
fn faults_of_chunks(rt: HostRuntime) -> Result<(), Fail> {
    let mut shelf = shelf_with(rt.alloc(), CA, CUT, &[])?;
    for fault in FAULTS {
        is_refused(&rt, &mut shelf, fault)?;
    }
    Ok(())
}
