//! What the commands answer and write.

ghost use Rattle.std.specs.Prelude.{◌≡◌, None};
ghost use Rattle.cx_cut.specs.Faults.{cut_fault};
ghost use Rattle.cx_plan.specs.Whole.{IsWhole};
ghost use Rattle.cx_run_chunks.specs.Commands.{parts_in};

use crate::samples::{CELLS, FIRST, LIVE, SECOND, disk, job};
use cx_disk::{Disk, MemoryDisk};
use cx_plan::Job;
use cx_run_chunks::{ChunksFault, chunk, recombine};
use std::alloc::Global;
use std::test::Fail;
use test_cases::same;

/// The words of a fault.
fn fault_words(alloc: Global, fault: &ChunksFault) -> Result<String, Fail> {
    Ok(format!(in alloc; "{fault}")?)
}

/// What `chunk` answers.
fn chunk_words<D: Disk>(alloc: Global, disk: &mut D, job: &Job) -> Result<String, Fail>
    requires whole { IsWhole job.now }
    requires cut { cut_fault (parts_in job.now) ≡ None }
{
    match chunk(alloc, disk, job) {
        Ok(done) => {
            let (parts, records) = (done.parts, done.records);
            Ok(format!(in alloc; "parts {parts} records {records}")?)
        }
        Err(fault) => fault_words(alloc, &fault),
    }
}

/// What `recombine` answers.
fn recombine_words<D: Disk>(alloc: Global, disk: &mut D, job: &Job) -> Result<String, Fail>
    requires whole { IsWhole job.now }
    requires cut { cut_fault (parts_in job.now) ≡ None }
{
    match recombine(alloc, disk, job) {
        Ok(done) => {
            let (records, bytes) = (done.records, done.bytes);
            Ok(format!(in alloc; "records {records} bytes {bytes}")?)
        }
        Err(fault) => fault_words(alloc, &fault),
    }
}

/// What a command answers: `chunk` for outputs, `recombine` for chunks.
pub(crate) fn words<D: Disk>(alloc: Global, disk: &mut D, cuts: bool) -> Result<String, Fail> {
    let job = job(alloc)?;
    if cuts {
        chunk_words(alloc, disk, &job)
    } else {
        recombine_words(alloc, disk, &job)
    }
}

// The bytes of the outputs and of the chunks, a command and its answer, and the bytes of the chunks and of the whole after it.
struct Case {
    case: &'static str,
    texts: [&'static [u8]; 5],
    cuts: bool,
    words: &'static str,
    after: [&'static [u8]; 3],
}

const CASES: &[Case] = &[
    Case {
        case: "an output is cut",
        texts: [CELLS, b"", b"old", b"older", b"whole"],
        cuts: true,
        words: "parts 2 records 3",
        after: [FIRST, SECOND, b"whole"],
    },
    Case {
        case: "no output is there",
        texts: [b"", b"", b"old", b"older", b"whole"],
        cuts: true,
        words: "parts 2 records 0",
        after: [b"", b"", b"whole"],
    },
    Case {
        case: "an output that isn't records",
        texts: [SECOND, LIVE, b"old", b"older", b"whole"],
        cuts: true,
        words: "NotOutput ca::cell.asc",
        after: [b"old", b"older", b"whole"],
    },
    Case {
        case: "an output of another grid",
        texts: [
            b"# ca::cell iteration 0 size 2\n0 1\n\n",
            LIVE,
            b"old",
            b"older",
            b"whole",
        ],
        cuts: true,
        words: "NotOutput ca::cell.asc",
        after: [b"old", b"older", b"whole"],
    },
    Case {
        case: "the output of another variable",
        texts: [LIVE, CELLS, b"old", b"older", b"whole"],
        cuts: true,
        words: "NotOutput ca::cell.asc",
        after: [b"old", b"older", b"whole"],
    },
    Case {
        case: "iterations that don't rise",
        texts: [
            CELLS,
            b"# ca::live iteration 2 value 2\n# ca::live iteration 2 value 2\n",
            b"old",
            b"older",
            b"whole",
        ],
        cuts: true,
        words: "NotOutput ca::live.asc",
        after: [b"old", b"older", b"whole"],
    },
    Case {
        case: "chunks are put together",
        texts: [b"", b"", FIRST, SECOND, b"old"],
        cuts: false,
        words: "records 3 bytes 141",
        after: [FIRST, SECOND, CELLS],
    },
    Case {
        case: "no chunk is there",
        texts: [CELLS, LIVE, b"", b"", b"old"],
        cuts: false,
        words: "records 0 bytes 0",
        after: [b"", b"", b""],
    },
    Case {
        case: "chunks that aren't pieces: the first one counts",
        texts: [b"", b"", CELLS, b"x", b"old"],
        cuts: false,
        words: "Bad 0",
        after: [CELLS, b"x", b"old"],
    },
    Case {
        case: "a bad chunk goes before a stranger",
        texts: [b"", b"", SECOND, b"x", b"old"],
        cuts: false,
        words: "Bad 1",
        after: [SECOND, b"x", b"old"],
    },
    Case {
        case: "a section is missing",
        texts: [b"", b"", FIRST, b"", b"old"],
        cuts: false,
        words: "Missing 1 ca::cell 0",
        after: [FIRST, b"", b"old"],
    },
    Case {
        case: "chunk 1 copied over chunk 0",
        texts: [b"", b"", SECOND, SECOND, b"old"],
        cuts: false,
        words: "Stranger 0 ca::cell 0",
        after: [SECOND, SECOND, b"old"],
    },
    Case {
        case: "a scalar twice",
        texts: [
            b"",
            b"",
            b"# ca::live iteration 2 value 2\n# ca::live iteration 2 value 2\n",
            b"",
            b"old",
        ],
        cuts: false,
        words: "Double 0 ca::live 2",
        after: [
            b"# ca::live iteration 2 value 2\n# ca::live iteration 2 value 2\n",
            b"",
            b"old",
        ],
    },
];

/// Whether the outputs of a disk are these.
pub(crate) fn has_outputs(disk: &MemoryDisk, texts: &[&[u8]; 5]) -> bool {
    disk.bytes(9) == texts[0] && disk.bytes(10) == texts[1]
}

/// Whether the outputs, the chunks and the whole of a disk are as a case says.
fn is_after(disk: &MemoryDisk, case: &Case) -> bool {
    has_outputs(disk, &case.texts)
        && disk.bytes(1024) == case.after[0]
        && disk.bytes(1025) == case.after[1]
        && disk.bytes(1536) == case.after[2]
}

#[test]
fn commands_answer_and_write(rt: HostRuntime) -> Result<(), Fail> {
    let alloc = rt.alloc();
    for case in CASES {
        let mut disk = disk(alloc, &case.texts)?;
        let found = words(alloc, &mut disk, case.cuts)?;
        same(&case.case, &found.as_str(), &case.words)?;
        same(&case.case, &is_after(&disk, case), &true)?;
    }
    Ok(())
}
