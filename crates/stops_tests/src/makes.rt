//! Runs that are made from a seed and a size.

use crate::devices::{failing_disk, failing_shelf};
use cx_disk::FailingDisk;
use cx_job_files::FailingShelf;
use cx_run::MemoryShelf;
use cx_text::List;
use sample_runs::{answer_over, answer_to};
use std::test::Fail;
use test_cases::same;

/// Words, what is printed, and how long the output is, and for some its text. How many cells live is what a model of the game gives
/// that was written apart.
struct Made {
    words: &'static [&'static str],
    printed: &'static str,
    length: usize,
    output: Option<&'static [u8]>,
}

const MADE: &[Made] = &[
    Made {
        words: &["make", "7", "64"],
        printed: "done: iteration 20\n\
            made 7 64 points 4096 parts 16 output 16459 live 628\n",
        length: 16459,
        output: None,
    },
    Made {
        words: &["make", "007", "0008"],
        printed: "done: iteration 20\n\
            made 7 8 points 64 parts 16 output 327 live 28\n",
        length: 327,
        output: Some(CELLS),
    },
    Made {
        words: &["make", "7", "8"],
        printed: "done: iteration 20\n\
            made 7 8 points 64 parts 16 output 327 live 28\n",
        length: 327,
        output: Some(CELLS),
    },
    Made {
        words: &["make", "9223372036854775807", "9"],
        printed: "done: iteration 20\n\
            made 9223372036854775807 9 points 81 parts 16 output 395 live 6\n",
        length: 395,
        output: None,
    },
];

/// The cells of eight times eight points by the seed 7, at the start and after 20 iterations.
const CELLS: &[u8] = b"# life::cell iteration 0 size 8 8\n\
    0 1 0 0 1 0 1 0\n\
    0 1 1 1 0 0 0 0\n\
    0 1 1 1 0 1 1 1\n\
    1 0 1 0 1 1 1 0\n\
    0 0 0 1 1 0 1 1\n\
    1 1 1 0 0 0 0 1\n\
    0 0 0 0 0 0 0 1\n\
    1 0 1 0 0 0 0 0\n\
    \n\
    # life::cell iteration 20 size 8 8\n\
    0 1 1 0 1 1 0 0\n\
    1 0 0 0 1 1 0 0\n\
    1 1 1 0 0 0 1 1\n\
    1 1 1 1 0 0 1 1\n\
    1 0 0 1 1 0 1 1\n\
    1 0 0 0 0 0 0 0\n\
    0 0 0 0 0 0 1 1\n\
    0 1 1 0 0 0 0 0\n\
    \n";

/// Tests what comes of words.
fn is_made(rt: &HostRuntime, shelf: &mut MemoryShelf, made: &Made) -> Result<(), Fail> {
    let came = answer_to(rt, made.words, shelf)?;
    let found = (came.status, came.printed.as_slice(), came.first.len());
    let want = (0, made.printed.as_bytes(), made.length);
    same(&made.words, &found, &want)?;
    let output = made.output.unwrap_or(came.first.as_slice());
    same(&made.words, &came.first.as_slice(), &output)
}

#[test]
fn runs_that_are_made(rt: HostRuntime) -> Result<(), Fail> {
    let mut shelf = MemoryShelf::new(List::empty(rt.alloc()));
    for made in MADE {
        is_made(&rt, &mut shelf, made)?;
    }
    Ok(())
}

/// Tests a call over these devices.
fn is_told(
    rt: &HostRuntime,
    shelf: &mut FailingShelf,
    disk: &mut FailingDisk,
    status: u8,
    printed: &[u8],
) -> Result<(), Fail> {
    let came = answer_over(rt, &["make", "7", "8"], shelf, disk)?;
    let found = (came.status, came.printed.as_slice());
    same(&"make 7 8", &found, &(status, printed))
}

/// A shelf whose first reading fails isn't read; a disk that fails is reported.
#[test]
fn devices_of_a_run_that_is_made(rt: HostRuntime) -> Result<(), Fail> {
    let alloc = rt.alloc();
    let mut shelf = failing_shelf(alloc, MemoryShelf::new(List::empty(alloc)), 0)?;
    let mut disk = failing_disk(alloc, 3)?;
    is_told(&rt, &mut shelf, &mut disk, 4, b"device: disk\n")?;
    let done = b"done: iteration 20\nmade 7 8 points 64 parts 16 output 327 live 28\n";
    is_told(&rt, &mut shelf, &mut disk, 0, done)
}
