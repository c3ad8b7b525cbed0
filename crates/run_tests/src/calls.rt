//! The top call over objects in memory.

use crate::cuts::{CUTS, Cut};
use crate::faults::{FAULTS, PLAIN, SAMPLE_FAULTS, WEIGHT_FAULTS};
use crate::jobs::{RUNS, Run};
use crate::schedules;
use cx_run::{FolderShelf, MemoryShelf, Shelf};
use cx_text::{List, Memory, Text};
use sample_files::{FILES, File};
use sample_runs::samples::{BOX, CA, CA_OUTPUT, CONTROL, GLIDER, HEAT, LIFE, USAGE, WAVE};
use sample_runs::{answer_to, shelf, shelf_with};
use std::alloc::Global;
use std::fs;
use std::test::Fail;
use test_cases::same;

const PARAMETER_FILES: &[File] = &[
    File {
        name: "ca.par",
        bytes: CA,
    },
    File {
        name: "life.par",
        bytes: LIFE,
    },
    File {
        name: "wave.par",
        bytes: WAVE,
    },
    File {
        name: "heat.par",
        bytes: HEAT,
    },
    File {
        name: "control.par",
        bytes: CONTROL,
    },
    File {
        name: "glider.par",
        bytes: GLIDER,
    },
    File {
        name: "box.par",
        bytes: BOX,
    },
    File {
        name: "byte.par",
        bytes: b"a = 1\nb = \x01\n",
    },
    File {
        name: "open.par",
        bytes: b"a = \"1\nb = 2\n",
    },
    File {
        name: "sign.par",
        bytes: b"ca::start 3\n",
    },
    File {
        name: "index.par",
        bytes: b"a[1023] = 1\na[1024] = 1\n",
    },
];

/// What `describe` prints before the schedule text.
const KEY_BEGINS: &[u8] = b"thorn Integer/ElemCA ca\n\
        direction x points 8 ghost 1 periodic\n\
        variable 0 ca::cell BYTE GF levels 1\n\
        variable 1 ca::live INT SCALAR levels 1\n\
        parameter Cactus::cctk_itlast = \"2\"\n\
        parameter Cactus::cctk_run_title = \"\"\n\
        parameter Cactus::terminate = \"iteration\" 0\n\
        parameter driver::global_nx = \"8\"\n\
        parameter driver::global_ny = \"10\"\n\
        parameter driver::global_nz = \"10\"\n\
        parameter driver::global_nsize = \"-1\"\n\
        parameter driver::ghost_size = \"-1\"\n\
        parameter driver::ghost_size_x = \"1\"\n\
        parameter driver::ghost_size_y = \"1\"\n\
        parameter driver::ghost_size_z = \"1\"\n\
        parameter driver::periodic = \"yes\"\n\
        parameter driver::periodic_x = \"yes\"\n\
        parameter driver::periodic_y = \"yes\"\n\
        parameter driver::periodic_z = \"yes\"\n\
        parameter driver::while_limit = \"1000\"\n\
        parameter IO::out_vars = \"ca::cell\"\n\
        parameter IO::out_every = \"1\"\n\
        parameter IO::checkpoint_every = \"-1\"\n\
        parameter IO::checkpoint_keep = \"1\"\n\
        parameter IO::checkpoint_on_terminate = \"no\"\n\
        parameter IO::checkpoint_ID = \"no\"\n\
        parameter ca::rule = \"90\"\n\
        parameter ca::start = \"3\"\n\
        parameter ca::seed = \"-1\"\n";

/// What it prints behind it.
const STARRED_AND_CUT: &[u8] = b"parameter driver::parts_x = \"1\"\n\
        parameter driver::parts_y = \"1\"\n\
        parameter driver::parts_z = \"1\"\n\
        parameter driver::widths_x = \"\"\n\
        parameter driver::widths_y = \"\"\n\
        parameter driver::widths_z = \"\"\n\
        parameter driver::lead = \"0\"\n\
        parameter IO::out_dir = \".\"\n\
        parameter IO::checkpoint_dir = \".\"\n\
        parameter IO::recover_dir = \".\"\n\
        parameter IO::recover = \"no\" 0\n\
        parameter IO::steer_file = \"\"\n\
        parameter driver::balance = \"no\"\n\
        parameter driver::weight = \"\"\n\
        parameter driver::weight_factor = \"1\"\n\
        cut x 8\n";

/// Words, the status that they give and the text that is printed.
struct Asked {
    words: &'static [&'static str],
    status: u8,
    printed: &'static str,
}

const ANSWERS: &[Asked] = &[
    Asked {
        words: &[],
        status: 1,
        printed: USAGE,
    },
    Asked {
        words: &["run"],
        status: 1,
        printed: USAGE,
    },
    Asked {
        words: &["run", "-x"],
        status: 1,
        printed: USAGE,
    },
    Asked {
        words: &["check", ""],
        status: 1,
        printed: USAGE,
    },
    Asked {
        words: &["walk", "ca.par"],
        status: 1,
        printed: USAGE,
    },
    Asked {
        words: &["run", "a", "--turns", "1", "--turns", "2"],
        status: 1,
        printed: USAGE,
    },
    Asked {
        words: &["run", "--turns", "1"],
        status: 1,
        printed: USAGE,
    },
    Asked {
        words: &["run", "ca.par", "--turns=18446744073709551616"],
        status: 1,
        printed: USAGE,
    },
    Asked {
        words: &["check", "ca.par", "--turns=1"],
        status: 1,
        printed: USAGE,
    },
    Asked {
        words: &["make", "1", "7"],
        status: 1,
        printed: USAGE,
    },
    Asked {
        words: &["make"],
        status: 1,
        printed: USAGE,
    },
    Asked {
        words: &["make", "1"],
        status: 1,
        printed: USAGE,
    },
    Asked {
        words: &["make", "1", "1025"],
        status: 1,
        printed: USAGE,
    },
    Asked {
        words: &["make", "1", "00008"],
        status: 1,
        printed: USAGE,
    },
    Asked {
        words: &["make", "1", ""],
        status: 1,
        printed: USAGE,
    },
    Asked {
        words: &["make", "1", "+8"],
        status: 1,
        printed: USAGE,
    },
    Asked {
        words: &["make", "-1", "8"],
        status: 1,
        printed: USAGE,
    },
    Asked {
        words: &["make", "", "8"],
        status: 1,
        printed: USAGE,
    },
    Asked {
        words: &["make", "9223372036854775808", "8"],
        status: 1,
        printed: USAGE,
    },
    Asked {
        words: &["make", "000000000000000000001", "8"],
        status: 1,
        printed: USAGE,
    },
    Asked {
        words: &["make", "1", "8", "9"],
        status: 1,
        printed: USAGE,
    },
    Asked {
        words: &["make", "1", "8", "--turns=1"],
        status: 1,
        printed: USAGE,
    },
    Asked {
        words: &["make", "--turns=1", "8"],
        status: 1,
        printed: USAGE,
    },
    Asked {
        words: &["chunk"],
        status: 1,
        printed: USAGE,
    },
    Asked {
        words: &["recombine", "ca.par", "--turns=1"],
        status: 1,
        printed: USAGE,
    },
    Asked {
        words: &["recombine", "no.par"],
        status: 2,
        printed: "refused: NoFile no.par\n",
    },
    Asked {
        words: &["run", "no.par"],
        status: 2,
        printed: "refused: NoFile no.par\n",
    },
    Asked {
        words: &["check", "no.par"],
        status: 2,
        printed: "refused: NoFile no.par\n",
    },
    Asked {
        words: &["run", "byte.par"],
        status: 2,
        printed: "refused: byte.par BadByte 2\n",
    },
    Asked {
        words: &["run", "open.par"],
        status: 2,
        printed: "refused: open.par OpenQuote 1\n",
    },
    Asked {
        words: &["run", "sign.par"],
        status: 2,
        printed: "refused: sign.par Unexpected 1\n",
    },
    Asked {
        words: &["run", "index.par"],
        status: 2,
        printed: "refused: index.par BadNumber 2\n",
    },
    Asked {
        words: &["run", "ca.par"],
        status: 0,
        printed: "done: iteration 2\n",
    },
    Asked {
        words: &["run", "--turns=3", "ca.par"],
        status: 0,
        printed: "done: iteration 2\n",
    },
    Asked {
        words: &["run", "ca.par", "--turns", "3"],
        status: 0,
        printed: "done: iteration 2\n",
    },
    Asked {
        words: &["check", "ca.par"],
        status: 0,
        printed: "accepted\n",
    },
    Asked {
        words: &["check", "life.par"],
        status: 0,
        printed: "accepted\n",
    },
    Asked {
        words: &["check", "wave.par"],
        status: 0,
        printed: "accepted\n",
    },
    Asked {
        words: &["check", "heat.par"],
        status: 0,
        printed: "accepted\n",
    },
    Asked {
        words: &["check", "control.par"],
        status: 0,
        printed: "accepted\n",
    },
    Asked {
        words: &["check", "glider.par"],
        status: 0,
        printed: "accepted\n",
    },
    Asked {
        words: &["check", "box.par"],
        status: 0,
        printed: "accepted\n",
    },
    Asked {
        words: &["schedule", "ca.par"],
        status: 0,
        printed: schedules::CA,
    },
];

/// Thorns, each with the grids' directions that it has.
const THORNS: &[&str] = &["ElemCA", "Life2D", "WaveInt", "DiffInt"];

/// Periodicity and ghost widths; none leaves the routines of reach 1 without ghost points.
const GRIDS: &[&str] = &[
    "driver::periodic = no\n",
    "driver::periodic = yes\n",
    "driver::periodic = yes\ndriver::periodic_x = no\n",
    "driver::ghost_size = 2\n",
    "driver::ghost_size = 8\ndriver::global_nsize = 40\n",
    "driver::ghost_size_x = 3\ndriver::periodic = yes\n",
];

/// Tests a row of `ANSWERS`.
fn is_answered(rt: &HostRuntime, shelf: &mut MemoryShelf, asked: &Asked) -> Result<(), Fail> {
    let came = answer_to(rt, asked.words, shelf)?;
    let found = (came.status, came.printed.as_slice());
    let want = (asked.status, asked.printed.as_bytes());
    same(&asked.words, &found, &want)
}

#[test]
fn answers(rt: HostRuntime) -> Result<(), Fail> {
    let mut shelf = shelf(rt.alloc(), PARAMETER_FILES, FILES)?;
    for asked in ANSWERS {
        is_answered(&rt, &mut shelf, asked)?;
    }
    Ok(())
}

/// What `describe` prints of `ca.par`.
fn description(alloc: Global) -> Result<Text, Memory> {
    let mut expected = Text::from_slice(alloc, KEY_BEGINS)?;
    expected.push_slice(schedules::CA.as_bytes())?;
    expected.push_slice(STARRED_AND_CUT)?;
    Ok(expected)
}

#[test]
fn description_of_eight_points(rt: HostRuntime) -> Result<(), Fail> {
    let mut shelf = shelf(rt.alloc(), PARAMETER_FILES, FILES)?;
    let expected = description(rt.alloc())?;
    let came = answer_to(&rt, &["describe", "ca.par"], &mut shelf)?;
    let found = (came.status, came.printed.as_slice());
    same(&"describe ca.par", &found, &(0, expected.as_slice()))
}

/// Examples, the schedules that are printed of them, and the first lines of their descriptions.
const SHOWN: &[(&str, &str, &str)] = &[
    ("ca.par", schedules::CA, "thorn Integer/ElemCA ca\n"),
    ("life.par", schedules::LIFE, "thorn Integer/Life2D life\n"),
    ("wave.par", schedules::WAVE, "thorn Integer/WaveInt wave\n"),
    ("heat.par", schedules::HEAT, "thorn Integer/DiffInt diff\n"),
    (
        "control.par",
        schedules::CONTROL,
        "thorn Integer/Control control\n",
    ),
    ("glider.par", schedules::LIFE, "thorn Integer/Life2D life\n"),
    (
        "box.par",
        schedules::BOX,
        "thorn Integer/WaveInt wave\nthorn Integer/DiffInt diff\n\
        thorn Integer/ElemCA ca\nthorn Integer/Control control\n",
    ),
];

/// Tests the schedule of a file.
fn is_scheduled(
    rt: &HostRuntime,
    shelf: &mut MemoryShelf,
    file: &str,
    schedule: &str,
) -> Result<(), Fail> {
    let came = answer_to(rt, &["schedule", file], shelf)?;
    let found = (came.status, came.printed.as_slice());
    same(&("schedule", file), &found, &(0, schedule.as_bytes()))
}

/// Tests how the description of a file begins.
fn is_described(
    rt: &HostRuntime,
    shelf: &mut MemoryShelf,
    file: &str,
    thorns: &str,
) -> Result<(), Fail> {
    let came = answer_to(rt, &["describe", file], shelf)?;
    let found = (came.status, came.printed.starts_with(thorns.as_bytes()));
    same(&("describe", file), &found, &(0, true))
}

#[test]
fn sample_thorns_are_shown(rt: HostRuntime) -> Result<(), Fail> {
    let mut shelf = shelf(rt.alloc(), PARAMETER_FILES, FILES)?;
    for (file, schedule, thorns) in SHOWN {
        is_scheduled(&rt, &mut shelf, file, schedule)?;
        is_described(&rt, &mut shelf, file, thorns)?;
    }
    Ok(())
}

/// Tests a row of `CUTS`.
fn is_cut(rt: &HostRuntime, cut: &Cut) -> Result<(), Fail> {
    let mut shelf = shelf_with(rt.alloc(), cut.file, "", cut.others)?;
    let came = answer_to(rt, &[cut.word, "t.par"], &mut shelf)?;
    same(&cut.name, &came.printed.as_slice(), &cut.printed)
}

#[test]
fn grids_that_are_cut(rt: HostRuntime) -> Result<(), Fail> {
    for cut in CUTS {
        is_cut(&rt, cut)?;
    }
    Ok(())
}

/// What `check t.par` prints where these files come before others.
fn checked(rt: &HostRuntime, files: &[File], more: &[File]) -> Result<Vec<u8>, Fail> {
    let mut shelf = shelf(rt.alloc(), files, more)?;
    Ok(answer_to(rt, &["check", "t.par"], &mut shelf)?.printed)
}

/// Tests what `check t.par` prints.
fn is_checked(rt: &HostRuntime, files: &[File], more: &[File], want: &str) -> Result<(), Fail> {
    let printed = checked(rt, files, more)?;
    same(&want, &printed.as_slice(), &want.as_bytes())
}

#[test]
fn faults_of_plain_and_sample_thorns(rt: HostRuntime) -> Result<(), Fail> {
    for fault in FAULTS {
        is_checked(&rt, fault.files, PLAIN, fault.printed)?;
    }
    for fault in SAMPLE_FAULTS {
        is_checked(&rt, fault.files, FILES, fault.printed)?;
    }
    Ok(())
}

#[test]
fn faults_of_the_variable_that_weighs(rt: HostRuntime) -> Result<(), Fail> {
    for fault in WEIGHT_FAULTS {
        is_checked(&rt, fault.files, PLAIN, fault.printed)?;
    }
    Ok(())
}

const ACCEPTED: &[u8] = b"accepted\n";

/// The first line of a parameter file of one thorn.
fn activation(alloc: Global, thorn: &str) -> Result<Text, Memory> {
    let mut text = Text::from_slice(alloc, b"ActiveThorns = ")?;
    text.push_slice(thorn.as_bytes())?;
    text.push_slice(b"\n")?;
    Ok(text)
}

/// Tests that a thorn's job on a grid is accepted.
fn is_accepted(rt: &HostRuntime, thorn: &str, grid: &str) -> Result<(), Fail> {
    let line = activation(rt.alloc(), thorn)?;
    let mut shelf = shelf_with(rt.alloc(), line.as_slice(), grid, &[])?;
    let came = answer_to(rt, &["check", "t.par"], &mut shelf)?;
    let found = (came.status, came.printed.as_slice());
    same(&(thorn, grid), &found, &(0, ACCEPTED))
}

#[test]
fn sample_thorns_on_many_grids(rt: HostRuntime) -> Result<(), Fail> {
    for thorn in THORNS {
        for grid in GRIDS {
            is_accepted(&rt, thorn, grid)?;
        }
    }
    Ok(())
}

/// Tests a row of `RUNS`.
fn is_run(rt: &HostRuntime, run: &Run) -> Result<(), Fail> {
    let mut shelf = shelf_with(rt.alloc(), run.file, run.more, run.others)?;
    let came = answer_to(rt, &["run", "t.par"], &mut shelf)?;
    let outputs = (came.first.as_slice(), came.second.as_slice());
    let found = (came.status, came.printed.as_slice(), outputs, came.points);
    let points = run.points.unwrap_or(came.points);
    let want = (run.status, run.printed, (run.first, run.second), points);
    same(&run.name, &found, &want)
}

#[test]
fn runs_of_jobs(rt: HostRuntime) -> Result<(), Fail> {
    for run in RUNS {
        is_run(&rt, run)?;
    }
    same(
        &"the bytes of the automaton's output",
        &CA_OUTPUT.len(),
        &141,
    )
}

#[test]
fn file_that_is_too_long(rt: HostRuntime) -> Result<(), Fail> {
    let alloc = rt.alloc();
    let name = Text::from_slice(alloc, b"long.par")?;
    let bytes = Text::new(vec![in alloc; b' '; 1_048_577]?);
    let mut shelf = MemoryShelf::new(List::new(vec![in alloc; (name, bytes)]?));
    let came = answer_to(&rt, &["run", "long.par"], &mut shelf)?;
    let found = (came.status, came.printed.as_slice());
    let want = b"refused: long.par TooLong\n".as_slice();
    same(&"1,048,577 bytes", &found, &(2, want))
}

#[test]
fn files_of_the_current_folder(rt: HostRuntime) -> Result<(), Fail> {
    let alloc = rt.alloc();
    fs::write(&rt, "ca.par", "bytes")?;
    let mut shelf = FolderShelf::new(rt.clone()?);
    let found = shelf.read(alloc, &Text::from_slice(alloc, b"ca.par")?);
    let is_found = matches!(&found, Ok(Some(bytes)) if bytes.as_slice() == b"bytes".as_slice());
    same(&"a file that is there", &is_found, &true)?;
    let missing = shelf.read(alloc, &Text::from_slice(alloc, b"b.par")?);
    same(
        &"a file that is missing",
        &matches!(&missing, Ok(None)),
        &true,
    )
}
