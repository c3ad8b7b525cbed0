//! Runs in parts: the same bytes for every cut, every lead and every order of turns.

use crate::jobs::DIFF_IN_THREE;
use cx_disk::MemoryDisk;
use cx_run::MemoryShelf;
use cx_text::List;
use sample_files::File;
use sample_runs::samples::{CA, CA_OUTPUT, LEAVES, SHORT_HEAT};
use sample_runs::{Outcome, answer_on, answer_to, shelf_with};
use std::test::Fail;
use test_cases::same;

/// How a run is cut and how far its parts may lead; how many points are computed, how many values are exchanged, and their sum.
struct Work {
    more: &'static str,
    points: u128,
    received: u64,
    sum: u64,
}

/// The automaton of eight points over three iterations.
const WORKS: &[Work] = &[
    Work {
        more: "driver::parts_x = 1\n",
        points: 26,
        received: 4,
        sum: 0,
    },
    Work {
        more: "driver::parts_x = 2\n",
        points: 28,
        received: 8,
        sum: 1,
    },
    Work {
        more: "driver::parts_x = 8\n",
        points: 40,
        received: 32,
        sum: 8,
    },
    Work {
        more: "driver::widths_x = \"3 5\"\n",
        points: 28,
        received: 8,
        sum: 1,
    },
    Work {
        more: "driver::parts_x = 2\ndriver::lead = 64\n",
        points: 28,
        received: 8,
        sum: 1,
    },
];

/// Seeds of turns, as words.
const SEEDS: &[&str] = &[
    "--turns=0",
    "--turns=1",
    "--turns=2",
    "--turns=3",
    "--turns=4",
    "--turns=5",
    "--turns=6",
    "--turns=7",
    "--turns=8",
    "--turns=18446744073709551615",
];

/// A job of a sample thorn, with files in place of its own, and cuts of its grid into 1, 2, 3 and 16 parts, or anew at each checkpoint.
pub(crate) struct Thorn {
    pub(crate) name: &'static str,
    pub(crate) file: &'static [u8],
    pub(crate) others: &'static [File],
    pub(crate) cuts: &'static [&'static str],
}

const LINES: &[&str] = &[
    "",
    "driver::parts_x = 2\n",
    "driver::parts_x = 3\ndriver::lead = 1\n",
    "driver::widths_x = \"1 2 1 5 1 1 5\"\ndriver::lead = 2\n",
    "driver::parts_x = 16\n",
    "driver::widths_x = \"1 2 1 5 1 1 5\"\ndriver::lead = 8\ndriver::balance = yes\nIO::checkpoint_every = 1\n",
];

const SHEETS: &[&str] = &[
    "",
    "driver::parts_y = 2\n",
    "driver::parts_x = 3\ndriver::lead = 3\n",
    "driver::widths_x = \"1 1 2 1 1 1 1\"\n",
    "driver::parts_x = 4\ndriver::parts_y = 4\ndriver::lead = 1\n",
    "driver::widths_y = \"1 1 3\"\ndriver::balance = yes\ndriver::weight = \"life::cell\"\n\
        driver::weight_factor = 1048576\nIO::checkpoint_every = 1\n",
];

const SOLIDS: &[&str] = &[
    "",
    "driver::parts_z = 2\n",
    "driver::parts_x = 3\ndriver::lead = 2\n",
    "driver::parts_x = 4\ndriver::parts_y = 2\ndriver::parts_z = 2\ndriver::lead = 1\n",
    "driver::widths_x = \"1 1 2\"\ndriver::widths_y = \"3 1\"\ndriver::widths_z = \"1 2\"\ndriver::lead = 8\n\
        driver::balance = yes\ndriver::weight = \"diff::u\"\nIO::checkpoint_every = 1\n",
];

pub(crate) const THORN_JOBS: &[Thorn] = &[
    Thorn {
        name: "ElemCA",
        file: b"ActiveThorns = \"ElemCA\"\n\
            Cactus::cctk_itlast = 3\n\
            driver::global_nx = 16\n\
            ca::rule = 110\n\
            ca::seed = 5\n\
            IO::out_vars = \"ca::cell ca::live\"\n",
        others: &[],
        cuts: LINES,
    },
    Thorn {
        name: "Life2D",
        file: b"ActiveThorns = \"Life2D\"\n\
            Cactus::cctk_itlast = 2\n\
            driver::global_nx = 8\n\
            driver::global_ny = 5\n\
            driver::periodic = yes\n\
            life::pattern = \"random\"\n\
            life::seed = 3\n\
            IO::out_vars = \"life::cell life::live\"\n",
        others: &[],
        cuts: SHEETS,
    },
    Thorn {
        name: "WaveInt",
        file: b"ActiveThorns = \"WaveInt\"\n\
            Cactus::cctk_itlast = 3\n\
            driver::global_nx = 16\n\
            wave::pattern = \"random\"\n\
            wave::amount = 1000\n\
            wave::seed = 2\n\
            wave::sum = yes\n\
            IO::out_vars = \"wave::phi wave::total\"\n",
        others: &[],
        cuts: LINES,
    },
    Thorn {
        name: "DiffInt",
        file: b"ActiveThorns = \"DiffInt\"\n\
            Cactus::cctk_itlast = 3\n\
            driver::global_nx = 16\n\
            driver::periodic = yes\n\
            diff::pattern = \"random\"\n\
            diff::amount = 1000\n\
            diff::seed = 4\n\
            diff::sum = yes\n\
            IO::out_vars = \"diff::u diff::total\"\n",
        others: &[],
        cuts: LINES,
    },
    Thorn {
        name: "DiffInt in three directions",
        file: b"ActiveThorns = \"DiffInt\"\n\
            Cactus::cctk_itlast = 2\n\
            driver::global_nx = 4\n\
            driver::global_ny = 4\n\
            driver::global_nz = 3\n\
            driver::periodic_z = no\n\
            driver::periodic = yes\n\
            diff::pattern = \"random\"\n\
            diff::amount = 1000\n\
            diff::seed = 6\n\
            diff::sum = yes\n\
            IO::out_vars = \"diff::u diff::total\"\n",
        others: DIFF_IN_THREE,
        cuts: SOLIDS,
    },
    Thorn {
        name: "Control",
        file: b"ActiveThorns = \"Control\"\n\
            Cactus::cctk_itlast = 1\n\
            driver::global_nx = 16\n\
            control::turns = 6\n\
            control::drop = 2\n\
            IO::out_vars = \"control::count\"\n",
        others: &[],
        cuts: LINES,
    },
];

/// DiffInt's interface, with the field of `LEAVES` in 16 bits.
const SHORT_FIELD: &[File] = &[File {
    name: "arrangements/Integer/DiffInt/interface.ccl",
    bytes: SHORT_HEAT,
}];

/// The output of `LEAVES` up to iteration 6.
const LEFT: &[u8] = b"# diff::u iteration 0 size 16\n\
    0 0 100 0 0 0 0 0 0 0 0 0 0 0 0 0\n\
    \n\
    # diff::u iteration 1 size 16\n\
    0 100 -100 100 0 0 0 0 0 0 0 0 0 0 0 0\n\
    \n\
    # diff::u iteration 2 size 16\n\
    100 -200 300 -200 100 0 0 0 0 0 0 0 0 0 0 0\n\
    \n\
    # diff::u iteration 3 size 16\n\
    -300 600 -700 600 -300 100 0 0 0 0 0 0 0 0 0 100\n\
    \n\
    # diff::u iteration 4 size 16\n\
    1000 -1600 1900 -1600 1000 -400 100 0 0 0 0 0 0 0 100 -400\n\
    \n\
    # diff::u iteration 5 size 16\n\
    -3000 4500 -5100 4500 -3000 1500 -500 100 0 0 0 0 0 100 -500 1500\n\
    \n\
    # diff::u iteration 6 size 16\n\
    9000 -12600 14100 -12600 9000 -5000 2100 -600 100 0 0 0 100 -600 2100 -5000\n\
    \n";

const LEADS: &[&str] = &["", "driver::lead = 1\n", "driver::lead = 8\n"];

/// What a run of `t.par` comes to with turns from a seed.
fn run_with(rt: &HostRuntime, shelf: &mut MemoryShelf, seed: &str) -> Result<Outcome, Fail> {
    answer_to(rt, &["run", "t.par", seed], shelf)
}

/// Tests a row of `WORKS`.
fn is_work(rt: &HostRuntime, work: &Work) -> Result<(), Fail> {
    let mut shelf = shelf_with(rt.alloc(), CA, work.more, &[])?;
    let came = answer_to(rt, &["run", "t.par"], &mut shelf)?;
    same(&work.more, &came.first.as_slice(), &CA_OUTPUT)?;
    let found = (came.points, came.received, came.sum);
    let want = (work.points, work.received, work.sum);
    same(&work.more, &found, &want)
}

#[test]
fn work_of_the_automaton(rt: HostRuntime) -> Result<(), Fail> {
    for work in WORKS {
        is_work(&rt, work)?;
    }
    Ok(())
}

/// What a job's runs come to, of which each takes its turns from another seed.
pub(crate) fn runs_by_seeds(
    rt: &HostRuntime,
    file: &[u8],
    more: &str,
    others: &[File],
) -> Result<Vec<Outcome>, Fail> {
    let mut shelf = shelf_with(rt.alloc(), file, more, others)?;
    let mut runs = Vec::new(rt.alloc());
    for seed in SEEDS {
        runs.push(run_with(rt, &mut shelf, seed)?)?;
    }
    Ok(runs)
}

/// What a job's run in one part comes to.
fn whole_run(rt: &HostRuntime, thorn: &Thorn) -> Result<Outcome, Fail> {
    let mut shelf = shelf_with(rt.alloc(), thorn.file, "", thorn.others)?;
    answer_to(rt, &["run", "t.par"], &mut shelf)
}

/// Tests a job's runs in a cut beside its run in one part.
fn runs_are_alike(rt: &HostRuntime, thorn: &Thorn, cut: &str, one: &Outcome) -> Result<(), Fail> {
    let runs = runs_by_seeds(rt, thorn.file, cut, thorn.others)?;
    for (k, came) in runs.iter().enumerate() {
        let found = (came.status, came.first.as_slice(), came.second.as_slice());
        let want = (0, one.first.as_slice(), one.second.as_slice());
        same(&(thorn.name, cut, "turns", k), &found, &want)?;
    }
    Ok(())
}

#[test]
fn sample_thorns_in_parts(rt: HostRuntime) -> Result<(), Fail> {
    for thorn in THORN_JOBS {
        let name = thorn.name;
        let one = whole_run(&rt, thorn)?;
        same(&(name, "in one part"), &one.status, &0)?;
        for cut in thorn.cuts {
            runs_are_alike(&rt, thorn, cut, &one)?;
        }
    }
    Ok(())
}

/// What a run of `LEAVES` in 16 bits prints.
const ENDED: &[u8] = b"ended: Overflow 7 EVOL/diff_step\n";

/// Tests the runs of `LEAVES` in 16 bits with a lead.
fn runs_overflow(rt: &HostRuntime, lead: &str) -> Result<(), Fail> {
    let runs = runs_by_seeds(rt, LEAVES, lead, SHORT_FIELD)?;
    for (k, came) in runs.iter().enumerate() {
        let found = (came.status, came.printed.as_slice(), came.first.as_slice());
        same(&(lead, "turns", k), &found, &(3, ENDED, LEFT))?;
    }
    Ok(())
}

#[test]
fn overflow_wherever_other_parts_stand(rt: HostRuntime) -> Result<(), Fail> {
    for lead in LEADS {
        runs_overflow(&rt, lead)?;
    }
    Ok(())
}

/// A checkpoint in each third iteration, and a start from the newest one.
const THIRDS: &str = "IO::checkpoint_every = 3\nIO::recover = \"autoprobe\"\n";

/// How many points a run over a disk computes, after a test of its end.
fn overflows(
    rt: &HostRuntime,
    run: &str,
    shelf: &mut MemoryShelf,
    disk: &mut MemoryDisk,
) -> Result<u128, Fail> {
    let came = answer_on(rt, &["run", "t.par"], shelf, disk)?;
    let found = (came.status, came.printed.as_slice(), came.first.as_slice());
    same(&run, &found, &(3, ENDED, LEFT))?;
    Ok(came.points)
}

#[test]
fn overflow_twice(rt: HostRuntime) -> Result<(), Fail> {
    let alloc = rt.alloc();
    let mut shelf = shelf_with(alloc, LEAVES, THIRDS, SHORT_FIELD)?;
    let mut disk = MemoryDisk::new(alloc, List::empty(alloc));
    overflows(&rt, "from nothing", &mut shelf, &mut disk)?;
    let points = overflows(&rt, "from iteration 6", &mut shelf, &mut disk)?;
    same(&"points", &(points <= 16), &true)
}
