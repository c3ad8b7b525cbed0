//! The files of seed 7 and size 64, and what is said of them.

ghost use Rattle.std.specs.Prelude.{◌≤◌, length, IfOk};

use cx_grid::{Point, Shape};
use cx_plan::{Cuts, Job, Recover, Schedule, VarId, VarInfo};
use cx_run_made::{file_name, live_variable, made_files, scalar_named, summary};
use cx_text::{CType, List, Memory, Text};
use std::alloc::Global;
use std::test::Fail;
use test_cases::same;

/// A file's name and its bytes.
struct File {
    name: &'static str,
    bytes: &'static [u8],
}

const FILES: &[File] = &[
    File {
        name: "ThornList",
        bytes: b"Integer/Life2D\n",
    },
    File {
        name: "arrangements/Integer/Life2D/interface.ccl",
        bytes: b"implements: life\n\
        public:\n\
        CCTK_BYTE cells TYPE=GF DIM=2 { cell } \"cells\"\n\
        CCTK_INT counts TYPE=SCALAR { live } \"live cells\"\n",
    },
    File {
        name: "arrangements/Integer/Life2D/param.ccl",
        bytes: b"restricted:\n\
        INT born { 0:511 } 8\n\
        INT survive { 0:511 } 12\n\
        KEYWORD pattern { \"glider\" \"random\" } \"glider\"\n\
        INT seed { 0:* } 0\n",
    },
    File {
        name: "arrangements/Integer/Life2D/schedule.ccl",
        bytes: b"STORAGE: cells[1] counts[1]\n\
        schedule life_init AT INITIAL { LANG: C WRITES: life::cell(everywhere) } \"start\"\n\
        schedule life_step AT EVOL\n\
        {\n\
        \x20 LANG: C\n\
        \x20 SYNC: cells\n\
        \x20 READS: life::cell(everywhere)\n\
        \x20 WRITES: life::cell(interior)\n\
        } \"one step\"\n\
        schedule life_zero AT EVOL AFTER life_step { LANG: C WRITES: life::cell(boundary) } \"edge\"\n\
        schedule life_count AT POSTSTEP { LANG: C READS: life::cell(everywhere) WRITES: life::live } \"count\"\n",
    },
    File {
        name: "made.par",
        bytes: b"ActiveThorns = \"Life2D\"\n\
        Cactus::cctk_itlast = 20\n\
        driver::global_nx = 64\n\
        driver::global_ny = 64\n\
        driver::periodic = yes\n\
        driver::parts_x = 4\n\
        driver::parts_y = 4\n\
        life::pattern = \"random\"\n\
        life::seed = 7\n\
        IO::out_dir = \"made\"\n\
        IO::checkpoint_dir = \"made\"\n\
        IO::out_every = 20\n\
        IO::out_vars = \"life::cell\"\n\
        IO::checkpoint_every = 10\n",
    },
];

#[test]
fn files_of_a_seed_and_a_size(rt: HostRuntime) -> Result<(), Fail> {
    let files = made_files(rt.alloc(), 7, 64)?;
    same(&"how many files", &files.len(), &FILES.len())?;
    for (file, expected) in files.as_slice().iter().zip(FILES) {
        let found = (file.0.as_slice(), file.1.as_slice());
        let want = (expected.name.as_bytes(), expected.bytes);
        same(&expected.name, &found, &want)?;
    }
    let name = file_name(rt.alloc())?;
    let want = b"made.par".as_slice();
    same(&"the parameter file's name", &name.as_slice(), &want)
}

/// What is summed up, and the line.
struct Sum {
    seed: u64,
    size: u32,
    output: u128,
    live: i64,
    line: &'static str,
}

const SUMS: &[Sum] = &[
    Sum {
        seed: 7,
        size: 64,
        output: 16_459,
        live: 512,
        line: "made 7 64 points 4096 parts 16 output 16459 live 512\n",
    },
    Sum {
        seed: 9_223_372_036_854_775_807,
        size: 1024,
        output: 0,
        live: -1,
        line: "made 9223372036854775807 1024 points 1048576 parts 16 output 0 live -1\n",
    },
];

#[test]
fn sums_of_runs(rt: HostRuntime) -> Result<(), Fail> {
    for sum in SUMS {
        let line = summary(rt.alloc(), sum.seed, sum.size, sum.output, sum.live)?;
        same(&sum.line, &line.as_slice(), &sum.line.as_bytes())?;
    }
    Ok(())
}

fn text(alloc: Global, bytes: &[u8]) -> Result<Text, Memory> {
    Text::from_slice(alloc, bytes)
}

fn variables(alloc: Global) -> Result<List<VarInfo>, Fail>
    ensures { IfOk result (λ variables. length variables ≤ 256) }
{
    let cell = VarInfo {
        full: text(alloc, b"life::cell")?,
        ctype: CType::Byte,
        scalar: false,
        levels: 1,
    };
    let live = VarInfo {
        full: text(alloc, b"life::live")?,
        ctype: CType::Int,
        scalar: true,
        levels: 1,
    };
    Ok(List::new(Vec::from_array(alloc, [cell, live])?))
}

fn sheet() -> Shape {
    Shape {
        dims: 2,
        n: Point { x: 64, y: 64, z: 1 },
        ghost_: Point { x: 1, y: 1, z: 0 },
        periodic: [true, true, false],
    }
}

/// A job with the variables of Life2D, which runs nothing.
fn job(alloc: Global) -> Result<Job, Fail>
    ensures { IfOk result (λ job. length job.vars ≤ 256) }
{
    let vars = variables(alloc)?;
    Ok(Job {
        shape: sheet(),
        vars,
        items: List::empty(alloc),
        steers: List::empty(alloc),
        plan: Schedule {
            bins: List::empty(alloc),
        },
        cut: Cuts {
            x: List::empty(alloc),
            y: List::empty(alloc),
            z: List::empty(alloc),
        },
        itlast: 20,
        while_limit: 1,
        lead: 0,
        balance: false,
        weight: None,
        weight_factor: 1,
        out_every: 20,
        out_vars: List::empty(alloc),
        chk_every: 10,
        keep: 1,
        on_end: false,
        recover: Recover::No,
        out_dir: Text::new(Vec::new(alloc)),
        chk_dir: Text::new(Vec::new(alloc)),
        key: Text::new(Vec::new(alloc)),
        plan_text: Text::new(Vec::new(alloc)),
        starred: Text::new(Vec::new(alloc)),
    })
}

/// Names that no scalar has.
const NO_SCALARS: &[&str] = &["life::cell", "life::lives", ""];

#[test]
fn scalars_by_their_names(rt: HostRuntime) -> Result<(), Fail> {
    let job = job(rt.alloc())?;
    same(&"life::live", &live_variable(&job), &Some(VarId(1)))?;
    for name in NO_SCALARS {
        same(&name, &scalar_named(&job, name.as_bytes()), &None)?;
    }
    Ok(())
}
