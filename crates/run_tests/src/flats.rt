//! The operations of the sample thorns' schedules, worked out by hand.

ghost use Rattle.std.specs.Prelude.{◌≤◌, ◌^◌, length};

use cx_flat::{Op, flatten};
use cx_job::make_job;
use cx_rule::Routine;
use cx_text::{List, Memory, Text};
use cx_thorn_ca::{CaCount, CaInit, CaStep, CaZero};
use cx_thorn_pde::{ControlSet, ControlSpin, WaveFlat, WaveInit, WaveStep};
use sample_runs::samples::{CA, CONTROL, WAVE};
use sample_runs::shelf_with;
use std::alloc::Global;
use std::test::Fail;
use test_cases::same;

/// A parameter file, and the operations of its run, one after another.
struct Flat {
    name: &'static str,
    file: &'static [u8],
    operations: &'static str,
}

const FLATS: &[Flat] = &[
    // ca_init, ca_step with its SYNC, ca_zero and ca_count are the items 0 to 3.
    Flat {
        name: "the automaton",
        file: CA,
        operations: "sweep 0, give 3, join 3, skip 10, \
            rotate, sweep 1, post 0, take 0, sweep 2, give 3, join 3, due 2, save, \
            written 2, piece 0, next 11, halt",
    },
    // wave_init, wave_step with its SYNC, and wave_flat
    Flat {
        name: "the wave",
        file: WAVE,
        operations: "sweep 0, skip 8, \
            rotate, sweep 1, post 0, take 0, sweep 2, due 2, save, \
            written 2, piece 0, next 9, halt",
    },
    // control_set, and control_spin in its WHILE
    Flat {
        name: "the count",
        file: CONTROL,
        operations: "apply 0, skip 8, \
            rotate, open, turn 0 3, apply 1, again 2, due 2, save, \
            written 2, piece 0, next 9, halt",
    },
];

/// An operation in a word, with its numbers.
fn word(alloc: Global, op: &Op) -> Result<String, Fail> {
    Ok(match op {
        Op::Sweep(k) => format!(in alloc; "sweep {k}")?,
        Op::Apply(k) => format!(in alloc; "apply {k}")?,
        Op::Give(k) => format!(in alloc; "give {k}")?,
        Op::Join(k) => format!(in alloc; "join {k}")?,
        Op::Post(direction, _) => format!(in alloc; "post {direction}")?,
        Op::Take(direction, _, _) => format!(in alloc; "take {direction}")?,
        Op::Test(variable, _, skip) => format!(in alloc; "test {} {skip}", variable.0)?,
        Op::Open => format!(in alloc; "open")?,
        Op::Turn(variable, _, skip) => format!(in alloc; "turn {} {skip}", variable.0)?,
        Op::Again(back) => format!(in alloc; "again {back}")?,
        Op::Rotate => format!(in alloc; "rotate")?,
        Op::Due(skip) => format!(in alloc; "due {skip}")?,
        Op::Written(skip) => format!(in alloc; "written {skip}")?,
        Op::Skip(skip) => format!(in alloc; "skip {skip}")?,
        Op::Next(back) => format!(in alloc; "next {back}")?,
        Op::Piece(variable) => format!(in alloc; "piece {}", variable.0)?,
        Op::Save => format!(in alloc; "save")?,
        Op::Halt => format!(in alloc; "halt")?,
    })
}

fn words(alloc: Global, ops: &[Op]) -> Result<String, Fail> {
    let mut all = String::new(alloc);
    for op in ops {
        if !all.is_empty() {
            all.push_str(", ")?;
        }
        all.push_str(word(alloc, op)?.as_str())?;
    }
    Ok(all)
}

/// The operations of a file's job.
fn operations(alloc: Global, file: &[u8]) -> Result<List<Op>, Memory> {
    let mut routines: Vec<Box<dyn Routine>> = Vec::new(alloc);
    routines.push(Box::new(alloc, CaInit::new(alloc)?)?)?;
    routines.push(Box::new(alloc, CaStep::new(alloc)?)?)?;
    routines.push(Box::new(alloc, CaZero::new(alloc)?)?)?;
    routines.push(Box::new(alloc, CaCount::new(alloc)?)?)?;
    routines.push(Box::new(alloc, WaveInit::new(alloc)?)?)?;
    routines.push(Box::new(alloc, WaveStep::new(alloc)?)?)?;
    routines.push(Box::new(alloc, WaveFlat::new(alloc)?)?)?;
    routines.push(Box::new(alloc, ControlSet::new(alloc)?)?)?;
    routines.push(Box::new(alloc, ControlSpin::new(alloc)?)?)?;
    operations_with(alloc, file, &routines)
}

/// The same with these routines.
fn operations_with(
    alloc: Global,
    file: &[u8],
    routines: &[Box<dyn Routine>],
) -> Result<List<Op>, Memory>
    requires few { length routines.now ≤ 2 ^ 32 }
{
    let mut shelf = shelf_with(alloc, file, "", &[])?;
    let name = Text::from_slice(alloc, b"t.par")?;
    let Ok(job) = make_job(alloc, &mut shelf, &name, routines) else {
        return Err(Memory);
    };
    flatten(alloc, &job)
}

/// Tests a row of `FLATS`.
fn is_flattened(alloc: Global, flat: &Flat) -> Result<(), Fail> {
    let ops = operations(alloc, flat.file)?;
    let words = words(alloc, ops.as_slice())?;
    same(&flat.name, &words.as_str(), &flat.operations)
}

#[test]
fn schedules_are_flattened(rt: HostRuntime) -> Result<(), Fail> {
    for flat in FLATS {
        is_flattened(rt.alloc(), flat)?;
    }
    Ok(())
}
