//! What parts exchange: a value that is altered on its way, and the order in which parts send.

ghost use Rattle.std.specs.Prelude.{map};
ghost use Rattle.cx_rule.specs.Jobs.{FitJob};
ghost use Rattle.cx_core.specs.Starts.{IsReady};

use crate::jobs::{altering, job, noting};
use crate::routines::push_automaton;
use crate::runs::{Came, run};
use crate::samples::{ALTERED_OUTPUT, CA, CA_OUTPUT};
use crate::turns::{FirstTurns, LastTurns, Watch};
use cx_plan::Job;
use cx_rule::{Meter, Routine};
use cx_turns::{SeededTurns, Turns};
use std::test::Fail;
use test_cases::same;

/// Two parts with a lead.
const TWO_PARTS: &[&str] = &[
    "driver::parts_x = 2\ndriver::lead = 0\n",
    "driver::parts_x = 2\ndriver::lead = 64\n",
];

/// A run over a wire that alters a value.
fn altered(
    rt: &HostRuntime,
    job: &Job,
    routines: &[Box<dyn Routine>],
    seed: u64,
) -> Result<Came, Fail>
    requires ready { IsReady job.now }
    requires fit { FitJob (map spec_of routines.now) job.now }
{
    let alloc = rt.alloc();
    let mut wire = altering(alloc, job)?;
    let mut turns = SeededTurns::new();
    turns.start(seed);
    run(
        alloc,
        job,
        routines,
        &mut wire,
        &mut turns,
        &mut Meter::new(rt),
    )
}

/// Which part sent first in a run, and what came of it.
#[derive(Drop)]
struct Noted {
    sender: Option<u32>,
    came: Came,
}

/// A run over a wire that notes what is sent, by these turns.
fn noted_run<T: Turns + Watch>(
    rt: &HostRuntime,
    job: &Job,
    routines: &[Box<dyn Routine>],
    turns: &mut T,
) -> Result<Noted, Fail>
    requires ready { IsReady job.now }
    requires fit { FitJob (map spec_of routines.now) job.now }
{
    let alloc = rt.alloc();
    let mut wire = noting(alloc, job)?;
    let came = run(alloc, job, routines, &mut wire, turns, &mut Meter::new(rt))?;
    let sender = match wire.notes().as_slice().first() {
        None => None,
        Some((from, _, _)) => Some(*from),
    };
    Ok(Noted { sender, came })
}

/// What comes of an altered value, in the orders of ten seeds.
fn ten_altered(
    rt: &HostRuntime,
    more: &[u8],
    routines: &[Box<dyn Routine>],
) -> Result<Vec<Came>, Fail> {
    let job = job(rt.alloc(), CA, more, &[], routines)?;
    let mut all = Vec::new(rt.alloc());
    'seeds: for seed in 0..10_u64 {
        all.push(altered(rt, &job, routines, seed)?)?;
    }
    Ok(all)
}

/// Which part sends first and what comes of it, where the first of the events that can happen always comes next, and where the last one
/// does.
fn two_noted(
    rt: &HostRuntime,
    more: &[u8],
    routines: &[Box<dyn Routine>],
) -> Result<Vec<Noted>, Fail> {
    let job = job(rt.alloc(), CA, more, &[], routines)?;
    let mut both = Vec::new(rt.alloc());
    both.push(noted_run(rt, &job, routines, &mut FirstTurns(None))?)?;
    both.push(noted_run(rt, &job, routines, &mut LastTurns(None))?)?;
    Ok(both)
}

/// All runs of a file with these lines.
#[derive(Drop)]
struct Runs {
    altered: Vec<Came>,
    noted: Vec<Noted>,
}

/// They, with the automaton's routines.
fn all_runs(rt: &HostRuntime, more: &[u8]) -> Result<Runs, Fail> {
    let alloc = rt.alloc();
    let mut routines: Vec<Box<dyn Routine>> = Vec::new(alloc);
    push_automaton(alloc, &mut routines)?;
    Ok(Runs {
        altered: ten_altered(rt, more, &routines)?,
        noted: two_noted(rt, more, &routines)?,
    })
}

/// Each run with an altered value writes the altered output.
fn are_altered(more: &str, all: &[Came]) -> Result<(), Fail> {
    for (seed, came) in all.iter().enumerate() {
        let output = came.output.as_slice();
        same(&("seed", seed, more), &output, &ALTERED_OUTPUT)?;
    }
    Ok(())
}

/// The runs by turns of a file with these lines write the output, and part k sends first in run k.
fn are_noted(more: &str, all: &[Noted]) -> Result<(), Fail> {
    for (turns, noted) in all.iter().enumerate() {
        let found = (noted.came.output.as_slice(), noted.sender);
        same(
            &("turns", turns, more),
            &found,
            &(CA_OUTPUT, u32::try_from(turns).ok()),
        )?;
    }
    same(&("runs", more), &all.len(), &2)
}

/// The runs of a file with these lines come to what they should.
fn values_are_exchanged(rt: &HostRuntime, more: &str) -> Result<(), Fail> {
    let runs = all_runs(rt, more.as_bytes())?;
    are_altered(more, &runs.altered)?;
    are_noted(more, &runs.noted)
}

#[test]
fn parts_exchange_values_as_turns_say(rt: HostRuntime) -> Result<(), Fail> {
    for more in TWO_PARTS {
        values_are_exchanged(&rt, more)?;
    }
    Ok(())
}
