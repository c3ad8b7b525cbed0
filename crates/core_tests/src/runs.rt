//! A run of a core from its beginning to its end, over any wire and in any order of events.

ghost use Rattle.std.specs.Prelude.{◌≡◌, ◌≤◌, ◌↔◌, IsTrue, length, map, IfOk};
ghost use Rattle.cx_cut.specs.Cuts.{part_count};
ghost use Rattle.cx_cut.specs.Faults.{parts_of};
ghost use Rattle.cx_core_buffers.specs.Gathering.{HasPiece};
ghost use Rattle.cx_model.specs.States.{number_count};
ghost use Rattle.cx_plan.specs.Lookups.{variable};
ghost use Rattle.cx_plan.specs.Setups.{setup_of};
ghost use Rattle.cx_plan.specs.Whole.{IsVariable, IsWhole};
ghost use Rattle.cx_rule.specs.Jobs.{FitJob};
ghost use Rattle.cx_core.specs.Starts.{AreEmpty, IsReady};
ghost use Rattle.cx_core.specs.Steps.{IsRunning, stands_at};
ghost use Rattle.cx_core.specs.declared.answers.Outcome.TheVariants as outcomes;

use crate::turns::Watch;
use cx_ascii::{scalar_line, section};
use cx_core::{Core, Event, Outcome, core_stands};
use cx_plan::{Job, VarId};
use cx_rule::{Meter, Routine};
use cx_text::{List, Memory, Text};
use cx_turns::Turns;
use cx_wire::Wire;
use std::alloc::Global;
use std::test::Fail;

/// What a run came to: the texts that it handed out, one behind another, how long the outputs are together, what the checkpoints say
/// of them, and how it ended.
#[derive(Drop)]
pub(crate) struct Came {
    pub(crate) output: Text,
    pub(crate) total: u64,
    pub(crate) saved: Text,
    pub(crate) ended: Text,
}

/// The text of a variable, by its whole current level or a scalar's number.
fn text(
    alloc: Global,
    job: &Job,
    v: VarId,
    iteration: u64,
    piece: &List<i64>,
) -> Result<Text, Memory>
    requires whole { IsWhole job.now }
    requires variable { IsVariable job.now v }
    requires piece { length piece.now
        ≡ number_count (setup_of job.now) (variable (setup_of job.now) v) }
{
    let variable = &job.vars.as_slice()[v.0 as usize];
    if variable.scalar {
        scalar_line(alloc, &variable.full, iteration, piece.as_slice()[0])
    } else {
        section(
            alloc,
            &variable.full,
            iteration,
            &job.shape,
            piece.as_slice(),
        )
    }
}

/// Adds the text that comes next.
fn push_text(
    alloc: Global,
    core: &Core,
    job: &Job,
    v: VarId,
    iteration: u64,
    output: &mut Text,
) -> Result<(), Memory>
    requires whole { IsWhole job.now }
    requires section { core.now.section ≡ v }
    requires piece { HasPiece (setup_of job.now) core.now.buffers v }
{
    let text = text(alloc, job, v, iteration, core.piece())?;
    output.push_slice(text.as_slice())
}

/// Adds a line of what the checkpoint that came last says of the outputs.
fn push_saved(alloc: Global, core: &Core, saved: &mut Text) -> Result<(), Memory> {
    let state = core.state();
    saved.push_number(alloc, state.iteration)?;
    'outputs: for (name, length) in state.names.as_slice().iter().zip(state.lengths.as_slice()) {
        saved.push_slice(b" ")?;
        saved.push_slice(name.as_slice())?;
        saved.push_slice(b" ")?;
        saved.push_number(alloc, *length)?;
    }
    saved.push_slice(b"\n")
}

/// How long all outputs are together.
fn total(lengths: &[u64]) -> u64 {
    lengths
        .iter()
        .fold(0, |all, length| length.saturating_add(all))
}

/// Whether the run goes on.
fn is_going(core: &Core) -> bool
    ensures { IsTrue result ↔ (core.now.outcome ≡ outcomes.Going) }
{
    matches!(core.outcome(), Outcome::Going)
}

/// A name, an iteration and a path, with blanks between.
fn with_path(alloc: Global, name: &[u8], iteration: u64, path: &Text) -> Result<Text, Memory> {
    let mut text = Text::from_slice(alloc, name)?;
    text.push_number(alloc, iteration)?;
    text.push_slice(b" ")?;
    text.push_slice(path.as_slice())?;
    Ok(text)
}

/// How a run has ended, in words.
fn words(alloc: Global, outcome: &Outcome) -> Result<Text, Memory> {
    match outcome {
        Outcome::Going => Text::from_slice(alloc, b"Going"),
        Outcome::Done => Text::from_slice(alloc, b"Done"),
        Outcome::Overflow(iteration, path) => with_path(alloc, b"Overflow ", *iteration, path),
        Outcome::WhileLimit(iteration, path) => with_path(alloc, b"WhileLimit ", *iteration, path),
        Outcome::OutputLimit(_) => Text::from_slice(alloc, b"OutputLimit"),
    }
}

/// Goes on with a run until it is over: each time the turns pick one of the events that can happen.
fn to_end<W: Wire, T: Turns + Watch>(
    alloc: Global,
    core: &mut Core,
    job: &Job,
    routines: &[Box<dyn Routine>],
    wire: &mut W,
    turns: &mut T,
    meter: &mut Meter,
) -> Result<Came, Fail>
    requires ready { IsReady job.now }
    requires fit { FitJob (map spec_of routines.now) job.now }
    requires parts { part_count (parts_of job.now.shape job.now.cut) ≤ W.parts wire.old }
    requires there { IsRunning (IsTrue W.tells) job.now (map rule routines.now)
        (stands_at core.old (W.queue wire.old) meter.old (W.received wire.old) (W.sum wire.old)) }
    ensures parts { W.parts wire.new ≡ W.parts wire.old }
{
    core_stands(job);
    let mut output = Text::new(Vec::new(alloc));
    let mut saved = Text::new(Vec::new(alloc));
    'events: while is_going(core) {
        turns.see(core)?;
        let k = turns.pick(core.enabled());
        match core.step(alloc, k, job, routines, wire, meter)? {
            Event::Part(_) => {}
            Event::Section { var, iteration } => {
                push_text(alloc, core, job, var, iteration, &mut output)?;
            }
            Event::Save(_) => push_saved(alloc, core, &mut saved)?,
            Event::End => {}
        }
    }
    Ok(Came {
        output,
        total: total(core.lengths()),
        saved,
        ended: words(alloc, core.outcome())?,
    })
}

/// The run of a job, over a wire without messages.
pub(crate) fn run<W: Wire, T: Turns + Watch>(
    alloc: Global,
    job: &Job,
    routines: &[Box<dyn Routine>],
    wire: &mut W,
    turns: &mut T,
    meter: &mut Meter,
) -> Result<Came, Fail>
    requires ready { IsReady job.now }
    requires fit { FitJob (map spec_of routines.now) job.now }
    requires parts { part_count (parts_of job.now.shape job.now.cut) ≤ W.parts wire.old }
    requires empty { AreEmpty (W.queue wire.old) }
    ensures parts { W.parts wire.new ≡ W.parts wire.old }
{
    let mut core = Core::start(alloc, job, None)?;
    to_end(alloc, &mut core, job, routines, wire, turns, meter)
}

/// Whether no message is left between so many parts.
pub(crate) fn is_empty<W: Wire>(wire: &W, parts: u32) -> bool
    requires { parts ≤ W.parts wire.now }
{
    'senders: for from in 0..parts {
        for to in 0..parts {
            if wire.front(from, to).is_some() {
                return false;
            }
        }
    }
    true
}
