//! The writer's events.
ghost use Rattle.std.specs.Prelude.{◌≡◌, ◌<◌, ◌+◌, ◌∷◌, ℕ, Some, None, length, nat_le, slice_get, IfOk, OnOk, if◌then◌else◌};
ghost use Rattle.cx_plan.specs.Setups.{setup_of};
ghost use Rattle.cx_plan.specs.Whole.{IsWhole, IsVariable};
ghost use Rattle.cx_model.specs.Runs.{greatest_output};
ghost use Rattle.cx_outputs.specs.Names.{place_in};
ghost use Rattle.cx_core_buffers.specs.Gathering.{HasPiece};
ghost use Rattle.cx_core_events.specs.Events.{writer_going};
ghost use Rattle.cx_core_events.specs.declared.standing.Next.TheVariants as next;
ghost use Rattle.cx_model.specs.States.{number_count};
ghost use Rattle.cx_plan.specs.Lookups.{variable};
ghost use Rattle.cx_core.specs.Texts.{text_of_piece};
ghost use Rattle.cx_core.specs.Writes.{CanWrite, Writes, ended_by, piece_event, piece_written, run_ended, state_written};

use crate::answers::{Event, Outcome};
use crate::machine::Core;
use cx_ascii::{line_length, section_length};
use cx_outputs::place_in;
use cx_plan::{Job, VarId};
use cx_text::{List, Memory};
use std::alloc::Global;

/// Each output has at most this many bytes.
const GREATEST_OUTPUT: u64 = 1 << 32;

/// Does the first work that isn't done: a text or a checkpoint comes next, or the run is over by the limit of an output.
pub(crate) fn write(core: &mut Core, job: &Job) -> Event
    requires whole { IsWhole job.now }
    requires going { writer_going core.old.pace ≡ Some next.Write }
    requires can { CanWrite (setup_of job.now) core.old (slice_get core.old.pace.works 0) }
    ensures { Writes
        (setup_of job.now) (slice_get core.old.pace.works 0) core.old core.new result }
{
    match core.pace.next_work() {
        None => unreachable!(),
        Some(work) => match work.var {
            None => write_state(core, work.iteration),
            Some(v) => write_piece(core, job, v, work.iteration),
        },
    }
}

/// The checkpoint of an iteration comes next.
fn write_state(core: &mut Core, iteration: u64) -> Event
    requires going { writer_going core.old.pace ≡ Some next.Write }
    requires lengths { length core.old.buffers.state.lengths ≡ length core.old.lengths }
    ensures new { core.new ≡ state_written iteration core.old }
    ensures event { result ≡ Event.Save iteration }
{
    core.gathering.name_state(iteration, &core.lengths);
    core.pace.wrote();
    Event::Save(iteration)
}

/// The text of a variable comes next, or its output would pass the limit.
fn write_piece(core: &mut Core, job: &Job, v: VarId, iteration: u64) -> Event
    requires whole { IsWhole job.now }
    requires going { writer_going core.old.pace ≡ Some next.Write }
    requires piece { HasPiece (setup_of job.now) core.old.buffers v }
    requires output { place_in job.now.out_vars v < length core.old.lengths }
    ensures new { core.new ≡ piece_written (setup_of job.now) v iteration core.old }
    ensures event { result ≡ piece_event (setup_of job.now) v iteration core.old }
{
    let place = place_in(job.out_vars.as_slice(), v);
    let text = text_length(job, iteration, v, core.gathering.piece(v));
    match length_behind(core.lengths[place], text) {
        None => {
            core.outcome = Outcome::OutputLimit(iteration);
            core.pace.over();
            Event::End
        }
        Some(length) => {
            core.lengths[place] = length;
            core.section = v;
            core.pace.wrote();
            Event::Section { var: v, iteration }
        }
    }
}

/// How long an output of a length is behind a text, if it doesn't pass the limit.
fn length_behind(length: u64, text: u64) -> Option<u64>
    ensures { result ≡ (if nat_le (length + text) greatest_output then Some (length + text)
        else None) }
{
    match length.checked_add(text) {
        None => None,
        Some(sum) => {
            if sum <= GREATEST_OUTPUT {
                Some(sum)
            } else {
                None
            }
        }
    }
}

/// How long the text of a variable is, by its whole current level or a scalar's number.
fn text_length(job: &Job, iteration: u64, v: VarId, piece: &List<i64>) -> u64
    requires whole { IsWhole job.now }
    requires variable { IsVariable job.now v }
    requires piece { length piece.now
        ≡ number_count (setup_of job.now) (variable (setup_of job.now) v) }
    ensures { result ≡ length (text_of_piece (setup_of job.now) iteration v piece.now) }
{
    let variable = &job.vars.as_slice()[v.0 as usize];
    if variable.scalar {
        line_length(&variable.full, iteration, piece.as_slice()[0])
    } else {
        section_length(&variable.full, iteration, &job.shape, piece.as_slice())
    }
}

/// The run is over, by the end that a part has met or by none. When out of memory, nothing has changed.
pub(crate) fn end(core: &mut Core, alloc: Global) -> Result<(), Memory>
    ensures { OnOk result (core.new ≡ run_ended core.old) }
{
    core.outcome = ended(alloc, &core.met)?;
    core.pace.over();
    Ok(())
}

/// How a run ends in which the parts have met this.
fn ended(alloc: Global, met: &Outcome) -> Result<Outcome, Memory>
    ensures { IfOk result (λ outcome. outcome ≡ ended_by met.now) }
{
    match met {
        Outcome::Going => Ok(Outcome::Done),
        Outcome::Done => Ok(Outcome::Done),
        Outcome::Overflow(iteration, path) => Ok(Outcome::Overflow(*iteration, path.copy(alloc)?)),
        Outcome::WhileLimit(iteration, path) => {
            Ok(Outcome::WhileLimit(*iteration, path.copy(alloc)?))
        }
        Outcome::OutputLimit(iteration) => Ok(Outcome::OutputLimit(*iteration)),
    }
}
