//! One turn: an event of the core, and what it is to the keeper.
ghost use Rattle.std.specs.Prelude.{◌≡◌, ◌≤◌, ℕ, true, map, IsTrue, IfOk};
ghost use Rattle.cx_cut.specs.Cuts.{part_count};
ghost use Rattle.cx_cut.specs.Faults.{parts_of};
ghost use Rattle.cx_plan.specs.Setups.{setup_of};
ghost use Rattle.cx_outputs.specs.Names.{HasShortNames};
ghost use Rattle.cx_rule.specs.Jobs.{FitJob};
ghost use Rattle.cx_core.specs.Starts.{IsReady};
ghost use Rattle.cx_core.specs.Steps.{IsRunning, counts, stands_at};
ghost use Rattle.cx_core.specs.declared.answers.Outcome.TheVariants as outcomes;
ghost use Rattle.cx_run_loop.specs.Advances.{Advances, CanAdvance, Keeps, came_of, run_state};
ghost use Rattle.cx_run_loop.specs.CoresWait.{StepsBelow};
ghost use Rattle.cx_run_loop.specs.Faults.{Stops};
ghost use Rattle.cx_run_loop.specs.Going.{place_at, setting};
ghost use Rattle.cx_run_loop.specs.Lent.{wired};
ghost use Rattle.cx_run_loop.specs.Turning.{IsTurn, Picks, turning};
ghost use Rattle.cx_run_loop.specs.UnderWay.{runs};
ghost use Rattle.cx_run_loop.specs.Waiting.{HoldsCheckpoint, StaysBelow, WaitsOn};
ghost use Rattle.cx_run_loop.specs.declared.turn.Advance.TheVariants as advances;
ghost use Rattle.cx_run_loop.specs.Within.{StepsWithin};

use crate::event::keep_event;
use crate::fault::DriveFault;
use crate::laws::{cores_wait, drive_laws};
use crate::picking::pick;
use cx_core::{Core, Event, core_stands};
use cx_disk::Disk;
use cx_keep::Keep;
use cx_model::run_continues;
use cx_plan::Job;
use cx_rule::{Meter, Routine};
use cx_turns::Turns;
use cx_wire::Wire;
use std::alloc::Global;

/// What came of some turns.
#[derive(Clone, Copy, Debug, PartialEq, Eq)]
pub enum Advance {
    /// The run goes on, by as many events as were asked for.
    More,
    /// A checkpoint was saved by the last event, and the run goes on.
    Saved,
    /// The run is over.
    Over,
}

/// One turn of a run that goes on.
pub(crate) fn turn<D: Disk, W: Wire, T: Turns>(
    alloc: Global,
    job: &Job,
    routines: &[Box<dyn Routine>],
    keep: &mut Keep,
    core: &mut Core,
    disk: &mut D,
    wire: &mut W,
    turns: &mut T,
    meter: &mut Meter,
) -> Result<Advance, DriveFault>
    requires job { IsReady job.now }
    requires short { HasShortNames (setup_of job.now) }
    requires routines { FitJob (map spec_of routines.now) job.now }
    requires able { CanAdvance D.Disk W.Wire job.now (map rule routines.now)
        (run_state (runs keep.old core.old) disk.old wire.old meter.old) }
    requires outcome { core.old.outcome ≡ outcomes.Going }
    ensures advances { IfOk result
        (Advances D.Disk W.Wire T.Turns job.now (map rule routines.now) 1
        (run_state (runs keep.old core.old) disk.old wire.old meter.old)
        (run_state (runs keep.new core.new) disk.new wire.new meter.new)
        turns.old turns.new) }
    ensures waits { job.now.balance ≡ true → IfOk result
        (WaitsOn (setting D.Disk W.Wire job.now (map rule routines.now))
        (place_at D.Disk W.Wire core.old disk.old wire.old meter.old)
        (place_at D.Disk W.Wire core.new disk.new wire.new meter.new)) }
    ensures below { job.now.balance ≡ true → StaysBelow
        (setting D.Disk W.Wire job.now (map rule routines.now))
        (place_at D.Disk W.Wire core.old disk.old wire.old meter.old)
        (counts meter.new (W.received wire.new) (W.sum wire.new)) }
    ensures holds { IfOk result (λ came. came ≡ advances.Saved
        → HoldsCheckpoint (setup_of job.now) core.new) }
    ensures keeps { Keeps D.Disk W.Wire job.now (map rule routines.now)
        (run_state (runs keep.old core.old) disk.old wire.old meter.old)
        disk.new wire.new meter.new }
    ensures picked { (k : ℕ) × Picks T.Turns job.now.balance core.old turns.old k turns.new }
    ensures begun { T.begun turns.new ≡ T.begun turns.old }
    ensures stops { Stops
        (record { old = D.faults disk.old; new = D.faults disk.new })
        (record { old = W.faults wire.old; new = W.faults wire.new }) result }
{
    drive_laws(job);
    cores_wait(job);
    run_continues(job);
    let event = step(alloc, job, routines, core, wire, turns, meter)?;
    keep_event(alloc, job, keep, core, event, disk)?;
    Ok(came_of(event))
}

/// What comes of an event.
fn came_of(event: Event) -> Advance
    ensures { result ≡ came_of event }
{
    match event {
        Event::Part(_) | Event::Section { .. } => Advance::More,
        Event::Save(_) => Advance::Saved,
        Event::End => Advance::Over,
    }
}

/// One event of the core, which its source of turns picks.
fn step<W: Wire, T: Turns>(
    alloc: Global,
    job: &Job,
    routines: &[Box<dyn Routine>],
    core: &mut Core,
    wire: &mut W,
    turns: &mut T,
    meter: &mut Meter,
) -> Result<Event, DriveFault>
    requires job { IsReady job.now }
    requires routines { FitJob (map spec_of routines.now) job.now }
    requires parts { part_count (parts_of job.now.shape job.now.cut) ≤ W.parts wire.old }
    requires running { IsRunning (IsTrue W.tells) job.now (map rule routines.now)
        (stands_at core.old
        (W.queue wire.old) meter.old (W.received wire.old) (W.sum wire.old)) }
    requires outcome { core.old.outcome ≡ outcomes.Going }
    ensures turn { IfOk result (IsTurn T.Turns (IsTrue W.tells) job.now (map rule routines.now)
        (turning core.old (wired W.Wire wire.old) meter.old turns.old)
        (turning core.new (wired W.Wire wire.new) meter.new turns.new)) }
    ensures parts { W.parts wire.new ≡ W.parts wire.old }
    ensures points { meter.old ≤ meter.new }
    ensures values { W.received wire.old ≤ W.received wire.new }
    ensures within { StepsWithin (IsTrue W.tells) job.now (map rule routines.now)
        (stands_at core.old
        (W.queue wire.old) meter.old (W.received wire.old) (W.sum wire.old))
        (counts meter.new (W.received wire.new) (W.sum wire.new)) }
    ensures below { job.now.balance ≡ true → StepsBelow (IsTrue W.tells) job.now
        (map rule routines.now)
        (stands_at core.old
        (W.queue wire.old) meter.old (W.received wire.old) (W.sum wire.old))
        (counts meter.new (W.received wire.new) (W.sum wire.new)) }
    ensures picked { (k : ℕ) × Picks T.Turns job.now.balance core.old turns.old k turns.new }
    ensures begun { T.begun turns.new ≡ T.begun turns.old }
    ensures stops { (n : ℕ) → Stops (record { old = n; new = n })
        (record { old = W.faults wire.old; new = W.faults wire.new }) result }
{
    core_stands(job);
    drive_laws(job);
    cores_wait(job);
    let k = pick(job, core, turns);
    Ok(core.step(alloc, k, job, routines, wire, meter)?)
}
