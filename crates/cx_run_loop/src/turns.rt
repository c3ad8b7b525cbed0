//! Turn after turn.
ghost use Rattle.std.specs.Prelude.{◌≡◌, ◌<◌, true, map, IsTrue, IfOk, OnErr};
ghost use Rattle.cx_plan.specs.Setups.{setup_of};
ghost use Rattle.cx_outputs.specs.Names.{HasShortNames};
ghost use Rattle.cx_rule.specs.Jobs.{FitJob};
ghost use Rattle.cx_core.specs.Starts.{IsReady};
ghost use Rattle.cx_core.specs.Steps.{counts};
ghost use Rattle.cx_core.specs.declared.answers.Outcome.TheVariants as outcomes;
ghost use Rattle.cx_run_loop.specs.Advances.{Advances, CanAdvance, Keeps, run_state};
ghost use Rattle.cx_run_loop.specs.Faults.{Stops};
ghost use Rattle.cx_run_loop.specs.Going.{place_at, setting};
ghost use Rattle.cx_run_loop.specs.Lent.{wired};
ghost use Rattle.cx_run_loop.specs.Turning.{TurnsStop, turning};
ghost use Rattle.cx_run_loop.specs.UnderWay.{runs};
ghost use Rattle.cx_run_loop.specs.Waiting.{HoldsCheckpoint, StaysBelow, WaitsOn};
ghost use Rattle.cx_run_loop.specs.declared.turn.Advance.TheVariants as advances;

use crate::fault::DriveFault;
use crate::laws::{cores_wait, drive_laws};
use crate::turn::{Advance, turn};
use cx_core::{Core, core_stands};
use cx_disk::Disk;
use cx_keep::Keep;
use cx_plan::Job;
use cx_rule::{Meter, Routine};
use cx_turns::Turns;
use cx_wire::Wire;
use std::alloc::Global;

/// At most so many turns of a run that goes on: until a checkpoint was saved, or the run is over.
pub(crate) fn take_turns<D: Disk, W: Wire, T: Turns>(
    alloc: Global,
    most: u32,
    job: &Job,
    routines: &[Box<dyn Routine>],
    keep: &mut Keep,
    core: &mut Core,
    disk: &mut D,
    wire: &mut W,
    turns: &mut T,
    meter: &mut Meter,
) -> Result<Advance, DriveFault>
    requires some { 0 < most }
    requires job { IsReady job.now }
    requires short { HasShortNames (setup_of job.now) }
    requires routines { FitJob (map spec_of routines.now) job.now }
    requires able { CanAdvance D.Disk W.Wire job.now (map rule routines.now)
        (run_state (runs keep.old core.old) disk.old wire.old meter.old) }
    requires outcome { core.old.outcome ≡ outcomes.Going }
    ensures advances { IfOk result
        (Advances D.Disk W.Wire T.Turns job.now (map rule routines.now) most
        (run_state (runs keep.old core.old) disk.old wire.old meter.old)
        (run_state (runs keep.new core.new) disk.new wire.new meter.new)
        turns.old turns.new) }
    ensures waits { job.now.balance ≡ true → IfOk result
        (WaitsOn (setting D.Disk W.Wire job.now (map rule routines.now))
        (place_at D.Disk W.Wire core.old disk.old wire.old meter.old)
        (place_at D.Disk W.Wire core.new disk.new wire.new meter.new)) }
    ensures below { job.now.balance ≡ true → StaysBelow
        (setting D.Disk W.Wire job.now (map rule routines.now))
        (place_at D.Disk W.Wire core.old disk.old wire.old meter.old)
        (counts meter.new (W.received wire.new) (W.sum wire.new)) }
    ensures holds { IfOk result (λ came. came ≡ advances.Saved
        → HoldsCheckpoint (setup_of job.now) core.new) }
    ensures keeps { Keeps D.Disk W.Wire job.now (map rule routines.now)
        (run_state (runs keep.old core.old) disk.old wire.old meter.old)
        disk.new wire.new meter.new }
    ensures picked { OnErr result (TurnsStop T.Turns (IsTrue W.tells)
        job.now (map rule routines.now)
        (turning core.old (wired W.Wire wire.old) meter.old turns.old) turns.new) }
    ensures begun { T.begun turns.new ≡ T.begun turns.old }
    ensures stops { Stops
        (record { old = D.faults disk.old; new = D.faults disk.new })
        (record { old = W.faults wire.old; new = W.faults wire.new }) result }
{
    core_stands(job);
    drive_laws(job);
    cores_wait(job);
    'turns: for _ in 0..most {
        match turn(alloc, job, routines, keep, core, disk, wire, turns, meter)? {
            Advance::More => {}
            stop => return Ok(stop),
        }
    }
    Ok(Advance::More)
}
