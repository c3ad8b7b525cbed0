//! A run in parts goes on until it is over.
ghost use Rattle.std.specs.Prelude.{Bool, IsTrue, List};
ghost use Rattle.cx_grid.specs.Grid.{HasInterior};
ghost use Rattle.cx_plan.specs.Paths.{Sound};
ghost use Rattle.cx_plan.specs.Regions.{HasShapes};
ghost use Rattle.cx_plan.specs.Setups.{setup_of};
ghost use Rattle.cx_plan.specs.Whole.{IsWhole};
ghost use Rattle.cx_rule.specs.Routine.{Rule};
ghost use Rattle.cx_cut.specs.Cuts.{IsCut};
ghost use Rattle.cx_cut.specs.Faults.{parts_of};
ghost use Rattle.law_parts.specs.Beginnings.{Beginning, IsBeginning, run_of};
ghost use Rattle.law_reached.specs.Going.{KeepsWay, StatesGoOn};

use cx_flat::{all_ways, flat_is_run, operation_needs_met};
use cx_plan::Job;

/// In each state that a run in parts reaches, whatever its wires tell: some event can happen until the run is over, each event
/// lessens what is left to do, and at most one event of the writer can happen.
///
/// No operation of a part makes the run over: only a work that passes the limit of its output, and the report of the end, which
/// stands where a part met it, or at the last place where none did.
pub fn each_state_goes_on(job: &Job)
    requires whole { IsWhole job.now }
    requires shapes { HasShapes (setup_of job.now) }
    requires interior { HasInterior job.now.shape }
    requires sound { Sound (setup_of job.now) }
    requires cut { IsCut (parts_of job.now.shape job.now.cut) }
    ensures { (told : Bool) (rules : List Rule) (b : Beginning) → IsBeginning (setup_of job.now) b
        → StatesGoOn (IsTrue told) (run_of job.now rules b) }
{
    flat_is_run(job);
    all_ways(job);
    operation_needs_met(job);
}

/// Each event leads to a state that is reached, whatever wires tell, and the way that all parts have come stays as it was.
///
/// What decided at the places that a part has passed, and the scalars there, don't change behind an event: an operation may only
/// settle what the part is to give next, and no part has come to where that is used.
pub fn each_event_keeps_way(job: &Job)
    requires whole { IsWhole job.now }
    requires shapes { HasShapes (setup_of job.now) }
    requires interior { HasInterior job.now.shape }
    requires sound { Sound (setup_of job.now) }
    requires cut { IsCut (parts_of job.now.shape job.now.cut) }
    ensures { (told : Bool) (rules : List Rule) (b : Beginning) → IsBeginning (setup_of job.now) b
        → KeepsWay (IsTrue told) (run_of job.now rules b) }
{
    flat_is_run(job);
    all_ways(job);
    operation_needs_met(job);
}
