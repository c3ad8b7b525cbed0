//! What a part takes is there.
ghost use Rattle.std.specs.Prelude.{Bool, IsTrue, List};
ghost use Rattle.cx_grid.specs.Grid.{HasInterior};
ghost use Rattle.cx_plan.specs.Paths.{Sound};
ghost use Rattle.cx_plan.specs.Regions.{HasShapes};
ghost use Rattle.cx_plan.specs.Setups.{setup_of};
ghost use Rattle.cx_plan.specs.Whole.{IsWhole};
ghost use Rattle.cx_rule.specs.Routine.{Rule};
ghost use Rattle.cx_cut.specs.Cuts.{IsCut};
ghost use Rattle.cx_cut.specs.Faults.{parts_of};
ghost use Rattle.law_parts.specs.Beginnings.{Beginning, IsBeginning, run_of};
ghost use Rattle.cx_core_part.specs.Laws.{TakesAreThere};

use cx_flat::{all_ways, flat_is_run, operation_needs_met};
use cx_plan::Job;

/// In each state that a run in parts reaches, over wires that tell or don't: where a part can go on with a Take, each queue to it
/// begins with the faces that it takes of it. It does nothing that shows; its clause is the law.
pub fn takes_are_there(job: &Job)
    requires whole { IsWhole job.now }
    requires shapes { HasShapes (setup_of job.now) }
    requires interior { HasInterior job.now.shape }
    requires sound { Sound (setup_of job.now) }
    requires cut { IsCut (parts_of job.now.shape job.now.cut) }
    ensures { (told : Bool) (rules : List Rule) (b : Beginning) → IsBeginning (setup_of job.now) b
        → TakesAreThere (IsTrue told) (run_of job.now rules b) }
{
    flat_is_run(job);
    all_ways(job);
    operation_needs_met(job);
}
