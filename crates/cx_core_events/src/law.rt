//! What the places of the parts tell of a run.
ghost use Rattle.std.specs.Prelude.{Bool, IsTrue, List};
ghost use Rattle.cx_grid.specs.Grid.{HasInterior};
ghost use Rattle.cx_plan.specs.Paths.{Sound};
ghost use Rattle.cx_plan.specs.Regions.{HasShapes};
ghost use Rattle.cx_plan.specs.Setups.{setup_of};
ghost use Rattle.cx_plan.specs.Whole.{IsWhole};
ghost use Rattle.cx_rule.specs.Routine.{Rule};
ghost use Rattle.cx_cut.specs.Cuts.{IsCut};
ghost use Rattle.cx_cut.specs.Faults.{parts_of};
ghost use Rattle.law_parts.specs.Beginnings.{Beginning, IsBeginning, run_of};
ghost use Rattle.cx_core_events.specs.Shows.{PaceTells};

use cx_core_place::places_fit;
use cx_flat::{all_ways, flat_is_run, operation_needs_met};
use cx_plan::Job;

/// Where the parts stand tells which events can happen, whatever wires carry.
///
/// The job is whole, its items have their shapes, its grid has interior points, the region check accepts it, and its widths cut
/// its grid. The run begins at its start, or in any whole state of the checkpoint place of an iteration, and goes by any rules.
/// Then all parts at the first place show how the run begins. In each state that its events reach, a part can go exactly where
/// the places say so, and so can the writer; the first work is that of the operation which is written next; a part stands behind the
/// writer's next checkpoint exactly where the works say so, and some event can happen that isn't an operation of such a part; and what
/// each event leaves of the places shows the state that it leads to. It does nothing that shows; its clause is the law.
pub fn pace_tells(job: &Job)
    requires whole { IsWhole job.now }
    requires shapes { HasShapes (setup_of job.now) }
    requires interior { HasInterior job.now.shape }
    requires sound { Sound (setup_of job.now) }
    requires cut { IsCut (parts_of job.now.shape job.now.cut) }
    ensures { (told : Bool) (rules : List Rule) (b : Beginning) → IsBeginning (setup_of job.now) b
        → PaceTells (IsTrue told) (run_of job.now rules b) }
{
    flat_is_run(job);
    all_ways(job);
    operation_needs_met(job);
    places_fit(job);
}
