//! A part that stands before a Take waits for its messages.
ghost use Rattle.std.specs.Prelude.{Bool, IsTrue, List};
ghost use Rattle.cx_grid.specs.Grid.{HasInterior};
ghost use Rattle.cx_plan.specs.Paths.{Sound};
ghost use Rattle.cx_plan.specs.Regions.{HasShapes};
ghost use Rattle.cx_plan.specs.Setups.{setup_of};
ghost use Rattle.cx_plan.specs.Whole.{IsWhole};
ghost use Rattle.cx_rule.specs.Routine.{Rule};
ghost use Rattle.cx_cut.specs.Cuts.{IsCut};
ghost use Rattle.cx_cut.specs.Faults.{parts_of};
ghost use Rattle.law_parts.specs.Beginnings.{Beginning, IsBeginning, run_of};
ghost use Rattle.law_takes.specs.Waiting.{QueuesFollowPlaces, TakesWaitForMessages};

use cx_core_part::takes_are_there;
use cx_flat::{all_ways, flat_is_run, operation_needs_met};
use cx_plan::Job;

/// In each state that a run in parts reaches, over wires that tell or don't: a part can go on with a Take exactly where each queue
/// to it begins with the faces that it takes of it, if the run isn't over, the part stands before each end that was met, and it is
/// within the lead.
///
/// Of a single channel, and whatever the operation is: the messages that a part takes of it are there exactly where their sender
/// has done all operations before it. If the operation takes none, that is so wherever the sender is.
pub fn takes_wait(job: &Job)
    requires whole { IsWhole job.now }
    requires shapes { HasShapes (setup_of job.now) }
    requires interior { HasInterior job.now.shape }
    requires sound { Sound (setup_of job.now) }
    requires cut { IsCut (parts_of job.now.shape job.now.cut) }
    ensures waits { (told : Bool) (rules : List Rule) (b : Beginning)
        → IsBeginning (setup_of job.now) b
        → TakesWaitForMessages (IsTrue told) (run_of job.now rules b) }
    ensures queues { (told : Bool) (rules : List Rule) (b : Beginning)
        → IsBeginning (setup_of job.now) b
        → QueuesFollowPlaces (IsTrue told) (run_of job.now rules b) }
{
    takes_are_there(job);
    flat_is_run(job);
    all_ways(job);
    operation_needs_met(job);
}
