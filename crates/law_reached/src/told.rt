//! Where wires tell what they carry, a run in parts hands out the undivided run.
ghost use Rattle.std.specs.Prelude.{Bool, IsTrue, List};
ghost use Rattle.cx_grid.specs.Grid.{HasInterior};
ghost use Rattle.cx_plan.specs.Paths.{Sound};
ghost use Rattle.cx_plan.specs.Regions.{HasShapes};
ghost use Rattle.cx_plan.specs.Setups.{setup_of};
ghost use Rattle.cx_plan.specs.Whole.{IsWhole};
ghost use Rattle.cx_rule.specs.Routine.{Rule};
ghost use Rattle.cx_cut.specs.Cuts.{IsCut};
ghost use Rattle.cx_cut.specs.Faults.{parts_of};
ghost use Rattle.law_parts.specs.Beginnings.{Beginning, IsBeginning, run_of};
ghost use Rattle.law_parts.specs.Totals.{undivided_from};
ghost use Rattle.law_reached.specs.Endings.{EndIsTheRuns};
ghost use Rattle.law_reached.specs.Sums.{DoneMatches, TakenAddsUp};
ghost use Rattle.law_reached.specs.Works.{BookIsLengths, OneWay, WorksInOrder};

use cx_flat::{all_ways, flat_is_run, operation_needs_met};
use cx_plan::Job;

/// Where wires tell, the way of all parts is the undivided run: what decides at each place, and the scalars there.
pub fn one_way(job: &Job)
    requires whole { IsWhole job.now }
    requires shapes { HasShapes (setup_of job.now) }
    requires interior { HasInterior job.now.shape }
    requires sound { Sound (setup_of job.now) }
    requires cut { IsCut (parts_of job.now.shape job.now.cut) }
    ensures { (told : Bool) (rules : List Rule) (b : Beginning) → IsBeginning (setup_of job.now) b
        → OneWay (IsTrue told) (run_of job.now rules b) }
{
    flat_is_run(job);
    all_ways(job);
    operation_needs_met(job);
}

/// Where wires tell, the texts and checkpoints that have been handed out are always the first ones of the undivided run, in order.
///
/// The writer's next work adds the undivided run's entry at its place, and the pieces of all parts make just its text or its
/// state, wherever the parts stand. No other event adds a work.
pub fn works_in_order(job: &Job)
    requires whole { IsWhole job.now }
    requires shapes { HasShapes (setup_of job.now) }
    requires interior { HasInterior job.now.shape }
    requires sound { Sound (setup_of job.now) }
    requires cut { IsCut (parts_of job.now.shape job.now.cut) }
    ensures { (told : Bool) (rules : List Rule) (b : Beginning) → IsBeginning (setup_of job.now) b
        → WorksInOrder
        (IsTrue told) (run_of job.now rules b) (undivided_from (setup_of job.now) rules b) }
{
    flat_is_run(job);
    all_ways(job);
    operation_needs_met(job);
}

/// Where wires tell, the writer knows how long the output of each variable is: as long as its texts that have been handed out, and
/// what was there at the beginning.
pub fn book_is_lengths(job: &Job)
    requires whole { IsWhole job.now }
    requires shapes { HasShapes (setup_of job.now) }
    requires interior { HasInterior job.now.shape }
    requires sound { Sound (setup_of job.now) }
    requires cut { IsCut (parts_of job.now.shape job.now.cut) }
    ensures { (told : Bool) (rules : List Rule) (b : Beginning) → IsBeginning (setup_of job.now) b
        → BookIsLengths (IsTrue told) (run_of job.now rules b) }
{
    flat_is_run(job);
    all_ways(job);
    operation_needs_met(job);
}

/// Where wires tell, a run in parts that is over has ended as the undivided run does, and has handed out all its works.
///
/// The end is the Overflow, the WHILE limit or the limit of an output that the operation at the end's place meets, with its iteration
/// and path. At the last place there is none, and each part holds the scalars of the last state.
pub fn end_is_the_runs(job: &Job)
    requires whole { IsWhole job.now }
    requires shapes { HasShapes (setup_of job.now) }
    requires interior { HasInterior job.now.shape }
    requires sound { Sound (setup_of job.now) }
    requires cut { IsCut (parts_of job.now.shape job.now.cut) }
    ensures { (told : Bool) (rules : List Rule) (b : Beginning) → IsBeginning (setup_of job.now) b
        → EndIsTheRuns
        (IsTrue told) (run_of job.now rules b) (undivided_from (setup_of job.now) rules b) }
{
    flat_is_run(job);
    all_ways(job);
    operation_needs_met(job);
}

/// Where wires tell, and a run in parts is over at its last place: the points that all parts computed, the values that they
/// received and the sum of these are what the undivided run's entries say, and no message is left on any wire or board.
pub fn done_matches(job: &Job)
    requires whole { IsWhole job.now }
    requires shapes { HasShapes (setup_of job.now) }
    requires interior { HasInterior job.now.shape }
    requires sound { Sound (setup_of job.now) }
    requires cut { IsCut (parts_of job.now.shape job.now.cut) }
    ensures { (told : Bool) (rules : List Rule) (b : Beginning) → IsBeginning (setup_of job.now) b
        → DoneMatches
        (IsTrue told) (run_of job.now rules b) (undivided_from (setup_of job.now) rules b) }
{
    flat_is_run(job);
    all_ways(job);
    operation_needs_met(job);
}

/// Where wires tell, the sum of all values that were taken of wires grows by the values that the operation of a part takes, and
/// by no other event.
pub fn taken_adds_up(job: &Job)
    requires whole { IsWhole job.now }
    requires shapes { HasShapes (setup_of job.now) }
    requires interior { HasInterior job.now.shape }
    requires sound { Sound (setup_of job.now) }
    requires cut { IsCut (parts_of job.now.shape job.now.cut) }
    ensures { (told : Bool) (rules : List Rule) (b : Beginning) → IsBeginning (setup_of job.now) b
        → TakenAddsUp (IsTrue told) (run_of job.now rules b) }
{
    flat_is_run(job);
    all_ways(job);
    operation_needs_met(job);
}
