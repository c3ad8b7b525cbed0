//! The laws of the runs of a job, together.
ghost use Rattle.std.specs.Prelude.{Bool, IsTrue, List, ◌≡◌, ◌<◌, ℕ};
ghost use Rattle.cx_plan.specs.Setups.{setup_of};
ghost use Rattle.cx_rule.specs.Routine.{Rule};
ghost use Rattle.law_parts.specs.Beginnings.{Beginning, IsBeginning, run_of};
ghost use Rattle.law_parts.specs.Totals.{undivided_from};
ghost use Rattle.cx_core.specs.Gathered.{CoresGather};
ghost use Rattle.cx_core.specs.Hands.{Stands};
ghost use Rattle.cx_core.specs.Laws.{RunLaws};
ghost use Rattle.cx_core.specs.Starts.{IsReady};
ghost use Rattle.cx_core.specs.Steps.{Counts, IsAt, Standing};

use cx_core_events::pace_tells;
use cx_core_place::places_fit;
use cx_flat::{all_ways, flat_is_run, operation_needs_met};
use cx_plan::Job;
use law_parts::each_event_keeps;
use law_reached::{
    book_is_lengths, done_matches, each_event_keeps_way, each_state_goes_on, end_is_the_runs,
    one_way, taken_adds_up, works_in_order,
};

/// What the laws say of each run of a job. It does nothing that shows; its clause is the law.
pub(crate) fn run_laws(job: &Job)
    requires { IsReady job.now }
    ensures { (told : Bool) (rules : List Rule) (b : Beginning) → IsBeginning (setup_of job.now) b
        → RunLaws
        (IsTrue told) (run_of job.now rules b) (undivided_from (setup_of job.now) rules b) }
{
    flat_is_run(job);
    all_ways(job);
    places_fit(job);
    operation_needs_met(job);
    each_event_keeps(job);
    pace_tells(job);
    each_state_goes_on(job);
    each_event_keeps_way(job);
    one_way(job);
    works_in_order(job);
    book_is_lengths(job);
    end_is_the_runs(job);
    done_matches(job);
    taken_adds_up(job);
}

/// Wherever a core is: it counts the events that can happen, one at least until the run is over.
///
/// It tells which of them are operations of parts that stand behind the writer's next checkpoint, which is that of the first checkpoint
/// place of the parts' way from the writer's place on, whether or not a part meets an end before it. Until the run is over there is one
/// that isn't.
///
/// Where its wire tells what it carries, the run is over by the end of the undivided run. If that is none, all was counted that its
/// entries say, no message is left, and each part has the scalars of its last state. It does nothing that shows; its clause is the
/// law.
pub fn core_stands(job: &Job)
    requires { IsReady job.now }
    ensures { (told : Bool) (rules : List Rule) (b : Beginning) → IsBeginning (setup_of job.now) b
        → (first : Counts) (is : Standing (IsTrue told))
        (at : IsAt (IsTrue told) (run_of job.now rules b) first is.core is.queue is.now)
        → Stands (IsTrue told)
        (run_of job.now rules b) (undivided_from (setup_of job.now) rules b) first is at }
{
    run_laws(job);
}

/// A core of which no event that lies ahead is done while a checkpoint is to come: its parts stay together, and after each checkpoint
/// no message is left. So another core can begin from that checkpoint, over the same wire. It does nothing that shows; its clause is
/// the law.
pub fn cores_gather(job: &Job)
    ensures { (told : Bool) (rules : List Rule) (b : Beginning)
        → CoresGather (IsTrue told)
        (run_of job.now rules b) (undivided_from (setup_of job.now) rules b) }
{}
