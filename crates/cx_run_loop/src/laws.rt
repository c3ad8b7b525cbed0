//! The laws of a job's runs, together.
ghost use Rattle.std.specs.Prelude.{Bool, IsTrue, List};
ghost use Rattle.cx_plan.specs.Setups.{setup_of};
ghost use Rattle.cx_rule.specs.Routine.{Rule};
ghost use Rattle.law_parts.specs.Beginnings.{Beginning, IsBeginning};
ghost use Rattle.cx_core.specs.Starts.{IsReady};
ghost use Rattle.cx_run_loop.specs.CoresWait.{CoresWait};
ghost use Rattle.cx_run_loop.specs.Laws.{DriveLaws};
ghost use Rattle.cx_run_loop.specs.Sums.{SumsAdd};
ghost use Rattle.cx_run_loop.specs.Within.{CountsStay};

use cx_core::{core_stands, cores_gather};
use cx_core_events::pace_tells;
use cx_flat::{all_ways, flat_is_run, operation_needs_met};
use cx_plan::Job;
use law_course::{
    course_fits, course_goes_on, course_rises, course_splits, fitting_can_begin, states_pack_again,
    trails_begin, works_follow,
};
use law_reached::works_in_order;

/// What the laws say of the runs of a job. It does nothing that shows; its clause is the law.
pub fn drive_laws(job: &Job)
    requires { IsReady job.now }
    ensures { (told : Bool) (rules : List Rule) → DriveLaws (IsTrue told) job.now rules }
{
    works_in_order(job);
    course_goes_on(job);
    works_follow(job);
    course_rises(job);
    course_splits(job);
    course_fits(job);
    states_pack_again(job);
    fitting_can_begin(job);
    trails_begin(job);
    counts_stay(job);
}

/// What the parts of a run have counted that comes to its last place. It does nothing that shows; its clause is the law.
fn counts_stay(job: &Job)
    requires { IsReady job.now }
    ensures { (told : Bool) (rules : List Rule) (b : Beginning) → IsBeginning (setup_of job.now) b
        → CountsStay (IsTrue told) job.now rules b }
{
    flat_is_run(job);
    all_ways(job);
    operation_needs_met(job);
    pace_tells(job);
}

/// A core whose parts wait for each other at each checkpoint. It does nothing that shows; its clause is the law.
pub fn cores_wait(job: &Job)
    requires { IsReady job.now }
    ensures { (told : Bool) (rules : List Rule) (b : Beginning) → IsBeginning (setup_of job.now) b
        → CoresWait (IsTrue told) job.now rules b }
{
    flat_is_run(job);
    all_ways(job);
    operation_needs_met(job);
    pace_tells(job);
    cores_gather(job);
    core_stands(job);
}

/// What a run counts that is cut anew at its checkpoints, from one to the next; and that with one cut it counts what its entries
/// always do. It does nothing that shows; its clause is the law.
pub(crate) fn sums_add(job: &Job)
    ensures { SumsAdd (setup_of job.now) }
{}
