//! Where a run begins, and what is left of the undivided run from there.
ghost use Rattle.std.specs.Prelude.{ℕ, List};
ghost use Rattle.cx_plan.specs.Regions.{HasShapes};
ghost use Rattle.cx_plan.specs.Setups.{setup_of};
ghost use Rattle.cx_plan.specs.Whole.{IsWhole};
ghost use Rattle.cx_rule.specs.Routine.{Rule};
ghost use Rattle.law_course.specs.Beginnings.{CourseGoesOn, FittingCanBegin};

use cx_model::{run_continues, run_keeps_states};
use cx_plan::Job;

/// The run from a checkpoint of its course, or from its start, does what the undivided run does from there on, and ends as it
/// does. It begins in a whole state of an iteration of the run. Each whole output is as much of it as the checkpoint records, and
/// then its texts of the run from there.
pub fn course_goes_on(job: &Job)
    requires whole { IsWhole job.now }
    requires shapes { HasShapes (setup_of job.now) }
    ensures { (key : List ℕ) (rules : List Rule) → CourseGoesOn (setup_of job.now) key rules }
{
    run_continues(job);
    run_keeps_states(job);
}

/// A checkpoint that fits a job, whether or not it is of the job's run, holds a whole state of an iteration in which a run of the
/// job can begin.
pub fn fitting_can_begin(job: &Job)
    ensures { FittingCanBegin job.now }
{}
