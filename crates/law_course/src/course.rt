//! The course of a run: its outputs and its checkpoints.
ghost use Rattle.std.specs.Prelude.{ℕ, List};
ghost use Rattle.cx_plan.specs.Regions.{HasShapes};
ghost use Rattle.cx_plan.specs.Setups.{setup_of};
ghost use Rattle.cx_plan.specs.Whole.{IsWhole};
ghost use Rattle.cx_rule.specs.Routine.{Rule};
ghost use Rattle.law_course.specs.Courses.{CourseFits, CourseRises, CourseSplits, HasPlaces};
ghost use Rattle.law_course.specs.Courses.{StatesPackAgain, StatesUnpack, course_of};

use cx_ascii_read::{printed, split_is_exact};
use cx_model::{run_continues, run_keeps_states};
use cx_plan::Job;

/// A whole state that is packed into a checkpoint and unpacked again is itself, and the checkpoint holds a whole state.
pub fn states_unpack(job: &Job)
    ensures { StatesUnpack (setup_of job.now) }
{}

/// A checkpoint of version 2 that holds a whole state, and names the outputs with their lengths, is what packing the state that
/// it holds with these lengths gives.
pub fn states_pack_again(job: &Job)
    ensures { StatesPackAgain (setup_of job.now) }
{}

/// The checkpoints of a run's course are those of the checkpoint places that the undivided run reaches: of each the state there,
/// and how long the outputs are there.
pub fn has_places(job: &Job)
    ensures { (key : List ℕ) (rules : List Rule) → HasPlaces (setup_of job.now) key rules }
{
    run_continues(job);
}

/// A run has an output for each variable that is written. Along its checkpoints the iterations rise, and the lengths of the
/// outputs don't fall.
pub fn course_rises(job: &Job)
    ensures { (key : List ℕ) (rules : List Rule) →
        CourseRises (setup_of job.now) (course_of (setup_of job.now) key rules) }
{
    run_continues(job);
}

/// Each checkpoint of the course of a whole job's run is of version 2, names the outputs, and has a length for each. So much of
/// each output is there; and of the former output there is as much as all of them are together, which splits by the outputs'
/// names into just these fronts.
pub fn course_splits(job: &Job)
    requires whole { IsWhole job.now }
    requires shapes { HasShapes (setup_of job.now) }
    ensures { (key : List ℕ) (rules : List Rule) →
        CourseSplits (setup_of job.now) (course_of (setup_of job.now) key rules) }
{
    run_continues(job);
    run_keeps_states(job);
    printed();
    split_is_exact();
}

/// Each checkpoint of the course of a whole job's run has the job's key, and fits the job: it is due, names the job's outputs,
/// has a value for each scalar and for each point of each level, and each value is one that its variable's type holds. It can
/// be spelled where each output's name has fewer than 2^32 bytes.
pub fn course_fits(job: &Job)
    requires whole { IsWhole job.now }
    requires shapes { HasShapes (setup_of job.now) }
    ensures { (rules : List Rule) → CourseFits job.now rules }
{
    run_continues(job);
    run_keeps_states(job);
}
