//! The works of a run as they go to its keeper.
ghost use Rattle.std.specs.Prelude.{ℕ, List};
ghost use Rattle.cx_plan.specs.Regions.{HasShapes};
ghost use Rattle.cx_plan.specs.Setups.{setup_of};
ghost use Rattle.cx_plan.specs.Whole.{IsWhole};
ghost use Rattle.cx_rule.specs.Routine.{Rule};
ghost use Rattle.law_course.specs.Works.{EachWorkFollows};

use cx_model::{run_continues, run_keeps_states};
use cx_plan::Job;

/// The works of a run from a checkpoint of its course, or from its start, are what its keeper's calls ask for, one after another.
/// Each text is what comes next in its output's file, and not past the next checkpoint. Each state is that of the next checkpoint
/// of the course, behind all that are done, and records the files as long as they are. Behind the last work each file is a whole
/// output, and the newest checkpoint the last one of the run. Of an output that isn't past the next checkpoint, each one that it
/// is longer than is done; and the newest one is never older than the one that was found.
pub fn works_follow(job: &Job)
    requires whole { IsWhole job.now }
    requires shapes { HasShapes (setup_of job.now) }
    ensures { (key : List ℕ) (rules : List Rule) →
        EachWorkFollows (setup_of job.now) key rules }
{
    run_continues(job);
    run_keeps_states(job);
}
