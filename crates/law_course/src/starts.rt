//! Starts on trails of a run.
ghost use Rattle.std.specs.Prelude.{ℕ, ◌≡◌, List, None};
ghost use Rattle.cx_disk.specs.Disk.{Files};
ghost use Rattle.cx_plan.specs.Regions.{HasShapes};
ghost use Rattle.cx_plan.specs.Setups.{setup_of};
ghost use Rattle.cx_plan.specs.Whole.{IsWhole};
ghost use Rattle.cx_rule.specs.Routine.{Rule};
ghost use Rattle.cx_keep.specs.Trails.{IsTrail, NewestIs};
ghost use Rattle.law_course.specs.Formers.{FormerIsTrail};
ghost use Rattle.law_course.specs.Starts.{AreAlikeTo, HaveOneCourse, HaveOneCourseTo, TrailsBegin, course_in};

use crate::course::{course_fits, course_splits};
use cx_plan::Job;

/// A start on a trail of a whole job's run finds the newest checkpoint of it, which is one of the run. None of its tests fails,
/// but that of a former output that is too long to be split: else it is refused only where a checkpoint is asked for and no slot
/// is open.
pub fn trails_begin(job: &Job)
    requires whole { IsWhole job.now }
    requires shapes { HasShapes (setup_of job.now) }
    ensures { (rules : List Rule) → TrailsBegin job.now rules }
{
    course_fits(job);
    course_splits(job);
}

/// A trail of the program before this one, which wrote all outputs to one file with one limit, is a trail of this program, at
/// whatever place of its run it was left. So is that of a run that ended at this limit, which now goes on.
pub fn former_is_trail(job: &Job)
    requires whole { IsWhole job.now }
    ensures { (rules : List Rule) → FormerIsTrail job.now rules }
{}

/// Files without a checkpoint are a trail of each job's run, whatever the outputs' files hold.
pub fn empty_is_trail(job: &Job)
    ensures { (rules : List Rule) (files : Files) → NewestIs files None
        → IsTrail (course_in job.now rules) files }
{}

/// Two jobs of one setup and one key have one undivided run and one course, and a trail of the one is a trail of the other,
/// however they are cut, whatever their lead, and however they begin.
pub fn one_course(a: &Job, b: &Job)
    ensures { (rules : List Rule) → setup_of a.now ≡ setup_of b.now → a.now.key ≡ b.now.key
        → HaveOneCourse a.now b.now rules }
{}

/// Two jobs that are the same but for steers of later iterations than c have one undivided run and one course up to the checkpoint
/// place of c. A trail of the one whose newest checkpoint isn't later is a trail of the other.
pub fn one_course_to(a: &Job, b: &Job)
    requires whole { IsWhole a.now }
    ensures { (rules : List Rule) (c : ℕ) → AreAlikeTo c a.now b.now
        → HaveOneCourseTo c a.now b.now rules }
{}
