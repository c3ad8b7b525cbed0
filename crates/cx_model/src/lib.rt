//! The undivided run of a job: its definitions, how it may end, and laws of it.
#![tactic(auto)]

ghost use Rattle.std.specs.Prelude.{List};
ghost use Rattle.cx_grid.specs.Grid.{HasInterior};
ghost use Rattle.cx_plan.specs.Setups.{setup_of};
ghost use Rattle.cx_plan.specs.Paths.{Sound};
ghost use Rattle.cx_plan.specs.Regions.{HasShapes};
ghost use Rattle.cx_plan.specs.Whole.{IsWhole};
ghost use Rattle.cx_rule.specs.Routine.{Rule};
ghost use Rattle.cx_model.specs.Alike.{UsesOnlyOwn};
ghost use Rattle.cx_model.specs.Checkpoints.{Continues};
ghost use Rattle.cx_model.specs.Courses.{IsCourseCut};
ghost use Rattle.cx_model.specs.Needs.{NeedsMet};
ghost use Rattle.cx_model.specs.Steers.{SteeredAlike};
ghost use Rattle.cx_model.specs.Uses.{UsesOnlySet};
ghost use Rattle.cx_model.specs.Values.{StepsAgree, NeedsOnlyTold, KeepsStates};

mod ends;

use cx_plan::Job;
pub use ends::End;

/// A law of every job and all rules: the run that reaches the checkpoint place of an iteration is what came before it, and
/// then the run that is continued from the state and the lengths of the outputs at that place; entry by entry, with the same
/// end. Each place is reached once, those of higher iterations are reached from those of lower ones, and at none of them is
/// the output of a variable shorter than at the one before. It does nothing; its clause is the law.
pub fn run_continues(job: &Job)
    ensures { (rules : List Rule) → Continues (setup_of job.now) rules }
{}

/// A law of every whole job whose items have their shapes, and all rules: the undivided run begins in a whole state, and a run
/// that begins in a whole state, or is continued from one, has only whole states, those at its checkpoint places among them. In
/// a whole state each variable has its stored levels, each level of a grid variable a number for each point, and each scalar
/// one number. It does nothing; its clause is the law.
pub fn run_keeps_states(job: &Job)
    requires whole { IsWhole job.now }
    requires shapes { HasShapes (setup_of job.now) }
    ensures { (rules : List Rule) → KeepsStates (setup_of job.now) rules }
{}

/// A law of every whole job whose items have their shapes, on a grid with interior points, and all rules: each step uses only
/// numbers of regions that are set. Two states that agree at all points and in all scalars of set regions lead, by any item
/// whose needs are met, either both to no numbers, or to states that agree at all points and in all scalars of the regions
/// that are set after it; and so do an exchange and a rotation. A test of an IF or a WHILE finds the same, and a text of an
/// output is the same, where its needs are met. It does nothing; its clause is the law.
pub fn steps_agree(job: &Job)
    requires whole { IsWhole job.now }
    requires shapes { HasShapes (setup_of job.now) }
    requires interior { HasInterior job.now.shape }
    ensures { (rules : List Rule) → StepsAgree (setup_of job.now) rules }
{}

/// What the yes of the region check means, in numbers: the runs of a sound job that begin in any two whole states, not only in
/// zeros, do the same, write the same outputs, compute as many points and end alike. So no number that the run hasn't written
/// itself reaches an output, a test of an IF or a WHILE, or its end. The job is whole, its items have their shapes, and its
/// grid has interior points; on a grid without any, the boundary would be taken from itself. It does nothing; its clause is
/// the law.
pub fn sound_uses_only_own(job: &Job)
    requires whole { IsWhole job.now }
    requires shapes { HasShapes (setup_of job.now) }
    requires interior { HasInterior job.now.shape }
    requires sound { Sound (setup_of job.now) }
    ensures { (rules : List Rule) → UsesOnlyOwn (setup_of job.now) rules }
{}

/// What the yes of the region check means for a checkpoint: a sound job's run that resumes from each state
/// that agrees with the one at the checkpoint, at all points and in all scalars of the regions that are set
/// there, does the same, writes the same and ends alike. It does nothing; its clause is the law.
pub fn sound_needs_only_told(job: &Job)
    requires whole { IsWhole job.now }
    requires shapes { HasShapes (setup_of job.now) }
    requires interior { HasInterior job.now.shape }
    requires sound { Sound (setup_of job.now) }
    ensures { (rules : List Rule) → NeedsOnlyTold (setup_of job.now) rules }
{}

/// What the yes of the region check means, in flags: where a job is sound, its undivided run never uses a value of a region
/// that no write has set since its flag was last cleared, whatever the routines compute. That these flags tell what a step
/// uses is `steps_agree`. It does nothing; its clause is the law.
pub fn sound_uses_only_set(job: &Job)
    ensures { (rules : List Rule) → Sound (setup_of job.now)
        → UsesOnlySet (setup_of job.now) rules }
{}

/// A course goes on where a run ends: behind an Overflow each point without a number keeps its old ones, and behind the last
/// turn of a WHILE the loop is left. A law of every job and all rules: the run of any stages from any state is their course up
/// to the first end that is met. It does nothing; its clause is the law.
pub fn course_is_run(job: &Job)
    ensures { (rules : List Rule) → IsCourseCut (setup_of job.now) rules }
{}

/// A law of every sound job and all rules: along its course each need is met, from the start with no flag set, and behind the
/// checkpoint place of each iteration both by the flags that a course leaves there and by flags that are all set; from any
/// states, also beyond ends. It does nothing; its clause is the law.
pub fn course_needs_met(job: &Job)
    requires { Sound (setup_of job.now) }
    ensures { (rules : List Rule) → NeedsMet (setup_of job.now) rules }
{}

/// A law of every job and all rules: a run that is steered otherwise behind an iteration alone is the same up to the checkpoint place
/// of that iteration. It reaches the same places in the same states, and what it has written there of each variable is the same. It does
/// nothing; its clause is the law.
pub fn steered_alike(job: &Job)
    ensures { (rules : List Rule) → SteeredAlike (setup_of job.now) rules }
{}
