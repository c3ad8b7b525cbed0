//! What operations mean.

ghost use Rattle.std.specs.Prelude.{List};
ghost use Rattle.cx_plan.specs.Setups.{setup_of};
ghost use Rattle.cx_plan.specs.Whole.{IsWhole};
ghost use Rattle.cx_rule.specs.Routine.{Rule};
ghost use Rattle.cx_flat.specs.Laws.{FlatIsRun};
ghost use Rattle.cx_flat.specs.Ways.{WaysEnd};
ghost use Rattle.cx_plan.specs.Paths.{Sound};
ghost use Rattle.cx_flat.specs.Places.{OperationsMet};

use cx_plan::Job;

/// The operations of a job, run with jumps, are its undivided run, entry by entry and with the same end, whatever the routines
/// compute; and from each checkpoint place they are the run that is continued there. It does nothing; its clause is the law.
pub fn flat_is_run(job: &Job)
    requires { IsWhole job.now }
    ensures { (rules : List Rule) → FlatIsRun (setup_of job.now) rules }
{}

/// Whatever the scalars are before each operation, the operations come to the last one after at most `most_operations`, each
/// comes at a later place than the one before it, and what one sends the next one takes. It does nothing; its clause is the law.
pub fn all_ways(job: &Job)
    requires { IsWhole job.now }
    ensures { WaysEnd (setup_of job.now) }
{}

/// Along the operations of a job that the region check accepts each need is met, from the start and from each checkpoint place,
/// beyond ends too. It does nothing; its clause is the law.
pub fn operation_needs_met(job: &Job)
    requires whole { IsWhole job.now }
    requires sound { Sound (setup_of job.now) }
    ensures { (rules : List Rule) → OperationsMet (setup_of job.now) rules }
{}
