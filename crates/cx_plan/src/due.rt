//! When checkpoints and outputs are due.
ghost use Rattle.std.specs.Prelude.{◌≡◌};
ghost use Rattle.cx_plan.specs.Dues.{is_each, is_due_by, is_due, is_written};
ghost use Rattle.cx_plan.specs.Setups.{setup_of};

use crate::Job;

/// Whether a number that is at least 1 divides an iteration.
fn is_each(every: i64, n: u64) -> bool
    ensures { result ≡ is_each every n }
{
    every >= 1 && n % every.unsigned_abs() == 0
}

/// Whether a checkpoint is due at an iteration: where `every` divides it, and at the last one with `on_end`.
/// None is due at iteration 0 or after the last one.
pub fn is_due_by(itlast: u64, every: i64, on_end: bool, n: u64) -> bool
    ensures { result ≡ is_due_by itlast every on_end n }
{
    n != 0 && n <= itlast && (is_each(every, n) || on_end && n == itlast)
}

/// Whether a checkpoint of a job is due at an iteration ([`is_due_by`]).
pub fn is_due(job: &Job, n: u64) -> bool
    ensures { result ≡ is_due (setup_of job.now) n }
{
    is_due_by(job.itlast, job.chk_every, job.on_end, n)
}

/// Whether the variables are written at an iteration: where `out_every` divides it, as each number divides 0.
pub fn is_written(job: &Job, n: u64) -> bool
    ensures { result ≡ is_written (setup_of job.now) n }
{
    is_each(job.out_every, n)
}
