//! What is known of a job's variables.

ghost use Rattle.std.specs.Prelude.{◌≡◌};
ghost use Rattle.cx_plan.specs.Setups.{setup_of};
ghost use Rattle.cx_plan.specs.Lookups.{is_scalar, variable as variable_of};

use cx_plan::{Job, VarId};

/// Whether a variable is one number. A number without a variable is none.
pub(crate) fn is_scalar(job: &Job, variable: VarId) -> bool
    ensures { result ≡ is_scalar (setup_of job.now) variable }
{
    match job.vars.as_slice().get(variable.0 as usize) {
        Some(info) => info.scalar,
        None => false,
    }
}

/// The full name of a variable.
pub fn full_name(job: &Job, variable: VarId) -> &[u8]
    ensures { result.now ≡ (variable_of (setup_of job.now) variable).full }
{
    match job.vars.as_slice().get(variable.0 as usize) {
        Some(info) => info.full.as_slice(),
        None => &[],
    }
}
