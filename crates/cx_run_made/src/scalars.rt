//! Scalars of a job by their names.

ghost use Rattle.std.specs.Prelude.{◌≡◌, ◌<◌, ◌≤◌, position, length, IfSome};
ghost use Rattle.cx_run_made.specs.Summaries.{is_stored_scalar, live_variable, numbered, scalar_named};
ghost use Rattle.cx_plan.specs.Setups.{setup_of};
ghost use Rattle.cx_plan.specs.Whole.{IsStoredScalar};

use cx_plan::{Job, VarId, VarInfo};

/// The first stored scalar of this full name, if the job has one. A job has at most 256 variables.
pub fn scalar_named(job: &Job, name: &[u8]) -> Option<VarId>
    requires { length job.now.vars ≤ 256 }
    ensures named { result ≡ scalar_named (setup_of job.now) name.now }
    ensures stored { IfSome result (λ v. IsStoredScalar job.now v) }
{
    match place_named(job, name) {
        Some(place) => Some(VarId(place as u32)),
        None => None,
    }
}

/// The scalar that says how many cells live, `life::live`, if the job has it stored. A job has at most 256 variables.
pub fn live_variable(job: &Job) -> Option<VarId>
    requires { length job.now.vars ≤ 256 }
    ensures named { result ≡ live_variable (setup_of job.now) }
    ensures stored { IfSome result (λ v. IsStoredScalar job.now v) }
{
    scalar_named(job, b"life::live")
}

/// Whether a variable is a scalar of this full name that is stored.
fn is_stored_scalar(variable: &VarInfo, name: &[u8]) -> bool
    ensures { result ≡ is_stored_scalar name.now variable.now }
{
    variable.scalar && variable.levels > 0 && variable.full.as_slice() == name
}

/// The place of the first stored scalar of this full name.
#[tactic(auto, using(crate::proofs::ScalarLaws::stored_there))]
fn place_named(job: &Job, name: &[u8]) -> Option<usize>
    requires { length job.now.vars ≤ 256 }
    ensures place { result ≡ position (is_stored_scalar name.now) job.now.vars }
    ensures within { IfSome result (λ place. place < length job.now.vars) }
    ensures stored { IfSome result (λ place. IsStoredScalar job.now (numbered place)) }
{
    job.vars
        .as_slice()
        .iter()
        .position(|variable| is_stored_scalar(variable, name))
}
