//! What places are along a run.

ghost use Rattle.cx_plan.specs.Setups.{setup_of};
ghost use Rattle.cx_plan.specs.Whole.{IsWhole};
ghost use Rattle.cx_core_place.specs.Keys.{PlacesInOrder};
ghost use Rattle.cx_core_place.specs.Steps.{PlacesFit};

use cx_plan::Job;

/// Each place that a run can come to, whatever its scalars are, is at one of its operations, in an iteration up to the last one,
/// with at most 32 open WHILEs, each within its limit of turns. It does nothing; its clause is the law.
pub fn places_fit(job: &Job)
    requires { IsWhole job.now }
    ensures { PlacesFit (setup_of job.now) }
{}

/// Along one way through a run a place is before another one exactly where fewer operations come before it. It does nothing; its
/// clause is the law.
pub fn places_in_order(job: &Job)
    ensures { PlacesInOrder (setup_of job.now) }
{}
