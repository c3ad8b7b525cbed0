//! Heat that flows is kept.
ghost use Rattle.std.specs.Prelude.{◌≡◌, ℤ, List, neg_ℤ};
ghost use Rattle.cx_grid.specs.Grid.{IsShape, HasInterior};
ghost use Rattle.cx_plan.specs.Paths.{Sound};
ghost use Rattle.cx_plan.specs.Regions.{HasShapes};
ghost use Rattle.cx_plan.specs.Setups.{setup_of};
ghost use Rattle.cx_plan.specs.Whole.{IsWhole};
ghost use Rattle.cx_rule.specs.Routine.{Rule};
ghost use Rattle.cx_thorn_physics.specs.Flux.{flow};
ghost use Rattle.law_physics.specs.Steps.{HasGhosts};
ghost use Rattle.law_physics.specs.Heat.{HeatIsKept};
ghost use Rattle.law_physics.specs.HeatRuns.{HeatStays};

use cx_model::sound_uses_only_own;
use cx_plan::Job;

/// A law of every job whose grid has ghost zones: heat is kept. A step of the heat by the thorn `HeatFlux`, over
/// whatever variables, parameters and iteration, leaves the sum over the whole grid as it was, to the last unit. The
/// grid is periodic, or closed by a mask that is 0 in its boundary, or both, each in some directions. It does nothing;
/// its clause is the law.
pub fn heat_is_kept(job: &Job)
    requires shape { IsShape job.now.shape }
    requires ghosts { HasGhosts job.now.shape }
    ensures { (rules : List Rule) → HeatIsKept (setup_of job.now) rules }
{}

/// A law of all numbers: what flows from one point to another is what flows back, with the other sign. It does nothing;
/// its clause is the law.
pub fn flows_are_opposite()
    ensures { (factor from to : ℤ) → flow factor from to ≡ neg_ℤ (flow factor to from) }
{}

/// A law of every accepted job whose items are all of the thorn `HeatFlux`: the heat stays. All lines of the output of
/// `heatflux::total` have one value, to the last unit, whatever the parameters and the schedule, and however often the
/// heat is started. It does nothing; its clause is the law.
pub fn heat_stays(job: &Job)
    requires whole { IsWhole job.now }
    requires shapes { HasShapes (setup_of job.now) }
    requires interior { HasInterior job.now.shape }
    requires sound { Sound (setup_of job.now) }
    ensures { (rules : List Rule) → HeatStays (setup_of job.now) rules }
{
    sound_uses_only_own(job);
}
