//! Particles are kept.
ghost use Rattle.std.specs.Prelude.{List};
ghost use Rattle.cx_grid.specs.Grid.{IsShape, HasInterior};
ghost use Rattle.cx_plan.specs.Paths.{Sound};
ghost use Rattle.cx_plan.specs.Regions.{HasShapes};
ghost use Rattle.cx_plan.specs.Setups.{setup_of};
ghost use Rattle.cx_plan.specs.Whole.{IsWhole};
ghost use Rattle.cx_rule.specs.Routine.{Rule};
ghost use Rattle.law_physics.specs.Gas.{IsPeriodic, ParticlesAreKept};
ghost use Rattle.law_physics.specs.GasRuns.{GasStays};

use cx_model::sound_uses_only_own;
use cx_plan::Job;

/// A law of every job on a periodic grid: particles are kept. A step of the gas by the thorn `LatticeGas`, over
/// whatever variable and iteration, leaves the number of particles over the whole grid and both their momenta as they
/// were. It does nothing; its clause is the law.
pub fn particles_are_kept(job: &Job)
    requires shape { IsShape job.now.shape }
    requires periodic { IsPeriodic job.now.shape }
    ensures { (rules : List Rule) → ParticlesAreKept (setup_of job.now) rules }
{}

/// A law of every accepted job on a periodic grid whose items are all of the thorn `LatticeGas`: the gas stays. All
/// lines of the output of `gas::particles` have one value, and so have those of `gas::total_x` and of `gas::total_y`,
/// whatever the parameters and the schedule. It does nothing; its clause is the law.
pub fn gas_stays(job: &Job)
    requires whole { IsWhole job.now }
    requires shapes { HasShapes (setup_of job.now) }
    requires interior { HasInterior job.now.shape }
    requires sound { Sound (setup_of job.now) }
    requires periodic { IsPeriodic job.now.shape }
    ensures { (rules : List Rule) → GasStays (setup_of job.now) rules }
{
    sound_uses_only_own(job);
}
