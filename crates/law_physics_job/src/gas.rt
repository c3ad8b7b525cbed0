//! Particles and momenta are kept in each job that the files of the thorn `LatticeGas` make.
ghost use Rattle.std.specs.Prelude.{ℕ, List, Ok};
ghost use Rattle.cx_grid.specs.Grid.{HasInterior};
ghost use Rattle.cx_plan.specs.declared.variable.VarId.{VarId};
ghost use Rattle.cx_plan.specs.Paths.{Sound};
ghost use Rattle.cx_plan.specs.Regions.{HasShapes};
ghost use Rattle.cx_plan.specs.Setups.{setup_of};
ghost use Rattle.cx_plan.specs.Whole.{IsWhole};
ghost use Rattle.cx_rule.specs.Routine.{Rule};
ghost use Rattle.cx_rule.specs.declared.spec.Spec.{Spec};
ghost use Rattle.cx_job_files.specs.Shelf.{Held};
ghost use Rattle.cx_job.specs.Making.{Made};
ghost use Rattle.law_physics.specs.Constant.{IsConstant};
ghost use Rattle.law_physics.specs.Gas.{IsPeriodic};
ghost use Rattle.law_physics_job.specs.Alone.{RunsLatticeGas};
ghost use Rattle.law_physics_job.specs.GasRoutines.{HandsInGas};
ghost use Rattle.law_physics_job.specs.Named.{IsGasSum};

use cx_plan::Job;
use law_physics::gas_stays;

/// A law of every job on a periodic grid that the files of the thorn `LatticeGas` make, as they are shipped, with no
/// other active thorn beside the built-in ones: the gas stays. All lines of the output of `gas::particles` have one
/// value, and so have those of `gas::total_x` and of `gas::total_y`, whatever the parameters and the steer file, on
/// whatever sheet. It does nothing; its clause is the law.
pub fn shipped_gas_stays(job: &Job)
    requires whole { IsWhole job.now }
    requires shapes { HasShapes (setup_of job.now) }
    requires interior { HasInterior job.now.shape }
    requires sound { Sound (setup_of job.now) }
    requires periodic { IsPeriodic job.now.shape }
    ensures { (rules : List Rule) (specs : List Spec) (name : List ℕ) (files : Held) (total : VarId)
        → HandsInGas rules specs → RunsLatticeGas name files → Made name specs files (Ok job.now)
        → IsGasSum (setup_of job.now) total → IsConstant (setup_of job.now) rules total }
{
    gas_stays(job);
}
