//! Heat is kept in each job that the files of the thorn `HeatFlux` make.
ghost use Rattle.std.specs.Prelude.{ℕ, List, Ok, codes};
ghost use Rattle.cx_grid.specs.Grid.{HasInterior};
ghost use Rattle.cx_plan.specs.declared.variable.VarId.{VarId};
ghost use Rattle.cx_plan.specs.Paths.{Sound};
ghost use Rattle.cx_plan.specs.Regions.{HasShapes};
ghost use Rattle.cx_plan.specs.Setups.{setup_of};
ghost use Rattle.cx_plan.specs.Whole.{IsWhole};
ghost use Rattle.cx_rule.specs.Routine.{Rule};
ghost use Rattle.cx_rule.specs.declared.spec.Spec.{Spec};
ghost use Rattle.cx_job_files.specs.Shelf.{Held};
ghost use Rattle.cx_job.specs.Making.{Made};
ghost use Rattle.law_physics.specs.Constant.{IsConstant};
ghost use Rattle.law_physics_job.specs.Alone.{RunsHeatFlux};
ghost use Rattle.law_physics_job.specs.HeatRoutines.{HandsInHeat};
ghost use Rattle.law_physics_job.specs.Named.{IsNamed};

use cx_plan::Job;
use law_physics::heat_stays;

/// A law of every job that the files of the thorn `HeatFlux` make, as they are shipped, with no other active thorn
/// beside the built-in ones: the heat stays. All lines of the output of `heatflux::total` have one value, to the last
/// unit, whatever the parameters and the steer file, on whatever grid. It does nothing; its clause is the law.
pub fn shipped_heat_stays(job: &Job)
    requires whole { IsWhole job.now }
    requires shapes { HasShapes (setup_of job.now) }
    requires interior { HasInterior job.now.shape }
    requires sound { Sound (setup_of job.now) }
    ensures { (rules : List Rule) (specs : List Spec) (name : List ℕ) (files : Held) (total : VarId)
        → HandsInHeat rules specs → RunsHeatFlux name files → Made name specs files (Ok job.now)
        → IsNamed (setup_of job.now) (codes "heatflux::total") total
        → IsConstant (setup_of job.now) rules total }
{
    heat_stays(job);
}
