//! What is kept, in the records of an output that was read back.
ghost use Rattle.std.specs.Prelude.{◌≡◌, ℕ, IfOk, List as ListOf, Ok, codes};
ghost use Rattle.cx_grid.specs.Grid.{HasInterior};
ghost use Rattle.cx_plan.specs.declared.variable.VarId.{VarId};
ghost use Rattle.cx_plan.specs.Paths.{Sound};
ghost use Rattle.cx_plan.specs.Regions.{HasShapes};
ghost use Rattle.cx_plan.specs.Setups.{setup_of};
ghost use Rattle.cx_plan.specs.Whole.{IsWhole};
ghost use Rattle.cx_rule.specs.Routine.{Rule};
ghost use Rattle.cx_rule.specs.declared.spec.Spec.{Spec};
ghost use Rattle.cx_model.specs.Runs.{output};
ghost use Rattle.cx_job_files.specs.Shelf.{Held};
ghost use Rattle.cx_job.specs.Making.{Made};
ghost use Rattle.law_physics.specs.Gas.{IsPeriodic};
ghost use Rattle.law_physics_read.specs.Reread.{AreOfOneValue};
ghost use Rattle.law_physics_job.specs.Alone.{RunsHeatFlux, RunsLatticeGas};
ghost use Rattle.law_physics_job.specs.GasRoutines.{HandsInGas};
ghost use Rattle.law_physics_job.specs.HeatRoutines.{HandsInHeat};
ghost use Rattle.law_physics_job.specs.Named.{IsNamed, IsGasSum};

use cx_ascii_read::Record;
use cx_plan::Job;
use cx_text::{List, Memory};
use law_physics_read::{reread_gas, reread_heat};
use std::alloc::Global;

/// The records that these bytes are, as `read_output` reads them. Where they are the output of `heatflux::total` of a
/// job that the files of `HeatFlux` make, as `shipped_heat_stays` says, all of them have the value of the first. Only
/// memory may run out.
pub fn reread_shipped_heat(
    alloc: Global,
    job: &Job,
    bytes: &[u8],
) -> Result<Option<List<Record>>, Memory>
    requires whole { IsWhole job.now }
    requires shapes { HasShapes (setup_of job.now) }
    requires interior { HasInterior job.now.shape }
    requires sound { Sound (setup_of job.now) }
    ensures { (rules : ListOf Rule) (specs : ListOf Spec) (name : ListOf ℕ) (files : Held)
        (total : VarId) → HandsInHeat rules specs → RunsHeatFlux name files
        → Made name specs files (Ok job.now)
        → IsNamed (setup_of job.now) (codes "heatflux::total") total
        → bytes.now ≡ output (setup_of job.now) rules total → IfOk result AreOfOneValue }
{
    reread_heat(alloc, job, bytes)
}

/// The records that these bytes are, as `read_output` reads them. Where they are the output of one of the sums of a job
/// that the files of `LatticeGas` make, as `shipped_gas_stays` says, all of them have the value of the first. Only
/// memory may run out.
pub fn reread_shipped_gas(
    alloc: Global,
    job: &Job,
    bytes: &[u8],
) -> Result<Option<List<Record>>, Memory>
    requires whole { IsWhole job.now }
    requires shapes { HasShapes (setup_of job.now) }
    requires interior { HasInterior job.now.shape }
    requires sound { Sound (setup_of job.now) }
    requires periodic { IsPeriodic job.now.shape }
    ensures { (rules : ListOf Rule) (specs : ListOf Spec) (name : ListOf ℕ) (files : Held)
        (total : VarId) → HandsInGas rules specs → RunsLatticeGas name files
        → Made name specs files (Ok job.now) → IsGasSum (setup_of job.now) total
        → bytes.now ≡ output (setup_of job.now) rules total → IfOk result AreOfOneValue }
{
    reread_gas(alloc, job, bytes)
}
