//! What is kept, in the records of an output that was read back.
ghost use Rattle.std.specs.Prelude.{◌≡◌, IfOk, List as ListOf};
ghost use Rattle.cx_grid.specs.Grid.{HasInterior};
ghost use Rattle.cx_plan.specs.declared.variable.VarId.{VarId};
ghost use Rattle.cx_plan.specs.Paths.{Sound};
ghost use Rattle.cx_plan.specs.Regions.{HasShapes};
ghost use Rattle.cx_plan.specs.Setups.{setup_of};
ghost use Rattle.cx_plan.specs.Whole.{IsWhole};
ghost use Rattle.cx_rule.specs.Routine.{Rule};
ghost use Rattle.cx_model.specs.Runs.{output};
ghost use Rattle.law_physics.specs.Gas.{IsPeriodic};
ghost use Rattle.law_physics.specs.GasRuns.{GasVars, IsGasJob};
ghost use Rattle.law_physics.specs.HeatRuns.{IsHeatJob};
ghost use Rattle.law_physics_read.specs.Reread.{AreOfOneValue};

use cx_ascii_read::Record;
use cx_model::sound_uses_only_own;
use cx_plan::Job;
use cx_text::{List, Memory};
use law_output_read::{output_spells, reread_output};
use std::alloc::Global;

/// The records that these bytes are, as `read_output` reads them. Where they are the output of `heatflux::total` of an
/// accepted job whose items are all of the thorn `HeatFlux`, all of them have the value of the first. Only memory may
/// run out.
pub fn reread_heat(alloc: Global, job: &Job, bytes: &[u8]) -> Result<Option<List<Record>>, Memory>
    requires whole { IsWhole job.now }
    requires shapes { HasShapes (setup_of job.now) }
    requires interior { HasInterior job.now.shape }
    requires sound { Sound (setup_of job.now) }
    ensures { (rules : ListOf Rule) (u mask total : VarId)
        → IsHeatJob (setup_of job.now) rules u mask total
        → bytes.now ≡ output (setup_of job.now) rules total → IfOk result AreOfOneValue }
{
    sound_uses_only_own(job);
    output_spells(job);
    reread_output(alloc, job, bytes)
}

/// The records that these bytes are, as `read_output` reads them. Where they are the output of `gas::particles`, of
/// `gas::total_x` or of `gas::total_y` of an accepted job on a periodic grid whose items are all of the thorn
/// `LatticeGas`, all of them have the value of the first. Only memory may run out.
pub fn reread_gas(alloc: Global, job: &Job, bytes: &[u8]) -> Result<Option<List<Record>>, Memory>
    requires whole { IsWhole job.now }
    requires shapes { HasShapes (setup_of job.now) }
    requires interior { HasInterior job.now.shape }
    requires sound { Sound (setup_of job.now) }
    requires periodic { IsPeriodic job.now.shape }
    ensures particles { (rules : ListOf Rule) (vars : GasVars)
        → IsGasJob (setup_of job.now) rules vars
        → bytes.now ≡ output (setup_of job.now) rules vars.particles → IfOk result AreOfOneValue }
    ensures x { (rules : ListOf Rule) (vars : GasVars)
        → IsGasJob (setup_of job.now) rules vars
        → bytes.now ≡ output (setup_of job.now) rules vars.total_x → IfOk result AreOfOneValue }
    ensures y { (rules : ListOf Rule) (vars : GasVars)
        → IsGasJob (setup_of job.now) rules vars
        → bytes.now ≡ output (setup_of job.now) rules vars.total_y → IfOk result AreOfOneValue }
{
    sound_uses_only_own(job);
    output_spells(job);
    reread_output(alloc, job, bytes)
}
