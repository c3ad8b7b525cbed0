//! The records of a run's outputs.
ghost use Rattle.std.specs.Prelude.{◌≡◌, Some, IfOk, List as ListOf};
ghost use Rattle.cx_plan.specs.declared.variable.VarId.{VarId};
ghost use Rattle.cx_plan.specs.Regions.{HasShapes};
ghost use Rattle.cx_plan.specs.Setups.{setup_of};
ghost use Rattle.cx_plan.specs.Whole.{IsWhole};
ghost use Rattle.cx_rule.specs.Routine.{Rule};
ghost use Rattle.cx_model.specs.Runs.{old_output, output};
ghost use Rattle.law_output_read.specs.RunRecords.{IsReread, all_run_records, run_records};

use cx_ascii_read::{Record, printed, read_output};
use cx_model::run_keeps_states;
use cx_plan::Job;
use cx_text::{List, Memory};
use std::alloc::Global;

/// A law of every whole job whose items have their shapes, and all rules: the undivided run's output of each variable is read as
/// the run's records of that variable, in its order. The output of a former version, which has the texts of all variables in the
/// run's order, is read as all its records.
///
/// For each text that the run writes there is one record, with the variable's full name, the iteration, and the values that the
/// variable has there: of a grid variable those of its whole current level, with the grid's sizes, and of a scalar its one value.
/// It does nothing; its clause is the law.
pub fn output_spells(job: &Job)
    requires whole { IsWhole job.now }
    requires shapes { HasShapes (setup_of job.now) }
    ensures { (rules : ListOf Rule) → IsReread (setup_of job.now) rules }
{
    run_keeps_states(job);
    printed();
}

/// The records that these bytes are, as `read_output` reads them. Where they are the output of a variable of the job's undivided
/// run, by any rules, these are the run's records of that variable, in its order. Where they are the output of a former version,
/// they are all the run's records. Only memory may run out.
pub fn reread_output(alloc: Global, job: &Job, bytes: &[u8]) -> Result<Option<List<Record>>, Memory>
    requires whole { IsWhole job.now }
    requires shapes { HasShapes (setup_of job.now) }
    ensures each { (rules : ListOf Rule) (v : VarId) → bytes.now ≡ output (setup_of job.now) rules v
        → IfOk result (λ found. found ≡ Some (run_records (setup_of job.now) rules v)) }
    ensures former { (rules : ListOf Rule) → bytes.now ≡ old_output (setup_of job.now) rules
        → IfOk result (λ found. found ≡ Some (all_run_records (setup_of job.now) rules)) }
{
    output_spells(job);
    read_output(alloc, bytes)
}
