//! The job that files make.

ghost use Rattle.std.specs.Prelude.{◌≡◌, ◌≤◌, ◌^◌, All, length, map, None, Ok, IfOk};
ghost use Rattle.cx_grid.specs.Grid.{HasInterior};
ghost use Rattle.cx_cut.specs.Faults.{parts_of, cut_fault};
ghost use Rattle.cx_job.specs.LocalCells.{local_cells};
ghost use Rattle.cx_plan.specs.Setups.{setup_of};
ghost use Rattle.cx_plan.specs.Regions.{HasShapes};
ghost use Rattle.cx_plan.specs.Paths.{Sound};
ghost use Rattle.cx_plan.specs.Whole.{IsWhole};
ghost use Rattle.cx_outputs.specs.Names.{HasShortNames};
ghost use Rattle.cx_rule.specs.Jobs.{FitJob};
ghost use Rattle.cx_bind.specs.Binding.{bind_fault};
ghost use Rattle.cx_bind.specs.Variables.{variable_infos};
ghost use Rattle.cx_job.specs.Outputs.{output_variables};
ghost use Rattle.cx_job.specs.Weights.{weight_fault};
ghost use Rattle.cx_job_files.specs.NamesAndLevels.{AreRead};
ghost use Rattle.cx_job.specs.Making.{Made, MakesFrom, MadeOf, SteersAnd, StepsAnd, PlanAnd, ItemsAnd, ReachesFrom, Yields, IsReady, IsPlanned};
ghost use Rattle.cx_job_values.specs.RunNumbers.{steer_file};

use crate::counting::run_count;
use crate::fault::JobFault;
use crate::stages::{
    Contents, assign_all, bind_all, check_weight_name, cut_and, match_items, order_all, output_ids,
    steer_all, within_limits,
};
use cx_bind::Bound;
use cx_job_files::{Configured, Shelf, configure, steer_lines};
use cx_job_values::steer_file;
use cx_order::Ordered;
use cx_parfile::SteerLine;
use cx_plan::{Job, VarId};
use cx_rule::{Routine, Spec};
use cx_sched::ScheduleFile;
use cx_text::{List, Text};
use cx_values::{SteerStep, Values};
use std::alloc::{AllocError, Global};

/// What an object says of itself.
fn said_by(routine: &Box<dyn Routine>) -> &Spec
    ensures { result.now ≡ spec_of routine.now }
{
    routine.spec()
}

/// What the objects say of themselves.
fn specs_of(alloc: Global, routines: &[Box<dyn Routine>]) -> Result<Vec<&Spec>, AllocError>
    ensures { IfOk result (λ specs. map (λ s. s.now) specs.items ≡ map spec_of routines.now) }
{
    let mut specs = Vec::new(alloc);
    'routines: for routine in routines {
        specs.push(said_by(routine))?;
    }
    Ok(specs)
}

/// The items matched, and what follows them.
fn items_and(
    alloc: Global,
    specs: &[&Spec],
    bound: &Bound,
    values: &Values,
    steps: &List<SteerStep>,
    ordered: Ordered,
    out_vars: List<VarId>,
) -> Result<Job, JobFault>
    requires few { length specs.now ≤ 2 ^ 32 }
    requires read { AreRead (variable_infos bound.now) }
    requires planned { IsPlanned bound.now values.now ordered }
    requires written { output_variables bound.now values.now ordered.storage ≡ Ok out_vars }
    requires weighs { weight_fault bound.now values.now ordered.storage ≡ None }
    requires later { All (λ step. 1 ≤ step.at) steps.now }
    ensures made { Yields
        (ItemsAnd (map (λ s. s.now) specs.now) steps.now bound.now values.now ordered out_vars)
        result }
    ensures ready { IfOk result (IsReady (map (λ s. s.now) specs.now)) }
{
    let mut ordered = ordered;
    let run = run_count(&ordered.plan);
    let items = match_items(alloc, bound, values, specs, run, &mut ordered)?;
    let contents = Contents { items, out_vars };
    let job = within_limits(alloc, specs, bound, values, steps, run, ordered, contents)?;
    cut_and(alloc, specs, job)
}

/// The plan, the variables that are written, the test of the one that weighs, and what follows.
fn plan_and(
    alloc: Global,
    specs: &[&Spec],
    bound: &Bound,
    schedules: &List<ScheduleFile>,
    values: &Values,
    steps: &List<SteerStep>,
) -> Result<Job, JobFault>
    requires few { length specs.now ≤ 2 ^ 32 }
    requires read { AreRead (variable_infos bound.now) }
    requires fit { bind_fault bound.now ≡ None }
    requires as_many { length schedules.now ≡ length bound.now }
    requires later { All (λ step. 1 ≤ step.at) steps.now }
    ensures made { Yields
        (PlanAnd (map (λ s. s.now) specs.now) schedules.now bound.now values.now steps.now)
        result }
    ensures ready { IfOk result (IsReady (map (λ s. s.now) specs.now)) }
{
    let ordered = order_all(alloc, bound, schedules, values)?;
    let out_vars = output_ids(alloc, bound, values, &ordered.storage)?;
    check_weight_name(alloc, bound, values, &ordered.storage)?;
    items_and(alloc, specs, bound, values, steps, ordered, out_vars)
}

/// The steps of the lines of the steer file of this name, and what follows them.
fn steps_and(
    alloc: Global,
    specs: &[&Spec],
    bound: &Bound,
    schedules: &List<ScheduleFile>,
    values: &Values,
    name: &Text,
    lines: &List<SteerLine>,
) -> Result<Job, JobFault>
    requires few { length specs.now ≤ 2 ^ 32 }
    requires read { AreRead (variable_infos bound.now) }
    requires fit { bind_fault bound.now ≡ None }
    requires as_many { length schedules.now ≡ length bound.now }
    requires named { name.now ≡ steer_file values.now }
    requires later { All (λ line. 1 ≤ line.at) lines.now }
    ensures made { Yields
        (StepsAnd (map (λ s. s.now) specs.now) schedules.now bound.now values.now lines.now)
        result }
    ensures ready { IfOk result (IsReady (map (λ s. s.now) specs.now)) }
{
    let steps = steer_all(alloc, bound, values, name, lines)?;
    plan_and(alloc, specs, bound, schedules, values, &steps)
}

/// The steer file that the values name, and what follows it.
fn steers_and<H: Shelf>(
    alloc: Global,
    shelf: &mut H,
    specs: &[&Spec],
    bound: &Bound,
    schedules: &List<ScheduleFile>,
    values: &Values,
) -> Result<Job, JobFault>
    requires few { length specs.now ≤ 2 ^ 32 }
    requires read { AreRead (variable_infos bound.now) }
    requires fit { bind_fault bound.now ≡ None }
    requires as_many { length schedules.now ≡ length bound.now }
    ensures made { ReachesFrom H.Shelf
        (λ files. SteersAnd (map (λ s. s.now) specs.now) files schedules.now bound.now values.now)
        shelf.old shelf.new result }
    ensures ready { IfOk result (IsReady (map (λ s. s.now) specs.now)) }
{
    let name = steer_file(alloc, values)?;
    let lines = steer_lines(alloc, shelf, &name)?;
    steps_and(alloc, specs, bound, schedules, values, &name, &lines)
}

/// The job of what the files of a configuration say, with its steer file.
fn made_of<H: Shelf>(
    alloc: Global,
    shelf: &mut H,
    configured: Configured,
    specs: &[&Spec],
) -> Result<Job, JobFault>
    requires few { length specs.now ≤ 2 ^ 32 }
    requires read { AreRead (variable_infos configured.thorns) }
    requires as_many { length configured.schedules ≡ length configured.thorns }
    ensures made { ReachesFrom H.Shelf
        (λ files. MadeOf (map (λ s. s.now) specs.now) files configured)
        shelf.old shelf.new result }
    ensures ready { IfOk result (IsReady (map (λ s. s.now) specs.now)) }
{
    let Configured {
        settings,
        thorns,
        schedules,
    } = configured;
    let bound = bind_all(alloc, thorns)?;
    let values = assign_all(alloc, &bound, &settings)?;
    steers_and(alloc, shelf, specs, &bound, &schedules, &values)
}

/// The job that a parameter file makes, with the list of thorns `ThornList`, the active thorns' files and the objects of routines that are
/// handed in, at most 2^32 of them.
///
/// The stages stand in this order, and the first fault counts. The parameter file; the list of thorns; each active thorn's place in it;
/// per thorn `interface.ccl`, `param.ccl`, `schedule.ccl` and `configuration.ccl` under `arrangements/Arrangement/Thorn/`, of which the
/// last one may be absent; binding; the parameters' values; the steer file, where
/// `IO::steer_file` names one, and its lines; the plan; the variables that are written, sought by their full names; the
/// variable that weighs, by its full name; the items' routines, in the order of items; the limits but that of local cells; the cut of the grid; the limit of local cells; that
/// each object of an item that is run sweeps the largest part, in the order of items; and the check that no routine reads a point that
/// nobody has filled.
///
/// Shelf: the shelf failed. NoFile: a file isn't there. Text, Ccl: a file's text has no tokens, or its tokens spell nothing. Steer: a line
/// of the steer file can't steer, with the file's name. Bind, Value, Order, Region: the fault of that stage; Order has the path `output` for a name in `IO::out_vars`, and `weight` for the one in `driver::weight`. UnknownRoutine: no object has the
/// thorn and the name of an item of a bin that is run. RoutineMismatch: its Spec names other variables, levels or regions than
/// READS and WRITES, a name that means no one level, or a parameter that no thorn can use or that has no number. Limit: an item has more than
/// 16 `writes`, 32 `reads` or 32 `parameters`, the grid more than 2^24 `points`, or its stored levels together more than 2^26 `owned cells`, or the
/// `key` is longer than 2^32 - 1 bytes, or the parts hold together more than 2^27 `local cells`: a part holds at each of its points, its ghosts
/// among them, a number for each stored level of each grid variable and for each write of the item that writes most, and all values around a
/// point of the item that reads most. Cut: `cut` of cx_cut refuses the job's cut. TooLarge: the object of an item of a bin that is run
/// has a `cap` below the points of the largest part, its ghosts among them: the item's path, these points, and the `cap`.
///
/// So the grid of a job has interior points, and may be cut as the job says; and its key has the name of each variable.
pub fn make_job<H: Shelf>(
    alloc: Global,
    shelf: &mut H,
    name: &Text,
    routines: &[Box<dyn Routine>],
) -> Result<Job, JobFault>
    requires few { length routines.now ≤ 2 ^ 32 }
    ensures made { MakesFrom H.Shelf (Made name.now (map spec_of routines.now))
        shelf.old shelf.new result }
    ensures whole { IfOk result IsWhole }
    ensures sound { IfOk result (λ job. HasShapes (setup_of job) × Sound (setup_of job)) }
    ensures cut { IfOk result (λ job. cut_fault (parts_of job.shape job.cut) ≡ None) }
    ensures interior { IfOk result (λ job. HasInterior job.shape) }
    ensures few_cells { IfOk result (λ job. local_cells job ≤ 2 ^ 27) }
    ensures names { IfOk result (λ job. HasShortNames (setup_of job)) }
    // The objects fit the job, and sweep each part of its cut.
    ensures fit { IfOk result (λ job. FitJob (map spec_of routines.now) job) }
{
    let specs = specs_of(alloc, routines)?;
    let configured = configure(alloc, shelf, name)?;
    made_of(alloc, shelf, configured, &specs)
}
