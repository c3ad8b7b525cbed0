//! The stages from thorns to a job, with their faults as a job's.

ghost use Rattle.std.specs.Prelude.{◌≡◌, ◌≤◌, ◌^◌, ◌↔◌, [], None, All, length, map, codes, IsTrue, IfOk, option_map};
ghost use Rattle.cx_cut.specs.Cuts.{IsWhole as IsWholeCut};
ghost use Rattle.cx_cut.specs.Faults.{parts_of, cut_fault};
ghost use Rattle.cx_grid.specs.Grid.{IsShape};
ghost use Rattle.cx_plan.specs.Whole.{IsWhole};
ghost use Rattle.cx_order.specs.Files.{input_of};
ghost use Rattle.cx_scope.specs.declared.fault.ScopeFault.TheVariants as scopes;
ghost use Rattle.cx_job.specs.declared.fault.JobFault.TheVariants as faults;
ghost use Rattle.cx_text.specs.Telling.{Tells};
ghost use Rattle.cx_job.specs.JobLimits.{grid_limits, item_limits, run_count};
ghost use Rattle.cx_job.specs.Jobs.{steered_job};
ghost use Rattle.cx_bind.specs.Parameters.{parameters};
ghost use Rattle.cx_values.specs.declared.fault.ValueFault.TheVariants as value_faults;
ghost use Rattle.cx_job.specs.Caps.{caps_fault};
ghost use Rattle.cx_job_values.specs.Grids.{shape_of};
ghost use Rattle.cx_job_values.specs.Stored.{stored_infos};
ghost use Rattle.cx_job_files.specs.Stages.{Is};
ghost use Rattle.cx_job.specs.Making.{Yields, Orders, Matches, Accepts, CutAnd, IsNameFault, IsSteerFault, assigned_values, bound_thorns, steered_steps, key_within, job_within, part_limits, cut_limits, within_cut, output_ids, weight_limit};

use crate::caps::{check_caps, greatest_part};
use crate::cells::local_cells;
use crate::counting::run_count;
use crate::fault::JobFault;
use crate::job::{job_of, steered_job};
use crate::limits::{
    check_grid_limits, check_item_limits, check_key, check_local_cells, first_items,
};
use crate::outputs::output_variables;
use crate::weights::check_weight;
use cx_bind::{Bound, Thorn, bind};
use cx_cut::{Cut, cut};
use cx_job_items::Routines;
use cx_job_values::{shape_of, stored_infos};
use cx_order::{OrderFault, Ordered, order};
use cx_parfile::{Settings, SteerLine};
use cx_plan::{Item, Job, VarId};
use cx_region::check;
use cx_rule::Spec;
use cx_sched::ScheduleFile;
use cx_scope::{Scope, ScopeFault};
use cx_text::{List, Memory, Text};
use cx_values::{SteerStep, ValueFault, Values, assign, steer};
use std::alloc::Global;

/// Whether a name couldn't be looked up because memory ran out.
fn is_scope_memory(fault: &ScopeFault) -> bool
    ensures { IsTrue result ↔ (fault.now ≡ scopes.Memory) }
{
    matches!(fault, ScopeFault::Memory)
}

/// The fault of a name that a parameter has, with this path in place of an item's; or want of memory.
fn name_fault(alloc: Global, path: &[u8], fault: ScopeFault) -> JobFault
    ensures { IsNameFault path.now fault result }
{
    if is_scope_memory(&fault) {
        return JobFault::Memory;
    }
    match Text::from_slice(alloc, path) {
        Ok(path) => JobFault::Order(OrderFault::Scope(path, fault)),
        Err(_) => JobFault::Memory,
    }
}

/// The thorns, bound.
pub(crate) fn bind_all(alloc: Global, thorns: List<Thorn>) -> Result<Bound, JobFault>
    ensures { Yields (Is (bound_thorns thorns)) result }
{
    Ok(bind(alloc, thorns)?)
}

/// The parameters' values.
pub(crate) fn assign_all(
    alloc: Global,
    bound: &Bound,
    settings: &Settings,
) -> Result<Values, JobFault>
    ensures { Yields (Is (assigned_values bound.now settings.now.list)) result }
{
    Ok(assign(alloc, bound, settings)?)
}

/// Whether a line couldn't be tested because memory ran out.
fn is_steer_memory(fault: &ValueFault) -> bool
    ensures { IsTrue result ↔ (fault.now ≡ value_faults.Memory) }
{
    matches!(fault, ValueFault::Memory)
}

/// The fault of a line of the steer file of this name, or want of memory.
fn steer_fault(alloc: Global, name: &Text, fault: ValueFault) -> JobFault
    ensures { IsSteerFault name.now fault result }
{
    if is_steer_memory(&fault) {
        return JobFault::Memory;
    }
    match Text::from_slice(alloc, name.as_slice()) {
        Ok(name) => JobFault::Steer(name, fault),
        Err(_) => JobFault::Memory,
    }
}

/// The steps of the lines of the steer file of this name.
pub(crate) fn steer_all(
    alloc: Global,
    bound: &Bound,
    values: &Values,
    name: &Text,
    lines: &List<SteerLine>,
) -> Result<List<SteerStep>, JobFault>
    ensures { Yields (Is (steered_steps name.now bound.now values.now lines.now)) result }
{
    match steer(alloc, bound, values, lines) {
        Ok(steps) => Ok(steps),
        Err(fault) => Err(steer_fault(alloc, name, fault)),
    }
}

/// The plan of the schedule files.
pub(crate) fn order_all(
    alloc: Global,
    bound: &Bound,
    schedules: &List<ScheduleFile>,
    values: &Values,
) -> Result<Ordered, JobFault>
    requires as_many { length schedules.now ≡ length bound.now }
    ensures { Yields (Orders (input_of bound.now schedules.now values.now)) result }
{
    Ok(order(alloc, bound, schedules, values)?)
}

/// The variables that are written.
pub(crate) fn output_ids(
    alloc: Global,
    bound: &Bound,
    values: &Values,
    storage: &List<u8>,
) -> Result<List<VarId>, JobFault>
    ensures { Yields (Is (output_ids bound.now values.now storage.now)) result }
{
    match output_variables(alloc, bound, values, storage) {
        Ok(out_vars) => Ok(out_vars),
        Err(fault) => Err(name_fault(alloc, b"output", fault)),
    }
}

/// Tests the name of the variable that weighs.
pub(crate) fn check_weight_name(
    alloc: Global,
    bound: &Bound,
    values: &Values,
    storage: &List<u8>,
) -> Result<(), JobFault>
    ensures { Tells faults.Memory (weight_limit bound.now values.now storage.now) result }
{
    match check_weight(alloc, bound, values, storage) {
        Ok(()) => Ok(()),
        Err(fault) => Err(name_fault(alloc, b"weight", fault)),
    }
}

/// Tests the grid's limits.
fn check_grid(
    alloc: Global,
    bound: &Bound,
    values: &Values,
    storage: &List<u8>,
) -> Result<(), JobFault>
    ensures { Tells faults.Memory
        (grid_limits (shape_of bound.now values.now) (stored_infos bound.now storage.now))
        result }
{
    let shape = shape_of(alloc, bound, values)?;
    let vars = stored_infos(alloc, bound, storage)?;
    check_grid_limits(alloc, &shape, &vars)
}

/// The items with their routines, and the variables that are written.
#[derive(Debug, Drop)]
pub(crate) struct Contents {
    pub(crate) items: List<Item>,
    pub(crate) out_vars: List<VarId>,
}

/// The job, unless its key is too long.
fn within_key(alloc: Global, job: Job) -> Result<Job, JobFault>
    ensures { Yields (Is (key_within job)) result }
{
    check_key(alloc, &job.key)?;
    Ok(job)
}

/// The job with the steps of a steer file, and with a key that isn't too long.
fn steered_within(
    alloc: Global,
    specs: &[&Spec],
    bound: &Bound,
    steps: &List<SteerStep>,
    run: usize,
    job: Job,
) -> Result<Job, JobFault>
    requires run { run ≡ run_count job.plan }
    requires few { run ≤ 4096 }
    requires short { item_limits run job.items ≡ None }
    ensures { Yields (Is (key_within
        (steered_job (map (λ s. s.now) specs.now) (parameters bound.now) steps.now job))) result }
{
    let params = bound.parameters().as_slice();
    let job = steered_job(alloc, specs, params, steps.as_slice(), run, job)?;
    within_key(alloc, job)
}

/// The job with the steps of a steer file, within its limits.
pub(crate) fn within_limits(
    alloc: Global,
    specs: &[&Spec],
    bound: &Bound,
    values: &Values,
    steps: &List<SteerStep>,
    run: usize,
    ordered: Ordered,
    contents: Contents,
) -> Result<Job, JobFault>
    requires run { run ≡ run_count ordered.plan }
    requires few { run ≤ 4096 }
    ensures { Yields (Is (job_within (map (λ s. s.now) specs.now) steps.now run bound.now
        values.now ordered contents)) result }
{
    let Contents { items, out_vars } = contents;
    check_item_limits(alloc, run, items.as_slice())?;
    check_grid(alloc, bound, values, &ordered.storage)?;
    let job = job_of(alloc, bound, values, ordered, items, out_vars)?;
    steered_within(alloc, specs, bound, steps, run, job)
}

/// The grid, cut as the job says.
fn cut_of(alloc: Global, job: &Job) -> Result<Cut, JobFault>
    requires { IsShape job.now.shape }
    ensures told { Tells faults.Memory
        (option_map faults.Cut (cut_fault (parts_of job.now.shape job.now.cut))) result }
    ensures value { IfOk result (λ cut. cut ≡ parts_of job.now.shape job.now.cut) }
{
    Ok(cut(alloc, &job.shape, &job.cut)?)
}

/// Tests that the objects of the items that are run sweep the largest part.
fn check_largest(alloc: Global, specs: &[&Spec], cut: &Cut, job: &Job) -> Result<(), JobFault>
    requires few { run_count job.now.plan ≤ 4096 }
    requires whole { IsWholeCut cut.now }
    requires cut { cut.now ≡ parts_of job.now.shape job.now.cut }
    ensures { Tells faults.Memory (caps_fault (map (λ s. s.now) specs.now) job.now) result }
{
    let items = first_items(job.items.as_slice(), run_count(&job.plan));
    check_caps(alloc, specs, greatest_part(cut), items)
}

/// Tests that the parts don't hold too many numbers, and then that none is too large for a routine.
fn check_parts(alloc: Global, specs: &[&Spec], cut: &Cut, job: &Job) -> Result<(), JobFault>
    requires few { run_count job.now.plan ≤ 4096 }
    requires whole { IsWholeCut cut.now }
    requires cut { cut.now ≡ parts_of job.now.shape job.now.cut }
    ensures { Tells faults.Memory (part_limits (map (λ s. s.now) specs.now) job.now) result }
{
    check_local_cells(alloc, local_cells(cut, job))?;
    check_largest(alloc, specs, cut, job)
}

/// Tests that the grid can be cut as the job says, and then its parts.
fn check_cut(alloc: Global, specs: &[&Spec], job: &Job) -> Result<(), JobFault>
    requires { IsWhole job.now }
    ensures { Tells faults.Memory (cut_limits (map (λ s. s.now) specs.now) job.now) result }
{
    let cut = cut_of(alloc, job)?;
    check_parts(alloc, specs, &cut, job)
}

/// The job, cut into parts that don't hold too many numbers and that the routines sweep.
fn within_cut(alloc: Global, specs: &[&Spec], job: Job) -> Result<Job, JobFault>
    requires { IsWhole job }
    ensures { Yields (Is (within_cut (map (λ s. s.now) specs.now) job)) result }
{
    check_cut(alloc, specs, &job)?;
    Ok(job)
}

/// The job, cut and accepted.
pub(crate) fn cut_and(alloc: Global, specs: &[&Spec], job: Job) -> Result<Job, JobFault>
    requires { IsWhole job }
    ensures { Yields (CutAnd (map (λ s. s.now) specs.now) job) result }
{
    let job = within_cut(alloc, specs, job)?;
    accept(alloc, job)
}

/// The job, where no routine reads a point that nobody has filled.
fn accept(alloc: Global, job: Job) -> Result<Job, JobFault>
    requires { IsWhole job }
    ensures { Yields (Accepts job) result }
{
    check(alloc, &job)?;
    Ok(job)
}

/// The first `run` items matched with routines by what the thorns see, and the others as they are.
pub(crate) fn match_items(
    alloc: Global,
    bound: &Bound,
    values: &Values,
    specs: &[&Spec],
    run: usize,
    ordered: &mut Ordered,
) -> Result<List<Item>, JobFault>
    requires few { length specs.now ≤ 2 ^ 32 }
    requires run { run ≡ run_count ordered.old.plan }
    ensures items { Yields
        (Matches bound.now values.now (map (λ s. s.now) specs.now) ordered.old) result }
    ensures others { ordered.new ≡ record ordered.old { items = [] } }
{
    let items = std::mem::replace(&mut ordered.items, List::empty(alloc));
    let scope = Scope::new(alloc, bound)?;
    let routines = Routines {
        bound,
        scope: &scope,
        storage: &ordered.storage,
        values,
        specs,
    };
    Ok(routines.matched_items(alloc, run, items)?)
}
