//! The job, from its parts.

ghost use Rattle.std.specs.Prelude.{◌≡◌, ◌≤◌, ◌^◌, All, map, length, take, IfOk};
ghost use Rattle.cx_grid.specs.Boxes.{point_count};
ghost use Rattle.cx_grid.specs.Grid.{IsShape, whole};
ghost use Rattle.cx_job_values.specs.Grids.{shape_of};
ghost use Rattle.cx_job.specs.Jobs.{run_of, layout_of, texts_of, parts_of, job_with, job_of, steered_job};
ghost use Rattle.cx_job.specs.JobLimits.{run_count};

use crate::keys::{key, push_steps, starred_lines};
use crate::limits::first_items;
use crate::weights::weight_of;
use cx_bind::{Bound, Param};
use cx_grid::Shape;
use cx_job_items::steers_of;
use cx_job_values::{
    balance, checkpoint_dir, cuts_of, keep, lead, out_dir, out_every, recover_of, shape_of,
    stored_infos, weight_factor, while_limit,
};
use cx_order::Ordered;
use cx_plan::{Cuts, Item, Job, Recover, VarId, VarInfo};
use cx_rule::Spec;
use cx_text::{List, Memory, Text};
use cx_values::{SteerStep, Values, checkpoint_every, itlast, on_end};
use std::alloc::Global;

/// The numbers, the flags and the texts of a run.
#[derive(Debug, Drop)]
pub(crate) struct Run {
    pub(crate) itlast: u64,
    pub(crate) while_limit: u64,
    pub(crate) lead: u64,
    pub(crate) balance: bool,
    pub(crate) weight_factor: u64,
    pub(crate) out_every: i64,
    pub(crate) checkpoint_every: i64,
    pub(crate) keep: u32,
    pub(crate) on_end: bool,
    pub(crate) recover: Recover,
    pub(crate) out_dir: Text,
    pub(crate) checkpoint_dir: Text,
}

/// What the parameters say of a run: its end, its passes, what its points weigh, its output, its checkpoints and its recovery.
fn run_of(alloc: Global, values: &Values) -> Result<Run, Memory>
    ensures { IfOk result (λ run. run ≡ run_of values.now) }
{
    Ok(Run {
        itlast: itlast(alloc, values)?,
        while_limit: while_limit(alloc, values)?,
        lead: lead(alloc, values)?,
        balance: balance(alloc, values)?,
        weight_factor: weight_factor(alloc, values)?,
        out_every: out_every(alloc, values)?,
        checkpoint_every: checkpoint_every(alloc, values)?,
        keep: keep(alloc, values)?,
        on_end: on_end(alloc, values)?,
        recover: recover_of(alloc, values)?,
        out_dir: out_dir(alloc, values)?,
        checkpoint_dir: checkpoint_dir(alloc, values)?,
    })
}

/// The grid, how it is cut, the variables, and the one that weighs.
#[derive(Debug, Drop)]
pub(crate) struct Layout {
    pub(crate) shape: Shape,
    pub(crate) cut: Cuts,
    pub(crate) vars: List<VarInfo>,
    pub(crate) weight: Option<VarId>,
}

/// The grid, its cut, the stored variables, and the one that weighs.
fn layout_of(
    alloc: Global,
    bound: &Bound,
    values: &Values,
    storage: &List<u8>,
) -> Result<Layout, Memory>
    ensures { IfOk result (λ layout. layout ≡ layout_of bound.now values.now storage.now) }
{
    Ok(Layout {
        shape: shape_of(alloc, bound, values)?,
        cut: cuts_of(alloc, bound, values)?,
        vars: stored_infos(alloc, bound, storage)?,
        weight: weight_of(alloc, bound, values)?,
    })
}

/// The key, and the lines that aren't in it.
#[derive(Debug, Drop)]
pub(crate) struct Texts {
    pub(crate) key: Text,
    pub(crate) starred: Text,
}

/// The key of the job, and the lines of the parameters that aren't in it.
fn texts_of(
    alloc: Global,
    bound: &Bound,
    values: &Values,
    layout: &Layout,
    plan_text: &Text,
) -> Result<Texts, Memory>
    requires { IsShape layout.now.shape }
    ensures { IfOk result (λ t. t ≡ texts_of bound.now values.now layout.now plan_text.now) }
{
    Ok(Texts {
        key: key(alloc, bound, values, &layout.shape, &layout.vars, plan_text)?,
        starred: starred_lines(alloc, bound, values)?,
    })
}

/// What parameters and storage say of a job.
#[derive(Debug, Drop)]
pub(crate) struct Parts {
    pub(crate) run: Run,
    pub(crate) layout: Layout,
    pub(crate) texts: Texts,
}

/// What a job has besides its plan and its items.
fn parts_of(
    alloc: Global,
    bound: &Bound,
    values: &Values,
    storage: &List<u8>,
    plan_text: &Text,
) -> Result<Parts, Memory>
    requires { point_count (whole (shape_of bound.now values.now)) ≤ 2 ^ 24 }
    ensures { IfOk result (λ p. p ≡ parts_of bound.now values.now storage.now plan_text.now) }
{
    let layout = layout_of(alloc, bound, values, storage)?;
    let texts = texts_of(alloc, bound, values, &layout, plan_text)?;
    Ok(Parts {
        run: run_of(alloc, values)?,
        layout,
        texts,
    })
}

/// The job that these parts make.
fn job_with(
    alloc: Global,
    parts: Parts,
    ordered: Ordered,
    items: List<Item>,
    out_vars: List<VarId>,
) -> Job
    ensures { result ≡ job_with parts ordered items out_vars }
{
    let Parts { run, layout, texts } = parts;
    Job {
        shape: layout.shape,
        vars: layout.vars,
        items,
        steers: List::empty(alloc),
        plan: ordered.plan,
        cut: layout.cut,
        itlast: run.itlast,
        while_limit: run.while_limit,
        lead: run.lead,
        balance: run.balance,
        weight: layout.weight,
        weight_factor: run.weight_factor,
        out_every: run.out_every,
        out_vars,
        chk_every: run.checkpoint_every,
        keep: run.keep,
        on_end: run.on_end,
        recover: run.recover,
        out_dir: run.out_dir,
        chk_dir: run.checkpoint_dir,
        key: texts.key,
        plan_text: ordered.text,
        starred: texts.starred,
    }
}

/// The job of a bound configuration, by the values of its parameters, its plan, its items and the variables that are written.
pub(crate) fn job_of(
    alloc: Global,
    bound: &Bound,
    values: &Values,
    ordered: Ordered,
    items: List<Item>,
    out_vars: List<VarId>,
) -> Result<Job, Memory>
    requires { point_count (whole (shape_of bound.now values.now)) ≤ 2 ^ 24 }
    ensures { IfOk result (λ job. job ≡ job_of bound.now values.now ordered items out_vars) }
{
    let parts = parts_of(alloc, bound, values, &ordered.storage, &ordered.text)?;
    Ok(job_with(alloc, parts, ordered, items, out_vars))
}

/// The job with the steps of a steer file: its first `run` items are steered by them, and its key ends with their lines.
pub(crate) fn steered_job(
    alloc: Global,
    specs: &[&Spec],
    params: &[Param],
    steps: &[SteerStep],
    run: usize,
    job: Job,
) -> Result<Job, Memory>
    requires run { run ≡ run_count job.plan }
    requires few { run ≤ 2 ^ 32 }
    requires short { All (λ x. length x.params ≤ 2 ^ 32) (take run job.items) }
    ensures { IfOk result
        (λ steered. steered
        ≡ steered_job (map (λ s. s.now) specs.now) params.now steps.now job) }
{
    let mut job = job;
    let items = first_items(job.items.as_slice(), run);
    let steers = steers_of(alloc, specs, params, items, steps)?;
    job.steers = steers;
    push_steps(alloc, &mut job.key, params, steps)?;
    Ok(job)
}
