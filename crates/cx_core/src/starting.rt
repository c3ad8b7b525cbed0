//! A core as a run begins.
ghost use Rattle.std.specs.Prelude.{◌≡◌, ◌<◌, ◌^◌, ℕ, Bool, IsTrue, List as ListOf, Some, length, replicate, slice_get, IfOk};
ghost use Rattle.std.specs.Option.{option_copied};
ghost use Rattle.cx_plan.specs.Setups.{setup_of};
ghost use Rattle.cx_plan.specs.Whole.{IsWhole};
ghost use Rattle.cx_rule.specs.Routine.{Rule};
ghost use Rattle.cx_cut.specs.Cuts.{part_count};
ghost use Rattle.cx_cut.specs.Faults.{parts_of};
ghost use Rattle.cx_field.specs.Patches.{PatchValue};
ghost use Rattle.cx_wire.specs.Messages.{Sent};
ghost use Rattle.law_parts.specs.Beginnings.{run_of};
ghost use Rattle.law_parts.specs.Nets.{held_first};
ghost use Rattle.cx_core_part.specs.Copies.{copies_at};
ghost use Rattle.cx_core_part.specs.Jobs.{IsCutOf};
ghost use Rattle.cx_core_part.specs.Frames.{IsPatchOf};
ghost use Rattle.cx_core.specs.Starts.{IsReady, CanBegin, AreEmpty, begins_in, first_iteration, iteration_in, lengths_first, ArePatches, HasFirst, filled_first};
ghost use Rattle.cx_core.specs.Steps.{Counts, Begins};
ghost use Rattle.cx_core.specs.declared.answers.Outcome.TheVariants as outcomes;

use crate::answers::Outcome;
use crate::laws::run_laws;
use crate::machine::Core;
use cx_chk::Checkpoint;
use cx_core_buffers::{Boards, Gathering, scatter};
use cx_core_events::Pace;
use cx_core_part::Items;
use cx_cut::{Cut, cut};
use cx_field::Patch;
use cx_flat::flatten;
use cx_plan::{Job, VarId};
use cx_text::Memory;
use std::alloc::Global;

impl Core {
    /// A core of a job as its run begins: at its start, or in the state of a checkpoint. All that the run takes beside messages and
    /// numbers for reductions is reserved.
    ///
    /// # Errors
    ///
    /// `Memory` when out of memory.
    pub fn start(alloc: Global, job: &Job, state: Option<&Checkpoint>) -> Result<Core, Memory>
        requires job { IsReady job.now }
        requires state { CanBegin (setup_of job.now) (option_copied state) }
        ensures begins { (told : Bool) (rules : ListOf Rule)
            (queue : ℕ → ℕ → ListOf (Sent (IsTrue told))) (first : Counts)
            → AreEmpty queue → (IsTrue told → first.sum < 2 ^ 64)
            → IfOk result (λ core. Begins (IsTrue told)
            (run_of job.now rules (begins_in (setup_of job.now) (option_copied state.entry)))
            first core queue) }
        ensures key { IfOk result (λ core. core.buffers.state.key ≡ job.now.key) }
        ensures lengths { IfOk result (λ core. core.lengths
            ≡ lengths_first (setup_of job.now) (option_copied state.entry)) }
        ensures going { IfOk result (λ core. core.outcome ≡ outcomes.Going) }
    {
        run_laws(job);
        let cut = cut_of(alloc, job)?;
        let patches = first_patches(alloc, job, &cut, state)?;
        let parts = cut.count();
        let items = first_items(alloc, job, parts, first_iteration(state))?;
        let boards = Boards::new(alloc, parts)?;
        let gathering = Gathering::new(alloc, job, job.key.copy(alloc)?)?;
        let lengths = lengths_first(alloc, job, state)?;
        let ops = flatten(alloc, job)?;
        Ok(Core {
            pace: Pace::new(alloc, job, cut, ops, iteration_in(state))?,
            patches,
            items,
            boards,
            gathering,
            met: Outcome::Going,
            outcome: Outcome::Going,
            lengths,
            section: VarId(0),
        })
    }
}

/// The cut that the job says.
fn cut_of(alloc: Global, job: &Job) -> Result<Cut, Memory>
    requires { IsReady job.now }
    ensures { IfOk result (λ cut. IsCutOf job.now cut) }
{
    match cut(alloc, &job.shape, &job.cut) {
        Ok(cut) => Ok(cut),
        Err(_) => Err(Memory),
    }
}

/// The iteration of a checkpoint.
fn iteration_in(state: Option<&Checkpoint>) -> Option<u64>
    ensures { result ≡ iteration_in (option_copied state.entry) }
{
    match state {
        None => None,
        Some(checkpoint) => Some(checkpoint.iteration),
    }
}

/// The iteration at which a run begins.
fn first_iteration(state: Option<&Checkpoint>) -> u64
    ensures { result ≡ first_iteration (option_copied state.entry) }
{
    match state {
        None => 0,
        Some(checkpoint) => checkpoint.iteration,
    }
}

/// How long each output is as a run begins, by the variables that are written.
fn lengths_first(alloc: Global, job: &Job, state: Option<&Checkpoint>) -> Result<Vec<u64>, Memory>
    ensures { IfOk result (λ lengths. lengths.items
        ≡ lengths_first (setup_of job.now) (option_copied state.entry)) }
{
    match state {
        None => Ok(vec![in alloc; 0; job.out_vars.len()]?),
        Some(checkpoint) => Ok(checkpoint.lengths.as_slice().to_vec(alloc)?),
    }
}

/// The patches of all parts.
fn first_patches(
    alloc: Global,
    job: &Job,
    cut: &Cut,
    state: Option<&Checkpoint>,
) -> Result<Vec<Patch>, Memory>
    requires job { IsReady job.now }
    requires cut { IsCutOf job.now cut.now }
    requires state { CanBegin (setup_of job.now) (option_copied state) }
    ensures count { IfOk result (λ patches. length patches.items ≡ part_count cut.now) }
    ensures patches { IfOk result (λ patches. ArePatches job.now cut.now
        (option_copied state.entry) patches.items) }
{
    let mut patches = Vec::new(alloc);
    'parts: for k in 0..cut.count() {
        patches.push(first_patch(alloc, job, cut, k, state)?)?;
    }
    Ok(patches)
}

/// The items of all parts in one iteration.
fn first_items(alloc: Global, job: &Job, parts: u32, iteration: u64) -> Result<Vec<Items>, Memory>
    ensures { IfOk result (λ items. items.items
        ≡ replicate parts (copies_at (setup_of job.now) iteration)) }
{
    let mut items = Vec::new(alloc);
    'parts: for _ in 0..parts {
        items.push(Items::new(alloc, job, iteration)?)?;
    }
    Ok(items)
}

/// The patch of a part.
fn first_patch(
    alloc: Global,
    job: &Job,
    cut: &Cut,
    k: u32,
    state: Option<&Checkpoint>,
) -> Result<Patch, Memory>
    requires job { IsReady job.now }
    requires cut { IsCutOf job.now cut.now }
    requires part { k < part_count cut.now }
    requires state { CanBegin (setup_of job.now) (option_copied state) }
    ensures { IfOk result
        (HasFirst job.now cut.now (option_copied state.entry) k) }
{
    let mut patch = cx_core_part::start(alloc, job, cut, k)?;
    fill(job, state, &mut patch);
    Ok(patch)
}

/// Fills a patch from a checkpoint, if there is one.
fn fill(job: &Job, state: Option<&Checkpoint>, patch: &mut Patch)
    requires whole { IsWhole job.now }
    requires state { CanBegin (setup_of job.now) (option_copied state) }
    requires shape { patch.old.shape ≡ job.now.shape }
    requires vars { patch.old.vars ≡ job.now.vars }
    ensures { patch.new ≡ filled_first (setup_of job.now) (option_copied state.entry) patch.old }
{
    match state {
        None => {}
        Some(checkpoint) => scatter(job, checkpoint, patch),
    }
}
