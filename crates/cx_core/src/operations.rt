//! What one operation of a part does to its patch, the boards, the writer's buffers and the wire.
ghost use Rattle.std.specs.Prelude.{◌≡◌, ◌<◌, ◌≤◌, ◌+◌, ◌^◌, ℕ, IsTrue, Some, None, map, length, IfOk, IfErr, OnOk};
ghost use Rattle.cx_disk.specs.Cause.{HasCause};
ghost use Rattle.cx_plan.specs.Lookups.{item as item_of};
ghost use Rattle.cx_plan.specs.Setups.{setup_of};
ghost use Rattle.cx_rule.specs.Jobs.{FitJob};
ghost use Rattle.cx_cut.specs.Cuts.{part_count};
ghost use Rattle.cx_cut.specs.Faults.{parts_of};
ghost use Rattle.cx_field.specs.Patches.{IsScalar};
ghost use Rattle.cx_field.specs.Sweeps.{RoseWithin};
ghost use Rattle.cx_flat.specs.declared.op.Op.TheVariants as ops;
ghost use Rattle.cx_core_buffers.specs.Boards.{front};
ghost use Rattle.law_parts.specs.Holding.{joined};
ghost use Rattle.law_parts.specs.Nets.{costs, points_of};
ghost use Rattle.law_parts.specs.Runs.{Run, cut_of, parts_in};
ghost use Rattle.cx_core_part.specs.Copies.{copies_at};
ghost use Rattle.cx_core_part.specs.Frames.{IsPatchFor, IsPatchOf, IsInCut, KeepsFrame};
ghost use Rattle.cx_core_part.specs.Jobs.{IsChecked, IsOperation, IsRunOf};
ghost use Rattle.cx_core.specs.Moving.{AreFronts, CanOperate, HasFronts, Joins, LoopTests, Operates, Turns, all_fronts, fault_of, holdings};
ghost use Rattle.cx_core.specs.Steps.{RisesWithin, counts};
ghost use Rattle.cx_core.specs.declared.answers.CoreFault.TheVariants as faults;
ghost use Rattle.cx_core.specs.declared.answers.Outcome.TheVariants as outcomes;

use crate::answers::{CoreFault, Outcome};
use cx_core_buffers::{Boards, Gathering};
use cx_core_events::Standing;
use cx_core_part::Items;
use cx_cut::Cut;
use cx_field::Patch;
use cx_flat::Op;
use cx_ghost::{PostFault, TakeFault};
use cx_plan::{Job, VarId};
use cx_reduce::{Partial, join as join_numbers};
use cx_rule::{Meter, Routine};
use cx_text::{Memory, Text};
use cx_wire::Wire;
use std::alloc::Global;

impl From<PostFault> for CoreFault {
    ghost from_gives = { λ f e. e ≡ fault_of f };

    fn from(fault: PostFault) -> Self {
        match fault {
            PostFault::Wire => CoreFault::Wire,
            PostFault::Memory => CoreFault::Memory,
        }
    }
}

impl From<TakeFault> for CoreFault {
    ghost from_gives = { λ _ e. e ≡ faults.Wire };

    fn from(_: TakeFault) -> Self {
        CoreFault::Wire
    }
}

/// The end of a run in which a number leaves its type in the turn of an item.
fn overflow(alloc: Global, job: &Job, item: u32, iteration: u64) -> Result<Outcome, Memory>
    requires { item < length job.now.items }
    ensures { IfOk result (λ met. met
        ≡ outcomes.Overflow iteration (item_of (setup_of job.now) item).path) }
{
    let path = job.items.as_slice()[item as usize].path.copy(alloc)?;
    Ok(Outcome::Overflow(iteration, path))
}

/// The operation `Sweep`: the turn of a Cell item.
pub(crate) fn sweep(
    alloc: Global,
    job: &Job,
    items: &Items,
    routines: &[Box<dyn Routine>],
    item: u32,
    patch: &mut Patch,
    iteration: u64,
    meter: &mut Meter,
) -> Result<Option<Outcome>, Memory>
    requires job { IsChecked job.now }
    requires routines { FitJob (map spec_of routines.now) job.now }
    requires item { item < length job.now.items }
    requires items { items.now ≡ copies_at (setup_of job.now) iteration }
    requires operation { IsOperation (setup_of job.now) (ops.Sweep item) }
    requires patch { IsPatchFor (setup_of job.now) patch.old }
    requires cut { IsInCut (parts_of job.now.shape job.now.cut) patch.old }
    ensures frame { KeepsFrame patch.old patch.new }
    ensures turns { (r : Run) (k : ℕ) → IsRunOf job.now r → r.rules ≡ map rule routines.now
        → IsPatchOf r.setup (cut_of r) k patch.old
        → IfOk result (Turns r k
        (ops.Sweep item) iteration patch.old patch.new meter.old meter.new) }
    ensures rises { (r : Run) (k : ℕ) → IsRunOf job.now r
        → IsPatchOf r.setup (cut_of r) k patch.old
        → RoseWithin (points_of r k (ops.Sweep item)) meter.old meter.new }
{
    match cx_core_part::sweep(job, items, routines, item, patch, iteration, meter) {
        Ok(()) => Ok(None),
        Err(_) => Ok(Some(overflow(alloc, job, item, iteration)?)),
    }
}

/// The operation `Apply`: the turn of a Scalar item.
pub(crate) fn apply(
    alloc: Global,
    job: &Job,
    items: &Items,
    routines: &[Box<dyn Routine>],
    item: u32,
    patch: &mut Patch,
    iteration: u64,
    meter: &mut Meter,
) -> Result<Option<Outcome>, Memory>
    requires job { IsChecked job.now }
    requires routines { FitJob (map spec_of routines.now) job.now }
    requires item { item < length job.now.items }
    requires items { items.now ≡ copies_at (setup_of job.now) iteration }
    requires operation { IsOperation (setup_of job.now) (ops.Apply item) }
    requires patch { IsPatchFor (setup_of job.now) patch.old }
    requires cut { IsInCut (parts_of job.now.shape job.now.cut) patch.old }
    ensures frame { KeepsFrame patch.old patch.new }
    ensures turns { (r : Run) (k : ℕ) → IsRunOf job.now r → r.rules ≡ map rule routines.now
        → IsPatchOf r.setup (cut_of r) k patch.old
        → IfOk result (Turns r k
        (ops.Apply item) iteration patch.old patch.new meter.old meter.new) }
    ensures rises { (r : Run) (k : ℕ) → IsRunOf job.now r
        → IsPatchOf r.setup (cut_of r) k patch.old
        → RoseWithin (points_of r k (ops.Apply item)) meter.old meter.new }
{
    match cx_core_part::apply(job, items, routines, item, patch, iteration, meter) {
        Ok(()) => Ok(None),
        Err(_) => Ok(Some(overflow(alloc, job, item, iteration)?)),
    }
}

/// The number of all parts for a reduction: the front numbers of all boards to a part, joined.
fn joined_fronts(cut: &Cut, boards: &Boards, to: u32) -> Partial
    requires fronts { AreFronts cut.now to boards.now }
    requires part { to < part_count cut.now }
    ensures { result.number ≡ joined
        (front boards.now 0 to).kind (all_fronts boards.now to (part_count cut.now)) }
{
    let mut number = boards.front(0, to).copy();
    'parts: for a in 1..cut.count() {
        number = join_numbers(number, boards.front(a, to).copy());
    }
    number
}

/// The operation `Join`: the number of all parts goes to the item's scalar, and each board to the part loses its front.
pub(crate) fn join(
    alloc: Global,
    job: &Job,
    cut: &Cut,
    boards: &mut Boards,
    part: u32,
    item: u32,
    patch: &mut Patch,
    iteration: u64,
) -> Result<Option<Outcome>, Memory>
    requires job { IsChecked job.now }
    requires fronts { HasFronts job.now cut.now part item boards.old }
    requires part { part < part_count cut.now }
    requires operation { IsOperation (setup_of job.now) (ops.Join item) }
    requires patch { IsPatchFor (setup_of job.now) patch.old }
    ensures { (r : Run) → IsRunOf job.now r → cut_of r ≡ cut.now
        → IfOk result
        (Joins r part item iteration boards.old boards.new patch.old patch.new) }
{
    let number = joined_fronts(cut, boards, part);
    match cx_core_part::join(job, item, patch, number) {
        Ok(()) => {
            boards.take(part);
            Ok(None)
        }
        Err(_) => Ok(Some(overflow(alloc, job, item, iteration)?)),
    }
}

/// The operation `Turn`: the test of a WHILE, which mustn't find its scalar not 0 behind its last turn.
pub(crate) fn test_loop(
    alloc: Global,
    job: &Job,
    at: &Standing,
    scalar: VarId,
    path: &Text,
    patch: &Patch,
) -> Result<Option<Outcome>, Memory>
    requires scalar { IsScalar patch.now scalar }
    ensures { (r : Run) (skip : ℕ) → r.setup ≡ setup_of job.now
        → IfOk result (LoopTests r
        (ops.Turn scalar path.now skip) scalar at.now.place patch.now.numbers) }
{
    if at.place.turns() != job.while_limit || patch.scalar(scalar) == 0 {
        return Ok(None);
    }
    let path = path.copy(alloc)?;
    Ok(Some(Outcome::WhileLimit(at.place.round(), path)))
}

/// One operation of a part: what it does to the part's patch, the boards, the writer's buffers and the wire; by the end that the part
/// meets, or none.
pub(crate) fn operate<W: Wire>(
    alloc: Global,
    job: &Job,
    items: &Items,
    routines: &[Box<dyn Routine>],
    cut: &Cut,
    part: u32,
    at: &Standing,
    op: &Op,
    patch: &mut Patch,
    boards: &mut Boards,
    gathering: &mut Gathering,
    wire: &mut W,
    meter: &mut Meter,
) -> Result<Option<Outcome>, CoreFault>
    requires items { items.now ≡ copies_at (setup_of job.now) at.now.place.iteration }
    requires routines { FitJob (map spec_of routines.now) job.now }
    requires can { CanOperate {tells = IsTrue W.tells} job.now cut.now part op.now
        (holdings patch.old boards.old gathering.old (W.queue wire.old)
        meter.old (W.received wire.old) (W.sum wire.old)) }
    requires parts { part_count cut.now ≤ W.parts wire.old }
    ensures operates { (r : Run) → IsRunOf job.now r → r.rules ≡ map rule routines.now
        → cut_of r ≡ cut.now → IsPatchOf r.setup (cut_of r) part patch.old
        → IfOk result (Operates {tells = IsTrue W.tells} r part at.now.place at.now.count op.now
        (holdings patch.old boards.old gathering.old (W.queue wire.old)
        meter.old (W.received wire.old) (W.sum wire.old))
        (holdings patch.new boards.new gathering.new (W.queue wire.new)
        meter.new (W.received wire.new) (W.sum wire.new))) }
    ensures rises { (r : Run) → IsRunOf job.now r
        → RisesWithin (λ i. costs r i part op.now)
        (counts meter.old (W.received wire.old) (W.sum wire.old))
        (counts meter.new (W.received wire.new) (W.sum wire.new)) }
    ensures parts { W.parts wire.new ≡ W.parts wire.old }
    ensures cause { HasCause CoreFault.Wire (W.faults wire.old) (W.faults wire.new) result }
{
    let iteration = at.place.round();
    match op {
        Op::Sweep(item) => Ok(sweep(alloc, job, items, routines, *item, patch, iteration, meter)?),
        Op::Apply(item) => Ok(apply(alloc, job, items, routines, *item, patch, iteration, meter)?),
        Op::Give(item) => {
            boards.give(part, cx_core_part::give(job, *item, patch))?;
            Ok(None)
        }
        Op::Join(item) => Ok(join(alloc, job, cut, boards, part, *item, patch, iteration)?),
        Op::Post(dir, vars) => {
            cx_core_part::post(alloc, patch, cut, part, *dir, vars, at.count, wire)?;
            Ok(None)
        }
        Op::Take(dir, vars, _) => {
            cx_core_part::take(patch, cut, part, *dir, vars, wire)?;
            Ok(None)
        }
        Op::Turn(scalar, path, _) => Ok(test_loop(alloc, job, at, *scalar, path, patch)?),
        Op::Rotate => {
            patch.rotate();
            Ok(None)
        }
        Op::Piece(v) => {
            gathering.put_piece(job, part, *v, patch);
            Ok(None)
        }
        Op::Save => {
            gathering.put_state(job, part, patch);
            Ok(None)
        }
        Op::Test(_, _, _) => Ok(None),
        Op::Open => Ok(None),
        Op::Again(_) => Ok(None),
        Op::Due(_) => Ok(None),
        Op::Written(_) => Ok(None),
        Op::Skip(_) => Ok(None),
        Op::Next(_) => Ok(None),
        Op::Halt => Ok(None),
    }
}
