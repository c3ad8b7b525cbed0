//! The next operation of a part.
ghost use Rattle.std.specs.Prelude.{◌≡◌, ◌<◌, ◌≤◌, true, Bool, List as ListOf, IsTrue, ℤ, map, length, slice_get, slice_set, Some, IfErr, OnOk};
ghost use Rattle.cx_disk.specs.Cause.{HasCause};
ghost use Rattle.cx_plan.specs.Setups.{setup_of};
ghost use Rattle.cx_rule.specs.Jobs.{FitJob};
ghost use Rattle.cx_rule.specs.Routine.{Rule};
ghost use Rattle.cx_cut.specs.Cuts.{part_count};
ghost use Rattle.cx_plan.specs.Whole.{IsWhole};
ghost use Rattle.cx_plan.specs.declared.variable.VarId.{VarId};
ghost use Rattle.cx_flat.specs.Code.{code};
ghost use Rattle.cx_core_place.specs.Steps.{IsReached, IsTested};
ghost use Rattle.cx_core_events.specs.Paces.{iteration_of, op_of, part_of};
ghost use Rattle.cx_core_events.specs.Events.{can_go};
ghost use Rattle.cx_core_part.specs.Copies.{copies_at};
ghost use Rattle.cx_core_part.specs.Jobs.{IsRunOf};
ghost use Rattle.law_parts.specs.Beginnings.{Beginning, IsBeginning, run_of};
ghost use Rattle.law_parts.specs.Nets.{costs};
ghost use Rattle.law_parts.specs.Runs.{Run};
ghost use Rattle.cx_core.specs.Cores.{items_of};
ghost use Rattle.cx_core.specs.Moving.{MoveLaws, PartGoes, followed};
ghost use Rattle.cx_core.specs.declared.answers.CoreFault.TheVariants as faults;
ghost use Rattle.cx_core.specs.Starts.{IsReady};
ghost use Rattle.cx_core.specs.Steps.{Counts, IsRunning, RisesWithin, counts, stands_at};

use crate::answers::{CoreFault, Outcome};
use crate::machine::Core;
use crate::operations::operate;
use cx_core_events::{Pace, pace_tells};
use cx_core_part::{Items, tested};
use cx_flat::{all_ways, flat_is_run, operation_needs_met};
use cx_plan::Job;
use cx_rule::{Meter, Routine};
use cx_wire::Wire;
use law_reached::taken_adds_up;
use std::alloc::Global;

/// The laws by which a part moves. It does nothing that shows; its clause is the law.
fn move_laws(job: &Job)
    requires { IsReady job.now }
    ensures { (rules : ListOf Rule) → MoveLaws job.now rules }
{
    flat_is_run(job);
    all_ways(job);
    operation_needs_met(job);
    pace_tells(job);
    taken_adds_up(job);
}

/// Does the next operation of a part.
pub(crate) fn go<W: Wire>(
    core: &mut Core,
    alloc: Global,
    part: u32,
    job: &Job,
    routines: &[Box<dyn Routine>],
    wire: &mut W,
    meter: &mut Meter,
) -> Result<(), CoreFault>
    requires job { IsReady job.now }
    requires routines { FitJob (map spec_of routines.now) job.now }
    requires there { IsRunning (IsTrue W.tells) job.now (map rule routines.now)
        (stands_at core.old (W.queue wire.old) meter.old (W.received wire.old) (W.sum wire.old)) }
    requires part { part < length core.old.pace.parts }
    requires going { can_go core.old.pace part ≡ true }
    requires parts { part_count core.old.pace.cut ≤ W.parts wire.old }
    ensures goes { (b : Beginning) → IsBeginning (setup_of job.now) b → (first : Counts)
        → OnOk result (PartGoes (IsTrue W.tells)
        (run_of job.now (map rule routines.now) b) first part
        core.old core.new (W.queue wire.old) (W.queue wire.new)
        (counts meter.old (W.received wire.old) (W.sum wire.old))
        (counts meter.new (W.received wire.new) (W.sum wire.new))) }
    ensures rises { (r : Run) → IsRunOf job.now r
        → RisesWithin (λ i. costs r i part (op_of core.old.pace part))
        (counts meter.old (W.received wire.old) (W.sum wire.old))
        (counts meter.new (W.received wire.new) (W.sum wire.new)) }
    ensures parts { W.parts wire.new ≡ W.parts wire.old }
    ensures cause { HasCause CoreFault.Wire (W.faults wire.old) (W.faults wire.new) result }
{
    move_laws(job);
    let _ = core.pace.cut().count();
    let scalar = tested(core.pace.op(part), &core.patches[part as usize]);
    let done = operate(
        alloc,
        job,
        &core.items[part as usize],
        routines,
        core.pace.cut(),
        part,
        core.pace.part(part),
        core.pace.op(part),
        &mut core.patches[part as usize],
        &mut core.boards,
        &mut core.gathering,
        wire,
        meter,
    );
    match done {
        Err(fault) => Err(fault),
        Ok(met) => follow(core, alloc, job, part, scalar, met),
    }
}

/// The iteration that a part is in.
fn iteration_of(pace: &Pace, part: u32) -> u64
    requires { part < length pace.now.parts }
    ensures { result ≡ iteration_of pace.now part }
{
    pace.part(part).place.round()
}

/// Sets a part's items where it has come from an iteration to another one.
fn come_to(alloc: Global, items: &mut Items, job: &Job, was: u64, now: u64)
    requires { items.old ≡ copies_at (setup_of job.now) was }
    ensures { items.new ≡ copies_at (setup_of job.now) now }
{
    if now != was {
        items.set(alloc, job, now);
    }
}

/// Sets the items of one of the parts.
fn renew(alloc: Global, items: &mut Vec<Items>, job: &Job, part: u32, was: u64, now: u64)
    requires { slice_get items.old.items part ≡ Some (copies_at (setup_of job.now) was) }
    ensures { items.new.items ≡ slice_set items.old.items part
        (copies_at (setup_of job.now) now) }
{
    come_to(alloc, &mut items[part as usize], job, was, now);
}

/// A part goes on after its operation, by the scalar that it tests; or it has met an end.
fn follow(
    core: &mut Core,
    alloc: Global,
    job: &Job,
    part: u32,
    scalar: i64,
    met: Option<Outcome>,
) -> Result<(), CoreFault>
    requires whole { IsWhole job.now }
    requires ops { core.old.pace.ops ≡ code (setup_of job.now) }
    requires part { part < length core.old.pace.parts }
    requires items { core.old.items ≡ items_of (setup_of job.now) core.old.pace }
    requires reached { IsReached (setup_of job.now) (part_of core.old.pace part).place }
    ensures follows { (scalars : VarId → ℤ) → IsTested (op_of core.old.pace part) scalars scalar
        → OnOk result (core.new ≡ followed (setup_of job.now) core.old part scalars met) }
    ensures fault { IfErr result (λ fault. fault ≡ faults.Memory) }
{
    match met {
        None => {
            let was = iteration_of(&core.pace, part);
            core.pace.moved(job, part, scalar)?;
            let now = iteration_of(&core.pace, part);
            renew(alloc, &mut core.items, job, part, was, now);
            Ok(())
        }
        Some(met) => {
            core.pace.met(part);
            core.met = met;
            Ok(())
        }
    }
}
