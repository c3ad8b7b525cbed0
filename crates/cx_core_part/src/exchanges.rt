//! One direction of an exchange at a part.
ghost use Rattle.std.specs.Prelude.{◌≡◌, ◌<◌, ◌≤◌, ◌+◌, ◌%◌, ◌^◌, ℕ, List as ListOf, [], IsTrue, IfErr, OnOk, OnErr};
ghost use Rattle.cx_disk.specs.Cause.{HasCause};
ghost use Rattle.cx_wire.specs.Received.{counted};
ghost use Rattle.cx_cut.specs.Cuts.{part_count};
ghost use Rattle.cx_ghost.specs.Posts.{CanExchange, AddsSome, low_face, own_faces};
ghost use Rattle.cx_ghost.specs.Takes.{needed, BeginsWith};
ghost use Rattle.cx_flat.specs.declared.op.Op.TheVariants as ops;
ghost use Rattle.law_parts.specs.Moves.{Channel, Message, Filled};
ghost use Rattle.law_parts.specs.Nets.{values_of_op};
ghost use Rattle.law_parts.specs.Runs.{Run, cut_of};
ghost use Rattle.cx_core_part.specs.Exchanges.{Posts, ReceivedWithin, ShowsTaken, Takes, sum_taken};
ghost use Rattle.cx_core_part.specs.Frames.{IsPatchOf, KeepsFrame};

use cx_cut::Cut;
use cx_field::Patch;
use cx_ghost::{PostFault, TakeFault};
use cx_plan::VarId;
use cx_text::List;
use cx_wire::Wire;
use std::alloc::Global;

/// The operation `Post` of part `k`, whose count of operations is `op`: its faces in a direction are sent, the low one to its low
/// neighbour, then the high one to the high one.
///
/// # Errors
///
/// `Wire`: the wire failed; the low face may have been sent. `Memory`: out of memory; then too.
pub fn post<W: Wire>(
    alloc: Global,
    patch: &Patch,
    cut: &Cut,
    k: u32,
    dir: u8,
    vars: &List<VarId>,
    op: u64,
    wire: &mut W,
) -> Result<(), PostFault>
    requires can { CanExchange cut.now k dir vars.now patch.now }
    requires parts { part_count cut.now ≤ W.parts wire.old }
    ensures sent { OnOk result ((r : Run) (n : ℕ) → cut_of r ≡ cut.now
        → IsPatchOf r.setup (cut_of r) k patch.now → op ≡ n % 2 ^ 64
        → Posts r k (ops.Post dir vars.now) n patch.now.numbers
        (W.queue wire.old) (W.queue wire.new)) }
    ensures stopped { OnErr result (AddsSome k
        (low_face cut.now k dir vars.now op (own_faces cut.now k dir vars.now patch.now))
        (W.queue wire.old) (W.queue wire.new)) }
    ensures parts { W.parts wire.new ≡ W.parts wire.old }
    ensures received { W.received wire.new ≡ W.received wire.old }
    ensures sum { IsTrue W.tells → W.sum wire.new ≡ W.sum wire.old }
    ensures cause { HasCause PostFault.Wire (W.faults wire.old) (W.faults wire.new) result }
{
    cx_ghost::post(alloc, patch, cut, k, dir, vars, op, wire)
}

/// The operation `Take` of part `k`: its ghosts in a direction get what its neighbours posted. Each queue to the part begins with
/// all that it takes of it.
///
/// # Errors
///
/// `Wire`: the wire failed. The ghosts may be filled in part.
pub fn take<W: Wire>(
    patch: &mut Patch,
    cut: &Cut,
    k: u32,
    dir: u8,
    vars: &List<VarId>,
    wire: &mut W,
) -> Result<(), TakeFault>
    requires can { CanExchange cut.now k dir vars.now patch.old }
    requires parts { part_count cut.now ≤ W.parts wire.old }
    requires there { (a : ℕ) → a < part_count cut.now
        → BeginsWith cut.now a dir vars.now (needed cut.now k dir a) (W.queue wire.old a k) }
    ensures frame { KeepsFrame patch.old patch.new }
    ensures filled { OnOk result ((r : Run) (mails : Channel → ListOf (Message (IsTrue W.tells)))
        → cut_of r ≡ cut.now → IsPatchOf r.setup (cut_of r) k patch.old
        → ShowsTaken r k dir (W.queue wire.old) mails
        → Filled (IsTrue W.tells) r k dir vars.now mails patch.old.numbers patch.new.numbers) }
    ensures queues { OnOk result ((r : Run) → cut_of r ≡ cut.now
        → Takes r k dir (W.queue wire.old) (W.queue wire.new)) }
    ensures received { OnOk result ((r : Run) → cut_of r ≡ cut.now
        → W.received wire.new
        ≡ counted (W.received wire.old) (values_of_op r k (ops.Take dir vars.now []))) }
    ensures rises { (r : Run) → cut_of r ≡ cut.now
        → ReceivedWithin (values_of_op r k (ops.Take dir vars.now []))
        (W.received wire.old) (W.received wire.new) }
    ensures sum { (told : IsTrue W.tells) → OnOk result ((r : Run)
        (mails : Channel → ListOf (Message (IsTrue W.tells))) → cut_of r ≡ cut.now
        → ShowsTaken r k dir (W.queue wire.old) mails
        → W.sum wire.new ≡ (W.sum wire.old + sum_taken told r k mails) % 2 ^ 64) }
    ensures parts { W.parts wire.new ≡ W.parts wire.old }
    ensures cause { HasCause TakeFault.Wire (W.faults wire.old) (W.faults wire.new) result }
    ensures wire_alone { IfErr result (λ e. e ≡ TakeFault.Wire) }
{
    cx_ghost::take(patch, cut, k, dir, vars, wire)
}
