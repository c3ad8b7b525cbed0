//! What a part takes in a direction.
ghost use Rattle.std.specs.Prelude.{◌≡◌, ◌≢◌, ◌<◌, ◌≤◌, ◌+◌, ◌*◌, ◌%◌, ◌^◌, ℕ, length, drop, IsTrue, None, IfErr, OnOk, OnErr, if◌then◌else◌, ◌==◌, ◌&&◌};
ghost use Rattle.cx_disk.specs.Cause.{HasCause};
ghost use Rattle.cx_grid.specs.Boxes.{point_count};
ghost use Rattle.cx_cut.specs.Cuts.{part_count};
ghost use Rattle.cx_field.specs.Faces.{AreGrid, halo_in};
ghost use Rattle.cx_wire.specs.Queues.{SameQueues};
ghost use Rattle.cx_wire.specs.Received.{counted};
ghost use Rattle.cx_ghost.specs.Posts.{CanExchange, IsBelow};
ghost use Rattle.cx_ghost.specs.Takes.{IsReady, missing, missing_from, TellsMissing, Fills, Keeps, TakesNeeded, Stops, taken_count, taken_sum, IsNotYet, FindsMissing, FilledFrom, IsFronted, count_from, sum_from};
ghost use Rattle.cx_plan.specs.Lists.{is_at};

use crate::faults::TakeFault;
use crate::partner::partner;
use cx_cut::Cut;
use cx_field::Patch;
use cx_grid::Side;
use cx_plan::VarId;
use cx_text::List;
use cx_wire::Wire;

/// Takes the faces of a part's neighbours in a direction: its ghosts at the high side get the low face of the high neighbour, then
/// those at the low side the high face of the low neighbour. All else is kept.
///
/// `patch` is that of part `k` of the cut, `dir` a direction of the grid, and `vars` are different grid variables that are stored.
/// A face has fewer than 2^32 values together. The wire serves the parts of the cut. Each queue that is needed is empty, or begins
/// with the faces that this part needs of it; where both come from one part, with both, the high neighbour's in front.
///
/// # Errors
///
/// `NotYet(from, to)`: the message of that pair isn't there, the high neighbour's being sought first. Nothing is received then.
/// `Wire`: the wire failed. Either nothing has changed, or the high neighbour's message alone was received and its ghosts are
/// filled.
pub fn take<W: Wire>(
    patch: &mut Patch,
    cut: &Cut,
    k: u32,
    dir: u8,
    vars: &List<VarId>,
    wire: &mut W,
) -> Result<(), TakeFault>
    requires can { CanExchange cut.now k dir vars.now patch.old }
    requires parts { part_count cut.now ≤ W.parts wire.old }
    requires ready { IsReady cut.now k dir vars.now (W.queue wire.old) }
    ensures missing { TellsMissing (missing cut.now k dir (W.queue wire.old)) result }
    ensures filled { OnOk result
        (Fills (IsTrue W.tells) cut.now k dir vars.now (W.queue wire.old) patch.new) }
    ensures kept { Keeps cut.now k dir vars.now patch.old patch.new }
    ensures queues { OnOk result (TakesNeeded cut.now k dir (W.queue wire.old) (W.queue wire.new)) }
    ensures received { OnOk result
        (W.received wire.new ≡ counted (W.received wire.old) (taken_count cut.now k dir vars.now)) }
    ensures sum { (told : IsTrue W.tells) → OnOk result (W.sum wire.new
        ≡ (W.sum wire.old + taken_sum told cut.now k dir (W.queue wire.old)) % 2 ^ 64) }
    ensures stopped { Stops W.Wire cut.now k dir vars.now
        patch.old patch.new wire.old wire.new result }
    ensures untouched { IsNotYet result → patch.new ≡ patch.old }
    ensures unreceived { IsNotYet result → wire.new ≡ wire.old }
    ensures parts { W.parts wire.new ≡ W.parts wire.old }
    ensures cause { HasCause TakeFault.Wire (W.faults wire.old) (W.faults wire.new) result }
{
    let high = partner(cut, patch.shape(), k, dir, Side::High);
    let low = partner(cut, patch.shape(), k, dir, Side::Low);
    find(wire, high, k)?;
    find(wire, low, k)?;
    fill_from(
        patch,
        vars,
        Ghosts {
            dir,
            side: Side::High,
        },
        high,
        k,
        wire,
    )?;
    fill_from(
        patch,
        vars,
        Ghosts {
            dir,
            side: Side::Low,
        },
        low,
        k,
        wire,
    )
}

/// Whether a part's message is there.
fn find<W: Wire>(wire: &W, from: Option<u32>, k: u32) -> Result<(), TakeFault>
    requires from { IsBelow (W.parts wire.now) from }
    requires to { k < W.parts wire.now }
    ensures { FindsMissing (missing_from from k (W.queue wire.now)) result }
{
    let Some(from) = from else {
        return Ok(());
    };
    match wire.front(from, k) {
        Some(_) => Ok(()),
        None => Err(TakeFault::NotYet(from, k)),
    }
}

/// The ghosts at a side of a direction.
#[derive(Clone, Copy)]
struct Ghosts {
    dir: u8,
    side: Side,
}

/// Fills ghosts from the message in front of a part's queue, where there is such a part.
fn fill_from<W: Wire>(
    patch: &mut Patch,
    vars: &List<VarId>,
    ghosts: Ghosts,
    from: Option<u32>,
    k: u32,
    wire: &mut W,
) -> Result<(), TakeFault>
    requires stored { AreGrid patch.old vars.now }
    requires direction { ghosts.dir < patch.old.shape.dims }
    requires from { IsBelow (W.parts wire.old) from }
    requires to { k < W.parts wire.old }
    requires front { IsFronted from (λ a. W.queue wire.old a k)
        (length vars.now * point_count (halo_in patch.old ghosts.dir ghosts.side)) }
    ensures filled { OnOk result (FilledFrom (IsTrue W.tells) from (λ a. W.queue wire.old a k)
        vars.now (halo_in patch.old ghosts.dir ghosts.side) patch.old patch.new) }
    ensures needed { OnErr result (from ≢ None) }
    ensures unfilled { OnErr result (patch.new ≡ patch.old) }
    ensures unreceived { OnErr result (SameQueues (W.queue wire.old) (W.queue wire.new)) }
    ensures same { OnErr result (W.received wire.new ≡ W.received wire.old) }
    ensures same_sum { IsTrue W.tells → OnErr result (W.sum wire.new ≡ W.sum wire.old) }
    ensures queues { OnOk result ((a b : ℕ) → W.queue wire.new a b
        ≡ drop (if b == k && is_at from a then 1 else 0) (W.queue wire.old a b)) }
    ensures received { OnOk result (W.received wire.new ≡ counted (W.received wire.old)
        (count_from from
        (length vars.now * point_count (halo_in patch.old ghosts.dir ghosts.side)))) }
    ensures sum { (told : IsTrue W.tells) → OnOk result (W.sum wire.new
        ≡ (W.sum wire.old + sum_from told from (λ a. W.queue wire.old a k)) % 2 ^ 64) }
    ensures parts { W.parts wire.new ≡ W.parts wire.old }
    ensures cause { HasCause TakeFault.Wire (W.faults wire.old) (W.faults wire.new) result }
    ensures wire_alone { IfErr result (λ e. e ≡ TakeFault.Wire) }
{
    let Some(from) = from else {
        return Ok(());
    };
    let mail = wire.receive(from, k)?;
    patch.fill_face(vars, ghosts.dir, ghosts.side, &mail.values);
    Ok(())
}
