//! What a part posts in a direction.
ghost use Rattle.std.specs.Prelude.{◌≡◌, ◌<◌, ◌≤◌, ◌^◌, ℕ, length, IsTrue, IfOk, IfErr, OnOk, OnErr};
ghost use Rattle.cx_disk.specs.Cause.{HasCause};
ghost use Rattle.cx_cut.specs.Cuts.{part_count};
ghost use Rattle.cx_field.specs.Faces.{AreGrid, face_in, box_numbers};
ghost use Rattle.cx_ghost.specs.Posts.{CanExchange, IsBelow, Adds, AddsSome, low_face, posted_faces, own_faces, mail_to, face_mail, sent_to, IsCountedTo};

use crate::faults::PostFault;
use crate::partner::partner;
use cx_cut::Cut;
use cx_field::Patch;
use cx_grid::Side;
use cx_plan::VarId;
use cx_text::{List, Memory};
use cx_wire::{Head, Mail, Wire};
use std::alloc::Global;

/// Posts a part's faces in a direction: the owned layers at its low side to its low neighbour, then those at its high side to its
/// high neighbour. Each message holds all variables, one after another. Where there is no neighbour or no ghost zone nothing is
/// posted.
///
/// `patch` is that of part `k` of the cut, `dir` a direction of the grid, and `vars` are different grid variables that are stored.
/// A face has fewer than 2^32 values together. The wire serves the parts of the cut.
///
/// # Errors
///
/// `Wire`: the wire failed; the low face may have been sent. `Memory`: out of memory; then too.
pub fn post<W: Wire>(
    alloc: Global,
    patch: &Patch,
    cut: &Cut,
    k: u32,
    dir: u8,
    vars: &List<VarId>,
    op: u64,
    wire: &mut W,
) -> Result<(), PostFault>
    requires can { CanExchange cut.now k dir vars.now patch.now }
    requires parts { part_count cut.now ≤ W.parts wire.old }
    ensures sent { OnOk result (Adds k
        (posted_faces cut.now k dir vars.now op (own_faces cut.now k dir vars.now patch.now))
        (W.queue wire.old) (W.queue wire.new)) }
    ensures stopped { OnErr result (AddsSome k
        (low_face cut.now k dir vars.now op (own_faces cut.now k dir vars.now patch.now))
        (W.queue wire.old) (W.queue wire.new)) }
    ensures parts { W.parts wire.new ≡ W.parts wire.old }
    ensures received { W.received wire.new ≡ W.received wire.old }
    ensures sum { IsTrue W.tells → W.sum wire.new ≡ W.sum wire.old }
    ensures cause { HasCause PostFault.Wire (W.faults wire.old) (W.faults wire.new) result }
{
    let low = Face {
        op,
        dir,
        side: Side::Low,
    };
    let low = addressed(
        alloc,
        patch,
        vars,
        low,
        partner(cut, patch.shape(), k, dir, Side::Low),
    )?;
    let high = Face {
        op,
        dir,
        side: Side::High,
    };
    let high = addressed(
        alloc,
        patch,
        vars,
        high,
        partner(cut, patch.shape(), k, dir, Side::High),
    )?;
    send_to(wire, k, low)?;
    send_to(wire, k, high)
}

/// A face of a part, as its message names it.
#[derive(Clone, Copy)]
struct Face {
    op: u64,
    dir: u8,
    side: Side,
}

/// The message with a face for a part, or none where there is no part for it.
fn addressed(
    alloc: Global,
    patch: &Patch,
    vars: &List<VarId>,
    face: Face,
    to: Option<u32>,
) -> Result<Option<(u32, Mail)>, Memory>
    requires stored { AreGrid patch.now vars.now }
    requires direction { face.dir < patch.now.shape.dims }
    requires few { length
        (box_numbers patch.now (face_in patch.now face.dir face.side) vars.now) < 2 ^ 32 }
    ensures { IfOk result (λ mail. mail ≡ mail_to to (face_mail face.op face.dir face.side
        (box_numbers patch.now (face_in patch.now face.dir face.side) vars.now))) }
{
    let Some(to) = to else {
        return Ok(None);
    };
    let values = patch.copy_face(alloc, vars, face.dir, face.side)?;
    let head = Head {
        op: face.op,
        dir: face.dir,
        side: face.side,
        count: values.len() as u32,
    };
    Ok(Some((to, Mail { head, values })))
}

/// Sends a message where there is one.
fn send_to<W: Wire>(wire: &mut W, from: u32, mail: Option<(u32, Mail)>) -> Result<(), PostFault>
    requires from { from < W.parts wire.old }
    requires to { IsCountedTo (W.parts wire.old) mail }
    ensures sent { OnOk result (Adds from (sent_to mail) (W.queue wire.old) (W.queue wire.new)) }
    ensures unsent { OnErr result ((a b : ℕ) → W.queue wire.new a b ≡ W.queue wire.old a b) }
    ensures parts { W.parts wire.new ≡ W.parts wire.old }
    ensures received { W.received wire.new ≡ W.received wire.old }
    ensures sum { IsTrue W.tells → W.sum wire.new ≡ W.sum wire.old }
    ensures cause { HasCause PostFault.Wire (W.faults wire.old) (W.faults wire.new) result }
{
    let Some((to, mail)) = mail else {
        return Ok(());
    };
    match wire.send(from, to, mail) {
        Ok(()) => Ok(()),
        Err((fault, _)) => Err(PostFault::from(fault)),
    }
}
