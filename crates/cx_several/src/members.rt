//! The members of a batch, from their beginning to what is printed of them.
ghost use Rattle.std.specs.Prelude.{◌≡◌, ◌≤◌, ◌++◌, length, map, Some, IfOk, OnOk, nat_eq, if◌then◌else◌};
ghost use Rattle.std.specs.List.{AllByRecursion};
ghost use Rattle.cx_core.specs.Starts.{AreEmpty};
ghost use Rattle.cx_several.specs.Making.{AreRunnable};
ghost use Rattle.cx_several.specs.Members.{HasAdded, HasLine, HaveEnded, RepliesTo};
ghost use Rattle.cx_several.specs.Texts.{line};

use crate::answers::answer_to;
use crate::reply::Reply;
use cx_disk::Disk;
use cx_rule::{Meter, Routine};
use cx_run_batch::{Member, run_all};
use cx_text::{Memory, Text};
use cx_turns::Turns;
use cx_wire::Wire;
use std::alloc::Global;

/// Runs the members of a batch, and gives the reply.
pub(crate) fn run_members<D: Disk, W: Wire, T: Turns>(
    alloc: Global,
    files: &[Text],
    mut members: Vec<Member>,
    disks: &mut [D],
    wires: &mut [W],
    turns: &mut T,
    routines: &[Box<dyn Routine>],
    meter: &mut Meter,
) -> Result<Reply, Memory>
    requires runnable { AreRunnable (map spec_of routines.now) members.items }
    requires files { length files.now ≡ length members.items }
    requires disks { length members.items ≤ length disks.old }
    requires wires { length members.items ≤ length wires.old }
    requires empty { AllByRecursion
        (λ wire. (512 ≤ W.parts wire) × AreEmpty (W.queue wire)) wires.old }
    ensures ended { HaveEnded D.Disk W.Wire (map rule routines.now) (map spec_of routines.now)
        files.now members.items
        (record { old = disks.old; new = disks.new }) (record { old = wires.old; new = wires.new })
        (record { old = meter.old; new = meter.new }) result }
    ensures begun { T.begun turns.new ≡ Some 0 }
{
    turns.start(0);
    run_all(alloc, &mut members, routines, disks, wires, turns, meter);
    reply_to(alloc, files, &mut members)
}

/// The reply for members that are over: a line of each, and the first status that isn't 0.
fn reply_to(alloc: Global, files: &[Text], members: &mut [Member]) -> Result<Reply, Memory>
    requires { length files.now ≡ length members.old }
    ensures { IfOk result (RepliesTo files.now members.old) }
{
    let mut text = Text::from_slice(alloc, b"")?;
    let status = push_lines(alloc, files, members, &mut text)?;
    Ok(Reply { status, text })
}

/// Adds a line of each member, and gives the first status that isn't 0, or 0.
fn push_lines(
    alloc: Global,
    files: &[Text],
    members: &mut [Member],
    text: &mut Text,
) -> Result<u8, Memory>
    requires { length files.now ≡ length members.old }
    ensures { IfOk result (HasAdded files.now members.old text.old text.new) }
{
    let Some((member, others)) = members.split_first_mut() else {
        return Ok(0);
    };
    let Some((file, more)) = files.split_first() else {
        return Ok(0);
    };
    let status = push_member(alloc, file, member, text)?;
    let others_status = push_lines(alloc, more, others, text)?;
    Ok(first_status(status, others_status))
}

/// Adds a line of a member, and gives the status of its run.
fn push_member(
    alloc: Global,
    file: &Text,
    member: &mut Member,
    text: &mut Text,
) -> Result<u8, Memory>
    ensures { IfOk result (HasLine file.now member.old text.old text.new) }
{
    let answer = answer_to(alloc, member);
    let status = answer.status();
    let printed = answer.text(alloc)?;
    push_line(text, file, &printed)?;
    Ok(status)
}

/// The first of two statuses that isn't 0, or 0.
fn first_status(status: u8, other: u8) -> u8
    ensures { result ≡ (if nat_eq status 0 then other else status) }
{
    if status == 0 { other } else { status }
}

/// Adds the name of a file and what its run prints.
fn push_line(text: &mut Text, file: &Text, printed: &Text) -> Result<(), Memory>
    ensures { OnOk result (text.new ≡ text.old ++ line file.now printed.now) }
{
    text.push_slice(file.as_slice())?;
    text.push_slice(b": ")?;
    text.push_slice(printed.as_slice())
}
