//! The top call for several parameter files.
ghost use Rattle.std.specs.Prelude.{◌≡◌, ◌≤◌, ◌^◌, true, false, IfOk, length, map};
ghost use Rattle.std.specs.List.{AllByRecursion};
ghost use Rattle.cx_core.specs.Starts.{AreEmpty};
ghost use Rattle.cx_run.specs.Calls.{called_with, lent_shelf, lent_sink};
ghost use Rattle.cx_run.specs.Clauses.{Obeys};
ghost use Rattle.cx_run.specs.Texts.{usage_text};
ghost use Rattle.cx_run.specs.Turned.{FollowsTurns};
ghost use Rattle.cx_several.specs.Batches.{batch_with};
ghost use Rattle.cx_several.specs.Clauses.{ObeysAll, OnFirst};
ghost use Rattle.cx_several.specs.Making.{IsShelfKept};
ghost use Rattle.cx_several.specs.Members.{RepliesFor};
ghost use Rattle.cx_several.specs.Texts.{fault_status, fault_text};
ghost use Rattle.cx_several.specs.Words.{are_files, begins_batch};

use crate::fault::BatchFault;
use crate::jobs::members_of;
use crate::members::run_members;
use crate::reply::{Reply, say};
use crate::words::{begins_batch, files_of};
use cx_disk::Disk;
use cx_rule::{Meter, Routine};
use cx_run::{Answer, Shelf, Sink, cactus};
use cx_text::{Memory, Text};
use cx_turns::Turns;
use cx_wire::Wire;
use std::alloc::Global;

/// Does what the words of the command line ask, prints the answer on `out`, and gives the program's status.
///
/// Words that don't begin with `batch` are for `cactus` of cx_run, on the first disk and the first wire. The others stay as they are.
///
/// `batch FILE FILE [FILE ...]` makes the jobs of two to eight parameter files, and runs them in turns: the first on the first disk and
/// the first wire, and so on. How a FILE is written, and what its job and its run are, is said at `cactus`. All jobs are made before any
/// is run, in the order of the words and up to the first file that makes none. The source of turns begins from 0. A run that is
/// over, for whatever reason, leaves the turns to the others.
///
/// | status | what came of it | printed |
/// |---|---|---|
/// | 1 | the words name no such files | the usage text |
/// | 2 | FILE is the first that makes no job | `refused: FILE` and the words of the fault |
/// | 2 | the jobs of A and B have a folder of outputs or checkpoints in common, as text | `refused: SameFolder A B` |
/// | 2 | all jobs have more than 2^26 owned cells together, or more than 2^27 local cells: N | `refused: Limit batch cells N` |
/// | 4 | the shelf failed | `device: shelf` |
/// | 4 | the sink failed | nothing more |
/// | 5 | memory runs out before the runs, or for what is printed | `memory` |
/// | else | the jobs were run | a line for each, in the order of the words: FILE, `: ` and what `run` prints |
///
/// Of several pairs of jobs with a common folder the one with the least A is told, and of these the one with the least B, by their places
/// among the words. Where the jobs were run, the status is the first of theirs that isn't 0, or 0.
///
/// Each job's disk, wire, text and status are as after `run` of its file alone, on a meter of its own, whatever the other jobs and their
/// devices do; the one meter counts the sum. Where the words name no such files or the jobs aren't run, no disk, no wire and no
/// meter is touched, and disks and wires after those of the jobs never are.
pub fn cactus_all<H: Shelf, D: Disk, W: Wire, T: Turns, O: Sink>(
    alloc: Global,
    words: &[Text],
    shelf: &mut H,
    disks: &mut Vec<D>,
    wires: &mut Vec<W>,
    turns: &mut T,
    out: &mut O,
    routines: &[Box<dyn Routine>],
    meter: &mut Meter,
) -> u8
    requires few { length routines.now ≤ 2 ^ 32 }
    requires disks { 8 ≤ length disks.old.items }
    requires wires { 8 ≤ length wires.old.items }
    requires empty { AllByRecursion
        (λ wire. (512 ≤ W.parts wire) × AreEmpty (W.queue wire)) wires.old.items }
    ensures several { begins_batch words.now ≡ true → ObeysAll words.now
        (batch_with (map rule routines.now) (map spec_of routines.now) D.Disk W.Wire
        (lent_shelf H.Shelf shelf.old shelf.new) disks.old.items disks.new.items
        wires.old.items wires.new.items meter.old meter.new (T.begun turns.new)
        (turns.new ≡ turns.old)) (lent_sink O.Sink out.old out.new) result }
    ensures one { begins_batch words.now ≡ false → OnFirst
        (λ a b v u. Obeys (called_with (map rule routines.now) (map spec_of routines.now)
        H.Shelf D.Disk W.Wire words.now shelf.old shelf.new a b v u
        meter.old meter.new (T.begun turns.new)) (lent_sink O.Sink out.old out.new) result)
        disks.old.items disks.new.items wires.old.items wires.new.items }
    ensures turned { begins_batch words.now ≡ false → OnFirst
        (λ a b v u. FollowsTurns T.Turns
        (called_with (map rule routines.now) (map spec_of routines.now)
        H.Shelf D.Disk W.Wire words.now shelf.old shelf.new a b v u
        meter.old meter.new (T.begun turns.new)) turns.old turns.new result)
        disks.old.items disks.new.items wires.old.items wires.new.items }
{
    if begins_batch(words) {
        batch(
            alloc, words, shelf, disks, wires, turns, out, routines, meter,
        )
    } else {
        on_first(
            alloc, words, shelf, disks, wires, turns, out, routines, meter,
        )
    }
}

/// The top call on the first disk and the first wire.
fn on_first<H: Shelf, D: Disk, W: Wire, T: Turns, O: Sink>(
    alloc: Global,
    words: &[Text],
    shelf: &mut H,
    disks: &mut [D],
    wires: &mut [W],
    turns: &mut T,
    out: &mut O,
    routines: &[Box<dyn Routine>],
    meter: &mut Meter,
) -> u8
    requires few { length routines.now ≤ 2 ^ 32 }
    requires disks { 8 ≤ length disks.old }
    requires wires { 8 ≤ length wires.old }
    requires empty { AllByRecursion
        (λ wire. (512 ≤ W.parts wire) × AreEmpty (W.queue wire)) wires.old }
    ensures one { OnFirst
        (λ a b v u. Obeys (called_with (map rule routines.now) (map spec_of routines.now)
        H.Shelf D.Disk W.Wire words.now shelf.old shelf.new a b v u
        meter.old meter.new (T.begun turns.new)) (lent_sink O.Sink out.old out.new) result)
        disks.old disks.new wires.old wires.new }
    ensures turned { OnFirst
        (λ a b v u. FollowsTurns T.Turns
        (called_with (map rule routines.now) (map spec_of routines.now)
        H.Shelf D.Disk W.Wire words.now shelf.old shelf.new a b v u
        meter.old meter.new (T.begun turns.new)) turns.old turns.new result)
        disks.old disks.new wires.old wires.new }
{
    let Some((disk, _more_disks)) = disks.split_first_mut() else {
        unreachable!();
    };
    let Some((wire, _more_wires)) = wires.split_first_mut() else {
        unreachable!();
    };
    cactus(alloc, words, shelf, disk, wire, turns, out, routines, meter)
}

/// Does what words ask that begin with `batch`.
fn batch<H: Shelf, D: Disk, W: Wire, T: Turns, O: Sink>(
    alloc: Global,
    words: &[Text],
    shelf: &mut H,
    disks: &mut [D],
    wires: &mut [W],
    turns: &mut T,
    out: &mut O,
    routines: &[Box<dyn Routine>],
    meter: &mut Meter,
) -> u8
    requires few { length routines.now ≤ 2 ^ 32 }
    requires disks { 8 ≤ length disks.old }
    requires wires { 8 ≤ length wires.old }
    requires empty { AllByRecursion
        (λ wire. (512 ≤ W.parts wire) × AreEmpty (W.queue wire)) wires.old }
    ensures { ObeysAll words.now
        (batch_with (map rule routines.now) (map spec_of routines.now) D.Disk W.Wire
        (lent_shelf H.Shelf shelf.old shelf.new) disks.old disks.new
        wires.old wires.new meter.old meter.new (T.begun turns.new)
        (turns.new ≡ turns.old)) (lent_sink O.Sink out.old out.new) result }
{
    match files_of(words) {
        Some(files) => {
            let reply = reply_for(alloc, files, shelf, disks, wires, turns, routines, meter);
            say(out, reply)
        }
        None => say(out, usage(alloc)),
    }
}

/// The reply to words that name no files.
fn usage(alloc: Global) -> Result<Reply, Memory>
    ensures { IfOk result (λ reply. (reply.status ≡ 1) × (reply.text ≡ usage_text)) }
{
    let text = Answer::Usage.text(alloc)?;
    Ok(Reply { status: 1, text })
}

/// The reply to a batch of files.
fn reply_for<H: Shelf, D: Disk, W: Wire, T: Turns>(
    alloc: Global,
    files: &[Text],
    shelf: &mut H,
    disks: &mut [D],
    wires: &mut [W],
    turns: &mut T,
    routines: &[Box<dyn Routine>],
    meter: &mut Meter,
) -> Result<Reply, Memory>
    requires few { length routines.now ≤ 2 ^ 32 }
    requires files { are_files files.now ≡ true }
    requires disks { 8 ≤ length disks.old }
    requires wires { 8 ≤ length wires.old }
    requires empty { AllByRecursion
        (λ wire. (512 ≤ W.parts wire) × AreEmpty (W.queue wire)) wires.old }
    ensures replies { RepliesFor
        (batch_with (map rule routines.now) (map spec_of routines.now) D.Disk W.Wire
        (lent_shelf H.Shelf shelf.old shelf.new) disks.old disks.new
        wires.old wires.new meter.old meter.new (T.begun turns.new)
        (turns.new ≡ turns.old)) files.now result }
    ensures kept { IsShelfKept (lent_shelf H.Shelf shelf.old shelf.new) }
    ensures points { meter.old ≤ meter.new }
{
    match members_of(alloc, files, shelf, routines) {
        Ok(members) => run_members(alloc, files, members, disks, wires, turns, routines, meter),
        Err(fault) => refused(alloc, fault),
    }
}

/// The reply where the jobs aren't run.
fn refused(alloc: Global, fault: BatchFault) -> Result<Reply, Memory>
    ensures { IfOk result (λ reply. (reply.status ≡ fault_status fault)
        × (reply.text ≡ fault_text fault)) }
{
    let status = fault.status();
    let text = fault.text(alloc)?;
    Ok(Reply { status, text })
}
