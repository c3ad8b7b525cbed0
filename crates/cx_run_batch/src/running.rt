//! Runs that take turns, from their beginning to their end.
ghost use Rattle.std.specs.Prelude.{◌≡◌, ◌<◌, ◌≤◌, ◌+◌, List, length, map, true, false};
ghost use Rattle.std.specs.List.{list_all};
ghost use Rattle.cx_run_batch.specs.Members.{AreAble, AreOwnServed, AreServed, AreWaiting, HaveRun, HaveStarted, HaveWires, Turned, jobs_of, left_to, spent_by};
ghost use Rattle.cx_run_batch.specs.Stages.{is_over};
ghost use Rattle.cx_run_batch.specs.Turns.{AreTurns, TakeTurns, batch};

use crate::member::{Member, start, take_turn};
use cx_disk::Disk;
use cx_rule::{Meter, Routine};
use cx_turns::Turns;
use cx_wire::Wire;
use std::alloc::Global;

/// Runs the jobs of a batch to their ends, each on the disk and the wire at its place.
///
/// In its first turn a member's run begins on its disk; in each further one it does at most 1,000 events, which `turns` picks. Where a
/// member's job is balanced, its run goes on from each checkpoint in the cut that this chooses, as it does in `drive`. The members take
/// turns in order, again and again, until all are over. A member is over with its core where its run came to its end, and with a fault
/// where a device failed, where there was no memory left, or where the files on its disk refuse the start. The others go on then.
///
/// A member's result is that of its run alone, on a meter of its own that has counted as much as it has spent. Each event is the one
/// that `turns` picks: of all that can happen in the member's core, or, if its job is balanced, of those that don't lie ahead. Disks
/// and wires without a member are as they were. It takes no memory beside that of the runs.
pub fn run_all<D: Disk, W: Wire, T: Turns>(
    alloc: Global,
    members: &mut [Member],
    routines: &[Box<dyn Routine>],
    disks: &mut [D],
    wires: &mut [W],
    turns: &mut T,
    meter: &mut Meter,
)
    requires waiting { AreWaiting members.old }
    requires served { AreServed (map spec_of routines.now) members.old }
    requires disks { length members.old ≤ length disks.old }
    requires wires { HaveWires W.Wire members.old wires.old }
    ensures jobs { jobs_of members.new ≡ jobs_of members.old }
    ensures ran { HaveRun D.Disk W.Wire (map rule routines.now) (map spec_of routines.now)
        members.new disks.old disks.new wires.old wires.new meter.new }
    ensures turns { TakeTurns D.Disk W.Wire T.Turns (map rule routines.now)
        (map spec_of routines.now) disks.old (batch members.old wires.old meter.old turns.old)
        (batch members.new wires.new meter.new turns.new) }
    ensures meter { meter.new ≡ meter.old + spent_by members.new }
    ensures begun { T.begun turns.new ≡ T.begun turns.old }
{
    start_all(alloc, members, routines, disks);
    take_turns(alloc, members, routines, disks, wires, turns, meter);
}

/// The first turn of each member.
fn start_all<D: Disk>(
    alloc: Global,
    members: &mut [Member],
    routines: &[Box<dyn Routine>],
    disks: &mut [D],
)
    requires served { AreServed (map spec_of routines.now) members.old }
    requires disks { length members.old ≤ length disks.old }
    ensures { HaveStarted D.Disk (map spec_of routines.now) members.old members.new
        disks.old disks.new }
{
    if let Some((member, others)) = members.split_first_mut() {
        if let Some((disk, more_disks)) = disks.split_first_mut() {
            start(alloc, member, routines, disk);
            start_all(alloc, others, routines, more_disks);
        }
    }
}

/// Rounds of turns, until no member has turns left.
fn take_turns<D: Disk, W: Wire, T: Turns>(
    alloc: Global,
    members: &mut [Member],
    routines: &[Box<dyn Routine>],
    disks: &mut [D],
    wires: &mut [W],
    turns: &mut T,
    meter: &mut Meter,
)
    requires served { AreOwnServed (map spec_of routines.now) members.old }
    requires able { AreAble D.Disk W.Wire (map rule routines.now) (map spec_of routines.now)
        members.old disks.old wires.old meter.old }
    ensures turned { Turned D.Disk W.Wire (map rule routines.now) (map spec_of routines.now)
        members.old members.new disks.old disks.new wires.old wires.new meter.old meter.new }
    ensures turns { AreTurns W.Wire T.Turns (map rule routines.now)
        (batch members.old wires.old meter.old turns.old)
        (batch members.new wires.new meter.new turns.new) }
    ensures over { list_all (λ m. is_over m.stage) members.new ≡ true }
    ensures begun { T.begun turns.new ≡ T.begun turns.old }
{
    'rounds: while !all_over(members) {
        round(alloc, members, routines, disks, wires, turns, meter);
    }
}

/// Whether no member has turns left.
fn all_over(members: &[Member]) -> bool
    ensures { result ≡ list_all (λ m. is_over m.stage) members.now }
{
    members.iter().all(|member| member.is_over())
}

/// One turn of each member, in order.
#[tactic(auto, using(crate::proofs::MemberLaws::unturned, crate::proofs::TurnLaws::no_turns))]
fn round<D: Disk, W: Wire, T: Turns>(
    alloc: Global,
    members: &mut [Member],
    routines: &[Box<dyn Routine>],
    disks: &mut [D],
    wires: &mut [W],
    turns: &mut T,
    meter: &mut Meter,
)
    requires served { AreOwnServed (map spec_of routines.now) members.old }
    requires able { AreAble D.Disk W.Wire (map rule routines.now) (map spec_of routines.now)
        members.old disks.old wires.old meter.old }
    ensures turned { Turned D.Disk W.Wire (map rule routines.now) (map spec_of routines.now)
        members.old members.new disks.old disks.new wires.old wires.new meter.old meter.new }
    ensures turns { AreTurns W.Wire T.Turns (map rule routines.now)
        (batch members.old wires.old meter.old turns.old)
        (batch members.new wires.new meter.new turns.new) }
    ensures less { list_all (λ m. is_over m.stage) members.old ≡ false
        → left_to members.new < left_to members.old }
    ensures left { left_to members.new ≤ left_to members.old }
    ensures begun { T.begun turns.new ≡ T.begun turns.old }
{
    if let Some((member, others)) = members.split_first_mut() {
        if let Some((disk, more_disks)) = disks.split_first_mut() {
            if let Some((wire, more_wires)) = wires.split_first_mut() {
                take_turn(alloc, member, routines, disk, wire, turns, meter);
                round(
                    alloc, others, routines, more_disks, more_wires, turns, meter,
                );
            }
        }
    }
}
