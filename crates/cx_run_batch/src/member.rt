//! A member of a batch, and its turns.
ghost use Rattle.std.specs.Prelude.{◌≡◌, ◌<◌, ◌≤◌, ◌∷◌, [], false, map};
ghost use Rattle.cx_run_batch.specs.Members.{CanTurn, HasStarted, Turned, waiting};
ghost use Rattle.cx_run_batch.specs.Stages.{IsServed, is_over, own_job, turns_left};
ghost use Rattle.cx_run_batch.specs.Turns.{TakesTurn};

use crate::stage::{Stage, begin, go_on};
use cx_disk::Disk;
use cx_plan::Job;
use cx_rule::{Meter, Routine};
use cx_run_loop::{DriveFault, drive_laws};
use cx_turns::Turns;
use cx_wire::Wire;
use std::alloc::Global;
use std::mem;

/// A job in a batch, and how far its run is.
#[derive(Drop)]
pub struct Member {
    /// The job. While its run is under way it has the cut of the run's present core.
    pub job: Job,
    /// How far its run is.
    pub stage: Stage,
    /// How many points it has computed, as the meter has counted them.
    pub spent: u128,
}

impl Member {
    /// A member whose run hasn't begun.
    pub fn new(job: Job) -> Self
        ensures { result ≡ waiting job }
    {
        Member {
            job,
            stage: Stage::Over(Err(DriveFault::Memory)),
            spent: 0,
        }
    }

    /// Whether its run is over.
    pub fn is_over(&self) -> bool
        ensures { result ≡ is_over self.now.stage }
    {
        matches!(self.stage, Stage::Over(_))
    }
}

/// The first turn of a member: its run begins on its disk.
pub(crate) fn start<D: Disk>(
    alloc: Global,
    member: &mut Member,
    routines: &[Box<dyn Routine>],
    disk: &mut D,
)
    requires served { IsServed (map spec_of routines.now) member.old.job }
    ensures { HasStarted D.Disk (map spec_of routines.now) member.old member.new
        disk.old disk.new }
{
    drive_laws(&member.job);
    member.stage = begin(alloc, &mut member.job, routines, disk);
}

/// A further turn of a member. One that is over stays as it is.
pub(crate) fn take_turn<D: Disk, W: Wire, T: Turns>(
    alloc: Global,
    member: &mut Member,
    routines: &[Box<dyn Routine>],
    disk: &mut D,
    wire: &mut W,
    turns: &mut T,
    meter: &mut Meter,
)
    requires served { IsServed (map spec_of routines.now)
        (own_job member.old.job member.old.stage) }
    requires able { CanTurn D.Disk W.Wire (map rule routines.now) (map spec_of routines.now)
        member.old disk.old wire.old meter.old }
    ensures turned { Turned D.Disk W.Wire (map rule routines.now) (map spec_of routines.now)
        (member.old ∷ []) (member.new ∷ []) (disk.old ∷ []) (disk.new ∷ [])
        (wire.old ∷ []) (wire.new ∷ []) meter.old meter.new }
    ensures turns { TakesTurn W.Wire T.Turns (map rule routines.now)
        member.old.job member.new.job wire.old wire.new meter.old meter.new
        turns.old turns.new member.old.stage member.new.stage }
    ensures less { is_over member.old.stage ≡ false
        → turns_left member.new.job member.new.stage
        < turns_left member.old.job member.old.stage }
    ensures left { turns_left member.new.job member.new.stage
        ≤ turns_left member.old.job member.old.stage }
    ensures begun { T.begun turns.new ≡ T.begun turns.old }
{
    let before = meter.count();
    let stage = mem::replace(&mut member.stage, Stage::Over(Err(DriveFault::Memory)));
    member.stage = go_on(
        alloc,
        &mut member.job,
        routines,
        stage,
        disk,
        wire,
        turns,
        meter,
    );
    member.spent += meter.count() - before;
}
