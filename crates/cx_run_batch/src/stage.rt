//! How far the run of a job is, and its turns.
ghost use Rattle.std.specs.Prelude.{◌≡◌, ◌<◌, ◌≤◌, ◌+◌, ℕ, Bool, IsTrue, List, false, true, map, length, IfOk, OnOk};
ghost use Rattle.cx_disk.specs.Files.{count_with};
ghost use Rattle.cx_disk.specs.Moments.{IsQuiet};
ghost use Rattle.cx_keep.specs.Trails.{OutputsSettled};
ghost use Rattle.cx_plan.specs.Setups.{setup_of};
ghost use Rattle.cx_rule.specs.Routine.{Rule};
ghost use Rattle.cx_core.specs.Starts.{CanBegin, IsReady};
ghost use Rattle.cx_run_batch.specs.Stages.{BeginsAs, CanGoOn, FirstCore, GoesOnAfter, IsAble, IsAt, IsOnWay, IsServed, is_over, lot, own_job, turns_left};
ghost use Rattle.cx_run_batch.specs.Turns.{TakesTurn};
ghost use Rattle.cx_run_loop.specs.Cores.{is_cut_anew, next_after};
ghost use Rattle.cx_run_loop.specs.Faults.{Stops};
ghost use Rattle.cx_run_loop.specs.Laws.{DriveLaws};
ghost use Rattle.cx_run_loop.specs.Recuts.{with_cut};
ghost use Rattle.cx_run_loop.specs.Waiting.{HoldsCheckpoint};
ghost use Rattle.cx_run_loop.specs.declared.turn.Advance.TheVariants as advances;

use cx_chk::Checkpoint;
use cx_core::{Core, core_stands};
use cx_disk::Disk;
use cx_plan::{Cuts, Job};
use cx_rule::{Meter, Routine};
use cx_run_loop::{
    Advance, DriveFault, Run, begin_cores, copy_cuts, cores_wait, drive_laws, is_cut_anew,
    next_after,
};
use cx_turns::Turns;
use cx_wire::Wire;
use std::alloc::Global;

/// The most events of one turn.
const MOST_EVENTS: u32 = 1000;

/// A run under way. Its job has the cut of the run's present core.
#[derive(Drop)]
pub struct UnderWay {
    /// The run.
    pub run: Run,
    /// The cut that the job was made with.
    pub own: Cuts,
    /// The least iteration of a checkpoint that is to come.
    pub next: u64,
}

/// How far the run of a job is.
#[derive(Drop)]
pub enum Stage {
    /// It is under way.
    Going(UnderWay),
    /// It is over: its core, or why it stopped. The job has its own cut.
    Over(Result<Core, DriveFault>),
}

/// The first turn of a run: it begins on its disk. Where it can't begin it is over.
pub(crate) fn begin<D: Disk>(
    alloc: Global,
    job: &mut Job,
    routines: &[Box<dyn Routine>],
    disk: &mut D,
) -> Stage
    requires served { IsServed (map spec_of routines.now) job.old }
    ensures begins { BeginsAs D.Disk (map spec_of routines.now) job.old job.new
        disk.old disk.new result }
{
    match Run::begin(alloc, job, disk) {
        Ok((run, found)) => first_core(alloc, job, routines, run, found),
        Err(fault) => Stage::Over(Err(fault)),
    }
}

/// A run that has begun, with its first core. Where there is no memory for it, it is over.
fn first_core(
    alloc: Global,
    job: &mut Job,
    routines: &[Box<dyn Routine>],
    run: Run,
    found: Option<Checkpoint>,
) -> Stage
    requires served { IsServed (map spec_of routines.now) job.old }
    requires can { CanBegin (setup_of job.old) found }
    ensures first { FirstCore (map spec_of routines.now) job.old job.new found run result }
{
    let next = next_after(&found);
    match copy_cuts(alloc, &job.cut) {
        Ok(own) => in_first_cut(alloc, job, own, next, routines, run, found),
        Err(_) => Stage::Over(Err(DriveFault::Memory)),
    }
}

/// The same, with a copy of the job's own cut, and the least iteration of a checkpoint that is to come.
fn in_first_cut(
    alloc: Global,
    job: &mut Job,
    own: Cuts,
    next: u64,
    routines: &[Box<dyn Routine>],
    run: Run,
    found: Option<Checkpoint>,
) -> Stage
    requires served { IsServed (map spec_of routines.now) job.old }
    requires can { CanBegin (setup_of job.old) found }
    requires own { own ≡ job.old.cut }
    requires next { next ≡ next_after found }
    ensures first { FirstCore (map spec_of routines.now) job.old job.new found run result }
{
    match begin_cores(alloc, job, &own, routines, run, found) {
        Ok(run) => {
            cores_wait(job);
            Stage::Going(UnderWay { run, own, next })
        }
        Err(fault) => {
            job.cut = own;
            Stage::Over(Err(fault))
        }
    }
}

/// A further turn: at most so many events. After a checkpoint was saved the run goes on in the cut after it, if its job is balanced. A
/// run that is over then is finished; one that was over stays as it is.
pub(crate) fn go_on<D: Disk, W: Wire, T: Turns>(
    alloc: Global,
    job: &mut Job,
    routines: &[Box<dyn Routine>],
    stage: Stage,
    disk: &mut D,
    wire: &mut W,
    turns: &mut T,
    meter: &mut Meter,
) -> Stage
    requires served { IsServed (map spec_of routines.now) (own_job job.old stage) }
    requires able { IsAble D.Disk W.Wire (map rule routines.now) (map spec_of routines.now) job.old
        disk.old wire.old meter.old stage }
    ensures job { own_job job.new result ≡ own_job job.old stage }
    ensures at { (disk_lent : D) (wire_lent : W) (spent more : ℕ) → meter.new ≡ meter.old + more
        → IsAt D.Disk W.Wire (map rule routines.now) (map spec_of routines.now) job.old
        (lot disk_lent disk.old wire_lent wire.old meter.old spent) stage
        → IsAt D.Disk W.Wire (map rule routines.now) (map spec_of routines.now) job.new
        (lot disk_lent disk.new wire_lent wire.new meter.new (spent + more)) result }
    ensures turns { TakesTurn W.Wire T.Turns (map rule routines.now) job.old job.new
        wire.old wire.new meter.old meter.new turns.old turns.new stage result }
    ensures able { IsAble D.Disk W.Wire (map rule routines.now) (map spec_of routines.now) job.new
        disk.new wire.new meter.new result }
    ensures less { is_over stage ≡ false
        → turns_left job.new result < turns_left job.old stage }
    ensures left { turns_left job.new result ≤ turns_left job.old stage }
    ensures later { meter.old ≤ meter.new }
    ensures begun { T.begun turns.new ≡ T.begun turns.old }
{
    match stage {
        Stage::Going(x) => advance(alloc, job, routines, x, disk, wire, turns, meter),
        Stage::Over(came) => Stage::Over(came),
    }
}

/// A turn of a run that goes on.
fn advance<D: Disk, W: Wire, T: Turns>(
    alloc: Global,
    job: &mut Job,
    routines: &[Box<dyn Routine>],
    mut x: UnderWay,
    disk: &mut D,
    wire: &mut W,
    turns: &mut T,
    meter: &mut Meter,
) -> Stage
    requires served { IsServed (map spec_of routines.now) (with_cut job.old x.own) }
    requires able { CanGoOn D.Disk W.Wire (map rule routines.now) (map spec_of routines.now) job.old
        disk.old wire.old meter.old x }
    ensures job { own_job job.new result ≡ with_cut job.old x.own }
    ensures at { (disk_lent : D) (wire_lent : W) (spent more : ℕ) → meter.new ≡ meter.old + more
        → IsAt D.Disk W.Wire (map rule routines.now) (map spec_of routines.now) job.old
        (lot disk_lent disk.old wire_lent wire.old meter.old spent) (Stage.Going x)
        → IsAt D.Disk W.Wire (map rule routines.now) (map spec_of routines.now) job.new
        (lot disk_lent disk.new wire_lent wire.new meter.new (spent + more)) result }
    ensures turns { TakesTurn W.Wire T.Turns (map rule routines.now) job.old job.new
        wire.old wire.new meter.old meter.new turns.old turns.new (Stage.Going x) result }
    ensures able { IsAble D.Disk W.Wire (map rule routines.now) (map spec_of routines.now) job.new
        disk.new wire.new meter.new result }
    ensures less { turns_left job.new result < turns_left job.old (Stage.Going x) }
    ensures later { meter.old ≤ meter.new }
    ensures begun { T.begun turns.new ≡ T.begun turns.old }
{
    drive_laws(job);
    core_stands(job);
    match x.run.advance(alloc, MOST_EVENTS, job, routines, disk, wire, turns, meter) {
        Ok(came) => match came {
            Advance::More => Stage::Going(x),
            Advance::Saved => after_save(alloc, job, routines, x),
            Advance::Over => Stage::Over(finish(job, x, disk)),
        },
        Err(fault) => {
            give_back(job, x.own);
            Stage::Over(Err(fault))
        }
    }
}

/// A run of which a checkpoint was just saved: with another core, if it is to be cut anew.
fn after_save(alloc: Global, job: &mut Job, routines: &[Box<dyn Routine>], x: UnderWay) -> Stage
    requires served { IsServed (map spec_of routines.now) (with_cut job.old x.own) }
    requires holds { HoldsCheckpoint (setup_of job.old) x.run.core }
    ensures goes { GoesOnAfter (map spec_of routines.now) job.old job.new x result }
{
    if is_cut_anew(job, x.next, Advance::Saved, &x.run) {
        cut_anew(alloc, job, routines, x)
    } else {
        Stage::Going(x)
    }
}

/// A run that goes on with another core, in the cut after the checkpoint that was just saved, which the job gets. Where there is no
/// memory for it, it is over.
fn cut_anew(alloc: Global, job: &mut Job, routines: &[Box<dyn Routine>], x: UnderWay) -> Stage
    requires served { IsServed (map spec_of routines.now) (with_cut job.old x.own) }
    requires holds { HoldsCheckpoint (setup_of job.old) x.run.core }
    requires anew { is_cut_anew job.old x.next advances.Saved x.run.core ≡ true }
    ensures goes { GoesOnAfter (map spec_of routines.now) job.old job.new x result }
{
    let next = x.run.saved().iteration + 1;
    let UnderWay { run, own, .. } = x;
    match run.cut_anew(alloc, job, &own, routines) {
        Ok(run) => {
            cores_wait(job);
            Stage::Going(UnderWay { run, own, next })
        }
        Err(fault) => {
            give_back(job, own);
            Stage::Over(Err(fault))
        }
    }
}

/// Finishes a run that is over. Its job gets its own cut again.
fn finish<D: Disk>(job: &mut Job, x: UnderWay, disk: &mut D) -> Result<Core, DriveFault>
    requires ready { IsReady (with_cut job.old x.own) }
    requires mounted { IsTrue (D.mounted disk.old) }
    requires files { count_with (length x.run.keeper.vars) ≤ D.file_count disk.old }
    ensures job { job.new ≡ with_cut job.old x.own }
    ensures laws { (told : Bool) (rules : List Rule) → DriveLaws (IsTrue told) job.new rules }
    ensures core { IfOk result (λ core. core ≡ x.run.core) }
    ensures quiet { D.tells → IsQuiet (D.view disk.old) (D.view disk.new) }
    ensures settled { D.tells → OnOk result
        (OutputsSettled (length x.run.keeper.lengths) (D.view disk.new)) }
    ensures mounted { IsTrue (D.mounted disk.new) }
    ensures files { D.file_count disk.new ≡ D.file_count disk.old }
    ensures folders { D.folders disk.new ≡ D.folders disk.old }
    ensures stops { (n : ℕ) → Stops
        (record { old = D.faults disk.old; new = D.faults disk.new })
        (record { old = n; new = n }) result }
{
    let UnderWay { run, own, .. } = x;
    give_back(job, own);
    run.finish(disk)
}

/// A job gets its own cut again.
fn give_back(job: &mut Job, own: Cuts)
    requires ready { IsReady (with_cut job.old own) }
    ensures job { job.new ≡ with_cut job.old own }
    ensures laws { (told : Bool) (rules : List Rule) → DriveLaws (IsTrue told) job.new rules }
{
    job.cut = own;
    drive_laws(job);
}
