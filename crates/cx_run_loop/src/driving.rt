//! A run of a job, from its start or from a checkpoint to its end.
ghost use Rattle.std.specs.Prelude.{◌≡◌, ◌≤◌, ◌<◌, ◌^◌, ℕ, true, map, IsTrue, IfOk, IfSome, None, OnErr, OnOk, Some};
ghost use Rattle.cx_cut.specs.Cuts.{part_count};
ghost use Rattle.cx_cut.specs.Faults.{cut_fault, parts_of};
ghost use Rattle.cx_disk.specs.Disk.{IsNamed};
ghost use Rattle.cx_plan.specs.Setups.{setup_of};
ghost use Rattle.cx_outputs.specs.Names.{HasShortNames, output_names};
ghost use Rattle.cx_rule.specs.Jobs.{FitJob};
ghost use Rattle.cx_core.specs.Starts.{AreEmpty, CanBegin, IsReady, lengths_first};
ghost use Rattle.cx_core.specs.Steps.{counts};
ghost use Rattle.cx_core.specs.declared.answers.Outcome.TheVariants as outcomes;
ghost use Rattle.cx_run_loop.specs.Advances.{CanAdvance, Keeps, run_state};
ghost use Rattle.cx_run_loop.specs.Cores.{BeginsCores, LeadsOut, LeadsStop, RunsCore, RunsOn, RunsOut, StaysBelowFrom, is_cut_anew, next_after, run_by};
ghost use Rattle.cx_run_loop.specs.Drives.{Drives, LendsScalars, driven_by};
ghost use Rattle.cx_run_loop.specs.Faults.{Stops};
ghost use Rattle.cx_run_loop.specs.Going.{place_at, setting};
ghost use Rattle.cx_run_loop.specs.Lent.{wired};
ghost use Rattle.cx_run_loop.specs.Recuts.{first_cut, with_cut};
ghost use Rattle.cx_run_loop.specs.Turning.{StopsTurns, TakesTurns, TurnsStop, turning};
ghost use Rattle.cx_run_loop.specs.UnderWay.{HasBegunAt};

use crate::fault::DriveFault;
use crate::laws::{cores_wait, drive_laws, sums_add};
use crate::recutting::copy_cuts;
use crate::steps::Run;
use crate::turn::Advance;
use cx_chk::Checkpoint;
use cx_core::{Core, core_stands};
use cx_disk::Disk;
use cx_model::run_continues;
use cx_plan::{Cuts, Job};
use cx_rule::{Meter, Routine};
use cx_turns::Turns;
use cx_wire::Wire;
use std::alloc::Global;

/// Runs a job to its end, and answers the core as it is then: how the run has ended, and the scalars of its last state.
///
/// The keeper begins on the disk, and the core from the checkpoint that it finds, or from the job's start. Then `turns` picks each
/// time which of the events that can happen does, until the run is over. Each text is appended to its variable's output as it
/// comes, and each checkpoint is saved; the outputs are synced at the end.
///
/// Where the job is balanced its parts wait for each other at each checkpoint, and after it another core goes on, in a cut by the
/// weights of its points; so it does from a checkpoint that the keeper finds. The job has its own cut again after the call.
///
/// # Errors
///
/// `Recovery`: the files on the disk refuse the start; nothing has changed. `Disk`, `Wire`: that device failed. `Memory`: there was
/// no memory left. After these the run can be started again on what is left on the disk, with an empty wire.
pub fn drive<D: Disk, W: Wire, T: Turns>(
    alloc: Global,
    job: &mut Job,
    routines: &[Box<dyn Routine>],
    disk: &mut D,
    wire: &mut W,
    turns: &mut T,
    meter: &mut Meter,
) -> Result<Core, DriveFault>
    requires ready { IsReady job.old }
    requires short { HasShortNames (setup_of job.old) }
    requires routines { FitJob (map spec_of routines.now) job.old }
    requires cut { cut_fault (parts_of job.old.shape job.old.cut) ≡ None }
    requires parts { part_count (parts_of job.old.shape job.old.cut) ≤ W.parts wire.old }
    requires empty { AreEmpty (W.queue wire.old) }
    ensures job { job.new ≡ job.old }
    ensures drives { Drives (driven_by job.old (map rule routines.now) (map spec_of routines.now)
        D.Disk W.Wire disk.old disk.new wire.old wire.new meter.old meter.new) result }
    ensures folders { OnOk result
        (IsNamed job.old.out_dir (output_names (setup_of job.old)) job.old.chk_dir
        (D.folders disk.new)) }
    ensures turns { IfOk result (TakesTurns T.Turns
        (driven_by job.old (map rule routines.now) (map spec_of routines.now) D.Disk W.Wire
        disk.old disk.new wire.old wire.new meter.old meter.new) turns.old turns.new) }
    ensures picked { OnErr result (StopsTurns T.Turns
        (driven_by job.old (map rule routines.now) (map spec_of routines.now) D.Disk W.Wire
        disk.old disk.new wire.old wire.new meter.old meter.new) turns.old turns.new) }
    ensures begun { T.begun turns.new ≡ T.begun turns.old }
    ensures scalars { IfOk result (LendsScalars job.old) }
{
    drive_laws(job);
    run_continues(job);
    let (run, found) = Run::begin(alloc, job, disk)?;
    run_to_end(alloc, job, routines, run, found, disk, wire, turns, meter)
}

/// A run from where it has begun to its end. The job has its own cut again then.
fn run_to_end<D: Disk, W: Wire, T: Turns>(
    alloc: Global,
    job: &mut Job,
    routines: &[Box<dyn Routine>],
    run: Run,
    found: Option<Checkpoint>,
    disk: &mut D,
    wire: &mut W,
    turns: &mut T,
    meter: &mut Meter,
) -> Result<Core, DriveFault>
    requires ready { IsReady job.old }
    requires short { HasShortNames (setup_of job.old) }
    requires routines { FitJob (map spec_of routines.now) job.old }
    requires able { CanAdvance D.Disk W.Wire job.old (map rule routines.now)
        (run_state run disk.old wire.old meter.old) }
    requires begun { HasBegunAt (setting D.Disk W.Wire job.old (map rule routines.now)) found
        run.keeper (place_at D.Disk W.Wire run.core disk.old wire.old meter.old) }
    requires going { run.core.outcome ≡ outcomes.Going }
    requires cut { cut_fault (parts_of job.old.shape job.old.cut) ≡ None }
    requires holds { IfSome found (λ c. CanBegin (setup_of job.old) (Some c)) }
    requires lengths { run.core.lengths ≡ lengths_first (setup_of job.old) found }
    requires empty { AreEmpty (W.queue wire.old) }
    ensures job { job.new ≡ job.old }
    ensures ends { IfOk result (RunsOut D.Disk W.Wire
        (run_by job.old (map rule routines.now) (map spec_of routines.now) found)
        disk.old disk.new wire.old wire.new meter.old meter.new) }
    ensures runs { RunsOn D.Disk W.Wire
        (run_by job.old (map rule routines.now) (map spec_of routines.now) found)
        disk.old disk.new wire.old wire.new meter.old meter.new }
    ensures turns { IfOk result (LeadsOut W.Wire T.Turns
        (run_by job.old (map rule routines.now) (map spec_of routines.now) found)
        wire.old wire.new meter.old meter.new turns.old turns.new) }
    ensures picked { OnErr result (LeadsStop W.Wire T.Turns
        (run_by job.old (map rule routines.now) (map spec_of routines.now) found)
        wire.old meter.old turns.old turns.new) }
    ensures begun { T.begun turns.new ≡ T.begun turns.old }
    ensures stops { Stops
        (record { old = D.faults disk.old; new = D.faults disk.new })
        (record { old = W.faults wire.old; new = W.faults wire.new }) result }
{
    let own = copy_cuts(alloc, &job.cut)?;
    let came = run_cores(
        alloc, job, &own, routines, run, found, disk, wire, turns, meter,
    );
    job.cut = own;
    came
}

/// The same, by one core after another. The job gets the cut of the last one.
fn run_cores<D: Disk, W: Wire, T: Turns>(
    alloc: Global,
    job: &mut Job,
    own: &Cuts,
    routines: &[Box<dyn Routine>],
    mut run: Run,
    found: Option<Checkpoint>,
    disk: &mut D,
    wire: &mut W,
    turns: &mut T,
    meter: &mut Meter,
) -> Result<Core, DriveFault>
    requires own { own.now ≡ job.old.cut }
    requires ready { IsReady job.old }
    requires short { HasShortNames (setup_of job.old) }
    requires routines { FitJob (map spec_of routines.now) job.old }
    requires able { CanAdvance D.Disk W.Wire job.old (map rule routines.now)
        (run_state run disk.old wire.old meter.old) }
    requires begun { HasBegunAt (setting D.Disk W.Wire job.old (map rule routines.now)) found
        run.keeper (place_at D.Disk W.Wire run.core disk.old wire.old meter.old) }
    requires going { run.core.outcome ≡ outcomes.Going }
    requires cut { cut_fault (parts_of job.old.shape job.old.cut) ≡ None }
    requires holds { IfSome found (λ c. CanBegin (setup_of job.old) (Some c)) }
    requires lengths { run.core.lengths ≡ lengths_first (setup_of job.old) found }
    requires empty { AreEmpty (W.queue wire.old) }
    ensures job { job.new ≡ with_cut job.old job.new.cut }
    ensures ends { IfOk result (RunsOut D.Disk W.Wire
        (run_by job.old (map rule routines.now) (map spec_of routines.now) found)
        disk.old disk.new wire.old wire.new meter.old meter.new) }
    ensures runs { RunsOn D.Disk W.Wire
        (run_by job.old (map rule routines.now) (map spec_of routines.now) found)
        disk.old disk.new wire.old wire.new meter.old meter.new }
    ensures turns { IfOk result (LeadsOut W.Wire T.Turns
        (run_by job.old (map rule routines.now) (map spec_of routines.now) found)
        wire.old wire.new meter.old meter.new turns.old turns.new) }
    ensures picked { OnErr result (LeadsStop W.Wire T.Turns
        (run_by job.old (map rule routines.now) (map spec_of routines.now) found)
        wire.old meter.old turns.old turns.new) }
    ensures begun { T.begun turns.new ≡ T.begun turns.old }
    ensures stops { Stops
        (record { old = D.faults disk.old; new = D.faults disk.new })
        (record { old = W.faults wire.old; new = W.faults wire.new }) result }
{
    drive_laws(job);
    sums_add(job);
    let mut next = next_after(&found);
    let mut run = begin_cores(alloc, job, own, routines, run, found)?;
    cores_wait(job);
    'cores: while run_core(
        alloc, next, job, routines, &mut run, disk, wire, turns, meter,
    )? {
        drive_laws(job);
        next = run.saved().iteration + 1;
        run = run.cut_anew(alloc, job, own, routines)?;
        cores_wait(job);
    }
    core_stands(job);
    drive_laws(job);
    run.finish(disk)
}

/// The first core of a run that has begun, which goes on from what was found. Where the job is balanced, and a checkpoint was found,
/// that is another core, in a cut by the weights of its points, which the job gets. `own` is the job's own cut.
///
/// # Errors
///
/// `Memory`: there was no memory left.
pub fn begin_cores(
    alloc: Global,
    job: &mut Job,
    own: &Cuts,
    routines: &[Box<dyn Routine>],
    run: Run,
    found: Option<Checkpoint>,
) -> Result<Run, DriveFault>
    requires own { own.now ≡ job.old.cut }
    requires ready { IsReady job.old }
    requires routines { FitJob (map spec_of routines.now) job.old }
    requires cut { cut_fault (parts_of job.old.shape job.old.cut) ≡ None }
    requires holds { IfSome found (λ c. CanBegin (setup_of job.old) (Some c)) }
    ensures job { job.new ≡ with_cut job.old job.new.cut }
    ensures cut { OnOk result
        (job.new.cut ≡ first_cut (map spec_of routines.now) job.old found) }
    ensures begins { IfOk result (BeginsCores job.new (map spec_of routines.now) job.old found
        run) }
    ensures ready { OnOk result (IsReady job.new) }
    ensures routines { OnOk result (FitJob (map spec_of routines.now) job.new) }
    ensures stops { (m n : ℕ) → Stops
        (record { old = m; new = m }) (record { old = n; new = n }) result }
{
    if !job.balance {
        return Ok(run);
    }
    match found {
        Some(c) => run.cut_at(alloc, job, own, routines, c),
        None => Ok(run),
    }
}

/// The least iteration of a checkpoint that can come after this one, or after none.
pub fn next_after(found: &Option<Checkpoint>) -> u64
    requires few { IfSome found.now (λ c. c.iteration < 2 ^ 63) }
    ensures { result ≡ next_after found.now }
{
    match found {
        Some(c) => c.iteration + 1,
        None => 0,
    }
}

/// A core's run: until a checkpoint was saved at which the run is to be cut anew, or it is over. Answers which it is.
fn run_core<D: Disk, W: Wire, T: Turns>(
    alloc: Global,
    next: u64,
    job: &Job,
    routines: &[Box<dyn Routine>],
    run: &mut Run,
    disk: &mut D,
    wire: &mut W,
    turns: &mut T,
    meter: &mut Meter,
) -> Result<bool, DriveFault>
    requires job { IsReady job.now }
    requires short { HasShortNames (setup_of job.now) }
    requires routines { FitJob (map spec_of routines.now) job.now }
    requires able { CanAdvance D.Disk W.Wire job.now (map rule routines.now)
        (run_state run.old disk.old wire.old meter.old) }
    requires outcome { run.old.core.outcome ≡ outcomes.Going }
    ensures runs { IfOk result
        (RunsCore D.Disk W.Wire T.Turns job.now (map rule routines.now) next
        (run_state run.old disk.old wire.old meter.old)
        (run_state run.new disk.new wire.new meter.new) turns.old turns.new) }
    ensures keeps { Keeps D.Disk W.Wire job.now (map rule routines.now)
        (run_state run.old disk.old wire.old meter.old) disk.new wire.new meter.new }
    ensures below { job.now.balance ≡ true → StaysBelowFrom next
        (setting D.Disk W.Wire job.now (map rule routines.now))
        (place_at D.Disk W.Wire run.old.core disk.old wire.old meter.old)
        (counts meter.new (W.received wire.new) (W.sum wire.new)) }
    ensures picked { OnErr result (TurnsStop T.Turns (IsTrue W.tells)
        job.now (map rule routines.now)
        (turning run.old.core (wired W.Wire wire.old) meter.old turns.old) turns.new) }
    ensures begun { T.begun turns.new ≡ T.begun turns.old }
    ensures stops { Stops
        (record { old = D.faults disk.old; new = D.faults disk.new })
        (record { old = W.faults wire.old; new = W.faults wire.new }) result }
{
    core_stands(job);
    drive_laws(job);
    cores_wait(job);
    'turns: while run.goes_on() {
        let came = run.advance(alloc, u32::MAX, job, routines, disk, wire, turns, meter)?;
        if is_cut_anew(job, next, came, run) {
            return Ok(true);
        }
    }
    Ok(false)
}

/// Whether a run is to be cut anew: a checkpoint of a balanced job was just saved, later than those before.
///
/// Where the wire tells what it carries, each checkpoint is.
pub fn is_cut_anew(job: &Job, next: u64, came: Advance, run: &Run) -> bool
    ensures { result ≡ is_cut_anew job.now next came run.now.core }
{
    let c = run.saved();
    job.balance
        && matches!(came, Advance::Saved)
        && next <= c.iteration
        && c.iteration <= job.itlast
}
