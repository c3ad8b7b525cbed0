//! A run in steps: it begins, is moved on by so many events at a time, and is finished.
ghost use Rattle.std.specs.Prelude.{◌≡◌, ◌<◌, ◌≤◌, ◌^◌, ◌↔◌, ℕ, Bool, IsTrue, List, length, map, IfErr, IfOk, IfSome, None, OnErr, OnOk, Some, true};
ghost use Rattle.cx_cut.specs.Faults.{cut_fault, parts_of};
ghost use Rattle.cx_disk.specs.Disk.{IsNamed};
ghost use Rattle.cx_disk.specs.Files.{count_with};
ghost use Rattle.cx_disk.specs.Moments.{IsQuiet};
ghost use Rattle.cx_plan.specs.Setups.{setup_of};
ghost use Rattle.cx_outputs.specs.Names.{HasShortNames, output_count, output_names};
ghost use Rattle.cx_rule.specs.Jobs.{FitJob};
ghost use Rattle.cx_rule.specs.Routine.{Rule};
ghost use Rattle.cx_wire.specs.Messages.{Sent};
ghost use Rattle.law_parts.specs.Beginnings.{IsBeginning, run_of};
ghost use Rattle.cx_keep.specs.Beginning.{HasLengths, StartMoments};
ghost use Rattle.cx_keep.specs.Fits.{fits_job};
ghost use Rattle.cx_keep.specs.Trails.{OutputsSettled};
ghost use Rattle.cx_core.specs.Starts.{AreEmpty, CanBegin, IsReady, begins_in, lengths_first};
ghost use Rattle.cx_core.specs.Steps.{Begins, Counts, counts};
ghost use Rattle.cx_core.specs.declared.answers.Outcome.TheVariants as outcomes;
ghost use Rattle.cx_run_loop.specs.Advances.{Advances, CanAdvance, Keeps, run_state};
ghost use Rattle.cx_run_loop.specs.Faults.{Stops, StopsStart};
ghost use Rattle.cx_run_loop.specs.Going.{place_at, setting};
ghost use Rattle.cx_run_loop.specs.Lent.{wired};
ghost use Rattle.cx_run_loop.specs.Recuts.{with_cut};
ghost use Rattle.cx_run_loop.specs.Turning.{TurnsStop, turning};
ghost use Rattle.cx_run_loop.specs.UnderWay.{BeginsAnew, HasBegun};
ghost use Rattle.cx_run_loop.specs.Waiting.{HoldsCheckpoint, StaysBelow, WaitsOn};
ghost use Rattle.cx_run_loop.specs.declared.turn.Advance.TheVariants as advances;

use crate::fault::DriveFault;
use crate::laws::drive_laws;
use crate::recutting::recut;
use crate::turn::Advance;
use crate::turns::take_turns;
use cx_chk::Checkpoint;
use cx_core::{Core, Outcome};
use cx_disk::Disk;
use cx_keep::Keep;
use cx_plan::{Cuts, Job};
use cx_rule::{Meter, Routine};
use cx_turns::Turns;
use cx_wire::Wire;
use std::alloc::Global;
use std::marker::Model;

/// A run of a job that has begun: the keeper of its outputs and checkpoints, and its core.
///
/// The job, the routines, the disk and the wire are the same in each call, and between two calls the disk and the wire are changed by
/// this run alone. Turns and meter may be shared with other runs. After a call that failed the run isn't used again.
#[derive(Drop)]
pub struct Run {
    keep: Keep,
    core: Core,
}

impl Model for Run {
    ghost use Rattle.cx_run_loop.specs.UnderWay.{Runs};

    ghost Value = { Runs };

    ghost view = { λ run. record { keeper = run.keep; core = run.core } };
}

impl Run {
    /// Begins a run on the disk, which is mounted with the job's folders and output files. The answer has the checkpoint that the run
    /// goes on from, or none where it begins at the job's start. Wire, turns and meter aren't used yet.
    ///
    /// # Errors
    ///
    /// `Recovery`: the files on the disk refuse the start; nothing has changed. `Disk`: the disk failed. `Memory`: there was no memory
    /// left. After these the run can be begun again on what is left on the disk.
    pub fn begin<D: Disk>(
        alloc: Global,
        job: &Job,
        disk: &mut D,
    ) -> Result<(Run, Option<Checkpoint>), DriveFault>
        requires ready { IsReady job.now }
        ensures begins { IfOk result
            (λ r. HasBegun job.now D.tells r.1 r.0 (D.view disk.old) (D.view disk.new)) }
        ensures can { IfOk result (λ r. CanBegin (setup_of job.now) r.1) }
        ensures lengths { IfOk result
            (λ r. r.0.core.lengths ≡ lengths_first (setup_of job.now) r.1) }
        ensures stops { IfErr result (StopsStart job.now D.tells (D.view disk.old) (D.view disk.new)
            (record { old = D.faults disk.old; new = D.faults disk.new })) }
        ensures moments { D.tells →
            StartMoments job.now job.now.recover (D.view disk.old) (D.view disk.new) }
        ensures mounted { OnOk result (IsTrue (D.mounted disk.new)) }
        ensures files { OnOk result
            (D.file_count disk.new ≡ count_with (output_count (setup_of job.now))) }
        ensures folders { OnOk result
            (IsNamed job.now.out_dir (output_names (setup_of job.now)) job.now.chk_dir
            (D.folders disk.new)) }
        ensures later { D.faults disk.old ≤ D.faults disk.new }
    {
        let (keep, found) = Keep::begin(alloc, disk, job)?;
        let core = start(alloc, job, &found)?;
        Ok((Run { keep, core }, found))
    }

    /// Whether the run goes on.
    pub fn goes_on(&self) -> bool
        ensures { IsTrue result ↔ (self.now.core.outcome ≡ outcomes.Going) }
    {
        matches!(self.core.outcome(), Outcome::Going)
    }

    /// Moves a run on that goes on, by `most` events. It stops before that where a checkpoint was saved, or where the run is over: so
    /// `Saved` and `Over` say what the last event was, and `More` that there were `most` events, and none of them was a checkpoint.
    ///
    /// `turns` picks each time which of the events that can happen does. Each text is appended to its variable's output as it comes,
    /// and each checkpoint is saved.
    ///
    /// # Errors
    ///
    /// `Disk`, `Wire`: that device failed. `Memory`: there was no memory left.
    pub fn advance<D: Disk, W: Wire, T: Turns>(
        &mut self,
        alloc: Global,
        most: u32,
        job: &Job,
        routines: &[Box<dyn Routine>],
        disk: &mut D,
        wire: &mut W,
        turns: &mut T,
        meter: &mut Meter,
    ) -> Result<Advance, DriveFault>
        requires some { 0 < most }
        requires job { IsReady job.now }
        requires short { HasShortNames (setup_of job.now) }
        requires routines { FitJob (map spec_of routines.now) job.now }
        requires able { CanAdvance D.Disk W.Wire job.now (map rule routines.now)
            (run_state self.old disk.old wire.old meter.old) }
        requires outcome { self.old.core.outcome ≡ outcomes.Going }
        ensures advances { IfOk result
            (Advances D.Disk W.Wire T.Turns job.now (map rule routines.now) most
            (run_state self.old disk.old wire.old meter.old)
            (run_state self.new disk.new wire.new meter.new) turns.old turns.new) }
        ensures waits { job.now.balance ≡ true → IfOk result
            (WaitsOn (setting D.Disk W.Wire job.now (map rule routines.now))
            (place_at D.Disk W.Wire self.old.core disk.old wire.old meter.old)
            (place_at D.Disk W.Wire self.new.core disk.new wire.new meter.new)) }
        ensures below { job.now.balance ≡ true → StaysBelow
            (setting D.Disk W.Wire job.now (map rule routines.now))
            (place_at D.Disk W.Wire self.old.core disk.old wire.old meter.old)
            (counts meter.new (W.received wire.new) (W.sum wire.new)) }
        ensures holds { IfOk result (λ came. came ≡ advances.Saved
            → HoldsCheckpoint (setup_of job.now) self.new.core) }
        ensures keeps { Keeps D.Disk W.Wire job.now (map rule routines.now)
            (run_state self.old disk.old wire.old meter.old) disk.new wire.new meter.new }
        ensures picked { OnErr result (TurnsStop T.Turns (IsTrue W.tells)
            job.now (map rule routines.now)
            (turning self.old.core (wired W.Wire wire.old) meter.old turns.old) turns.new) }
        ensures begun { T.begun turns.new ≡ T.begun turns.old }
        ensures stops { Stops
            (record { old = D.faults disk.old; new = D.faults disk.new })
            (record { old = W.faults wire.old; new = W.faults wire.new }) result }
    {
        take_turns(
            alloc,
            most,
            job,
            routines,
            &mut self.keep,
            &mut self.core,
            disk,
            wire,
            turns,
            meter,
        )
    }

    /// Goes on with another core, from the checkpoint that was saved last, in a cut by the weights of its points, which the job gets.
    /// `own` is the cut that the job was made with. It counts where the job isn't balanced, or where a part would have more points than
    /// some routine sweeps. The keeper stays. The former core's numbers are given up before the next core takes memory for its own.
    ///
    /// # Errors
    ///
    /// `Memory`: there was no memory left.
    pub fn cut_anew(
        self,
        alloc: Global,
        job: &mut Job,
        own: &Cuts,
        routines: &[Box<dyn Routine>],
    ) -> Result<Run, DriveFault>
        requires ready { IsReady (with_cut job.old own.now) }
        requires routines { FitJob (map spec_of routines.now) (with_cut job.old own.now) }
        requires cut { cut_fault (parts_of job.old.shape own.now) ≡ None }
        requires state { CanBegin (setup_of job.old) (Some self.core.buffers.state) }
        ensures job { job.new ≡ with_cut job.old job.new.cut }
        ensures begins { IfOk result (BeginsAnew job.new (map spec_of routines.now)
            (with_cut job.old own.now) self.core.buffers.state self.keeper) }
        ensures stops { (m n : ℕ) → Stops
            (record { old = m; new = m }) (record { old = n; new = n }) result }
    {
        let Run { keep, core } = self;
        let found = core.into_state();
        begin_at(alloc, job, own, routines, keep, found)
    }

    /// Goes on with another core, from this checkpoint, as `cut_anew` does from the one that was saved last.
    ///
    /// # Errors
    ///
    /// `Memory`: there was no memory left.
    pub fn cut_at(
        self,
        alloc: Global,
        job: &mut Job,
        own: &Cuts,
        routines: &[Box<dyn Routine>],
        found: Checkpoint,
    ) -> Result<Run, DriveFault>
        requires ready { IsReady (with_cut job.old own.now) }
        requires routines { FitJob (map spec_of routines.now) (with_cut job.old own.now) }
        requires cut { cut_fault (parts_of job.old.shape own.now) ≡ None }
        requires state { CanBegin (setup_of job.old) (Some found) }
        ensures job { job.new ≡ with_cut job.old job.new.cut }
        ensures begins { IfOk result (BeginsAnew job.new (map spec_of routines.now)
            (with_cut job.old own.now) found self.keeper) }
        ensures stops { (m n : ℕ) → Stops
            (record { old = m; new = m }) (record { old = n; new = n }) result }
    {
        let keep = self.into_keep();
        begin_at(alloc, job, own, routines, keep, found)
    }

    /// The keeper; the core is given up.
    fn into_keep(self) -> Keep
        ensures { result ≡ self.keeper }
    {
        self.keep
    }

    /// The checkpoint that was saved last.
    pub fn saved(&self) -> &Checkpoint
        ensures { result.now ≡ self.now.core.buffers.state }
    {
        self.core.state()
    }

    /// Finishes a run that is over: the outputs are synced, and its core tells how it has ended, and the scalars of its last state.
    ///
    /// # Errors
    ///
    /// `Disk`: the disk failed. `Memory`: there was no memory left.
    pub fn finish<D: Disk>(self, disk: &mut D) -> Result<Core, DriveFault>
        requires mounted { IsTrue (D.mounted disk.old) }
        requires files { count_with (length self.keeper.vars) ≤ D.file_count disk.old }
        ensures core { IfOk result (λ core. core ≡ self.core) }
        ensures quiet { D.tells → IsQuiet (D.view disk.old) (D.view disk.new) }
        ensures settled { D.tells → OnOk result
            (OutputsSettled (length self.keeper.lengths) (D.view disk.new)) }
        ensures mounted { IsTrue (D.mounted disk.new) }
        ensures files { D.file_count disk.new ≡ D.file_count disk.old }
        ensures folders { D.folders disk.new ≡ D.folders disk.old }
        ensures stops { (n : ℕ) → Stops
            (record { old = D.faults disk.old; new = D.faults disk.new })
            (record { old = n; new = n }) result }
    {
        let Run { mut keep, core } = self;
        keep.finish(disk)?;
        Ok(core)
    }
}

/// A core at the start of a run from a checkpoint or from the job's start.
fn start(alloc: Global, job: &Job, found: &Option<Checkpoint>) -> Result<Core, DriveFault>
    requires job { IsReady job.now }
    requires fits { IfSome found.now (λ c. fits_job job.now c ≡ true) }
    requires lengths { HasLengths (output_count (setup_of job.now)) found.now }
    ensures begins { (told : Bool) (rules : List Rule) (queue : ℕ → ℕ → List (Sent (IsTrue told)))
        (first : Counts) → AreEmpty queue → (IsTrue told → first.sum < 2 ^ 64)
        → IfOk result (λ core. Begins (IsTrue told)
        (run_of job.now rules (begins_in (setup_of job.now) found.now)) first core queue) }
    ensures can { IsBeginning (setup_of job.now) (begins_in (setup_of job.now) found.now) }
    ensures state { CanBegin (setup_of job.now) found.now }
    ensures key { IfOk result (λ core. core.buffers.state.key ≡ job.now.key) }
    ensures lengths { IfOk result
        (λ core. core.lengths ≡ lengths_first (setup_of job.now) found.now) }
    ensures going { IfOk result (λ core. core.outcome ≡ outcomes.Going) }
    ensures stops { (m n : ℕ) → Stops
        (record { old = m; new = m }) (record { old = n; new = n }) result }
{
    drive_laws(job);
    Ok(Core::start(alloc, job, found.as_ref())?)
}

/// A keeper, and a core that begins in a checkpoint, in the cut after it.
fn begin_at(
    alloc: Global,
    job: &mut Job,
    own: &Cuts,
    routines: &[Box<dyn Routine>],
    keep: Keep,
    found: Checkpoint,
) -> Result<Run, DriveFault>
    requires ready { IsReady (with_cut job.old own.now) }
    requires routines { FitJob (map spec_of routines.now) (with_cut job.old own.now) }
    requires cut { cut_fault (parts_of job.old.shape own.now) ≡ None }
    requires state { CanBegin (setup_of job.old) (Some found) }
    ensures job { job.new ≡ with_cut job.old job.new.cut }
    ensures begins { IfOk result (BeginsAnew job.new (map spec_of routines.now)
        (with_cut job.old own.now) found keep) }
    ensures stops { (m n : ℕ) → Stops
        (record { old = m; new = m }) (record { old = n; new = n }) result }
{
    recut(alloc, job, own, routines, &found)?;
    let core = Core::start(alloc, job, Some(&found))?;
    Ok(Run { keep, core })
}
