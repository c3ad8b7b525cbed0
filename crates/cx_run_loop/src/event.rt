//! What an event of the core is to the keeper.
ghost use Rattle.std.specs.Prelude.{◌≡◌, ℕ, length, IsTrue, OnOk, IfOk};
ghost use Rattle.cx_disk.specs.Files.{count_with};
ghost use Rattle.cx_plan.specs.Lookups.{variable};
ghost use Rattle.cx_plan.specs.Setups.{setup_of};
ghost use Rattle.cx_outputs.specs.Names.{HasShortNames, output_count, output_names};
ghost use Rattle.cx_plan.specs.Whole.{IsWhole, IsVariable};
ghost use Rattle.cx_model.specs.States.{number_count};
ghost use Rattle.cx_core.specs.Texts.{text_of_piece};
ghost use Rattle.cx_run_loop.specs.Faults.{Stops};
ghost use Rattle.cx_run_loop.specs.Going.{EventMoments, IsBehind, IsKept, KeepsEvent};

use crate::fault::DriveFault;
use crate::numbers::numbers_fit;
use cx_ascii::{scalar_line, section};
use cx_core::{Core, Event};
use cx_disk::Disk;
use cx_keep::Keep;
use cx_plan::{Job, VarId};
use cx_text::{Memory, Text};
use std::alloc::Global;

/// What the keeper does for an event of the core: it appends a text, or saves a checkpoint, or has nothing to do.
pub(crate) fn keep_event<D: Disk>(
    alloc: Global,
    job: &Job,
    keep: &mut Keep,
    core: &Core,
    event: Event,
    disk: &mut D,
) -> Result<(), DriveFault>
    requires whole { IsWhole job.now }
    requires behind { IsBehind job.now D.tells keep.old core.now event (D.view disk.old) }
    requires mounted { IsTrue (D.mounted disk.old) }
    requires files { D.file_count disk.old ≡ count_with (output_count (setup_of job.now)) }
    requires names { (D.folders disk.old).names ≡ output_names (setup_of job.now) }
    requires short { HasShortNames (setup_of job.now) }
    ensures keeps { D.tells → OnOk result (KeepsEvent (setup_of job.now) core.now
        (D.view disk.old) (D.view disk.new) event) }
    ensures moments { D.tells → EventMoments (setup_of job.now) core.now
        (D.view disk.old) (D.view disk.new) event }
    ensures kept { OnOk result (IsKept job.now D.tells keep.new core.now (D.view disk.new)) }
    ensures mounted { IsTrue (D.mounted disk.new) }
    ensures files { D.file_count disk.new ≡ count_with (output_count (setup_of job.now)) }
    ensures folders { D.folders disk.new ≡ D.folders disk.old }
    ensures stops { (n : ℕ) → Stops
        (record { old = D.faults disk.old; new = D.faults disk.new })
        (record { old = n; new = n }) result }
{
    match event {
        Event::Part(_) => Ok(()),
        Event::Section { var, iteration } => keep_text(
            alloc, job, keep, core, var, iteration, disk,
        ),
        Event::Save(iteration) => keep_state(alloc, job, keep, core, iteration, disk),
        Event::End => Ok(()),
    }
}

/// Appends the text that comes next to its variable's output.
fn keep_text<D: Disk>(
    alloc: Global,
    job: &Job,
    keep: &mut Keep,
    core: &Core,
    var: VarId,
    iteration: u64,
    disk: &mut D,
) -> Result<(), DriveFault>
    requires whole { IsWhole job.now }
    requires behind { IsBehind job.now D.tells keep.old core.now
        (Event.Section var iteration) (D.view disk.old) }
    requires mounted { IsTrue (D.mounted disk.old) }
    requires files { D.file_count disk.old ≡ count_with (output_count (setup_of job.now)) }
    ensures keeps { D.tells → OnOk result (KeepsEvent (setup_of job.now) core.now
        (D.view disk.old) (D.view disk.new) (Event.Section var iteration)) }
    ensures moments { D.tells → EventMoments (setup_of job.now) core.now
        (D.view disk.old) (D.view disk.new) (Event.Section var iteration) }
    ensures kept { OnOk result (IsKept job.now D.tells keep.new core.now (D.view disk.new)) }
    ensures mounted { IsTrue (D.mounted disk.new) }
    ensures files { D.file_count disk.new ≡ count_with (output_count (setup_of job.now)) }
    ensures folders { D.folders disk.new ≡ D.folders disk.old }
    ensures stops { (n : ℕ) → Stops
        (record { old = D.faults disk.old; new = D.faults disk.new })
        (record { old = n; new = n }) result }
{
    let text = text_of(alloc, job, iteration, var, core.piece().as_slice())?;
    Ok(keep.write_out(disk, var, text.as_slice())?)
}

/// Saves the checkpoint that comes next.
fn keep_state<D: Disk>(
    alloc: Global,
    job: &Job,
    keep: &mut Keep,
    core: &Core,
    iteration: u64,
    disk: &mut D,
) -> Result<(), DriveFault>
    requires whole { IsWhole job.now }
    requires behind { IsBehind job.now D.tells keep.old core.now
        (Event.Save iteration) (D.view disk.old) }
    requires mounted { IsTrue (D.mounted disk.old) }
    requires files { D.file_count disk.old ≡ count_with (output_count (setup_of job.now)) }
    requires names { (D.folders disk.old).names ≡ output_names (setup_of job.now) }
    requires short { HasShortNames (setup_of job.now) }
    ensures keeps { D.tells → OnOk result (KeepsEvent (setup_of job.now) core.now
        (D.view disk.old) (D.view disk.new) (Event.Save iteration)) }
    ensures moments { D.tells → EventMoments (setup_of job.now) core.now
        (D.view disk.old) (D.view disk.new) (Event.Save iteration) }
    ensures kept { OnOk result (IsKept job.now D.tells keep.new core.now (D.view disk.new)) }
    ensures mounted { IsTrue (D.mounted disk.new) }
    ensures files { D.file_count disk.new ≡ count_with (output_count (setup_of job.now)) }
    ensures folders { D.folders disk.new ≡ D.folders disk.old }
    ensures stops { (n : ℕ) → Stops
        (record { old = D.faults disk.old; new = D.faults disk.new })
        (record { old = n; new = n }) result }
{
    let state = core.state();
    numbers_fit(state);
    Ok(keep.save(alloc, disk, state)?)
}

/// The text of a variable in an iteration, by its whole current level or a scalar's number.
fn text_of(
    alloc: Global,
    job: &Job,
    iteration: u64,
    v: VarId,
    piece: &[i64],
) -> Result<Text, Memory>
    requires whole { IsWhole job.now }
    requires variable { IsVariable job.now v }
    requires piece { length piece.now
        ≡ number_count (setup_of job.now) (variable (setup_of job.now) v) }
    ensures { IfOk result
        (λ text. text ≡ text_of_piece (setup_of job.now) iteration v piece.now) }
{
    let variable = &job.vars.as_slice()[v.0 as usize];
    if variable.scalar {
        scalar_line(alloc, &variable.full, iteration, piece[0])
    } else {
        section(alloc, &variable.full, iteration, &job.shape, piece)
    }
}
