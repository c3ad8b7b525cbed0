//! Steps on the flags that are set on every way: each stops at its first need that isn't met.

ghost use Rattle.std.specs.Prelude.{◌≡◌, ◌<◌, length, OnOk, None, option_map, All};
ghost use Rattle.cx_plan.specs.Regions.{Turns, Syncs, Tests, Rotates, Outputs};
ghost use Rattle.cx_plan.specs.Whole.{IsWhole, IsStoredScalar, IsStoredGrid};
ghost use Rattle.cx_region_flags.specs.Agreeing.{Leaves};
ghost use Rattle.cx_region_flags.specs.AllPaths.{Leads, Only};
ghost use Rattle.cx_region_flags.specs.Unmet.{seen};
ghost use Rattle.cx_region_flags.specs.declared.all_paths_step.Stop.TheVariants as stops;

use crate::flag_table::FlagTable;
use crate::unmet::{Unmet, unmet_of_item, unmet_of_output, unmet_of_sync, unmet_of_test};
use cx_plan::{Job, VarId};
use cx_text::Memory;

/// Why a walk stops.
#[derive(Drop)]
pub enum Stop<'a> {
    /// This need isn't met.
    Unmet(Unmet<'a>),
    /// Out of memory.
    Memory,
}

impl<'a> From<Memory> for Stop<'a> {
    ghost from_gives = { λ _ stop. stop ≡ stops.Memory };

    fn from(_: Memory) -> Self {
        Stop::Memory
    }
}

/// Stops at a need that isn't met.
fn unless_unmet(unmet: Option<Unmet<'_>>) -> Result<(), Stop<'_>>
    ensures { OnOk result (option_map seen unmet.entry ≡ None) }
{
    match unmet {
        Some(unmet) => Err(Stop::Unmet(unmet)),
        None => Ok(()),
    }
}

/// Notes the writes of an item.
pub fn write_item(job: &Job, table: &mut FlagTable, number: u32)
    ensures { Leaves job.now (Turns number) table.old table.new }
{
    if let Some(item) = job.items.as_slice().get(number as usize) {
        table.write_all(job, item.writes.as_slice());
    }
}

/// An item runs.
pub(crate) fn turn<'a>(job: &'a Job, table: &mut FlagTable, number: u32) -> Result<(), Stop<'a>>
    requires { IsWhole job.now }
    ensures { number < length job.now.items
        → OnOk result (Leads job.now (Only (Turns number)) table.old table.new) }
{
    unless_unmet(unmet_of_item(job, table, number))?;
    write_item(job, table, number);
    Ok(())
}

/// These variables are exchanged.
pub(crate) fn exchange<'a>(
    job: &Job,
    table: &mut FlagTable,
    variables: &[VarId],
    path: &'a [u8],
) -> Result<(), Stop<'a>>
    requires { IsWhole job.now }
    ensures { All (IsStoredGrid job.now) variables.now
        → OnOk result (Leads job.now (Only (Syncs variables.now path.now)) table.old table.new) }
{
    unless_unmet(unmet_of_sync(job, table, variables, path))?;
    table.exchange(variables);
    Ok(())
}

/// An IF or a WHILE reads its scalar.
pub(crate) fn test<'a>(
    job: &Job,
    table: &FlagTable,
    variable: VarId,
    path: &'a [u8],
) -> Result<(), Stop<'a>>
    requires { IsWhole job.now }
    ensures { IsStoredScalar job.now variable
        → OnOk result (Leads job.now (Only (Tests variable path.now)) table.now table.now) }
{
    unless_unmet(unmet_of_test(job, table, variable, path))
}

/// Levels move to the next older ones.
pub(crate) fn rotate(job: &Job, table: &mut FlagTable)
    requires { IsWhole job.now }
    ensures { Leads job.now (Only Rotates) table.old table.new }
{
    table.rotate(job);
}

/// Output is written.
pub(crate) fn output(job: &Job, table: &FlagTable) -> Result<(), Stop<'static>>
    requires { IsWhole job.now }
    ensures { OnOk result (Leads job.now (Only Outputs) table.now table.now) }
{
    unless_unmet(unmet_of_output(job, table))
}
