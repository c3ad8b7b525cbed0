//! The first need of a step that isn't met.

ghost use Rattle.std.specs.Prelude.{◌≡◌, ◌||◌, ◌&&◌, ◌∷◌, [], not, map, flat_map, option_map, codes, if◌then◌else◌};
ghost use Rattle.cx_grid.specs.Grid.{IsShape};
ghost use Rattle.cx_plan.specs.Setups.{setup_of};
ghost use Rattle.cx_plan.specs.Regions.{Turns, Syncs, Tests, Outputs, Need, needs, needs_of_read, output_needs, is_B, has_boundary};
ghost use Rattle.cx_plan.specs.Lookups.{is_scalar};
ghost use Rattle.cx_plan.specs.declared.flag.Flag.TheVariants as levels;
ghost use Rattle.cx_region_flags.specs.Cells.{flags_in};
ghost use Rattle.cx_region_flags.specs.Unmet.{seen, first_unmet_in, unmet_at, needs_of_flags, output_flags, is_of_no_point};

use crate::flag_table::FlagTable;
use crate::shapes::{has_boundary, read_needs};
use crate::variables::is_scalar;
use cx_plan::{Flag, Item, Job, Touch, VarId};

/// A need that isn't met.
#[derive(Drop)]
pub struct Unmet<'a> {
    /// The path of what needs it, or `output`.
    pub place: &'a [u8],
    pub var: VarId,
    pub level: u8,
    pub flag: Flag,
}

/// Whether a flag is B, and there are no boundary points.
fn is_empty(job: &Job, flag: Flag) -> bool
    requires { IsShape job.now.shape }
    ensures { result ≡ is_of_no_point job.now.shape flag }
{
    match flag {
        Flag::B => !has_boundary(&job.shape),
        Flag::I | Flag::G | Flag::S => false,
    }
}

/// Whether a flag is set, or says something of no point, since the grid has no such points.
fn is_met(job: &Job, table: &FlagTable, variable: VarId, level: u8, flag: Flag) -> bool
    requires { IsShape job.now.shape }
    ensures { result
        ≡ (flags_in table.now variable level flag || is_of_no_point job.now.shape flag) }
{
    table.is_set(variable, level, flag) || is_empty(job, flag)
}

/// The first of several flags of a level that isn't met.
fn unmet_flag<'a>(
    job: &Job,
    table: &FlagTable,
    flags: &[Flag],
    place: &'a [u8],
    variable: VarId,
    level: u8,
) -> Option<Unmet<'a>>
    requires { IsShape job.now.shape }
    ensures { option_map seen result
        ≡ first_unmet_in job.now table.now (needs_of_flags place.now variable level flags.now) }
{
    'flags: for flag in flags {
        if !is_met(job, table, variable, level, *flag) {
            return Some(Unmet {
                place,
                var: variable,
                level,
                flag: *flag,
            });
        }
    }
    None
}

/// The first need of a read that isn't met.
fn unmet_read<'a>(job: &Job, table: &FlagTable, item: &'a Item, read: &Touch) -> Option<Unmet<'a>>
    requires { IsShape job.now.shape }
    ensures { option_map seen result
        ≡ first_unmet_in job.now table.now (needs_of_read (setup_of job.now) item.now read.now) }
{
    match read_needs(job, item, read) {
        Some(flags) => unmet_flag(
            job,
            table,
            flags,
            item.path.as_slice(),
            read.var,
            read.level,
        ),
        None => None,
    }
}

/// The first need of an item's reads that isn't met, in the order of its declaration.
fn unmet_of_reads<'a>(
    job: &Job,
    table: &FlagTable,
    item: &'a Item,
    reads: &[Touch],
) -> Option<Unmet<'a>>
    requires { IsShape job.now.shape }
    ensures { option_map seen result
        ≡ first_unmet_in job.now table.now
        (flat_map (needs_of_read (setup_of job.now) item.now) reads.now) }
{
    'reads: for read in reads {
        if let Some(unmet) = unmet_read(job, table, item, read) {
            return Some(unmet);
        }
    }
    None
}

/// The first need of an item that isn't met.
pub fn unmet_of_item<'a>(job: &'a Job, table: &FlagTable, number: u32) -> Option<Unmet<'a>>
    requires { IsShape job.now.shape }
    ensures { option_map seen result ≡ unmet_at job.now table.now (Turns number) }
{
    match job.items.as_slice().get(number as usize) {
        Some(item) => unmet_of_reads(job, table, item, item.reads.as_slice()),
        None => None,
    }
}

/// The first need of a SYNC that isn't met.
pub fn unmet_of_sync<'a>(
    job: &Job,
    table: &FlagTable,
    variables: &[VarId],
    path: &'a [u8],
) -> Option<Unmet<'a>>
    requires { IsShape job.now.shape }
    ensures { option_map seen result ≡ unmet_at job.now table.now (Syncs variables.now path.now) }
{
    'variables: for variable in variables {
        if let Some(unmet) = unmet_flag(job, table, &[Flag::I], path, *variable, 0) {
            return Some(unmet);
        }
    }
    None
}

/// The need of an IF's or a WHILE's test, unless it is met.
pub fn unmet_of_test<'a>(
    job: &Job,
    table: &FlagTable,
    variable: VarId,
    path: &'a [u8],
) -> Option<Unmet<'a>>
    requires { IsShape job.now.shape }
    ensures { option_map seen result ≡ unmet_at job.now table.now (Tests variable path.now) }
{
    unmet_flag(job, table, &[Flag::S], path, variable, 0)
}

/// The flags that output of a variable needs.
fn output_flags(job: &Job, variable: VarId) -> &'static [Flag]
    ensures { result.now ≡ output_flags (setup_of job.now) variable }
{
    if is_scalar(job, variable) {
        return &[Flag::S];
    }
    &[Flag::I, Flag::B]
}

/// The first need of the output of one variable that isn't met.
fn unmet_of_variable(job: &Job, table: &FlagTable, variable: VarId) -> Option<Unmet<'static>>
    requires { IsShape job.now.shape }
    ensures { option_map seen result
        ≡ first_unmet_in job.now table.now (output_needs (setup_of job.now) variable) }
{
    let flags = output_flags(job, variable);
    unmet_flag(job, table, flags, b"output", variable, 0)
}

/// The first need of the output that isn't met, variable by variable.
fn unmet_of_variables(job: &Job, table: &FlagTable, variables: &[VarId]) -> Option<Unmet<'static>>
    requires { IsShape job.now.shape }
    ensures { option_map seen result
        ≡ first_unmet_in job.now table.now
        (flat_map (output_needs (setup_of job.now)) variables.now) }
{
    'variables: for variable in variables {
        if let Some(unmet) = unmet_of_variable(job, table, *variable) {
            return Some(unmet);
        }
    }
    None
}

/// The first need of output that isn't met.
pub fn unmet_of_output(job: &Job, table: &FlagTable) -> Option<Unmet<'static>>
    requires { IsShape job.now.shape }
    ensures { option_map seen result ≡ unmet_at job.now table.now Outputs }
{
    unmet_of_variables(job, table, job.out_vars.as_slice())
}
