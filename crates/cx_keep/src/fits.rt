//! Whether a checkpoint fits a job.
ghost use Rattle.std.specs.Prelude.{◌≡◌, ◌≤◌, ◌==◌, take, length, if◌then◌else◌};
ghost use Rattle.std.specs.List.{list_all};
ghost use Rattle.cx_disk.specs.Files.{output_limit};
ghost use Rattle.cx_plan.specs.Setups.{setup_of};
ghost use Rattle.cx_plan.specs.Whole.{IsWhole, scalar_count, level_count};
ghost use Rattle.cx_outputs.specs.Names.{output_count, output_names};
ghost use Rattle.cx_keep.specs.Fits.{fits_job, same_texts, scalars_fit, levels_fit, holds_value, holds_level, begins_with};

use cx_chk::Checkpoint;
use cx_grid::{count, whole};
use cx_plan::{Job, VarInfo, is_due};
use cx_text::{List, Text};

/// Whether two lists of texts are the same.
fn same_texts(a: &[Text], b: &[Text]) -> bool
    ensures { result ≡ same_texts a.now b.now }
{
    match (a.split_first(), b.split_first()) {
        (None, None) => true,
        (Some((x, xs)), Some((y, ys))) => x.as_slice() == y.as_slice() && same_texts(xs, ys),
        _ => false,
    }
}

/// Whether a checkpoint's output files are those of these names; in version 1 there is one, which has none.
fn outputs_fit(names: &[Text], found: &Checkpoint) -> bool
    ensures { result ≡ (if found.now.version == 2
        then same_texts found.now.names names.now else length found.now.lengths == 1) }
{
    if found.version == 2 {
        same_texts(found.names.as_slice(), names)
    } else {
        found.lengths.len() == 1
    }
}

/// A job has no more outputs than a disk has files for.
pub fn outputs_are_few(job: &Job)
    requires whole { IsWhole job.now }
    ensures { output_count (setup_of job.now) ≤ output_limit }
{}

/// How many values a checkpoint holds of a variable that is a scalar.
fn scalar_count(v: &VarInfo) -> usize
    ensures { result ≡ scalar_count v.now }
{
    if v.scalar { v.levels as usize } else { 0 }
}

/// How many levels a checkpoint holds of a grid variable.
fn level_count(v: &VarInfo) -> usize
    ensures { result ≡ level_count v.now }
{
    if v.scalar { 0 } else { v.levels as usize }
}

/// Whether the variable's type holds a value.
fn holds_value(v: &VarInfo, value: i64) -> bool
    ensures { result ≡ holds_value v.now value }
{
    v.low() <= value && value <= v.high()
}

/// Whether the variable's type holds all these values.
fn hold_all(v: &VarInfo, values: &[i64]) -> bool
    ensures { result ≡ list_all (holds_value v.now) values.now }
{
    values.iter().all(|value| holds_value(v, *value))
}

/// Whether a level has a value for each point, and the variable's type holds all of them.
fn holds_level(points: usize, v: &VarInfo, level: &[i64]) -> bool
    ensures { result ≡ holds_level points v.now level.now }
{
    level.len() == points && hold_all(v, level)
}

/// Whether each of some levels is one of the variable.
fn hold_levels(points: usize, v: &VarInfo, levels: &[List<i64>]) -> bool
    ensures { result ≡ list_all (holds_level points v.now) levels.now }
{
    levels
        .iter()
        .all(|level| holds_level(points, v, level.as_slice()))
}

/// Whether values begin with so many of the variable.
fn begin_values(v: &VarInfo, count: usize, values: &[i64]) -> bool
    ensures { result ≡ begins_with (holds_value v.now) count values.now }
{
    match values.get(..count) {
        Some(first) => hold_all(v, first),
        None => false,
    }
}

/// Whether levels begin with so many of the variable.
fn begin_levels(points: usize, v: &VarInfo, count: usize, levels: &[List<i64>]) -> bool
    ensures { result ≡ begins_with (holds_level points v.now) count levels.now }
{
    match levels.get(..count) {
        Some(first) => hold_levels(points, v, first),
        None => false,
    }
}

/// Whether the values are those of the scalars.
fn scalars_fit(vars: &[VarInfo], values: &[i64]) -> bool
    ensures { result ≡ scalars_fit vars.now values.now }
{
    let mut at = 0;
    'each: for v in vars {
        let count = scalar_count(v);
        if !begin_values(v, count, &values[at..]) {
            return false;
        }
        at += count;
    }
    at == values.len()
}

/// Whether the levels are those of the grid variables.
fn levels_fit(points: usize, vars: &[VarInfo], levels: &[List<i64>]) -> bool
    ensures { result ≡ levels_fit points vars.now levels.now }
{
    let mut at = 0;
    'each: for v in vars {
        let count = level_count(v);
        if !begin_levels(points, v, count, &levels[at..]) {
            return false;
        }
        at += count;
    }
    at == levels.len()
}

/// Whether a checkpoint fits a job whose output files have these names: it is due at its iteration, records these files, and has
/// the values of the job's variables and no others. One of version 1 records one file, without a name.
pub fn fits(job: &Job, names: &[Text], found: &Checkpoint) -> bool
    requires whole { IsWhole job.now }
    requires names { names.now ≡ output_names (setup_of job.now) }
    ensures { result ≡ fits_job job.now found.now }
{
    let points = count(&whole(&job.shape));
    let due = is_due(job, found.iteration);
    let outputs = outputs_fit(names, found);
    let scalars = scalars_fit(job.vars.as_slice(), found.scalars.as_slice());
    let levels = levels_fit(points, job.vars.as_slice(), found.levels.as_slice());
    due && (outputs && (scalars && levels))
}
