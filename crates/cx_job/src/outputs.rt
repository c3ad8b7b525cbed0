//! The variables that are written.

ghost use Rattle.std.specs.Prelude.{◌≡◌, ◌<◌, ◌^◌, filter, map, length, IfOk};
ghost use Rattle.std.specs.List.{enumerate_from, list_any, slice_split};
ghost use Rattle.cx_text.specs.Telling.{Answers};
ghost use Rattle.cx_scope.specs.declared.fault.ScopeFault.TheVariants as faults;
ghost use Rattle.cx_job.specs.Outputs.{is_between, is_name, output_names, variable_named, named_by, is_same_group, is_of, is_stored, is_missing, lacks_storage, output_of, outputs, is_written, named_ids, ids_or_fault, output_variables};

use crate::groups::{FullGroups, GroupPlace, group_places};
use cx_bind::Bound;
use cx_job_values::{stored_levels, text_copy};
use cx_plan::{VarId, VarInfo};
use cx_scope::ScopeFault;
use cx_text::{List, Memory, Text, same_name};
use cx_values::Values;
use std::alloc::{AllocError, Global};

/// What a name means: a variable by its number, or all variables of a group.
#[derive(Clone, Copy, Debug, Drop, PartialEq, Eq)]
pub(crate) enum Named {
    Variable(usize),
    Group(GroupPlace),
}

/// Whether a byte stands between names.
fn is_between(byte: u8) -> bool
    ensures { result ≡ is_between byte }
{
    byte == b' ' || byte == b'\t' || byte == b'\r' || byte == b'\n'
}

/// The parts of a text between separators, empty ones too.
fn parts_of(alloc: Global, text: &[u8]) -> Result<Vec<&[u8]>, AllocError>
    ensures { IfOk result (λ ps. map (λ x. x.now) ps.items ≡ slice_split is_between text.now) }
{
    text.split(|byte| is_between(*byte)).collect(alloc)
}

/// Whether a part of a text is a name: it isn't empty.
fn is_name(text: &[u8]) -> bool
    ensures { result ≡ is_name text.now }
{
    !text.is_empty()
}

/// The names among the parts of a text.
fn names_in(alloc: Global, parts: &[&[u8]]) -> Result<List<Text>, Memory>
    ensures { IfOk result (λ names. names ≡ filter is_name (map (λ x. x.now) parts.now)) }
{
    let mut names = List::empty(alloc);
    'parts: for part in parts {
        if is_name(part) {
            names.push(Text::from_slice(alloc, part)?)?;
        }
    }
    Ok(names)
}

/// The names in `IO::out_vars`.
fn output_names(alloc: Global, values: &Values) -> Result<List<Text>, Memory>
    ensures { IfOk result (λ names. names ≡ output_names values.now) }
{
    let text = text_copy(alloc, values, b"IO::out_vars")?;
    let parts = parts_of(alloc, text.as_slice())?;
    names_in(alloc, &parts)
}

/// The number of the variable that has this full name, in any case.
pub(crate) fn variable_named(vars: &[VarInfo], name: &[u8]) -> Option<usize>
    ensures { result ≡ variable_named vars.now name.now }
{
    vars.iter()
        .position(|info| same_name(name, info.full.as_slice()))
}

/// What has this full name: a variable, or where none has it a group.
fn named_by(vars: &[VarInfo], groups: &FullGroups, name: &[u8]) -> Option<Named>
    ensures { result ≡ named_by vars.now groups.now name.now }
{
    match variable_named(vars, name) {
        Some(number) => Some(Named::Variable(number)),
        None => match groups.named(name) {
            Some(group) => Some(Named::Group(group.at)),
            None => None,
        },
    }
}

/// Whether two are one group: of one thorn and at one place in its file.
fn is_same_group(a: GroupPlace, b: GroupPlace) -> bool
    ensures { result ≡ is_same_group a b }
{
    a.thorn == b.thorn && a.place == b.place
}

/// Whether the variable of a number and a group is named.
fn is_of(number: usize, group: GroupPlace, named: Named) -> bool
    ensures { result ≡ is_of (number, group) named }
{
    match named {
        Named::Variable(other) => number == other,
        Named::Group(other) => is_same_group(group, other),
    }
}

/// Whether a variable has storage.
pub(crate) fn is_stored(storage: &[u8], number: usize) -> bool
    ensures { result ≡ is_stored storage.now number }
{
    stored_levels(storage, number) > 0
}

/// Whether a variable is meant by the name and has no storage.
fn is_missing(storage: &[u8], named: Named, number: usize, group: GroupPlace) -> bool
    ensures { result ≡ is_missing storage.now named (number, group) }
{
    is_of(number, group, named) && !is_stored(storage, number)
}

/// Whether no level is stored of a variable that is named.
fn lacks_storage(places: &[GroupPlace], storage: &[u8], named: Named) -> bool
    ensures { result ≡ lacks_storage places.now storage.now named }
{
    'places: for (number, place) in places.iter().enumerate() {
        if is_missing(storage, named, number, *place) {
            return true;
        }
    }
    false
}

/// What a name of `IO::out_vars` means; a fault if it means nothing or a variable without storage.
fn output_of(
    alloc: Global,
    places: &[GroupPlace],
    storage: &[u8],
    name: &[u8],
    named: Option<Named>,
) -> Result<Named, ScopeFault>
    ensures { Answers faults.Memory (output_of places.now storage.now name.now named) result }
{
    let Some(named) = named else {
        return Err(ScopeFault::NotFound(Text::from_slice(alloc, name)?));
    };
    if lacks_storage(places, storage, named) {
        return Err(ScopeFault::NoStorage(Text::from_slice(alloc, name)?));
    }
    Ok(named)
}

/// What each name means.
fn outputs(
    alloc: Global,
    vars: &[VarInfo],
    groups: &FullGroups,
    places: &[GroupPlace],
    storage: &[u8],
    names: &[Text],
) -> Result<List<Named>, ScopeFault>
    ensures { Answers faults.Memory
        (outputs vars.now groups.now places.now storage.now names.now) result }
{
    let mut outputs = List::empty(alloc);
    'names: for name in names {
        let name = name.as_slice();
        let named = named_by(vars, groups, name);
        outputs.push(output_of(alloc, places, storage, name, named)?)?;
    }
    Ok(outputs)
}

/// Whether one of the names means the variable, by itself or by its group.
fn is_written(named: &[Named], number: usize, group: GroupPlace) -> bool
    ensures { result ≡ is_written named.now (number, group) }
{
    named.iter().any(|named| is_of(number, group, *named))
}

/// The variables that the names mean, each once and in the order of their numbers.
fn named_ids(alloc: Global, places: &[GroupPlace], named: &[Named]) -> Result<List<VarId>, Memory>
    requires { length places.now < 2 ^ 32 }
    ensures { IfOk result (λ written. written ≡ named_ids places.now named.now) }
{
    let mut written = List::empty(alloc);
    'places: for (number, place) in places.iter().enumerate() {
        if is_written(named, number, *place) {
            written.push(VarId(number as u32))?;
        }
    }
    Ok(written)
}

/// The variables that these names give.
fn written_by(
    alloc: Global,
    vars: &[VarInfo],
    groups: &FullGroups,
    places: &[GroupPlace],
    storage: &[u8],
    names: &[Text],
) -> Result<List<VarId>, ScopeFault>
    requires { length places.now < 2 ^ 32 }
    ensures { Answers faults.Memory
        (ids_or_fault places.now (outputs vars.now groups.now places.now storage.now names.now))
        result }
{
    let named = outputs(alloc, vars, groups, places, storage, names)?;
    Ok(named_ids(alloc, places, named.as_slice())?)
}

/// The variables that are written, in the order of their numbers. `IO::out_vars` has full names of variables or groups in
/// any case, with blanks or line feeds between. A group stands for all its variables, and a variable goes before a group
/// of the same full name.
///
/// The first name counts that has a fault. NotFound: neither a variable nor a group has the name. NoStorage: no level is
/// stored of a variable that it gives.
pub fn output_variables(
    alloc: Global,
    bound: &Bound,
    values: &Values,
    storage: &List<u8>,
) -> Result<List<VarId>, ScopeFault>
    ensures { Answers faults.Memory (output_variables bound.now values.now storage.now) result }
{
    let names = output_names(alloc, values)?;
    let thorns = bound.thorns().as_slice();
    let groups = FullGroups::new(alloc, thorns)?;
    let places = group_places(alloc, thorns)?;
    written_by(
        alloc,
        bound.variables().as_slice(),
        &groups,
        places.as_slice(),
        storage.as_slice(),
        names.as_slice(),
    )
}
