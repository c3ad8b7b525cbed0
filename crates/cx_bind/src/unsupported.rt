//! What is read, and no run serves; and limits.

ghost use Rattle.std.specs.Prelude.{◌≡◌, ◌&&◌, find, Some, None, Option};
ghost use Rattle.std.specs.List.{list_any};
ghost use Rattle.std.specs.Option.{option_copied};
ghost use Rattle.cx_bind.specs.Faults.{is_unsupported_type, is_unsupported_kind, is_unsupported_group, is_word, is_unsupported_line, unsupported_group, unsupported_line, unsupported_of, unsupported, is_grid, is_grid_but, first_group, lent, two_dims, over};
ghost use Rattle.cx_text.specs.Telling.{Tells};
ghost use Rattle.cx_bind.specs.declared.thorns.BindFault.TheVariants as faults;

use crate::variables::group_full;
use crate::{BindFault, Thorn};
use cx_iface::{GType, Group};
use cx_param::{PType, ParamDecl, Range};
use cx_text::{CType, Text};
use std::alloc::Global;

/// Whether no run serves the type: variables hold bytes and integers only.
fn is_unsupported_type(ctype: CType) -> bool
    ensures { result ≡ is_unsupported_type ctype }
{
    match ctype {
        CType::Char | CType::Real | CType::Complex => true,
        CType::Byte | CType::Int | CType::Int2 | CType::Int4 | CType::Int8 => false,
    }
}

/// Whether no run serves the kind: an array, or a scalar with more than one time level.
fn is_unsupported_kind(gtype: GType, levels: u8) -> bool
    ensures { result ≡ is_unsupported_kind gtype levels }
{
    match gtype {
        GType::Array => true,
        GType::Scalar => levels > 1,
        GType::Gf => false,
    }
}

/// Whether no run serves the group, because of its type or its kind.
fn is_unsupported_group(group: &Group) -> bool
    ensures { result ≡ is_unsupported_group group.now }
{
    is_unsupported_type(group.ctype) || is_unsupported_kind(group.gtype, group.levels)
}

/// The first group, in file order, that no run serves.
fn first_unsupported_group(groups: &[Group]) -> Option<&Group>
    ensures { option_copied result ≡ find is_unsupported_group groups.now }
{
    groups.iter().find(|group| is_unsupported_group(group))
}

/// Whether a range is one word.
fn is_word(range: &Range) -> bool
    ensures { result ≡ is_word range.now }
{
    match range {
        Range::Word(_) => true,
        Range::Ints { .. } | Range::AnyText | Range::SomeText | Range::Other(_) => false,
    }
}

/// Whether one of the ranges is a word.
fn has_word(ranges: &[Range]) -> bool
    ensures { result ≡ list_any is_word ranges.now }
{
    ranges.iter().any(|range| is_word(range))
}

/// Whether no run serves the parameter: a `REAL`, or a `STRING` with a word among its ranges.
fn is_unsupported_parameter(decl: &ParamDecl) -> bool
    ensures { result ≡ is_unsupported_line decl.now }
{
    match decl.ptype {
        PType::Real => true,
        PType::String => has_word(decl.ranges.as_slice()),
        PType::Boolean | PType::Int | PType::Keyword => false,
    }
}

/// The first line of a param file whose parameter no run serves.
fn first_unsupported_parameter(decls: &[ParamDecl]) -> Option<&ParamDecl>
    ensures { option_copied result ≡ find is_unsupported_line decls.now }
{
    decls.iter().find(|decl| is_unsupported_parameter(decl))
}

/// The fault of a thorn with a group or parameter that no run serves.
fn unsupported(alloc: Global, thorn: &Thorn, name: &Text) -> Result<(), BindFault>
    ensures { Tells faults.Memory (Some (faults.Unsupported thorn.now.name name.now)) result }
{
    Err(BindFault::Unsupported(thorn.name.copy(alloc)?, name.copy(alloc)?))
}

/// Tests that runs serve each group of a thorn.
fn check_groups_of(alloc: Global, thorn: &Thorn) -> Result<(), BindFault>
    ensures { Tells faults.Memory (unsupported_group thorn.now) result }
{
    match first_unsupported_group(thorn.interface.groups.as_slice()) {
        None => Ok(()),
        Some(group) => unsupported(alloc, thorn, &group.name),
    }
}

/// Tests that runs serve each parameter that a thorn declares, uses or extends.
fn check_parameters_of(alloc: Global, thorn: &Thorn) -> Result<(), BindFault>
    ensures { Tells faults.Memory (unsupported_line thorn.now) result }
{
    match first_unsupported_parameter(thorn.params.as_slice()) {
        None => Ok(()),
        Some(decl) => unsupported(alloc, thorn, &decl.name),
    }
}

/// Tests that runs serve a thorn's groups, and then its parameters.
fn check_supported_of(alloc: Global, thorn: &Thorn) -> Result<(), BindFault>
    ensures { Tells faults.Memory (unsupported_of thorn.now) result }
{
    check_groups_of(alloc, thorn)?;
    check_parameters_of(alloc, thorn)
}

/// Tests that runs serve each group and each parameter.
pub(crate) fn check_supported(alloc: Global, thorns: &[Thorn]) -> Result<(), BindFault>
    ensures { Tells faults.Memory (unsupported thorns.now) result }
{
    for thorn in thorns {
        check_supported_of(alloc, thorn)?;
    }
    Ok(())
}

/// Whether a group is of grid functions.
pub fn is_grid(gtype: GType) -> bool
    ensures { result ≡ is_grid gtype }
{
    match gtype {
        GType::Gf => true,
        GType::Array | GType::Scalar => false,
    }
}

/// Whether a group is of grid functions, and where a number is given, of another number of directions.
fn is_grid_but(dim: Option<u8>, group: &Group) -> bool
    ensures { result ≡ is_grid_but dim group.now }
{
    match dim {
        None => is_grid(group.gtype),
        Some(dim) => is_grid(group.gtype) && group.dim != dim,
    }
}

/// The first group of grid functions; with a number, the first that has another number of directions.
fn first_grid(dim: Option<u8>, groups: &[Group]) -> Option<&Group>
    ensures { option_copied result ≡ find (is_grid_but dim) groups.now }
{
    groups.iter().find(|group| is_grid_but(dim, group))
}

/// The first group of grid functions of all thorns, or the first of another number of directions.
fn first_grid_of_all(dim: Option<u8>, thorns: &[Thorn]) -> Option<(&Thorn, &Group)>
    ensures { lent result ≡ first_group (is_grid_but dim) thorns.now }
{
    for thorn in thorns {
        match first_grid(dim, thorn.interface.groups.as_slice()) {
            Some(group) => return Some((thorn, group)),
            None => {}
        }
    }
    None
}

/// Tests that all groups of grid functions have one number of directions.
pub(crate) fn check_dims(alloc: Global, thorns: &[Thorn]) -> Result<(), BindFault>
    ensures { Tells faults.Memory (two_dims thorns.now) result }
{
    let Some((thorn, group)) = first_grid_of_all(None, thorns) else {
        return Ok(());
    };
    let Some((other_thorn, other)) = first_grid_of_all(Some(group.dim), thorns) else {
        return Ok(());
    };
    Err(BindFault::TwoDims(
        group_full(alloc, thorn, group)?,
        group_full(alloc, other_thorn, other)?,
    ))
}

/// Tests that a number isn't above a limit.
pub(crate) fn check_limit(
    alloc: Global,
    what: &[u8],
    number: usize,
    limit: usize,
) -> Result<(), BindFault>
    ensures { Tells faults.Memory (over what.now number limit) result }
{
    if number > limit {
        return Err(BindFault::Limit(Text::from_slice(alloc, what)?, number as u64));
    }
    Ok(())
}
