//! The variables and groups that names mean.

ghost use Rattle.std.specs.Prelude.{◌≡◌, ◌^◌, ◌<◌, false, length, slice_get, IfOk};
ghost use Rattle.std.specs.List.{position_from};
ghost use Rattle.std.specs.Option.{option_copied, option_map_or};
ghost use Rattle.cx_scope.specs.Naming.{fits_owner, is_same_copy, names_level, names_group, without_suffix, is_same_group, members_from};
ghost use Rattle.cx_scope.specs.Tabled.{with_base, has_variable, has_group, variable_of, level_meant, group_meant};

use crate::names::{NamedGroup, NamedVariable, Tier};
use crate::tables::Tables;
use cx_sched::Ref;
use cx_text::{List, Memory, Text, same_name};
use std::alloc::Global;

/// Whether the owner that a name has, if any, is that of the group.
fn fits_owner(owner: &Option<Text>, group: &NamedGroup) -> bool
    ensures { result ≡ fits_owner owner.now group.now }
{
    match owner {
        Some(owner) => same_name(owner.as_slice(), group.owner.as_slice()),
        None => true,
    }
}

/// Whether both mean one copy by its number, or both mean a variable without copies.
fn is_same_copy(a: Option<u32>, b: Option<u32>) -> bool
    ensures { result ≡ is_same_copy a b }
{
    match (a, b) {
        (None, None) => true,
        (Some(j), Some(k)) => j == k,
        (None, Some(_)) | (Some(_), None) => false,
    }
}

/// Whether a variable has the name with this text in place of its own.
fn names_variable(name: &Ref, base: &[u8], variable: &NamedVariable) -> bool
    ensures { result ≡ names_level (with_base name.now base.now) 0 variable.now }
{
    fits_owner(&name.owner, &variable.group)
        && same_name(base, variable.name.as_slice())
        && is_same_copy(name.copy, variable.copy)
}

/// Whether a name, which then has no copy, is that of the group.
fn names_group(name: &Ref, group: &NamedGroup) -> bool
    ensures { result ≡ names_group name.now group.now }
{
    fits_owner(&name.owner, group)
        && same_name(name.name.as_slice(), group.name.as_slice())
        && name.copy.is_none()
}

/// A name without the `_p` at its end.
fn without_suffix(name: &[u8]) -> Option<&[u8]>
    ensures { option_copied result ≡ without_suffix name.now }
{
    if name.len() < 2 {
        return None;
    }
    let end = name.len() - 2;
    if same_name(&name[end..], b"_p") {
        Some(&name[..end])
    } else {
        None
    }
}

/// Whether a thorn sees a variable in this tier, and the variable has the name with this text.
fn is_this_variable(
    tables: &Tables,
    thorn: usize,
    tier: Tier,
    name: &Ref,
    base: &[u8],
    variable: &NamedVariable,
) -> bool
    ensures { result
        ≡ has_variable tables.now thorn tier (with_base name.now base.now) variable.now }
{
    tables.is_in(thorn, tier, &variable.group) && names_variable(name, base, variable)
}

/// The first variable of the name in one tier, by its number.
fn variable_in(tables: &Tables, thorn: usize, tier: Tier, name: &Ref, base: &[u8]) -> Option<usize>
    ensures { result
        ≡ position_from (has_variable tables.now thorn tier (with_base name.now base.now)) 0
        tables.now.variables }
{
    tables.variables.as_slice().iter().position(|variable| is_this_variable(
        tables, thorn, tier, name, base, variable,
    ))
}

/// The first variable of the name in the first of these tiers that has one.
fn variable_at(
    tables: &Tables,
    thorn: usize,
    tiers: &[Tier],
    name: &Ref,
    base: &[u8],
) -> Option<usize>
    ensures { result ≡ variable_of tables.now thorn tiers.now (with_base name.now base.now) }
{
    'tiers: for tier in tiers {
        if let Some(place) = variable_in(tables, thorn, *tier, name, base) {
            return Some(place);
        }
    }
    None
}

/// The variable and the level that a name means.
pub(crate) fn find_variable(
    tables: &Tables,
    thorn: usize,
    tiers: &[Tier],
    name: &Ref,
) -> Option<(usize, usize)>
    ensures { result ≡ level_meant tables.now thorn tiers.now name.now }
{
    let mut base = name.name.as_slice();
    let mut level = 0;
    'levels: loop {
        if let Some(place) = variable_at(tables, thorn, tiers, name, base) {
            return Some((place, level));
        }
        match without_suffix(base) {
            Some(shorter) => base = shorter,
            None => return None,
        }
        level += 1;
    }
}

/// Whether a thorn sees a group in this tier, and the group has the name.
fn is_this_group(tables: &Tables, thorn: usize, tier: Tier, name: &Ref, group: &NamedGroup) -> bool
    ensures { result ≡ has_group tables.now thorn tier name.now group.now }
{
    tables.is_in(thorn, tier, group) && names_group(name, group)
}

/// Whether the group at a place has this name and is seen by the thorn in this tier.
fn is_at(tables: &Tables, thorn: usize, tier: Tier, name: &Ref, place: usize) -> bool
    ensures { result
        ≡ option_map_or (has_group tables.now thorn tier name.now)
        (slice_get tables.now.groups place) false }
{
    match tables.groups.as_slice().get(place) {
        Some(group) => is_this_group(tables, thorn, tier, name, group),
        None => false,
    }
}

/// The first group of the name in one tier, by its place among all groups.
fn group_in(tables: &Tables, thorn: usize, tier: Tier, name: &Ref) -> Option<usize>
    ensures { result
        ≡ position_from (has_group tables.now thorn tier name.now) 0 tables.now.groups }
{
    let mut next = tables.groups.first(name.name.as_slice());
    'same: while let Some(place) = next {
        if is_at(tables, thorn, tier, name, place) {
            return Some(place);
        }
        next = tables.groups.next(place);
    }
    None
}

/// The place of the group that a name means.
pub(crate) fn find_group(tables: &Tables, thorn: usize, tiers: &[Tier], name: &Ref) -> Option<usize>
    ensures { result ≡ group_meant tables.now thorn tiers.now name.now }
{
    'tiers: for tier in tiers {
        if let Some(place) = group_in(tables, thorn, *tier, name) {
            return Some(place);
        }
    }
    None
}

/// Whether two are one group: of one thorn and at one place in its file.
fn is_same_group(a: &NamedGroup, b: &NamedGroup) -> bool
    ensures { result ≡ is_same_group a.now b.now }
{
    a.thorn == b.thorn && a.place == b.place
}

/// The numbers of a group's variables.
pub(crate) fn members(
    alloc: Global,
    variables: &[NamedVariable],
    group: &NamedGroup,
) -> Result<List<u32>, Memory>
    requires { length variables.now < 2 ^ 32 }
    ensures { IfOk result (λ places. places ≡ members_from group.now 0 variables.now) }
{
    let mut places = List::empty(alloc);
    'variables: for (place, variable) in variables.iter().enumerate() {
        if is_same_group(&variable.group, group) {
            places.push(place as u32)?;
        }
    }
    Ok(places)
}
