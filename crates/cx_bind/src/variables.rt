//! The variables of thorns.

ghost use Rattle.std.specs.Prelude.{◌≡◌, ◌++◌, map, Some, IfOk, OnOk};
ghost use Rattle.std.specs.List.{flat_map, range_with_len};
ghost use Rattle.cx_bind.specs.Variables.{owner_by, group_full, is_scalar, with_copy, info_of, copy_infos, group_infos, variable_infos};

use crate::Thorn;
use crate::names::{bracketed_name, full_name};
use cx_iface::{Access, GType, Group};
use cx_plan::VarInfo;
use cx_text::{List, Memory, Text};
use std::alloc::Global;

/// What stands before the `::` of the full names of a group and its variables: the thorn for a private group, else the
/// implementation.
pub fn owner_by<'a>(access: Access, thorn: &'a Thorn) -> &'a [u8]
    ensures { result.now ≡ owner_by access thorn.now }
{
    match access {
        Access::Private => thorn.name.as_slice(),
        Access::Public | Access::Protected => thorn.interface.implements.as_slice(),
    }
}

/// The full name of a group.
pub(crate) fn group_full(alloc: Global, thorn: &Thorn, group: &Group) -> Result<Text, Memory>
    ensures { IfOk result (λ full. full ≡ group_full thorn.now group.now) }
{
    full_name(alloc, owner_by(group.access, thorn), group.name.as_slice())
}

/// Whether the variables of a group are scalars: one number each, not one at each grid point.
fn is_scalar(gtype: GType) -> bool
    ensures { result ≡ is_scalar gtype }
{
    match gtype {
        GType::Scalar => true,
        GType::Gf | GType::Array => false,
    }
}

/// The name of a copy of a variable: `name[k]`, or the name alone where there is one copy without a number.
pub fn with_copy(alloc: Global, name: &[u8], copy: Option<u32>) -> Result<Text, Memory>
    ensures { IfOk result (λ text. text ≡ with_copy name.now copy) }
{
    match copy {
        None => Text::from_slice(alloc, name),
        Some(k) => bracketed_name(alloc, name, k),
    }
}

/// What is known of one copy of a variable: full name, type, kind and time levels.
fn info_of(
    alloc: Global,
    thorn: &Thorn,
    group: &Group,
    name: &Text,
    copy: Option<u32>,
) -> Result<VarInfo, Memory>
    ensures { IfOk result (λ info. info ≡ info_of thorn.now group.now name.now copy) }
{
    let name = with_copy(alloc, name.as_slice(), copy)?;
    Ok(VarInfo {
        full: full_name(alloc, owner_by(group.access, thorn), name.as_slice())?,
        ctype: group.ctype,
        scalar: is_scalar(group.gtype),
        levels: group.levels,
    })
}

/// Adds the copies of a variable by their numbers, from 0.
fn push_numbered(
    alloc: Global,
    infos: &mut List<VarInfo>,
    thorn: &Thorn,
    group: &Group,
    name: &Text,
    count: u32,
) -> Result<(), Memory>
    ensures { OnOk result
        (infos.new ≡ infos.old
        ++ map (λ k. info_of thorn.now group.now name.now (Some k))
        (range_with_len 0 count)) }
{
    'copies: for k in 0..count {
        infos.push(info_of(alloc, thorn, group, name, Some(k))?)?;
    }
    Ok(())
}

/// Adds a variable, or all copies of one in a vector group.
fn push_copies(
    alloc: Global,
    infos: &mut List<VarInfo>,
    thorn: &Thorn,
    group: &Group,
    name: &Text,
) -> Result<(), Memory>
    ensures { OnOk result (infos.new ≡ infos.old ++ copy_infos thorn.now group.now name.now) }
{
    match group.copies {
        None => infos.push(info_of(alloc, thorn, group, name, None)?),
        Some(count) => push_numbered(alloc, infos, thorn, group, name, count),
    }
}

/// Adds the variables of a group with all their copies, in the order of the file.
fn push_names(
    alloc: Global,
    infos: &mut List<VarInfo>,
    thorn: &Thorn,
    group: &Group,
    names: &[Text],
) -> Result<(), Memory>
    ensures { OnOk result
        (infos.new ≡ infos.old ++ flat_map (copy_infos thorn.now group.now) names.now) }
{
    'names: for name in names {
        push_copies(alloc, infos, thorn, group, name)?;
    }
    Ok(())
}

/// Adds the variables of a thorn's groups, in the order of the file.
fn push_groups(
    alloc: Global,
    infos: &mut List<VarInfo>,
    thorn: &Thorn,
    groups: &[Group],
) -> Result<(), Memory>
    ensures { OnOk result (infos.new ≡ infos.old ++ flat_map (group_infos thorn.now) groups.now) }
{
    'groups: for group in groups {
        push_names(alloc, infos, thorn, group, group.variables.as_slice())?;
    }
    Ok(())
}

/// All variables, in the order of their numbers.
pub(crate) fn variable_infos(alloc: Global, thorns: &[Thorn]) -> Result<List<VarInfo>, Memory>
    ensures { IfOk result (λ infos. infos ≡ variable_infos thorns.now) }
{
    let mut infos = List::empty(alloc);
    'thorns: for thorn in thorns {
        push_groups(alloc, &mut infos, thorn, thorn.interface.groups.as_slice())?;
    }
    Ok(infos)
}
