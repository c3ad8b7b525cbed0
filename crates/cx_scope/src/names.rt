//! The groups and variables of thorns, as names find them.

ghost use Rattle.std.specs.Prelude.{◌≡◌, ◌++◌, map, Some, IfOk, OnOk};
ghost use Rattle.std.specs.List.{flat_map, range_with_len, enumerate_from};
ghost use Rattle.cx_scope.specs.Names.{named_group, named_groups, named_copy, copies_of, variables_in, named_variables};

use cx_bind::{Thorn, owner_by};
use cx_iface::{Access, Group};
use cx_text::{List, Memory, Text};
use std::alloc::Global;

/// Some of the groups of all thorns, as one thorn looks at them.
#[derive(Clone, Copy, Debug, PartialEq, Eq)]
pub(crate) enum Tier {
    /// Its own groups.
    Own,
    /// The public groups of its ancestors.
    Inherited,
    /// The protected groups of its friends.
    Friends,
    /// All groups.
    Any,
}

/// A group, as names find it.
#[derive(Debug, Drop)]
pub(crate) struct NamedGroup {
    /// The number of its thorn.
    pub(crate) thorn: usize,
    /// Its place in the thorn's file.
    pub(crate) place: usize,
    pub(crate) access: Access,
    /// What stands before the `::` of its full name.
    pub(crate) owner: Text,
    pub(crate) name: Text,
}

/// A variable, as names find it.
#[derive(Debug, Drop)]
pub(crate) struct NamedVariable {
    pub(crate) group: NamedGroup,
    /// Its name without the number of its copy.
    pub(crate) name: Text,
    pub(crate) copy: Option<u32>,
}

/// A group with its thorn and what names need of it: access, owner and name.
fn named_group(
    alloc: Global,
    number: usize,
    thorn: &Thorn,
    place: usize,
    group: &Group,
) -> Result<NamedGroup, Memory>
    ensures { IfOk result (λ named. named ≡ named_group (number, thorn.now) (place, group.now)) }
{
    Ok(NamedGroup {
        thorn: number,
        place,
        access: group.access,
        owner: Text::from_slice(alloc, owner_by(group.access, thorn))?,
        name: Text::from_slice(alloc, group.name.as_slice())?,
    })
}

/// Adds the groups of one thorn, in the order of its file.
fn push_groups(
    alloc: Global,
    named: &mut List<NamedGroup>,
    number: usize,
    thorn: &Thorn,
    groups: &[Group],
) -> Result<(), Memory>
    ensures { OnOk result
        (named.new ≡ named.old
        ++ map (named_group (number, thorn.now)) (enumerate_from 0 groups.now)) }
{
    'groups: for (place, group) in groups.iter().enumerate() {
        named.push(named_group(alloc, number, thorn, place, group)?)?;
    }
    Ok(())
}

/// All groups, in the order of activation and of the files.
pub(crate) fn named_groups(alloc: Global, thorns: &[Thorn]) -> Result<List<NamedGroup>, Memory>
    ensures { IfOk result (λ named. named ≡ named_groups thorns.now) }
{
    let mut named = List::empty(alloc);
    'thorns: for (number, thorn) in thorns.iter().enumerate() {
        let groups = thorn.interface.groups.as_slice();
        push_groups(alloc, &mut named, number, thorn, groups)?;
    }
    Ok(named)
}

/// A copy of a group with its owner and its name.
fn copy_group(alloc: Global, group: &NamedGroup) -> Result<NamedGroup, Memory>
    ensures { IfOk result (λ copy. copy ≡ group.now) }
{
    Ok(NamedGroup {
        thorn: group.thorn,
        place: group.place,
        access: group.access,
        owner: Text::from_slice(alloc, group.owner.as_slice())?,
        name: Text::from_slice(alloc, group.name.as_slice())?,
    })
}

/// A variable of a group, or one copy of it.
fn named_variable(
    alloc: Global,
    group: &NamedGroup,
    name: &Text,
    copy: Option<u32>,
) -> Result<NamedVariable, Memory>
    ensures { IfOk result (λ variable. variable ≡ named_copy group.now name.now copy) }
{
    Ok(NamedVariable {
        group: copy_group(alloc, group)?,
        name: Text::from_slice(alloc, name.as_slice())?,
        copy,
    })
}

/// Adds the copies of a variable by their numbers, from 0.
fn push_numbered(
    alloc: Global,
    named: &mut List<NamedVariable>,
    group: &NamedGroup,
    name: &Text,
    count: u32,
) -> Result<(), Memory>
    ensures { OnOk result
        (named.new ≡ named.old
        ++ map (λ k. named_copy group.now name.now (Some k)) (range_with_len 0 count)) }
{
    'copies: for k in 0..count {
        named.push(named_variable(alloc, group, name, Some(k))?)?;
    }
    Ok(())
}

/// Adds a variable, or all copies of one in a vector group.
fn push_copies(
    alloc: Global,
    named: &mut List<NamedVariable>,
    group: &NamedGroup,
    copies: Option<u32>,
    name: &Text,
) -> Result<(), Memory>
    ensures { OnOk result (named.new ≡ named.old ++ copies_of group.now copies name.now) }
{
    match copies {
        None => named.push(named_variable(alloc, group, name, None)?),
        Some(count) => push_numbered(alloc, named, group, name, count),
    }
}

/// Adds the variables of a group with all their copies, in the order of the file.
fn push_names(
    alloc: Global,
    named: &mut List<NamedVariable>,
    group: &NamedGroup,
    copies: Option<u32>,
    names: &[Text],
) -> Result<(), Memory>
    ensures { OnOk result
        (named.new ≡ named.old ++ flat_map (copies_of group.now copies) names.now) }
{
    'names: for name in names {
        push_copies(alloc, named, group, copies, name)?;
    }
    Ok(())
}

/// Adds all variables of one group.
fn push_variables_in(
    alloc: Global,
    named: &mut List<NamedVariable>,
    number: usize,
    thorn: &Thorn,
    place: usize,
    group: &Group,
) -> Result<(), Memory>
    ensures { OnOk result
        (named.new ≡ named.old ++ variables_in (number, thorn.now) (place, group.now)) }
{
    let known = named_group(alloc, number, thorn, place, group)?;
    push_names(
        alloc,
        named,
        &known,
        group.copies,
        group.variables.as_slice(),
    )
}

/// Adds all variables of one thorn, group by group.
fn push_variables(
    alloc: Global,
    named: &mut List<NamedVariable>,
    number: usize,
    thorn: &Thorn,
    groups: &[Group],
) -> Result<(), Memory>
    ensures { OnOk result
        (named.new ≡ named.old
        ++ flat_map (variables_in (number, thorn.now)) (enumerate_from 0 groups.now)) }
{
    'groups: for (place, group) in groups.iter().enumerate() {
        push_variables_in(alloc, named, number, thorn, place, group)?;
    }
    Ok(())
}

/// All variables, in the order of their numbers.
pub(crate) fn named_variables(
    alloc: Global,
    thorns: &[Thorn],
) -> Result<List<NamedVariable>, Memory>
    ensures { IfOk result (λ named. named ≡ named_variables thorns.now) }
{
    let mut named = List::empty(alloc);
    'thorns: for (number, thorn) in thorns.iter().enumerate() {
        let groups = thorn.interface.groups.as_slice();
        push_variables(alloc, &mut named, number, thorn, groups)?;
    }
    Ok(named)
}
