//! The groups of thorns by their full names, and the group of each variable.

ghost use Rattle.std.specs.Prelude.{◌≡◌, ◌++◌, find, map, IfOk, OnOk};
ghost use Rattle.std.specs.List.{flat_map, enumerate_from, range_with_len};
ghost use Rattle.std.specs.Option.{option_copied};
ghost use Rattle.cx_bind.specs.NamePlaces.{LeadToFirst};
ghost use Rattle.cx_bind.specs.Variables.{owner_by};
ghost use Rattle.cx_job.specs.Outputs.{has_full_name, full_group, full_groups, full_groups_in, places_of_copies, places_of_names, places_in, places_in_groups, places_of, group_places};

use cx_bind::{NamePlaces, Thorn, full_name};
use cx_iface::{Access, Group};
use cx_text::{List, Memory, Text};
use std::alloc::Global;
use std::marker::Model;

/// A group, by its thorn's number and its place in the thorn's file.
#[derive(Clone, Copy, Debug, Drop, PartialEq, Eq)]
pub(crate) struct GroupPlace {
    pub(crate) thorn: usize,
    pub(crate) place: usize,
}

/// A group with its full name.
#[derive(Debug, Drop)]
pub(crate) struct FullGroup {
    pub(crate) at: GroupPlace,
    pub(crate) full: Text,
}

/// Groups that are found by their full names without a search. Contracts see the list.
#[derive(Drop)]
pub(crate) struct FullGroups {
    list: List<FullGroup>,
    firsts: NamePlaces,
}

impl Model for FullGroups {
    ghost use Rattle.std.specs.Prelude.{List as ListOf};
    ghost use Rattle.cx_job.specs.declared.groups.FullGroup.{FullGroup};
    ghost use Rattle.cx_bind.specs.NamePlaces.{LeadToFirst};
    ghost use Rattle.cx_job.specs.Outputs.{has_full_name};

    ghost Value = { ListOf FullGroup };

    ghost view = { λ groups. groups.list };

    ghost invariant = { λ groups.
        LeadToFirst has_full_name groups.list groups.firsts groups.list };
}

/// What stands before the `::` of a group's full name.
fn owner_by<'a>(access: Access, thorn: &'a Thorn) -> &'a [u8]
    ensures { result.now ≡ owner_by access thorn.now }
{
    match access {
        Access::Private => thorn.name.as_slice(),
        Access::Public | Access::Protected => thorn.interface.implements.as_slice(),
    }
}

/// A group by its full name, with its thorn and its place in the thorn's file.
fn full_group(
    alloc: Global,
    number: usize,
    thorn: &Thorn,
    place: usize,
    group: &Group,
) -> Result<FullGroup, Memory>
    ensures { IfOk result (λ full. full ≡ full_group (number, thorn.now) (place, group.now)) }
{
    let owner = owner_by(group.access, thorn);
    Ok(FullGroup {
        at: GroupPlace {
            thorn: number,
            place,
        },
        full: full_name(alloc, owner, group.name.as_slice())?,
    })
}

/// Adds the groups of one thorn with their full names, in the order of its file.
fn push_groups(
    alloc: Global,
    full: &mut List<FullGroup>,
    number: usize,
    thorn: &Thorn,
    groups: &[Group],
) -> Result<(), Memory>
    ensures { OnOk result (full.new ≡ full.old ++ full_groups_in (number, thorn.now) groups.now) }
{
    'groups: for (place, group) in groups.iter().enumerate() {
        full.push(full_group(alloc, number, thorn, place, group)?)?;
    }
    Ok(())
}

/// All groups, in the order of activation and of the files.
fn full_groups(alloc: Global, thorns: &[Thorn]) -> Result<List<FullGroup>, Memory>
    ensures { IfOk result (λ full. full ≡ full_groups thorns.now) }
{
    let mut full = List::empty(alloc);
    'thorns: for (number, thorn) in thorns.iter().enumerate() {
        let groups = thorn.interface.groups.as_slice();
        push_groups(alloc, &mut full, number, thorn, groups)?;
    }
    Ok(full)
}

/// The places of the first groups of each full name, from the last group to the first.
fn first_places(alloc: Global, groups: &[FullGroup]) -> Result<NamePlaces, Memory>
    ensures { IfOk result (λ firsts. LeadToFirst has_full_name groups.now firsts groups.now) }
{
    let mut firsts = NamePlaces::new(alloc);
    let mut place = groups.len();
    'groups: while place > 0 {
        place -= 1;
        firsts.insert(alloc, groups[place].full.as_slice(), place)?;
    }
    Ok(firsts)
}

impl FullGroups {
    /// The groups of these thorns.
    pub(crate) fn new(alloc: Global, thorns: &[Thorn]) -> Result<Self, Memory>
        ensures { IfOk result (λ groups. groups ≡ full_groups thorns.now) }
    {
        let list = full_groups(alloc, thorns)?;
        let firsts = first_places(alloc, list.as_slice())?;
        Ok(FullGroups { list, firsts })
    }

    /// The first group of a full name.
    pub(crate) fn named(&self, name: &[u8]) -> Option<&FullGroup>
        ensures { option_copied result ≡ find (has_full_name name.now) self.now }
    {
        match self.firsts.find(name) {
            Some(place) => self.list.as_slice().get(place),
            None => None,
        }
    }
}

/// Adds the place of a group once for each copy of a variable.
fn push_numbered(places: &mut List<GroupPlace>, at: GroupPlace, count: u32) -> Result<(), Memory>
    ensures { OnOk result (places.new ≡ places.old ++ map (λ k. at) (range_with_len 0 count)) }
{
    'copies: for _ in 0..count {
        places.push(at)?;
    }
    Ok(())
}

/// Adds the place of a group for a variable, or once for each of its copies.
fn push_copies(
    places: &mut List<GroupPlace>,
    at: GroupPlace,
    copies: Option<u32>,
) -> Result<(), Memory>
    ensures { OnOk result (places.new ≡ places.old ++ places_of_copies at copies) }
{
    match copies {
        None => places.push(at),
        Some(count) => push_numbered(places, at, count),
    }
}

/// Adds the place of a group once for each of its variables and their copies.
fn push_names(
    places: &mut List<GroupPlace>,
    at: GroupPlace,
    copies: Option<u32>,
    names: &[Text],
) -> Result<(), Memory>
    ensures { OnOk result (places.new ≡ places.old ++ places_of_names at copies names.now) }
{
    'names: for _ in names {
        push_copies(places, at, copies)?;
    }
    Ok(())
}

/// Adds the place of a group once for each variable in it.
fn push_places_in(
    places: &mut List<GroupPlace>,
    number: usize,
    thorn: &Thorn,
    place: usize,
    group: &Group,
) -> Result<(), Memory>
    ensures { OnOk result
        (places.new ≡ places.old ++ places_in (number, thorn.now) (place, group.now)) }
{
    let at = GroupPlace {
        thorn: number,
        place,
    };
    push_names(places, at, group.copies, group.variables.as_slice())
}

/// Adds for each variable of one thorn the place of its group.
fn push_places(
    places: &mut List<GroupPlace>,
    number: usize,
    thorn: &Thorn,
    groups: &[Group],
) -> Result<(), Memory>
    ensures { OnOk result
        (places.new ≡ places.old ++ places_in_groups (number, thorn.now) groups.now) }
{
    'groups: for (place, group) in groups.iter().enumerate() {
        push_places_in(places, number, thorn, place, group)?;
    }
    Ok(())
}

/// The group of each variable, in the order of the variables' numbers.
pub(crate) fn group_places(alloc: Global, thorns: &[Thorn]) -> Result<List<GroupPlace>, Memory>
    ensures { IfOk result (λ places. places ≡ group_places thorns.now) }
{
    let mut places = List::empty(alloc);
    'thorns: for (number, thorn) in thorns.iter().enumerate() {
        let groups = thorn.interface.groups.as_slice();
        push_places(&mut places, number, thorn, groups)?;
    }
    Ok(places)
}
