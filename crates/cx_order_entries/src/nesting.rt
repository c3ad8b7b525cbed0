//! Groups in groups.

ghost use Rattle.std.specs.Prelude.{◌≡◌, ◌++◌, ◌∷◌, [], map, length, IfOk, OnOk};
ghost use Rattle.cx_order_entries.specs.Nested.{outer_number, puts_inside, contains_at, IsNesting, some_inside, names_at};
ghost use Rattle.cx_order_least.specs.Orders.{numbers, AddsPairs, Says};
ghost use Rattle.cx_order_entries.specs.Members.{texts, IsTied, AreGroups};
ghost use Rattle.cx_order_entries.specs.Seen.{seen_entry, seen_entries};
ghost use Rattle.cx_order_least.specs.Sorting.{IsSorted};

use crate::counted::Entry;
use crate::fault::PlaceFault;
use crate::groups::Groups;
use crate::pairs::push_pair;
use cx_order_least::{Sorted, least_order};
use cx_sched::Spot;
use cx_text::{List, Memory, Text};
use std::alloc::Global;

/// The number of the group in which an entry stands.
fn outer_number(alloc: Global, groups: &Groups<'_>, spot: &Spot) -> Result<Option<usize>, Memory>
    requires { IsTied groups.now }
    ensures { IfOk result (λ number. number ≡ outer_number (texts groups.now) spot.now) }
{
    match spot {
        Spot::Inside(name) => groups.number(alloc, name),
        Spot::At(_) => Ok(None),
    }
}

/// Adds that a group stands in another, if an entry is one that does.
fn push_inside(
    pairs: &mut Vec<(usize, usize)>,
    alloc: Global,
    groups: &Groups<'_>,
    entry: &Entry<'_>,
) -> Result<(), Memory>
    requires { IsTied groups.now }
    ensures { let inside = puts_inside (texts groups.now) (seen_entry entry.now) in
        OnOk result (AddsPairs pairs.old.items pairs.new.items inside) }
{
    if entry.block.group {
        let outer = outer_number(alloc, groups, &entry.block.spot)?;
        let inner = groups.number(alloc, &entry.block.name)?;
        return push_pair(pairs, outer, inner);
    }
    Ok(())
}

/// Pairs of groups by their numbers, of which the first contains the second.
fn inside_pairs(
    alloc: Global,
    groups: &Groups<'_>,
    entries: &[Entry<'_>],
) -> Result<Vec<(usize, usize)>, Memory>
    requires { IsTied groups.now }
    ensures { let inside = some_inside (texts groups.now) (seen_entries entries.now) in
        IfOk result (λ pairs. Says inside pairs.items) }
{
    let mut pairs = Vec::new(alloc);
    'entries: for entry in entries {
        push_inside(&mut pairs, alloc, groups, entry)?;
    }
    Ok(pairs)
}

/// An order of the groups in which each stands before those that it contains, or a cycle.
fn sorted_groups(
    alloc: Global,
    groups: &Groups<'_>,
    entries: &[Entry<'_>],
) -> Result<Sorted, Memory>
    requires { AreGroups (seen_entries entries.now) groups.now }
    ensures { let contains = contains_at (seen_entries entries.now) in
        IfOk result (IsSorted contains (numbers (length (texts groups.now)))) }
{
    let pairs = inside_pairs(alloc, groups, entries)?;
    least_order(alloc, groups.names.len(), &pairs)
}

/// Adds the name of a group, if there is one of this number.
fn push_name(
    names: &mut List<Text>,
    alloc: Global,
    groups: &[&Text],
    number: usize,
) -> Result<(), Memory>
    ensures { let texts = map (λ name. name.now) groups.now in
        OnOk result (names.new ≡ names.old ++ names_at texts (number ∷ [])) }
{
    if number < groups.len() {
        let name = groups[number].copy(alloc)?;
        return names.push(name);
    }
    Ok(())
}

/// The names of groups by their numbers.
fn names_of(alloc: Global, groups: &[&Text], numbers: &[usize]) -> Result<List<Text>, Memory>
    ensures { let texts = map (λ name. name.now) groups.now in
        IfOk result (λ names. names ≡ names_at texts numbers.now) }
{
    let mut names = List::empty(alloc);
    'numbers: for number in numbers {
        push_name(&mut names, alloc, groups, *number)?;
    }
    Ok(names)
}

/// The numbers of the groups, each before those that it contains.
pub(crate) fn nesting(
    alloc: Global,
    groups: &Groups<'_>,
    entries: &[Entry<'_>],
) -> Result<List<usize>, PlaceFault>
    requires { AreGroups (seen_entries entries.now) groups.now }
    ensures { IsNesting (seen_entries entries.now) result }
{
    match sorted_groups(alloc, groups, entries) {
        Ok(Sorted::InOrder(nested)) => Ok(nested),
        Ok(Sorted::InCycle(numbers)) => {
            match names_of(alloc, &groups.names, numbers.as_slice()) {
                Ok(names) => Err(PlaceFault::GroupCycle(names)),
                Err(_) => Err(PlaceFault::Memory),
            }
        }
        Err(_) => Err(PlaceFault::Memory),
    }
}
