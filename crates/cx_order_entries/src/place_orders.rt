//! The order of the entries at each place.

ghost use Rattle.std.specs.Prelude.{◌≡◌, ◌++◌, ◌∷◌, [], ◌<◌, length, None, IfOk, OnOk};
ghost use Rattle.std.specs.List.{All};
ghost use Rattle.cx_order_entries.specs.Entries.{names_fault};
ghost use Rattle.cx_order_least.specs.Orders.{numbers};
ghost use Rattle.cx_order_entries.specs.Members.{before_in, names_in, IsOrdered, AreMembers, AreOrdered, picked_from, NamesDiffer};
ghost use Rattle.cx_order_entries.specs.Seen.{seen_entries};
ghost use Rattle.cx_order_least.specs.Sorting.{IsSorted};

use crate::counted::Entry;
use crate::fault::PlaceFault;
use crate::keys::entry_name;
use crate::pairs::{entry_at, names_at, pairs_at};
use cx_order_least::{Links, Sorted, least_order};
use cx_text::{List, Memory, Text};
use std::alloc::Global;

/// The least order of the entries of a place, by their numbers there, or a cycle.
fn sorted_at(alloc: Global, entries: &[Entry<'_>], members: &[usize]) -> Result<Sorted, Memory>
    requires within { All (λ i. i < length entries.now) members.now }
    requires differ { NamesDiffer (picked_from entries.now members.now) }
    ensures { let es = picked_from entries.now members.now in
        IfOk result (IsSorted (before_in es) (numbers (length es))) }
{
    let names = names_at(alloc, entries, members)?;
    let pairs = pairs_at(alloc, entries, members, &names)?;
    least_order(alloc, members.len(), &pairs)
}

/// Adds the name of an entry of a place, if there is one of this number.
fn push_name(
    names: &mut List<Text>,
    alloc: Global,
    entries: &[Entry<'_>],
    members: &[usize],
    number: usize,
) -> Result<(), Memory>
    requires { All (λ i. i < length entries.now) members.now }
    ensures { let es = picked_from entries.now members.now in
        OnOk result (names.new ≡ names.old ++ names_in es (number ∷ [])) }
{
    if number < members.len() {
        let entry = entry_at(entries, members, number);
        let name = entry_name(entry).copy(alloc)?;
        return names.push(name);
    }
    Ok(())
}

/// The names of entries of a place.
fn names_of(
    alloc: Global,
    entries: &[Entry<'_>],
    members: &[usize],
    numbers: &[usize],
) -> Result<List<Text>, Memory>
    requires { All (λ i. i < length entries.now) members.now }
    ensures { let es = picked_from entries.now members.now in
        IfOk result (λ names. names ≡ names_in es numbers.now) }
{
    let mut names = List::empty(alloc);
    'numbers: for number in numbers {
        push_name(&mut names, alloc, entries, members, *number)?;
    }
    Ok(names)
}

/// The order of the entries of a place, by their numbers there.
fn order_at(
    alloc: Global,
    entries: &[Entry<'_>],
    members: &[usize],
) -> Result<List<usize>, PlaceFault>
    requires within { All (λ i. i < length entries.now) members.now }
    requires differ { NamesDiffer (picked_from entries.now members.now) }
    ensures { IsOrdered (picked_from entries.now members.now) result }
{
    match sorted_at(alloc, entries, members) {
        Ok(Sorted::InOrder(order)) => Ok(order),
        Ok(Sorted::InCycle(numbers)) => {
            match names_of(alloc, entries, members, numbers.as_slice()) {
                Ok(names) => Err(PlaceFault::Cycle(names)),
                Err(_) => Err(PlaceFault::Memory),
            }
        }
        Err(_) => Err(PlaceFault::Memory),
    }
}

/// Per place number, the order of the entries there, by their numbers there.
pub(crate) fn orders_of(
    alloc: Global,
    entries: &[Entry<'_>],
    members: &Links,
) -> Result<Links, PlaceFault>
    requires names { names_fault (seen_entries entries.now) ≡ None }
    requires members { AreMembers (seen_entries entries.now) members.now }
    ensures { AreOrdered (seen_entries entries.now) result }
{
    let mut orders = Links::new(alloc, 0)?;
    'places: for place in 0..members.len() {
        let order = order_at(alloc, entries, members.row(place))?;
        orders.push_row(order.into_vec())?;
    }
    Ok(orders)
}
