//! Which entries of a place must run before which.

ghost use Rattle.std.specs.Prelude.{◌≡◌, ◌<◌, ◌==◌, ◌&&◌, map, length, slice_get, Some, IfOk, OnOk};
ghost use Rattle.std.specs.List.{All};
ghost use Rattle.std.specs.Str.{bytes_eq};
ghost use Rattle.cx_plan.specs.Lists.{once};
ghost use Rattle.cx_order_entries.specs.Entries.{is_bin};
ghost use Rattle.cx_order_least.specs.Orders.{pair_before, AddsPairs, Says};
ghost use Rattle.cx_order_entries.specs.Members.{key_name, has_number, picked_from, says_in, with_entry};
ghost use Rattle.cx_order_entries.specs.Seen.{seen_entry};

use crate::counted::Entry;
use crate::keys::entry_name;
use crate::name_numbers::Numbered;
use cx_text::{Memory, Text};
use std::alloc::Global;

/// The entry of a number at a place.
pub(crate) fn entry_at<'e, 'a>(
    entries: &'e [Entry<'a>],
    members: &[usize],
    number: usize,
) -> &'e Entry<'a>
    requires within { All (λ i. i < length entries.now) members.now }
    requires number { number < length members.now }
    ensures { let es = picked_from entries.now members.now in
        slice_get es number ≡ Some (seen_entry result.now) }
{
    &entries[members[number]]
}

/// The names of a place's entries.
pub(crate) fn names_at(
    alloc: Global,
    entries: &[Entry<'_>],
    members: &[usize],
) -> Result<Numbered, Memory>
    requires { All (λ i. i < length entries.now) members.now }
    ensures { let es = picked_from entries.now members.now in
        IfOk result (λ names. names ≡ once bytes_eq (map key_name es)) }
{
    let mut names = Numbered::new(alloc);
    'members: for number in 0..members.len() {
        let entry = entry_at(entries, members, number);
        names.insert(alloc, entry_name(entry).as_slice())?;
    }
    Ok(names)
}

/// Adds a pair, if there is a second number.
fn push_second(
    pairs: &mut Vec<(usize, usize)>,
    first: usize,
    second: Option<usize>,
) -> Result<(), Memory>
    ensures { OnOk result (AddsPairs pairs.old.items pairs.new.items
        (λ a b. a == first && is_bin b second)) }
{
    match second {
        Some(second) => {
            pairs.push((first, second))?;
            Ok(())
        }
        None => Ok(()),
    }
}

/// Adds a pair, if there are both numbers.
pub(crate) fn push_pair(
    pairs: &mut Vec<(usize, usize)>,
    first: Option<usize>,
    second: Option<usize>,
) -> Result<(), Memory>
    ensures { OnOk result (AddsPairs pairs.old.items pairs.new.items
        (λ a b. is_bin a first && is_bin b second)) }
{
    match first {
        Some(first) => push_second(pairs, first, second),
        None => Ok(()),
    }
}

/// Adds that an entry must run before those of these names.
fn push_before(
    pairs: &mut Vec<(usize, usize)>,
    alloc: Global,
    names: &Numbered,
    number: usize,
    others: &[Text],
) -> Result<(), Memory>
    ensures { OnOk result (AddsPairs pairs.old.items pairs.new.items
        (λ a b. a == number && has_number names.now others.now b)) }
{
    'others: for other in others {
        let second = names.number(alloc, other.as_slice())?;
        push_pair(pairs, Some(number), second)?;
    }
    Ok(())
}

/// Adds that an entry must run after those of these names.
fn push_after(
    pairs: &mut Vec<(usize, usize)>,
    alloc: Global,
    names: &Numbered,
    number: usize,
    others: &[Text],
) -> Result<(), Memory>
    ensures { OnOk result (AddsPairs pairs.old.items pairs.new.items
        (λ a b. has_number names.now others.now a && b == number)) }
{
    'others: for other in others {
        let first = names.number(alloc, other.as_slice())?;
        push_pair(pairs, first, Some(number))?;
    }
    Ok(())
}

/// Adds what an entry says of others.
fn push_entry(
    pairs: &mut Vec<(usize, usize)>,
    alloc: Global,
    names: &Numbered,
    number: usize,
    entry: &Entry<'_>,
) -> Result<(), Memory>
    ensures { let old = pair_before pairs.old.items in
        let says = with_entry names.now number (seen_entry entry.now) old in
        OnOk result (Says says pairs.new.items) }
{
    push_before(pairs, alloc, names, number, entry.block.before.as_slice())?;
    push_after(pairs, alloc, names, number, entry.block.after.as_slice())
}

/// Pairs of numbers at a place, of which the first must run before the second.
pub(crate) fn pairs_at(
    alloc: Global,
    entries: &[Entry<'_>],
    members: &[usize],
    names: &Numbered,
) -> Result<Vec<(usize, usize)>, Memory>
    requires { All (λ i. i < length entries.now) members.now }
    ensures { let says = says_in names.now (picked_from entries.now members.now) in
        IfOk result (λ pairs. Says says pairs.items) }
{
    let mut pairs = Vec::new(alloc);
    'members: for number in 0..members.len() {
        let entry = entry_at(entries, members, number);
        push_entry(&mut pairs, alloc, names, number, entry)?;
    }
    Ok(pairs)
}
