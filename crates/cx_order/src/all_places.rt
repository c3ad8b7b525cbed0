//! What is known of all places. Each is looked at once.

ghost use Rattle.std.specs.Prelude.{◌≡◌, ◌<◌, length, option_copied, IfOk};
ghost use Rattle.cx_order_entries.specs.Placement.{IsPlaced};
ghost use Rattle.cx_order_entries.specs.PlaceNumbers.{place_count};
ghost use Rattle.cx_order_entries.specs.Seen.{seen_entries};
ghost use Rattle.cx_order.specs.Summaries.{numbers_at, inside_at, IsPlaceSummary, AreOfGroups, AreOfBins, IsNumberSummary};

use crate::meaning::Meaning;
use crate::planning::picked_numbers;
use crate::summary::{Summary, entry_summary};
use cx_order_entries::{BINS, Entry, Placed};
use cx_scope::ScopeFault;
use cx_text::Memory;
use std::alloc::Global;

/// The numbers of a place's entries among all, in the order in which they run.
fn numbers_at(alloc: Global, placed: &Placed, place: usize) -> Result<Vec<usize>, Memory>
    requires members { place < length placed.now.members }
    requires orders { place < length placed.now.orders }
    ensures { IfOk result (λ numbers. numbers.items ≡ numbers_at placed.now place) }
{
    let members = placed.members.row(place);
    let order = placed.orders.row(place);
    Ok(picked_numbers(alloc, members, order)?)
}

/// What is known of the contents of an entry by its number.
fn inside_at<'t, 'm>(
    places: &[Option<usize>],
    table: &'t [Summary<'m>],
    number: usize,
) -> Option<&'t Summary<'m>>
    ensures { option_copied result ≡ inside_at places.now table.now number }
{
    match places.get(number) {
        Some(Some(place)) => table.get(*place),
        _ => None,
    }
}

/// What is known of an entry by its number.
fn number_summary<'m>(
    alloc: Global,
    entries: &[Entry<'_>],
    places: &[Option<usize>],
    meanings: &'m [Result<Meaning, ScopeFault>],
    table: &[Summary<'m>],
    number: usize,
) -> Result<Summary<'m>, Memory>
    requires entry { number < length entries.now }
    requires meaning { number < length meanings.now }
    ensures { let inside = inside_at places.now table.now number in
        IfOk result
        (IsNumberSummary meanings.now (seen_entries entries.now) number inside) }
{
    entry_summary(
        alloc,
        &entries[number],
        &meanings[number],
        inside_at(places, table, number),
    )
}

/// What is known of the entries of a place.
fn place_summary<'m>(
    alloc: Global,
    entries: &[Entry<'_>],
    placed: &Placed,
    meanings: &'m [Result<Meaning, ScopeFault>],
    table: &[Summary<'m>],
    place: usize,
) -> Result<Summary<'m>, Memory>
    requires placed { IsPlaced (seen_entries entries.now) placed.now }
    requires meanings { length meanings.now ≡ length entries.now }
    requires place { place < place_count (seen_entries entries.now) }
    ensures { let es = seen_entries entries.now in
        IfOk result (IsPlaceSummary meanings.now es placed.now table.now place) }
{
    let places = placed.inside.as_slice();
    let numbers = numbers_at(alloc, placed, place)?;
    let mut summary = Summary::nothing();
    'numbers: for at in (0..numbers.len()).rev() {
        let first = number_summary(alloc, entries, places, meanings, table, numbers[at])?;
        summary = first.before(summary);
    }
    Ok(summary)
}

/// As many places of which nothing is known.
fn unknown_places<'m>(alloc: Global, count: usize) -> Result<Vec<Summary<'m>>, Memory>
    ensures { IfOk result (λ table. length table.items ≡ count) }
{
    let mut table = Vec::new(alloc);
    'places: for _ in 0..count {
        table.push(Summary::nothing())?;
    }
    Ok(table)
}

/// What is known of groups, each of which is looked at behind those that it contains.
fn group_summaries<'m>(
    alloc: Global,
    entries: &[Entry<'_>],
    placed: &Placed,
    meanings: &'m [Result<Meaning, ScopeFault>],
) -> Result<Vec<Summary<'m>>, Memory>
    requires placed { IsPlaced (seen_entries entries.now) placed.now }
    requires meanings { length meanings.now ≡ length entries.now }
    ensures size { let count = place_count (seen_entries entries.now) in
        IfOk result (λ table. length table.items ≡ count) }
    ensures known { let es = seen_entries entries.now in
        IfOk result (λ table. AreOfGroups meanings.now es placed.now table.items) }
{
    let groups = placed.nested.as_slice();
    let mut table = unknown_places(alloc, BINS + groups.len())?;
    'groups: for at in (0..groups.len()).rev() {
        let place = BINS + groups[at];
        table[place] = place_summary(alloc, entries, placed, meanings, &table, place)?;
    }
    Ok(table)
}

/// What is known of each bin.
pub(crate) fn bin_summaries<'m>(
    alloc: Global,
    entries: &[Entry<'_>],
    placed: &Placed,
    meanings: &'m [Result<Meaning, ScopeFault>],
) -> Result<Vec<Summary<'m>>, Memory>
    requires placed { IsPlaced (seen_entries entries.now) placed.now }
    requires meanings { length meanings.now ≡ length entries.now }
    ensures { let es = seen_entries entries.now in
        IfOk result (λ bins. AreOfBins meanings.now es placed.now bins.items) }
{
    let table = group_summaries(alloc, entries, placed, meanings)?;
    let mut bins = Vec::new(alloc);
    'bins: for bin in 0..BINS {
        bins.push(place_summary(alloc, entries, placed, meanings, &table, bin)?)?;
    }
    Ok(bins)
}
