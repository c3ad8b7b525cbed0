//! Entries of one name in one bin or group.

ghost use Rattle.std.specs.Prelude.{◌≡◌, ◌++◌, find, codes, IfOk, OnOk};
ghost use Rattle.std.specs.Option.{option_copied, option_to_list};
ghost use Rattle.cx_order_entries.specs.declared.fault.EntryFault.TheVariants as faults;
ghost use Rattle.cx_order_entries.specs.Entries.{is_group, group_text, spot_text, names_fault, two_names};
ghost use Rattle.cx_order_entries.specs.Keys.{key_of, name_fault};
ghost use Rattle.cx_text.specs.Telling.{Tells};
ghost use Rattle.cx_order_entries.specs.Seen.{seen_entry, seen_entries};

use crate::bins::{bin_name, bin_of};
use crate::counted::Entry;
use crate::fault::EntryFault;
use crate::keys::{Keys, entry_name};
use cx_sched::Spot;
use cx_text::{Memory, Text, same_name};
use std::alloc::Global;

/// Whether an entry is the group of a name.
pub(crate) fn is_group(entry: &Entry<'_>, name: &[u8]) -> bool
    ensures { result ≡ is_group name.now (seen_entry entry.now) }
{
    entry.block.group && same_name(entry.block.name.as_slice(), name)
}

/// The first block of a group.
fn first_block<'e, 'a>(entries: &'e [Entry<'a>], name: &[u8]) -> Option<&'e Entry<'a>>
    ensures { option_copied result ≡ find (λ e. is_group name.now (seen_entry e)) entries.now }
{
    entries.iter().find(|entry| is_group(entry, name))
}

/// A group's name as its first block has it, or else as it is here.
fn group_text<'a>(entries: &[Entry<'a>], name: &'a Text) -> &'a [u8]
    ensures { result.now ≡ group_text (seen_entries entries.now) name.now }
{
    match first_block(entries, name.as_slice()) {
        Some(entry) => entry.block.name.as_slice(),
        None => name.as_slice(),
    }
}

/// The name of the bin or group in which an entry stands.
fn spot_text<'a>(entries: &[Entry<'a>], spot: &'a Spot) -> &'a [u8]
    ensures { result.now ≡ spot_text (seen_entries entries.now) spot.now }
{
    match spot {
        Spot::At(name) => match bin_of(name.as_slice()) {
            Some(bin) => bin_name(bin),
            None => name.as_slice(),
        },
        Spot::Inside(name) => group_text(entries, name),
    }
}

/// Two names with `/` between.
pub fn join_names(alloc: Global, place: &[u8], name: &[u8]) -> Result<Text, Memory>
    ensures { IfOk result (λ text. text ≡ place.now ++ codes "/" ++ name.now) }
{
    let mut text = Text::from_slice(alloc, place)?;
    text.push_slice(b"/")?;
    text.push_slice(name)?;
    Ok(text)
}

/// The fault of an entry whose name another entry of its bin or group has.
fn two_names(alloc: Global, entries: &[Entry<'_>], entry: &Entry<'_>) -> Result<EntryFault, Memory>
    ensures { let told = two_names (seen_entries entries.now) (seen_entry entry.now) in
        IfOk result (λ e. e ≡ told) }
{
    let place = spot_text(entries, &entry.block.spot);
    let text = join_names(alloc, place, entry_name(entry).as_slice())?;
    Ok(EntryFault::TwoNames(text))
}

/// Adds the key of an entry, unless another entry of its bin or group has the name.
fn check_name(
    alloc: Global,
    keys: &mut Keys,
    entries: &[Entry<'_>],
    entry: &Entry<'_>,
) -> Result<(), EntryFault>
    ensures told { let es = seen_entries entries.now in
        let fault = name_fault keys.old es (seen_entry entry.now) in
        Tells faults.Memory fault result }
    ensures kept { let key = key_of (seen_entry entry.now) in
        OnOk result (keys.new ≡ keys.old ++ option_to_list key) }
{
    if keys.insert_entry(alloc, entry)? {
        return Ok(());
    }
    Err(two_names(alloc, entries, entry)?)
}

/// Tests that no two entries of one bin or group have one name.
pub fn check_names(alloc: Global, entries: &[Entry<'_>]) -> Result<(), EntryFault>
    ensures { Tells faults.Memory (names_fault (seen_entries entries.now)) result }
{
    let mut keys = Keys::new(alloc);
    'entries: for entry in entries {
        check_name(alloc, &mut keys, entries, entry)?;
    }
    Ok(())
}
