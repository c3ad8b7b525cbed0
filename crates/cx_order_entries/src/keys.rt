//! Keys of entries: two entries have one key exactly if they have one name in one bin or group.

ghost use Rattle.std.specs.Prelude.{◌≡◌, ◌++◌, not, IsTrue, ◌<◌, [], ◌∷◌, Some, IfOk, OnOk};
ghost use Rattle.std.specs.Option.{option_map, option_to_list};
ghost use Rattle.cx_order_entries.specs.Keys.{Key, place_key, key_of, has_key};
ghost use Rattle.cx_order_entries.specs.Entries.{entry_name};
ghost use Rattle.cx_order_entries.specs.Seen.{seen_entry};
ghost use Rattle.cx_plan.specs.Lookups.{bin_count};
ghost use Rattle.cx_text.specs.Bytes.{folded};

use crate::bins::bin_of;
use crate::counted::Entry;
use cx_sched::Spot;
use cx_text::{Memory, Text};
use indexmap::IndexSet;
use std::alloc::Global;
use std::marker::Model;

/// Adds a name in small letters.
fn push_folded(bytes: &mut Vec<u8>, name: &[u8]) -> Result<(), Memory>
    ensures { OnOk result (bytes.new.items ≡ bytes.old.items ++ folded name.now) }
{
    'name: for byte in name {
        bytes.push(byte.to_ascii_lowercase())?;
    }
    Ok(())
}

/// A name in small letters.
pub(crate) fn folded_name(alloc: Global, name: &[u8]) -> Result<Vec<u8>, Memory>
    ensures { IfOk result (λ bytes. bytes.items ≡ folded name.now) }
{
    let mut bytes = Vec::new(alloc);
    push_folded(&mut bytes, name)?;
    Ok(bytes)
}

/// The key of a bin: a 0 and its number.
fn bin_key(alloc: Global, bin: usize) -> Result<Vec<u8>, Memory>
    requires { bin < bin_count }
    ensures { IfOk result (λ bytes. bytes.items ≡ 0 ∷ bin ∷ []) }
{
    let mut bytes = Vec::new(alloc);
    bytes.push(0)?;
    bytes.push(bin as u8)?;
    Ok(bytes)
}

/// The key of a group: a 1 and its name in small letters.
fn group_key(alloc: Global, group: &[u8]) -> Result<Vec<u8>, Memory>
    ensures { IfOk result (λ bytes. bytes.items ≡ 1 ∷ folded group.now) }
{
    let mut bytes = Vec::new(alloc);
    bytes.push(1)?;
    push_folded(&mut bytes, group)?;
    Ok(bytes)
}

/// The key of the bin or group that an entry is placed in; none for an unknown bin.
fn place_key(alloc: Global, spot: &Spot) -> Result<Option<Vec<u8>>, Memory>
    ensures { IfOk result (λ key. option_map (λ bytes. bytes.items) key ≡ place_key spot.now) }
{
    match spot {
        Spot::At(name) => match bin_of(name.as_slice()) {
            Some(bin) => {
                let key = bin_key(alloc, bin)?;
                Ok(Some(key))
            }
            None => Ok(None),
        },
        Spot::Inside(name) => {
            let key = group_key(alloc, name.as_slice())?;
            Ok(Some(key))
        }
    }
}

/// An entry's name: its alias, else its own name.
pub fn entry_name<'a>(entry: &Entry<'a>) -> &'a Text
    ensures { result.now ≡ entry_name (seen_entry entry.now) }
{
    match &entry.block.alias {
        Some(alias) => alias,
        None => &entry.block.name,
    }
}

/// Different keys. Contracts see them in the order in which they came.
#[derive(Drop)]
pub(crate) struct Keys {
    keys: IndexSet<(Vec<u8>, Vec<u8>)>,
}

impl Model for Keys {
    ghost use Rattle.std.specs.Prelude.{List, ℕ, map};

    ghost Value = { List (List ℕ × List ℕ) };

    ghost view = { λ keys. map (λ key. (key.0.items, key.1.items)) keys.keys.keys };
}

impl Keys {
    /// No keys.
    pub(crate) fn new(alloc: Global) -> Self
        ensures { result ≡ [] }
    {
        Keys {
            keys: IndexSet::new(alloc),
        }
    }

    /// Adds a key that isn't there, and says whether it wasn't.
    fn insert(&mut self, place: Vec<u8>, name: Vec<u8>) -> Result<bool, Memory>
        ensures new { let key = Some (place.items, name.items) in
            IfOk result (λ new. new ≡ not (has_key self.old key)) }
        ensures added { let key : Key = (place.items, name.items) in
            IfOk result (λ new. IsTrue new → self.new ≡ self.old ++ key ∷ []) }
    {
        let new = self.keys.insert((place, name))?;
        Ok(new)
    }

    /// Adds the key of an entry, if it has one that isn't there, and says whether there is none that was.
    pub(crate) fn insert_entry(&mut self, alloc: Global, entry: &Entry<'_>) -> Result<bool, Memory>
        ensures new { let key = key_of (seen_entry entry.now) in
            IfOk result (λ new. new ≡ not (has_key self.old key)) }
        ensures added { let key = key_of (seen_entry entry.now) in
            IfOk result (λ new. IsTrue new → self.new ≡ self.old ++ option_to_list key) }
    {
        match place_key(alloc, &entry.block.spot)? {
            Some(place) => {
                let name = folded_name(alloc, entry_name(entry).as_slice())?;
                self.insert(place, name)
            }
            None => Ok(true),
        }
    }
}
