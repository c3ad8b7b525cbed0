//! Where names stand, in any case.

ghost use Rattle.std.specs.Prelude.{◌≡◌, [], IfOk, OnOk};
ghost use Rattle.std.specs.Option.{option_copied};
ghost use Rattle.std.specs.Str.{bytes_eq};
ghost use Rattle.indexmap.specs.IndexMap.{insert_entry};
ghost use Rattle.cx_bind.specs.NamePlaces.{place_of, at_name, Puts};
ghost use Rattle.cx_text.specs.Bytes.{folded};

use crate::name_set::{fold_into, folded_name, is_folded};
use cx_text::Memory;
use indexmap::IndexMap;
use std::alloc::Global;
use std::marker::Model;

/// Names up to this length are asked for by a copy in small letters, which takes no memory; longer ones, which no file that is read
/// has, are looked for one by one.
const LONGEST: usize = 256;

/// A place for each of different names. Contracts see the names in small letters, in the order in which they came.
#[derive(Debug, Drop)]
pub struct NamePlaces {
    places: IndexMap<Vec<u8>, usize>,
}

impl Model for NamePlaces {
    ghost use Rattle.std.specs.Prelude.{List, ℕ, map};

    ghost Value = { List (List ℕ × ℕ) };

    ghost view = { λ named. map (λ entry. (entry.0.items, entry.1)) named.places.entries };
}

impl NamePlaces {
    /// No names.
    pub fn new(alloc: Global) -> Self
        ensures { result ≡ [] }
    {
        NamePlaces {
            places: IndexMap::new(alloc),
        }
    }

    /// Gives a name a place, in place of the one that it had.
    pub fn insert(&mut self, alloc: Global, name: &[u8], place: usize) -> Result<(), Memory>
        ensures put { OnOk result
            (self.new ≡ insert_entry bytes_eq self.old (folded name.now) place) }
        ensures places { OnOk result (Puts name.now place self.old self.new) }
    {
        self.places.insert(folded_name(alloc, name)?, place)?;
        Ok(())
    }

    /// The place of a name that has one.
    pub fn get(&self, alloc: Global, name: &[u8]) -> Result<Option<usize>, Memory>
        ensures { IfOk result (λ place. place ≡ place_of self.now name.now) }
    {
        let key = folded_name(alloc, name)?;
        Ok(self.places.get(&key).copied())
    }

    /// The place of a name that has one. This takes no memory.
    pub fn find(&self, name: &[u8]) -> Option<usize>
        ensures { result ≡ place_of self.now name.now }
    {
        if name.len() > LONGEST {
            return self.search(name);
        }
        let mut letters = [0; LONGEST];
        let folded = fold_into(name, &mut letters);
        self.places.get(folded).copied()
    }

    /// The place of a name that has one, by a look at each.
    fn search(&self, name: &[u8]) -> Option<usize>
        ensures { result ≡ place_of self.now name.now }
    {
        'names: for (key, place) in self.places.iter() {
            if is_folded(name, key) {
                return Some(*place);
            }
        }
        None
    }

    /// The item of a list at the place of a name.
    pub(crate) fn at_name<'a, T>(
        &self,
        alloc: Global,
        all: &'a [T],
        name: &[u8],
    ) -> Result<Option<&'a T>, Memory>
        ensures { IfOk result (λ found. option_copied found ≡ at_name all.now self.now name.now) }
    {
        match self.get(alloc, name)? {
            Some(place) => Ok(all.get(place)),
            None => Ok(None),
        }
    }
}
