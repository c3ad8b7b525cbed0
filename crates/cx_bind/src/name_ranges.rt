//! Ranges by names, in any case.

ghost use Rattle.std.specs.Prelude.{◌≡◌, [], IfOk, OnOk};
ghost use Rattle.std.specs.Map.{lookup};
ghost use Rattle.std.specs.Option.{option_copied};
ghost use Rattle.std.specs.Str.{bytes_eq};
ghost use Rattle.indexmap.specs.IndexMap.{insert_entry};
ghost use Rattle.cx_bind.specs.NameRanges.{ranges_of, AddsRanges};
ghost use Rattle.cx_text.specs.Bytes.{folded};

use crate::copies::push_ranges;
use crate::name_set::folded_name;
use cx_param::Range;
use cx_text::{List, Memory};
use indexmap::IndexMap;
use std::alloc::Global;
use std::marker::Model;

/// Ranges for each of different names. Contracts see the names in small letters, in the order in which they came.
#[derive(Drop)]
pub(crate) struct NameRanges {
    ranges: IndexMap<Vec<u8>, List<Range>>,
}

impl Model for NameRanges {
    ghost use Rattle.std.specs.Prelude.{List, ℕ, map};
    ghost use Rattle.cx_param.specs.declared.ranges.Range.{Range};

    ghost Value = { List (List ℕ × List Range) };

    ghost view = { λ named. map (λ entry. (entry.0.items, entry.1)) named.ranges.entries };
}

impl NameRanges {
    /// No names.
    pub(crate) fn new(alloc: Global) -> Self
        ensures { result ≡ [] }
    {
        NameRanges {
            ranges: IndexMap::new(alloc),
        }
    }

    /// Gives a name these ranges, and hands over those that it had.
    fn put(
        &mut self,
        alloc: Global,
        name: &[u8],
        ranges: List<Range>,
    ) -> Result<Option<List<Range>>, Memory>
        ensures had { IfOk result (λ had. had ≡ lookup (bytes_eq (folded name.now)) self.old) }
        ensures put { OnOk result
            (self.new ≡ insert_entry bytes_eq self.old (folded name.now) ranges) }
    {
        let had = self.ranges.insert(folded_name(alloc, name)?, ranges)?;
        Ok(had)
    }

    /// Hands over the ranges of a name, which has none then.
    fn take(&mut self, alloc: Global, name: &[u8]) -> Result<List<Range>, Memory>
        ensures had { IfOk result (λ had. had ≡ ranges_of (folded name.now) self.old) }
        ensures put { OnOk result (self.new ≡ insert_entry bytes_eq self.old (folded name.now) []) }
    {
        match self.put(alloc, name, List::empty(alloc))? {
            Some(ranges) => Ok(ranges),
            None => Ok(List::empty(alloc)),
        }
    }

    /// Adds copies of these ranges at the end of a name's.
    pub(crate) fn add(&mut self, alloc: Global, name: &[u8], more: &[Range]) -> Result<(), Memory>
        ensures { OnOk result (AddsRanges (folded name.now) more.now self.old self.new) }
    {
        let mut ranges = self.take(alloc, name)?;
        push_ranges(alloc, &mut ranges, more)?;
        self.put(alloc, name, ranges)?;
        Ok(())
    }

    /// The ranges of a name that has been given some.
    pub(crate) fn get(&self, alloc: Global, name: &[u8]) -> Result<Option<&List<Range>>, Memory>
        ensures { IfOk result
            (λ found. option_copied found ≡ lookup (bytes_eq (folded name.now)) self.now) }
    {
        let key = folded_name(alloc, name)?;
        Ok(self.ranges.get(&key))
    }
}
