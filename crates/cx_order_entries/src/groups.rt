//! Groups by their numbers.

ghost use Rattle.std.specs.Prelude.{◌≡◌, ◌∷◌, [], ◌+◌, ◌<◌, map, length, position, IfOk, OnOk, IfSome};
ghost use Rattle.cx_text.specs.Lexemes.{same_name};
ghost use Rattle.cx_order_entries.specs.PlaceNumbers.{spot_names, block_names};
ghost use Rattle.cx_plan.specs.Lookups.{bin_count};
ghost use Rattle.cx_order_entries.specs.Members.{texts, IsTied, AreGroups, spot_number, inside_of, AddsNames, group_place};
ghost use Rattle.cx_order_entries.specs.Seen.{seen_entry, seen_entries};

use crate::bins::{BINS, bin_of};
use crate::counted::Entry;
use crate::name_numbers::Numbered;
use cx_sched::Spot;
use cx_text::{Memory, Text};
use std::alloc::Global;

/// The names of groups, as each stands first.
#[derive(Drop)]
pub(crate) struct Groups<'a> {
    pub numbers: Numbered,
    pub names: Vec<&'a Text>,
}

impl<'a> Groups<'a> {
    /// No groups.
    fn new(alloc: Global) -> Self
        ensures tied { IsTied result }
        ensures names { texts result ≡ [] }
    {
        Groups {
            numbers: Numbered::new(alloc),
            names: Vec::new(alloc),
        }
    }

    /// Adds a name that isn't there.
    fn add(&mut self, alloc: Global, name: &'a Text) -> Result<(), Memory>
        requires { IsTied self.old }
        ensures tied { OnOk result (IsTied self.new) }
        ensures names { OnOk result (AddsNames self.old self.new (name.now ∷ [])) }
    {
        if self.numbers.insert(alloc, name.as_slice())? {
            self.names.push(name)?;
        }
        Ok(())
    }

    /// Adds the names of groups' blocks.
    fn add_blocks(&mut self, alloc: Global, entries: &[Entry<'a>]) -> Result<(), Memory>
        requires { IsTied self.old }
        ensures tied { OnOk result (IsTied self.new) }
        ensures names { let names = block_names (seen_entries entries.now) in
            OnOk result (AddsNames self.old self.new names) }
    {
        'entries: for entry in entries {
            if entry.block.group {
                self.add(alloc, &entry.block.name)?;
            }
        }
        Ok(())
    }

    /// Adds the names of groups in which entries stand.
    fn add_spots(&mut self, alloc: Global, entries: &[Entry<'a>]) -> Result<(), Memory>
        requires { IsTied self.old }
        ensures tied { OnOk result (IsTied self.new) }
        ensures names { let names = spot_names (seen_entries entries.now) in
            OnOk result (AddsNames self.old self.new names) }
    {
        'entries: for entry in entries {
            match &entry.block.spot {
                Spot::Inside(name) => self.add(alloc, name)?,
                Spot::At(_) => {}
            }
        }
        Ok(())
    }

    /// The groups of entries.
    pub(crate) fn of(alloc: Global, entries: &[Entry<'a>]) -> Result<Self, Memory>
        ensures { IfOk result (λ groups. AreGroups (seen_entries entries.now) groups) }
    {
        let mut groups = Groups::new(alloc);
        groups.add_blocks(alloc, entries)?;
        groups.add_spots(alloc, entries)?;
        Ok(groups)
    }

    /// The number of a group by its name.
    pub(crate) fn number(&self, alloc: Global, name: &Text) -> Result<Option<usize>, Memory>
        requires { IsTied self.now }
        ensures number { IfOk result
            (λ number. number ≡ position (same_name name.now) (texts self.now)) }
        ensures within { IfOk result (λ number. IfSome number (λ k. k < length (texts self.now))) }
    {
        self.numbers.number(alloc, name.as_slice())
    }

    /// The place number of a group by its name.
    fn place(&self, alloc: Global, name: &Text) -> Result<Option<usize>, Memory>
        requires { IsTied self.now }
        ensures number { IfOk result (λ number. number ≡ group_place (texts self.now) name.now) }
        ensures within { IfOk result
            (λ number. IfSome number (λ k. k < bin_count + length (texts self.now))) }
    {
        match self.number(alloc, name)? {
            Some(number) => Ok(Some(BINS + number)),
            None => Ok(None),
        }
    }

    /// The place number of a bin or group.
    pub(crate) fn place_of(&self, alloc: Global, spot: &Spot) -> Result<Option<usize>, Memory>
        requires { IsTied self.now }
        ensures number { IfOk result (λ number. number ≡ spot_number (texts self.now) spot.now) }
        ensures within { IfOk result
            (λ number. IfSome number (λ k. k < bin_count + length (texts self.now))) }
    {
        match spot {
            Spot::At(name) => Ok(bin_of(name.as_slice())),
            Spot::Inside(name) => self.place(alloc, name),
        }
    }

    /// The place number of the group that an entry is.
    fn inside_of(&self, alloc: Global, entry: &Entry<'_>) -> Result<Option<usize>, Memory>
        requires { IsTied self.now }
        ensures { IfOk result
            (λ number. number ≡ inside_of (texts self.now) (seen_entry entry.now)) }
    {
        if entry.block.group {
            return self.place(alloc, &entry.block.name);
        }
        Ok(None)
    }

    /// Per entry, the place number of the group that it is.
    pub(crate) fn inside(
        &self,
        alloc: Global,
        entries: &[Entry<'_>],
    ) -> Result<Vec<Option<usize>>, Memory>
        requires { IsTied self.now }
        ensures { let es = seen_entries entries.now in
            IfOk result (λ inside. inside.items ≡ map (inside_of (texts self.now)) es) }
    {
        let mut inside = Vec::new(alloc);
        'entries: for entry in entries {
            inside.push(self.inside_of(alloc, entry)?)?;
        }
        Ok(inside)
    }
}
