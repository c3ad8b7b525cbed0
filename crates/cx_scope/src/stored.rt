//! What names stand for, with the levels that are stored.

ghost use Rattle.std.specs.Prelude.{◌≡◌, ◌<◌, ◌^◌, map, length, slice_index_or, ◌∷◌, [], IfOk};
ghost use Rattle.cx_text.specs.Telling.{Answers};
ghost use Rattle.cx_scope.specs.Resolving.{ref_text, unseen, var_id, level_fault, stored, Passes};
ghost use Rattle.cx_scope.specs.Tabled.{is_group_of_any, is_of_any, members_of, group_levels_meant, levels_meant, members_meant};
ghost use Rattle.cx_scope.specs.declared.fault.ScopeFault.TheVariants as faults;

use crate::ScopeFault;
use crate::names::Tier;
use crate::sought::{find_group, find_variable, members};
use crate::tables::Tables;
use cx_bind::{full_name, with_copy};
use cx_plan::VarId;
use cx_sched::Ref;
use cx_text::{List, Memory, Text};
use std::alloc::Global;

/// What a thorn sees, in the order in which names are sought.
const SEEN: &[Tier] = &[Tier::Own, Tier::Inherited, Tier::Friends];

/// A name as it was written, with `owner::` and `[copy]`.
pub fn ref_text(alloc: Global, name: &Ref) -> Result<Text, Memory>
    ensures { IfOk result (λ text. text ≡ ref_text name.now) }
{
    let text = with_copy(alloc, name.name.as_slice(), name.copy)?;
    match &name.owner {
        Some(owner) => full_name(alloc, owner.as_slice(), text.as_slice()),
        None => Ok(text),
    }
}

/// The fault of a name that the thorn doesn't see: hidden if another has it, else not found.
fn unseen(alloc: Global, is_there: bool, name: &Ref) -> Result<ScopeFault, Memory>
    ensures { IfOk result (λ fault. fault ≡ unseen is_there name.now) }
{
    let text = ref_text(alloc, name)?;
    if is_there {
        Ok(ScopeFault::Hidden(text))
    } else {
        Ok(ScopeFault::NotFound(text))
    }
}

/// How many time levels of a variable are stored; 0 if it has no storage.
fn stored_levels(storage: &[u8], place: usize) -> u8
    ensures { result ≡ slice_index_or storage.now place 0 }
{
    storage.get(place).copied().unwrap_or(0)
}

/// A level that is stored.
fn check_level(
    alloc: Global,
    storage: &[u8],
    name: &Ref,
    place: usize,
    level: usize,
) -> Result<u8, ScopeFault>
    ensures { Passes (level_fault storage.now name.now (place, level)) level result }
{
    let stored = stored_levels(storage, place);
    if stored == 0 {
        return Err(ScopeFault::NoStorage(ref_text(alloc, name)?));
    }
    if level >= stored as usize {
        return Err(ScopeFault::NoLevel(ref_text(alloc, name)?));
    }
    Ok(level as u8)
}

/// One level of a variable.
fn one_level(
    alloc: Global,
    storage: &[u8],
    name: &Ref,
    place: u32,
    level: usize,
) -> Result<List<(VarId, u8)>, ScopeFault>
    ensures { Answers faults.Memory (stored storage.now name.now ((place, level) ∷ [])) result }
{
    let level = check_level(alloc, storage, name, place as usize, level)?;
    let mut levels = List::empty(alloc);
    levels.push((VarId(place), level))?;
    Ok(levels)
}

/// Level 0 of each of these variables.
fn current_levels(
    alloc: Global,
    storage: &[u8],
    name: &Ref,
    places: &[u32],
) -> Result<List<(VarId, u8)>, ScopeFault>
    ensures { Answers faults.Memory (stored storage.now name.now (map (λ v. (v, 0)) places.now))
        result }
{
    let mut levels = List::empty(alloc);
    'places: for place in places {
        let level = check_level(alloc, storage, name, *place as usize, 0)?;
        levels.push((VarId(*place), level))?;
    }
    Ok(levels)
}

/// The numbers of variables as their ids.
fn var_ids(alloc: Global, places: &[u32]) -> Result<List<VarId>, Memory>
    ensures { IfOk result (λ ids. ids ≡ map var_id places.now) }
{
    let mut ids = List::empty(alloc);
    'places: for place in places {
        ids.push(VarId(*place))?;
    }
    Ok(ids)
}

impl Tables {
    /// Whether a group of any thorn has the name.
    fn is_anyones_group(&self, thorn: usize, name: &Ref) -> bool
        ensures { result ≡ is_group_of_any self.now thorn name.now }
    {
        find_group(self, thorn, &[Tier::Any], name).is_some()
    }

    /// Whether a variable or a group of any thorn has the name.
    fn is_anyones(&self, thorn: usize, name: &Ref) -> bool
        ensures { result ≡ is_of_any self.now thorn name.now }
    {
        find_variable(self, thorn, &[Tier::Any], name).is_some()
            || self.is_anyones_group(thorn, name)
    }

    /// The numbers of the variables of the group at a place.
    fn members_at(&self, alloc: Global, place: usize) -> Result<List<u32>, Memory>
        requires { length self.now.variables < 2 ^ 32 }
        ensures { IfOk result (λ places. places ≡ members_of self.now place) }
    {
        match self.groups.as_slice().get(place) {
            Some(group) => members(alloc, self.variables.as_slice(), group),
            None => Ok(List::empty(alloc)),
        }
    }

    /// Level 0 of each variable of the group that a name means; a fault if the thorn sees no such group.
    fn group_levels(
        &self,
        alloc: Global,
        storage: &[u8],
        thorn: usize,
        name: &Ref,
    ) -> Result<List<(VarId, u8)>, ScopeFault>
        requires { length self.now.variables < 2 ^ 32 }
        ensures { Answers faults.Memory (group_levels_meant self.now storage.now thorn name.now)
            result }
    {
        match find_group(self, thorn, SEEN, name) {
            Some(place) => {
                let places = self.members_at(alloc, place)?;
                current_levels(alloc, storage, name, places.as_slice())
            }
            None => Err(unseen(alloc, self.is_anyones(thorn, name), name)?),
        }
    }

    /// The variables and levels that a name means.
    pub(crate) fn levels(
        &self,
        alloc: Global,
        storage: &[u8],
        thorn: usize,
        name: &Ref,
    ) -> Result<List<(VarId, u8)>, ScopeFault>
        requires { length self.now.variables < 2 ^ 32 }
        ensures { Answers faults.Memory (levels_meant self.now storage.now thorn name.now) result }
    {
        match find_variable(self, thorn, SEEN, name) {
            Some((place, level)) => one_level(alloc, storage, name, place as u32, level),
            None => self.group_levels(alloc, storage, thorn, name),
        }
    }

    /// The variables of the group that a name means.
    pub(crate) fn group_members(
        &self,
        alloc: Global,
        thorn: usize,
        name: &Ref,
    ) -> Result<List<VarId>, ScopeFault>
        requires { length self.now.variables < 2 ^ 32 }
        ensures { Answers faults.Memory (members_meant self.now thorn name.now) result }
    {
        match find_group(self, thorn, SEEN, name) {
            Some(place) => {
                let places = self.members_at(alloc, place)?;
                Ok(var_ids(alloc, places.as_slice())?)
            }
            None => Err(unseen(alloc, self.is_anyones_group(thorn, name), name)?),
        }
    }
}
