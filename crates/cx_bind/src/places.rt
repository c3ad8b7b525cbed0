//! The places of thorns in the list of thorns, by names.

ghost use Rattle.std.specs.Prelude.{◌≡◌, ◌<◌, ◌+◌, ◌&&◌, length, drop, find, count_by, nat_lt, IfOk, OnOk};
ghost use Rattle.std.specs.Option.{option_copied, is_some};
ghost use Rattle.cx_text.specs.Lexemes.{same_name};
ghost use Rattle.cx_bind.specs.NameSets.{Adds};
ghost use Rattle.cx_bind.specs.NamePlaces.{at_name, AreNamed};
ghost use Rattle.cx_bind.specs.Selecting.{is_place_of};

use crate::name_places::NamePlaces;
use crate::name_set::NameSet;
use cx_text::{Memory, Text};
use std::alloc::Global;

/// The first place of each thorn of a list, and the thorns that have several.
#[derive(Drop)]
pub(crate) struct NamedPlaces {
    pub(crate) firsts: NamePlaces,
    pub(crate) several: NameSet,
}

/// Whether a thorn is noted.
fn is_noted(
    alloc: Global,
    firsts: &NamePlaces,
    places: &[(Text, Text)],
    name: &[u8],
) -> Result<bool, Memory>
    ensures { IfOk result (λ noted. noted ≡ is_some (at_name places.now firsts.now name.now)) }
{
    match firsts.at_name(alloc, places, name)? {
        Some(_) => Ok(true),
        None => Ok(false),
    }
}

/// Notes that a thorn has several places, where it is noted again.
fn note_again(alloc: Global, several: &mut NameSet, name: &[u8], again: bool) -> Result<(), Memory>
    ensures { OnOk result
        (Adds several.old (λ other. again && same_name name.now other) several.new) }
{
    if again {
        several.insert(alloc, name)?;
    }
    Ok(())
}

/// Notes a thorn at its place in the list; those of later places are noted already.
fn note(
    alloc: Global,
    named: &mut NamedPlaces,
    places: &[(Text, Text)],
    at: usize,
) -> Result<(), Memory>
    requires within { at < length places.now }
    requires later { AreNamed places.now named.old.firsts named.old.several
        (drop (at + 1) places.now) }
    ensures { OnOk result
        (AreNamed places.now named.new.firsts named.new.several (drop at places.now)) }
{
    let place = &places[at];
    let name = place.1.as_slice();
    let again = is_noted(alloc, &named.firsts, places, name)?;
    note_again(alloc, &mut named.several, name, again)?;
    named.firsts.insert(alloc, name, at)
}

impl NamedPlaces {
    /// The places of this list, by names.
    pub(crate) fn new(alloc: Global, places: &[(Text, Text)]) -> Result<Self, Memory>
        ensures { IfOk result (λ named. AreNamed places.now named.firsts named.several places.now) }
    {
        let mut named = NamedPlaces {
            firsts: NamePlaces::new(alloc),
            several: NameSet::new(alloc),
        };
        let mut at = places.len();
        'places: while at > 0 {
            at -= 1;
            note(alloc, &mut named, places, at)?;
        }
        Ok(named)
    }

    /// The first place of a thorn.
    pub(crate) fn first<'a>(
        &self,
        alloc: Global,
        places: &'a [(Text, Text)],
        name: &[u8],
    ) -> Result<Option<&'a (Text, Text)>, Memory>
        requires { AreNamed places.now self.now.firsts self.now.several places.now }
        ensures { IfOk result
            (λ place. option_copied place ≡ find (is_place_of name.now) places.now) }
    {
        self.firsts.at_name(alloc, places, name)
    }

    /// Whether a thorn has more than one place.
    pub(crate) fn has_several(
        &self,
        alloc: Global,
        places: &[(Text, Text)],
        name: &[u8],
    ) -> Result<bool, Memory>
        requires { AreNamed places.now self.now.firsts self.now.several places.now }
        ensures { IfOk result
            (λ several. several ≡ nat_lt 1 (count_by (is_place_of name.now) places.now)) }
    {
        self.several.has(alloc, name)
    }
}
