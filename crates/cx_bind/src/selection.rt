//! The thorns that are selected.

ghost use Rattle.std.specs.Prelude.{◌≡◌, ◌++◌, ◌∷◌, [], false, map, IsTrue, IfOk};
ghost use Rattle.cx_text.specs.Lexemes.{among};
ghost use Rattle.cx_plan.specs.Lists.{all_ok};
ghost use Rattle.cx_bind.specs.BuiltIn.{built_in_thorns};
ghost use Rattle.cx_bind.specs.NamePlaces.{AreNamed};
ghost use Rattle.cx_text.specs.Telling.{Answers};
ghost use Rattle.cx_bind.specs.Selecting.{place_of, chosen, is_next, select};
ghost use Rattle.cx_bind.specs.declared.thorns.BindFault.TheVariants as faults;
ghost use Rattle.cx_text.specs.Bytes.{folded};

use crate::BindFault;
use crate::name_set::NameSet;
use crate::places::NamedPlaces;
use cx_conf::ThornList;
use cx_text::{List, Memory, Text, same_name};
use std::alloc::Global;

/// Whether a thorn is built in.
fn is_built_in(name: &[u8]) -> bool
    ensures { result ≡ among built_in_thorns name.now }
{
    same_name(name, b"Cactus") || same_name(name, b"PUGH") || same_name(name, b"IOUtil")
}

/// Whether an active thorn isn't built in, and isn't there yet. Its name is added then.
fn is_new(alloc: Global, there: &mut NameSet, name: &[u8]) -> Result<bool, Memory>
    ensures new { IfOk result (λ new. new ≡ is_next there.old name.now) }
    ensures added { IfOk result
        (λ new. IsTrue new → there.new ≡ there.old ++ folded name.now ∷ []) }
    ensures kept { IfOk result (λ new. new ≡ false → there.new ≡ there.old) }
{
    if is_built_in(name) {
        return Ok(false);
    }
    there.insert(alloc, name)
}

/// The active thorns but the built-in ones, each once.
fn chosen(alloc: Global, active: &[Text]) -> Result<List<Text>, Memory>
    ensures { IfOk result (λ names. names ≡ chosen active.now) }
{
    let mut names = List::empty(alloc);
    let mut there = NameSet::new(alloc);
    'active: for name in active {
        if is_new(alloc, &mut there, name.as_slice())? {
            names.push(Text::from_slice(alloc, name.as_slice())?)?;
        }
    }
    Ok(names)
}

/// The place of an active thorn; a fault where the list doesn't have it, or has it more than once.
fn place_of(
    alloc: Global,
    places: &[(Text, Text)],
    named: &NamedPlaces,
    name: &[u8],
) -> Result<(Text, Text), BindFault>
    requires { AreNamed places.now named.now.firsts named.now.several places.now }
    ensures { Answers faults.Memory (place_of places.now name.now) result }
{
    let Some(place) = named.first(alloc, places, name)? else {
        return Err(BindFault::UnknownThorn(Text::from_slice(alloc, name)?));
    };
    if named.has_several(alloc, places, name)? {
        return Err(BindFault::TwoThorns(Text::from_slice(alloc, name)?));
    }
    Ok((
        Text::from_slice(alloc, place.0.as_slice())?,
        Text::from_slice(alloc, place.1.as_slice())?,
    ))
}

/// The place of each of these thorns, looked up by name; the first fault counts.
fn named_places_of(
    alloc: Global,
    places: &[(Text, Text)],
    named: &NamedPlaces,
    names: &[Text],
) -> Result<List<(Text, Text)>, BindFault>
    requires { AreNamed places.now named.now.firsts named.now.several places.now }
    ensures { Answers faults.Memory (all_ok (map (place_of places.now) names.now)) result }
{
    let mut found = List::empty(alloc);
    'names: for name in names {
        found.push(place_of(alloc, places, named, name.as_slice())?)?;
    }
    Ok(found)
}

/// The place of each of these thorns in the list, in their order; the first fault counts.
fn places_of(
    alloc: Global,
    places: &[(Text, Text)],
    names: &[Text],
) -> Result<List<(Text, Text)>, BindFault>
    ensures { Answers faults.Memory (all_ok (map (place_of places.now) names.now)) result }
{
    let named = NamedPlaces::new(alloc, places)?;
    named_places_of(alloc, places, &named, names)
}

/// The places of the active thorns but the built-in ones, each once and in the order of activation, as the list of
/// thorns spells them.
///
/// The first active thorn with a fault counts: UnknownThorn where it isn't listed, TwoThorns where it is listed more
/// than once, each by its name as it is activated.
pub fn select(
    alloc: Global,
    list: &ThornList,
    active: &List<Text>,
) -> Result<List<(Text, Text)>, BindFault>
    ensures { Answers faults.Memory (select list.now active.now) result }
{
    let names = chosen(alloc, active.as_slice())?;
    places_of(alloc, list.places.as_slice(), names.as_slice())
}
