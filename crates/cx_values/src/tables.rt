//! Lists with tables beside them, in which nothing is searched for. Contracts see the lists.

ghost use Rattle.std.specs.Prelude.{◌≡◌, ◌∷◌, ◌++◌, [], find, slice_get, IfOk, OnOk};
ghost use Rattle.std.specs.Option.{option_copied};
ghost use Rattle.cx_values.specs.Assigned.{is_given, given_before, used_as};
ghost use Rattle.cx_values.specs.Tables.{slot_named, given_place, element_place, Notes, FindsSlots, FindsUses};

use crate::naming::add_name;
use crate::values::{Given, Slot, Use};
use cx_bind::NamePlaces;
use cx_text::{List, Memory};
use indexmap::IndexMap;
use std::alloc::Global;
use std::marker::Model;

/// Parameters, which are found by their full names.
#[derive(Debug, Drop)]
pub struct Slots {
    list: List<Slot>,
    places: NamePlaces,
}

impl Model for Slots {
    ghost use Rattle.std.specs.Prelude.{List as ListOf};
    ghost use Rattle.cx_values.specs.declared.values.Slot.{Slot};

    ghost Value = { ListOf Slot };

    ghost use Rattle.cx_values.specs.Tables.{FindsSlots};

    ghost view = { λ slots. slots.list };

    ghost invariant = { λ slots. FindsSlots slots.list slots.places };
}

/// Where the slot of each full name is; of equal names the first counts.
fn places_of_slots(alloc: Global, slots: &[Slot]) -> Result<NamePlaces, Memory>
    ensures { IfOk result (λ places. FindsSlots slots.now places) }
{
    let mut places = NamePlaces::new(alloc);
    'slots: for (place, slot) in slots.iter().enumerate() {
        add_name(alloc, &mut places, slot.full.as_slice(), place)?;
    }
    Ok(places)
}

impl Slots {
    /// The slots, with where the one of each full name is.
    pub(crate) fn new(alloc: Global, list: List<Slot>) -> Result<Self, Memory>
        ensures { IfOk result (λ slots. slots ≡ list) }
    {
        let places = places_of_slots(alloc, list.as_slice())?;
        Ok(Slots { list, places })
    }

    /// The parameters.
    pub fn as_slice(&self) -> &[Slot]
        ensures { result.now ≡ self.now }
    {
        self.list.as_slice()
    }

    /// The place of the parameter of a full name.
    pub(crate) fn find(&self, full: &[u8]) -> Option<usize>
        ensures { result ≡ slot_named self.now full.now }
    {
        self.places.find(full)
    }
}

/// Names by which parameters are used, which are found by these names.
#[derive(Debug, Drop)]
pub struct Uses {
    list: List<Use>,
    places: NamePlaces,
}

impl Model for Uses {
    ghost use Rattle.std.specs.Prelude.{List as ListOf};
    ghost use Rattle.cx_values.specs.declared.values.Use.{Use};

    ghost Value = { ListOf Use };

    ghost use Rattle.cx_values.specs.Tables.{FindsUses};

    ghost view = { λ uses. uses.list };

    ghost invariant = { λ uses. FindsUses uses.list uses.places };
}

/// Which parameter each name means; of equal names the first counts.
fn places_of_uses(alloc: Global, uses: &[Use]) -> Result<NamePlaces, Memory>
    ensures { IfOk result (λ places. FindsUses uses.now places) }
{
    let mut places = NamePlaces::new(alloc);
    'uses: for one in uses {
        add_name(alloc, &mut places, one.name.as_slice(), one.parameter)?;
    }
    Ok(places)
}

impl Uses {
    /// The uses, with which parameter each name means.
    pub(crate) fn new(alloc: Global, list: List<Use>) -> Result<Self, Memory>
        ensures { IfOk result (λ uses. uses ≡ list) }
    {
        let places = places_of_uses(alloc, list.as_slice())?;
        Ok(Uses { list, places })
    }

    /// The names with their parameters.
    pub fn as_slice(&self) -> &[Use]
        ensures { result.now ≡ self.now }
    {
        self.list.as_slice()
    }

    /// The parameter that a name names.
    pub(crate) fn find(&self, name: &[u8]) -> Option<usize>
        ensures { result ≡ used_as name.now self.now }
    {
        self.places.find(name)
    }
}

type ElementPlaces = IndexMap<(usize, u32), usize>;

/// The place of what settings give to an element of a parameter.
fn place_of_element(places: &ElementPlaces, parameter: usize, element: u32) -> Option<usize>
    ensures { result ≡ element_place places.now.entries parameter element }
{
    places.get(&(parameter, element)).copied()
}

/// Gives an element a place, unless it has one.
fn note(places: &mut ElementPlaces, element: (usize, u32), place: usize) -> Result<(), Memory>
    ensures { OnOk result (Notes element place places.old.entries places.new.entries) }
{
    if place_of_element(places, element.0, element.1).is_some() {
        return Ok(());
    }
    places.insert(element, place)?;
    Ok(())
}

/// What settings give, which is found by the elements that they set.
#[derive(Debug, Drop)]
pub struct AllGiven {
    list: List<Given>,
    places: ElementPlaces,
}

impl Model for AllGiven {
    ghost use Rattle.std.specs.Prelude.{List as ListOf};
    ghost use Rattle.cx_values.specs.declared.values.Given.{Given};

    ghost Value = { ListOf Given };

    ghost use Rattle.cx_values.specs.Tables.{FindsGiven};

    ghost view = { λ given. given.list };

    ghost invariant = { λ given. FindsGiven given.list given.places.entries };
}

/// What a setting gives at a place of the list.
fn given_at(given: &[Given], place: usize) -> Option<&Given>
    ensures { option_copied result ≡ slice_get given.now place }
{
    given.get(place)
}

impl AllGiven {
    /// A list in which no setting has given anything yet.
    pub(crate) fn new(alloc: Global) -> Self
        ensures { result ≡ [] }
    {
        AllGiven {
            list: List::empty(alloc),
            places: IndexMap::new(alloc),
        }
    }

    /// What settings give, in the order of the file.
    pub fn as_slice(&self) -> &[Given]
        ensures { result.now ≡ self.now }
    {
        self.list.as_slice()
    }

    /// The place of the first that sets an element.
    fn place(&self, parameter: usize, element: u32) -> Option<usize>
        ensures { result ≡ given_place self.now parameter element }
    {
        place_of_element(&self.places, parameter, element)
    }

    /// The first that sets an element.
    pub(crate) fn find(&self, parameter: usize, element: u32) -> Option<&Given>
        ensures { option_copied result ≡ find (is_given parameter element) self.now }
    {
        match self.place(parameter, element) {
            Some(place) => given_at(self.list.as_slice(), place),
            None => None,
        }
    }

    /// Whether an element is set.
    pub(crate) fn sets(&self, parameter: usize, element: u32) -> bool
        ensures { result ≡ given_before self.now parameter element }
    {
        self.place(parameter, element).is_some()
    }

    /// These, and one more at the end.
    pub(crate) fn with(self, one: Given) -> Result<Self, Memory>
        ensures { IfOk result (λ more. more ≡ self ++ one ∷ []) }
    {
        let AllGiven {
            mut list,
            mut places,
        } = self;
        note(&mut places, (one.parameter, one.element), list.len())?;
        list.push(one)?;
        Ok(AllGiven { list, places })
    }
}
