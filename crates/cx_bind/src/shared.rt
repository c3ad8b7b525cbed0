//! The parameters that thorns share, by their full names.

ghost use Rattle.std.specs.Prelude.{◌≡◌, find, IfOk, OnOk};
ghost use Rattle.std.specs.Option.{option_copied};
ghost use Rattle.cx_bind.specs.NamePlaces.{LeadToFirst, with_shared};
ghost use Rattle.cx_bind.specs.Parameters.{is_shared_as, shared_parameter};

use crate::known::{Known, is_starred};
use crate::name_places::NamePlaces;
use cx_text::{List, Memory};
use std::alloc::Global;
use std::marker::Model;

/// All parameters, with the places of those that thorns can use. Contracts see the parameters.
#[derive(Drop)]
pub(crate) struct KnownTable {
    knowns: List<Known>,
    shared: NamePlaces,
}

impl Model for KnownTable {
    ghost use Rattle.std.specs.Prelude.{List};
    ghost use Rattle.cx_bind.specs.declared.known.Known.{Known};
    ghost use Rattle.cx_bind.specs.NamePlaces.{LeadToFirst};
    ghost use Rattle.cx_bind.specs.Parameters.{is_shared_as};

    ghost Value = { List Known };

    ghost view = { λ t. t.knowns };

    ghost invariant = { λ t. LeadToFirst is_shared_as t.knowns t.shared t.knowns };
}

/// Notes the place of a restricted parameter.
fn note_shared(
    alloc: Global,
    shared: &mut NamePlaces,
    known: &Known,
    place: usize,
) -> Result<(), Memory>
    ensures { OnOk result (shared.new ≡ with_shared known.now place shared.old) }
{
    if !known.restricted {
        return Ok(());
    }
    shared.insert(alloc, known.full.as_slice(), place)
}

/// The places of the first restricted parameters of each name.
fn shared_places(alloc: Global, knowns: &[Known]) -> Result<NamePlaces, Memory>
    ensures { IfOk result (λ shared. LeadToFirst is_shared_as knowns.now shared knowns.now) }
{
    let mut shared = NamePlaces::new(alloc);
    let mut place = knowns.len();
    'places: while place > 0 {
        place -= 1;
        note_shared(alloc, &mut shared, &knowns[place], place)?;
    }
    Ok(shared)
}

impl KnownTable {
    /// The table of these parameters.
    pub(crate) fn new(alloc: Global, knowns: List<Known>) -> Result<Self, Memory>
        ensures { IfOk result (λ table. table ≡ knowns) }
    {
        let shared = shared_places(alloc, knowns.as_slice())?;
        Ok(KnownTable { knowns, shared })
    }

    /// The parameters, in their order.
    pub(crate) fn knowns(&self) -> &[Known]
        ensures { result.now ≡ self.now }
    {
        self.knowns.as_slice()
    }

    /// The first restricted parameter of a full name, also where it says only how a run is done.
    fn first_shared(&self, alloc: Global, full: &[u8]) -> Result<Option<&Known>, Memory>
        ensures { IfOk result
            (λ known. option_copied known ≡ find (is_shared_as full.now) self.now) }
    {
        self.shared.at_name(alloc, self.knowns.as_slice(), full)
    }

    /// The parameter of a full name that thorns can use.
    pub(crate) fn shared_parameter(
        &self,
        alloc: Global,
        full: &[u8],
    ) -> Result<Option<&Known>, Memory>
        ensures { IfOk result (λ known. option_copied known ≡ shared_parameter self.now full.now) }
    {
        if is_starred(full) {
            return Ok(None);
        }
        self.first_shared(alloc, full)
    }
}
