//! Items matched with routines.

ghost use Rattle.std.specs.Prelude.{◌≡◌, ◌≤◌, ◌<◌, ◌^◌, map, length, position, IfOk, IfSome};
ghost use Rattle.std.specs.List.{list_any, list_all};
ghost use Rattle.cx_scope.specs.Closures.{thorns_in, sight_in};
ghost use Rattle.cx_plan.specs.Regions.{same_region};
ghost use Rattle.cx_text.specs.Telling.{Answers};
ghost use Rattle.cx_job_items.specs.declared.fault.MatchFault.TheVariants as faults;
ghost use Rattle.cx_job_items.specs.Matching.{thorn_number, same_touch, all_among, same_touches, offer_by, offer, fits, completed, is_for, routine_number};
ghost use Rattle.cx_job_items.specs.Lookups.{world_of, world_in, offer_in, matched_with_in, matched_in, matched_if_run_in, matched_items_in, IsOfBound, IsBound, HasThorn};

use crate::fault::MatchFault;
use crate::lookup::{Lookup, numbers_of};
use crate::mismatch::mismatch;
use cx_bind::{Bound, Thorn};
use cx_plan::{Item, ItemKind, Region, Touch};
use cx_rule::Spec;
use cx_scope::Scope;
use cx_text::{List, Memory, same_name};
use cx_values::Values;
use std::alloc::Global;

/// What a routine reads and writes, and the numbers of its parameters.
#[derive(Debug, Drop)]
pub struct Offer {
    pub reads: List<Touch>,
    pub writes: List<Touch>,
    pub params: List<i64>,
}

/// What items are matched with, and what the names of routines are looked up in.
#[derive(Drop)]
pub struct Routines<'a> {
    pub bound: &'a Bound,
    /// What the bound thorns see.
    pub scope: &'a Scope<'a>,
    /// How many levels each variable stores.
    pub storage: &'a List<u8>,
    /// The values of parameters.
    pub values: &'a Values,
    /// What each routine says of itself.
    pub specs: &'a [&'a Spec],
}

/// Whether two regions are one.
fn same_region(a: Region, b: Region) -> bool
    ensures { result ≡ same_region a b }
{
    match (a, b) {
        (Region::Interior, Region::Interior)
        | (Region::Boundary, Region::Boundary)
        | (Region::Everywhere, Region::Everywhere) => true,
        (Region::Interior, Region::Boundary | Region::Everywhere)
        | (Region::Boundary, Region::Interior | Region::Everywhere)
        | (Region::Everywhere, Region::Interior | Region::Boundary) => false,
    }
}

/// Whether two are of one variable, level and region, whatever the reach.
fn same_touch(a: &Touch, b: &Touch) -> bool
    ensures { result ≡ same_touch a.now b.now }
{
    a.var.0 == b.var.0 && a.level == b.level && same_region(a.region, b.region)
}

/// Whether one of the accesses has the same variable, level and region.
fn is_among(touches: &[Touch], touch: &Touch) -> bool
    ensures { result ≡ list_any (same_touch touch.now) touches.now }
{
    touches.iter().any(|other| same_touch(touch, other))
}

/// Whether each of these accesses is one of the others.
fn all_among(some: &[Touch], touches: &[Touch]) -> bool
    ensures { result ≡ all_among some.now touches.now }
{
    some.iter().all(|touch| is_among(touches, touch))
}

/// Whether two lists are one set.
fn same_touches(a: &[Touch], b: &[Touch]) -> bool
    ensures { result ≡ same_touches a.now b.now }
{
    all_among(a, b) && all_among(b, a)
}

/// Whether an item reads and writes what a routine does.
fn fits(item: &Item, offer: &Offer) -> bool
    ensures { result ≡ fits item.now offer.now }
{
    same_touches(offer.reads.as_slice(), item.reads.as_slice())
        && same_touches(offer.writes.as_slice(), item.writes.as_slice())
}

/// What a routine offers; nothing if a name means no one level or a parameter has no number.
fn offer_by(
    reads: Option<List<Touch>>,
    writes: Option<List<Touch>>,
    params: Option<List<i64>>,
) -> Option<Offer>
    ensures { result ≡ offer_by reads writes params }
{
    Some(Offer {
        reads: reads?,
        writes: writes?,
        params: params?,
    })
}

/// What a routine offers, if each of its names has a meaning.
fn offer_of(
    alloc: Global,
    lookup: &Lookup<'_>,
    values: &Values,
    spec: &Spec,
) -> Result<Option<Offer>, Memory>
    requires scope { IsOfBound lookup.now }
    requires thorn { HasThorn lookup.now }
    ensures { IfOk result (λ found. found ≡ offer_in lookup.now values.now spec.now) }
{
    let reads = lookup.touches_of(alloc, spec.reads.as_slice())?;
    let writes = lookup.touches_of(alloc, spec.writes.as_slice())?;
    let params = numbers_of(alloc, values, spec.params.as_slice())?;
    Ok(offer_by(reads, writes, params))
}

/// The item with its routine, and with the accesses and parameters that the routine offers.
fn complete(item: Item, routine: u32, kind: ItemKind, offer: Offer) -> Item
    ensures { result ≡ completed item routine kind offer }
{
    Item {
        thorn: item.thorn,
        name: item.name,
        path: item.path,
        kind,
        routine,
        reads: offer.reads,
        writes: offer.writes,
        params: offer.params,
    }
}

/// An item with the routine of this number.
fn matched_with(
    alloc: Global,
    lookup: &Lookup<'_>,
    values: &Values,
    item: Item,
    routine: u32,
    spec: &Spec,
) -> Result<Item, MatchFault>
    requires scope { IsOfBound lookup.now }
    requires thorn { HasThorn lookup.now }
    ensures { Answers faults.Memory
        (matched_with_in lookup.now values.now item routine spec.now) result }
{
    match offer_of(alloc, lookup, values, spec)? {
        Some(offer) => {
            if fits(&item, &offer) {
                Ok(complete(item, routine, spec.kind, offer))
            } else {
                Err(mismatch(alloc, lookup, values, item, spec)?)
            }
        }
        None => Err(mismatch(alloc, lookup, values, item, spec)?),
    }
}

/// The number of the thorn of a name, in the order of activation.
fn place_of(thorns: &[Thorn], name: &[u8]) -> Option<usize>
    ensures place { result ≡ thorn_number thorns.now name.now }
    ensures within { IfSome result (λ place. place < length thorns.now) }
{
    thorns
        .iter()
        .position(|thorn| same_name(thorn.name.as_slice(), name))
}

/// The number of the bound thorn of a name.
fn thorn_number(bound: &Bound, name: &[u8]) -> Option<u32>
    ensures number { result ≡ thorn_number bound.now name.now }
    ensures within { IfSome result (λ number. number < length bound.now) }
{
    match place_of(bound.thorns().as_slice(), name) {
        Some(place) => Some(place as u32),
        None => None,
    }
}

/// Whether a routine is for this item, by thorn and by name.
fn is_for(item: &Item, spec: &Spec) -> bool
    ensures { result ≡ is_for item.now spec.now }
{
    same_name(spec.thorn.as_slice(), item.thorn.as_slice())
        && same_name(spec.name.as_slice(), item.name.as_slice())
}

/// The place of the first routine for this item.
fn place_for(specs: &[&Spec], item: &Item) -> Option<usize>
    ensures place { result ≡ position (λ s. is_for item.now s.now) specs.now }
    ensures within { IfSome result (λ place. place < length specs.now) }
{
    specs.iter().position(|spec| is_for(item, spec))
}

/// The first of the routines that is that of an item.
fn routine_number(specs: &[&Spec], item: &Item) -> Option<usize>
    ensures number { result ≡ routine_number (map (λ s. s.now) specs.now) item.now }
    ensures within { IfSome result (λ number. number < length specs.now) }
{
    place_for(specs, item)
}

impl<'a> Routines<'a> {
    /// What the names of an item's routine are looked up in.
    fn lookup(&self, item: &Item) -> Lookup<'a>
        requires { IsBound self.now }
        ensures scope { IsOfBound result }
        ensures thorn { HasThorn result }
        ensures world { world_of result ≡ world_in self.now }
        ensures number { result.thorn ≡ thorn_number self.now.bound.now item.now.thorn }
    {
        Lookup {
            bound: self.bound,
            scope: self.scope,
            storage: self.storage,
            thorn: thorn_number(self.bound, item.thorn.as_slice()),
        }
    }

    /// An item with the first routine of its thorn and name.
    fn matched_item(&self, alloc: Global, item: Item) -> Result<Item, MatchFault>
        requires bound { IsBound self.now }
        requires few { length self.now.specs.now ≤ 2 ^ 32 }
        ensures { Answers faults.Memory (matched_in self.now item) result }
    {
        match routine_number(self.specs, &item) {
            Some(place) => {
                let lookup = self.lookup(&item);
                matched_with(
                    alloc,
                    &lookup,
                    self.values,
                    item,
                    place as u32,
                    self.specs[place],
                )
            }
            None => Err(MatchFault::UnknownRoutine(item.path)),
        }
    }

    /// An item by its number, where the first `run` items are called in bins that are run.
    fn item_if_run(
        &self,
        alloc: Global,
        run: usize,
        number: usize,
        item: Item,
    ) -> Result<Item, MatchFault>
        requires bound { IsBound self.now }
        requires few { length self.now.specs.now ≤ 2 ^ 32 }
        ensures { Answers faults.Memory (matched_if_run_in self.now run (number, item)) result }
    {
        if number < run {
            self.matched_item(alloc, item)
        } else {
            Ok(item)
        }
    }

    /// Items matched with their routines: the first `run` of them, which the bins that are run call. The others stay as they are.
    ///
    /// An item gets the number and the kind of the first routine that has its thorn and its name, in any case, what that reads
    /// and writes, and the numbers of its parameters, in the routine's order.
    ///
    /// The first fault in the items' order counts. UnknownRoutine: no routine has an item's thorn and name. RoutineMismatch:
    /// its reads or its writes are other sets of variables, levels and regions, one of its names doesn't mean exactly one level
    /// to the item's thorn, or one of its parameters is starred or has no number.
    pub fn matched_items(
        &self,
        alloc: Global,
        run: usize,
        items: List<Item>,
    ) -> Result<List<Item>, MatchFault>
        requires bound { IsBound self.now }
        requires few { length self.now.specs.now ≤ 2 ^ 32 }
        ensures { Answers faults.Memory (matched_items_in self.now run items) result }
    {
        let mut matched = List::empty(alloc);
        'items: for item in items.into_vec() {
            let number = matched.len();
            matched.push(self.item_if_run(alloc, run, number, item)?)?;
        }
        Ok(matched)
    }
}
