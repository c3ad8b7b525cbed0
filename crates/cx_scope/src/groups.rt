//! Groups that are found by their names.

ghost use Rattle.std.specs.Prelude.{◌≡◌, ◌+◌, ◌<◌, length, slice_get, Some, IfOk, OnOk, drop};
ghost use Rattle.cx_scope.specs.declared.names.NamedGroup.{NamedGroup};
ghost use Rattle.cx_scope.specs.Chains.{named_from, FindsFirsts, FindsNexts};

use crate::names::NamedGroup;
use cx_bind::NamePlaces;
use cx_text::{List, Memory};
use std::alloc::Global;
use std::marker::Model;

/// Where groups of a name stand.
#[derive(Drop)]
struct Chains {
    firsts: NamePlaces,
    nexts: Vec<Option<usize>>,
}

/// Groups, of which the next one of a name is found without a search. Contracts see the list.
#[derive(Debug, Drop)]
pub(crate) struct Groups {
    list: List<NamedGroup>,
    firsts: NamePlaces,
    nexts: Vec<Option<usize>>,
}

impl Model for Groups {
    ghost use Rattle.std.specs.Prelude.{List as ListOf};
    ghost use Rattle.cx_scope.specs.declared.names.NamedGroup.{NamedGroup};

    ghost Value = { ListOf NamedGroup };

    ghost use Rattle.cx_scope.specs.Chains.{FindsFirsts, FindsNexts};

    ghost view = { λ groups. groups.list };

    ghost invariant = { λ groups.
        FindsFirsts groups.firsts 0 groups.list × FindsNexts groups.nexts.items 0 groups.list };
}

/// Puts a group at the front of those of its name.
fn link(
    alloc: Global,
    firsts: &mut NamePlaces,
    nexts: &mut [Option<usize>],
    groups: &[NamedGroup],
    place: usize,
) -> Result<(), Memory>
    requires within { place < length groups.now }
    requires fits { length nexts.old ≡ length groups.now }
    ensures firsts { FindsFirsts firsts.old (place + 1) groups.now
        → OnOk result (FindsFirsts firsts.new place groups.now) }
    ensures nexts { FindsFirsts firsts.old (place + 1) groups.now
        → FindsNexts nexts.old (place + 1) groups.now
        → OnOk result (FindsNexts nexts.new place groups.now) }
    ensures len { length nexts.new ≡ length nexts.old }
{
    let name = groups[place].name.as_slice();
    nexts[place] = firsts.get(alloc, name)?;
    firsts.insert(alloc, name, place)?;
    Ok(())
}

/// Where the groups of each name are, linked from the last group to the first.
fn link_all(alloc: Global, groups: &[NamedGroup]) -> Result<Chains, Memory>
    ensures { IfOk result
        (λ chains. FindsFirsts chains.firsts 0 groups.now
        × FindsNexts chains.nexts.items 0 groups.now) }
{
    let mut firsts = NamePlaces::new(alloc);
    let mut nexts = vec![in alloc; None; groups.len()]?;
    let mut place = groups.len();
    'groups: while place > 0 {
        place -= 1;
        link(alloc, &mut firsts, &mut nexts, groups, place)?;
    }
    Ok(Chains { firsts, nexts })
}

impl Groups {
    /// These groups.
    pub(crate) fn new(alloc: Global, list: List<NamedGroup>) -> Result<Self, Memory>
        ensures { IfOk result (λ groups. groups ≡ list) }
    {
        let Chains { firsts, nexts } = link_all(alloc, list.as_slice())?;
        Ok(Groups {
            list,
            firsts,
            nexts,
        })
    }

    /// The groups.
    pub(crate) fn as_slice(&self) -> &[NamedGroup]
        ensures { result.now ≡ self.now }
    {
        self.list.as_slice()
    }

    /// The place of the first group of a name.
    pub(crate) fn first(&self, name: &[u8]) -> Option<usize>
        ensures { result ≡ named_from name.now 0 self.now }
    {
        self.firsts.find(name)
    }

    /// The place of the next group of the same name.
    pub(crate) fn next(&self, place: usize) -> Option<usize>
        ensures { (g : NamedGroup) → slice_get self.now place ≡ Some g
            → result ≡ named_from g.name (place + 1) (drop (place + 1) self.now) }
    {
        match self.nexts.get(place) {
            Some(next) => *next,
            None => None,
        }
    }
}
