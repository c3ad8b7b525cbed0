//! Where entries stand, and in which order they run.

ghost use Rattle.std.specs.Prelude.{◌≡◌, None};
ghost use Rattle.cx_order_entries.specs.Entries.{names_fault};
ghost use Rattle.cx_order_entries.specs.Placement.{ArePlaced};
ghost use Rattle.cx_order_entries.specs.Seen.{seen_entries};

use crate::counted::Entry;
use crate::fault::PlaceFault;
use crate::groups::Groups;
use crate::members::members_of;
use crate::nesting::nesting;
use crate::place_orders::orders_of;
use cx_order_least::Links;
use cx_text::List;
use std::alloc::Global;

/// Where entries stand, and in which order they run. Places are numbered: the bins first, then the groups.
#[derive(Drop)]
pub struct Placed {
    /// Per place, the entries that stand there, by their numbers among all, in order.
    pub members: Links,
    /// Per place, its entries by their numbers there, in the order in which they run.
    pub orders: Links,
    /// Per entry, the place of the group that it is.
    pub inside: List<Option<usize>>,
    /// The groups by their numbers among groups, each before those that it contains.
    pub nested: List<usize>,
}

/// The places of entries and the order at each, or a cycle. No two entries of one place may have one name.
pub fn place_entries(alloc: Global, entries: &[Entry<'_>]) -> Result<Placed, PlaceFault>
    requires { names_fault (seen_entries entries.now) ≡ None }
    ensures { ArePlaced (seen_entries entries.now) result }
{
    let groups = Groups::of(alloc, entries)?;
    let nested = nesting(alloc, &groups, entries)?;
    let members = members_of(alloc, &groups, entries)?;
    let orders = orders_of(alloc, entries, &members)?;
    let inside = groups.inside(alloc, entries)?;
    Ok(Placed {
        members,
        orders,
        inside: List::new(inside),
        nested,
    })
}
