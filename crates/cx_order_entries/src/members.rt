//! Which entries stand at each place.

ghost use Rattle.std.specs.Prelude.{◌≡◌, ℕ, ◌++◌, ◌∷◌, [], ◌<◌, length, IfOk, OnOk, IfSome, if◌then◌else◌};
ghost use Rattle.cx_order_entries.specs.Entries.{is_bin};
ghost use Rattle.cx_order_least.specs.Links.{row};
ghost use Rattle.cx_order_entries.specs.Members.{AreGroups, AreMembers};
ghost use Rattle.cx_order_entries.specs.Seen.{seen_entries};

use crate::bins::BINS;
use crate::counted::Entry;
use crate::groups::Groups;
use cx_order_least::Links;
use cx_text::Memory;
use std::alloc::Global;

/// Adds a number to the row of a place, if there is a place.
fn push_member(members: &mut Links, place: Option<usize>, number: usize) -> Result<(), Memory>
    requires { IfSome place (λ k. k < length members.old) }
    ensures count { OnOk result (length members.new ≡ length members.old) }
    ensures rows { OnOk result ((k : ℕ) → row members.new k
        ≡ row members.old k ++ (if is_bin k place then number ∷ [] else [])) }
{
    match place {
        Some(place) => members.push(place, number),
        None => Ok(()),
    }
}

/// Per place number, the numbers of the entries that stand there, in order.
pub(crate) fn members_of(
    alloc: Global,
    groups: &Groups<'_>,
    entries: &[Entry<'_>],
) -> Result<Links, Memory>
    requires { AreGroups (seen_entries entries.now) groups.now }
    ensures { IfOk result (λ members. AreMembers (seen_entries entries.now) members) }
{
    let mut members = Links::new(alloc, BINS + groups.names.len())?;
    'entries: for (number, entry) in entries.iter().enumerate() {
        let place = groups.place_of(alloc, &entry.block.spot)?;
        push_member(&mut members, place, number)?;
    }
    Ok(members)
}
