//! What is known of the trees of some entries.

ghost use Rattle.std.specs.Prelude.{◌≡◌, ℕ, List, ◌++◌, codes, option_map, option_copied, IfOk};
ghost use Rattle.cx_order.specs.declared.fault.OrderFault.TheVariants as faults;
ghost use Rattle.cx_order_entries.specs.Counted as blocks;
ghost use Rattle.cx_order_entries.specs.Entries.{entry_name};
ghost use Rattle.cx_order.specs.Meanings.{World};
ghost use Rattle.cx_order.specs.Plans.{Forest, Done, Then, path_of, trees};
ghost use Rattle.cx_order_entries.specs.Seen.{seen_entry};
ghost use Rattle.cx_order.specs.TreeSizes.{AreSizes};
ghost use Rattle.cx_order.specs.Summaries.{told, fault_in, IsSummary, IsInside, first_found, IsEntrySummary};

use crate::meaning::Meaning;
use crate::sizes::{Sizes, entry_sizes};
use cx_order_entries::{Entry, entry_name};
use cx_scope::ScopeFault;
use cx_text::{Memory, Text};
use std::alloc::Global;

/// A fault of an entry's names, and the entry's path from a place on.
#[derive(Drop)]
pub(crate) struct Found<'m> {
    pub path: Text,
    pub fault: &'m ScopeFault,
}

/// How large the trees of some entries are, and the first fault in their order.
#[derive(Drop)]
pub(crate) struct Summary<'m> {
    pub sizes: Sizes,
    pub fault: Option<Found<'m>>,
}

/// An entry's path from its place on.
fn entry_path(alloc: Global, entry: &Entry<'_>) -> Result<Text, Memory>
    ensures { IfOk result (λ path. path ≡ codes "/" ++ entry_name (seen_entry entry.now)) }
{
    let mut path = Text::from_slice(alloc, b"/")?;
    path.push_slice(entry_name(entry).as_slice())?;
    Ok(path)
}

/// A fault in an entry's contents, seen from the entry's place.
fn fault_below<'m>(alloc: Global, entry: &Entry<'_>, found: &Found<'m>) -> Result<Found<'m>, Memory>
    ensures { let e = seen_entry entry.now in
        IfOk result (λ below. (path : List ℕ) → told path below ≡ told (path_of path e) found.now) }
{
    let mut path = entry_path(alloc, entry)?;
    path.push_slice(found.path.as_slice())?;
    Ok(Found {
        path,
        fault: found.fault,
    })
}

/// A fault of an entry's own names, seen from the entry's place.
fn own_fault<'m>(
    alloc: Global,
    entry: &Entry<'_>,
    fault: &'m ScopeFault,
) -> Result<Found<'m>, Memory>
    ensures { let e = seen_entry entry.now in
        IfOk result
        (λ own. (path : List ℕ) → told path own ≡ faults.Scope (path_of path e) fault.now) }
{
    Ok(Found {
        path: entry_path(alloc, entry)?,
        fault,
    })
}

/// The fault of what is known of an entry's contents.
fn fault_in<'s, 'm>(inside: Option<&'s Summary<'m>>) -> Option<&'s Found<'m>>
    ensures { option_copied result ≡ fault_in (option_copied inside.entry) }
{
    match inside {
        Some(summary) => summary.fault.as_ref(),
        None => None,
    }
}

/// The first fault of an entry's own names and its contents, seen from the entry's place.
fn first_fault<'m>(
    alloc: Global,
    entry: &Entry<'_>,
    meaning: &'m Result<Meaning, ScopeFault>,
    inside: Option<&Summary<'m>>,
) -> Result<Option<Found<'m>>, Memory>
    ensures { let e = seen_entry entry.now in
        let inside = option_copied inside.entry in
        IfOk result (λ first. (path : List ℕ)
        → option_map (told path) first ≡ first_found (path_of path e) meaning.now inside) }
{
    match meaning {
        Err(fault) => Ok(Some(own_fault(alloc, entry, fault)?)),
        Ok(_) => match fault_in(inside) {
            Some(found) => Ok(Some(fault_below(alloc, entry, found)?)),
            None => Ok(None),
        },
    }
}

/// How large the trees of what is known of an entry's contents are.
fn sizes_in(inside: Option<&Summary<'_>>) -> Sizes
    ensures { (w : World) (path : List ℕ) (f : Forest) (k : ℕ)
        → IsInside w path f (option_copied inside.entry)
        → AreSizes (trees w k f) result }
{
    match inside {
        Some(summary) => summary.sizes,
        None => Sizes::none(),
    }
}

/// What is known of an entry with these contents.
pub(crate) fn entry_summary<'m>(
    alloc: Global,
    entry: &Entry<'_>,
    meaning: &'m Result<Meaning, ScopeFault>,
    inside: Option<&Summary<'m>>,
) -> Result<Summary<'m>, Memory>
    ensures { let e = seen_entry entry.now in
        IfOk result (IsEntrySummary meaning.now e (option_copied inside.entry)) }
{
    Ok(Summary {
        sizes: entry_sizes(entry.block.group, meaning, sizes_in(inside)),
        fault: first_fault(alloc, entry, meaning, inside)?,
    })
}

impl<'m> Summary<'m> {
    /// What is known of no entries.
    pub(crate) fn nothing() -> Self
        ensures { (w : World) (path : List ℕ) → IsSummary w path Done result }
    {
        Summary {
            sizes: Sizes::none(),
            fault: None,
        }
    }

    /// What is known of an entry and of those behind it.
    pub(crate) fn before(self, rest: Summary<'m>) -> Self
        ensures { (w : World) (path : List ℕ) (e : blocks.Entry) (inner : List ℕ)
            (inside behind : Forest)
            → IsSummary w path (Then e inner inside Done) self.entry
            → IsSummary w path behind rest.entry
            → IsSummary w path (Then e inner inside behind) result }
    {
        Summary {
            sizes: self.sizes.before(rest.sizes),
            fault: self.fault.or(rest.fault),
        }
    }
}
