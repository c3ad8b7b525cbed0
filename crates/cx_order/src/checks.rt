//! Whether a plan may be built.

ghost use Rattle.std.specs.Prelude.{◌≡◌, ℕ, ◌-◌, ◌^◌, ◌<◌, min, List, map, length, option_map, IfOk};
ghost use Rattle.cx_order.specs.declared.fault.OrderFault.TheVariants as faults;
ghost use Rattle.cx_plan.specs.Lookups.{bin_name};
ghost use Rattle.cx_text.specs.Telling.{Tells};
ghost use Rattle.cx_order.specs.Meanings.{World, meaning};
ghost use Rattle.cx_order_entries.specs.Placement.{IsPlaced};
ghost use Rattle.cx_order.specs.PlanSteps.{forests_in};
ghost use Rattle.cx_order_entries.specs.Seen.{seen_entries};
ghost use Rattle.cx_order.specs.Plans.{Forest, entry_fault, bin_trees, over, limit_fault, plan_fault};
ghost use Rattle.cx_order.specs.Summaries.{told, AreBinSummaries};
ghost use Rattle.cx_order.specs.TreeSizes.{AreSizes};

use crate::all_places::bin_summaries;
use crate::copies::copy_scope_fault;
use crate::fault::OrderFault;
use crate::meaning::Meaning;
use crate::sizes::Sizes;
use crate::summary::{Found, Summary};
use cx_order_entries::{Entry, Placed, bin_name};
use cx_scope::ScopeFault;
use cx_text::{Memory, Text};
use std::alloc::Global;

/// The greatest depth of a plan.
const MAX_DEPTH: u64 = 32;

/// The most nodes of a plan.
const MAX_NODES: u64 = 4096;

/// The fault that was found in a bin.
fn fault_in_bin(alloc: Global, bin: usize, found: &Found<'_>) -> Result<OrderFault, Memory>
    ensures { IfOk result (λ fault. fault ≡ told (bin_name bin) found.now) }
{
    let mut path = Text::from_slice(alloc, bin_name(bin))?;
    path.push_slice(found.path.as_slice())?;
    Ok(OrderFault::Scope(path, copy_scope_fault(alloc, found.fault)?))
}

/// Tests that the summary of a bin's entries has no fault.
fn check_bin(alloc: Global, bin: usize, summary: &Summary<'_>) -> Result<(), OrderFault>
    ensures { Tells faults.Memory (option_map (told (bin_name bin)) summary.now.fault) result }
{
    match &summary.fault {
        Some(found) => Err(fault_in_bin(alloc, bin, found)?),
        None => Ok(()),
    }
}

/// Tests that the names of all entries that run stand for something.
fn check_entries(alloc: Global, bins: &[Summary<'_>]) -> Result<(), OrderFault>
    ensures { (w : World) (forests : List Forest) → AreBinSummaries w 0 forests bins.now
        → Tells faults.Memory (entry_fault w forests) result }
{
    for (bin, summary) in bins.iter().enumerate() {
        check_bin(alloc, bin, summary)?;
    }
    Ok(())
}

/// How large all trees are.
fn plan_sizes(bins: &[Summary<'_>]) -> Sizes
    ensures { (w : World) (b k : ℕ) (forests : List Forest) → AreBinSummaries w b forests bins.now
        → AreSizes (bin_trees w k forests) result }
{
    let mut sizes = Sizes::none();
    for at in (0..bins.len()).rev() {
        sizes = bins[at].sizes.around().before(sizes);
    }
    sizes
}

/// The fault of a number above its limit, with what it counts.
fn limit_fault(alloc: Global, what: &[u8], number: u64) -> Result<OrderFault, Memory>
    ensures { IfOk result (λ fault. fault ≡ faults.Limit what.now number) }
{
    Ok(OrderFault::Limit(Text::from_slice(alloc, what)?, number))
}

/// Tests that a count isn't above its limit. A count past 64 bits comes as the greatest number.
fn check_limit(alloc: Global, what: &[u8], number: u64, limit: u64) -> Result<(), OrderFault>
    requires { limit < 2 ^ 64 - 1 }
    ensures { (count : ℕ) → number ≡ min count (2 ^ 64 - 1)
        → Tells faults.Memory (over what.now count limit) result }
{
    if number > limit {
        return Err(limit_fault(alloc, what, number)?);
    }
    Ok(())
}

/// Tests that the plan isn't too deep or too large.
fn check_limits(alloc: Global, bins: &[Summary<'_>]) -> Result<(), OrderFault>
    ensures { (w : World) (forests : List Forest) → AreBinSummaries w 0 forests bins.now
        → Tells faults.Memory (limit_fault (bin_trees w 0 forests)) result }
{
    let sizes = plan_sizes(bins);
    check_limit(alloc, b"depth", sizes.depth, MAX_DEPTH)?;
    check_limit(alloc, b"nodes", sizes.nodes, MAX_NODES)
}

/// Tests that the names of all entries that run stand for something, and then that the plan isn't too deep or too large.
pub(crate) fn check_plan(
    alloc: Global,
    entries: &[Entry<'_>],
    placed: &Placed,
    meanings: &[Result<Meaning, ScopeFault>],
) -> Result<(), OrderFault>
    requires placed { IsPlaced (seen_entries entries.now) placed.now }
    requires meanings { length meanings.now ≡ length entries.now }
    ensures { let es = seen_entries entries.now in
        (w : World) → meanings.now ≡ map (meaning w) es
        → Tells faults.Memory (plan_fault w (forests_in es placed.now)) result }
{
    let bins = bin_summaries(alloc, entries, placed, meanings)?;
    check_entries(alloc, &bins)?;
    check_limits(alloc, &bins)
}
