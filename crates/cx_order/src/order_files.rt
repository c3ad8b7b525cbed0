//! Ordering: from the schedule files of bound thorns to a plan.

ghost use Rattle.std.specs.Prelude.{◌≡◌, ◌⊎◌, ◌<◌, length, map, None, Some, All, IfOk, IfErr, MatchResult};
ghost use Rattle.cx_order.specs.declared.ordered.Ordered.{Ordered};
ghost use Rattle.cx_order.specs.declared.fault.OrderFault.TheVariants as faults;
ghost use Rattle.cx_order_entries.specs.Entries.{names_fault};
ghost use Rattle.cx_order.specs.Files.{input_of};
ghost use Rattle.cx_order.specs.Meanings.{names_of};
ghost use Rattle.cx_order.specs.Ordering.{AreEntries, IsPlan, IsFault, OrderAnswers, IsFaultFrom, IsPlanFrom};
ghost use Rattle.cx_order_entries.specs.Placement.{IsPlaced};
ghost use Rattle.cx_order.specs.PlanSteps.{forests_in};
ghost use Rattle.cx_order.specs.Plans.{entry_fault, limit_fault, bin_trees, plan_fault};
ghost use Rattle.cx_order_entries.specs.Seen.{seen, seen_as, seen_entries};
ghost use Rattle.cx_order.specs.Worlds.{world_of, IsOfBound, HasThorn};

use crate::Ordered;
use crate::all_files::count_all;
use crate::checks::check_plan;
use crate::context::Context;
use crate::fault::OrderFault;
use crate::meaning::Meaning;
use crate::name_lookup::{meanings, without_faults};
use crate::planning::{Planned, Source, plan};
use crate::storage::stored_levels;
use cx_bind::Bound;
use cx_order_entries::{Counted, Entry, Line, Placed, check_bins, check_names, place_entries};
use cx_sched::ScheduleFile;
use cx_scope::Scope;
use cx_text::List;
use cx_values::Values;
use std::alloc::Global;

/// What counts of the files, where no bin is unknown and no name stands twice in a bin or group.
fn counted_entries<'a>(
    alloc: Global,
    bound: &Bound,
    files: &'a [ScheduleFile],
    values: &Values,
) -> Result<Counted<'a>, OrderFault>
    requires { length files.now ≡ length bound.now }
    ensures fits { let input = input_of bound.now files.now values.now in
        IfOk result (λ counted. AreEntries input (seen counted)) }
    ensures fault { let input = input_of bound.now files.now values.now in
        IfErr result (λ e. (e ≡ faults.Memory) ⊎ IsFault input e) }
    ensures lines { IfOk result
        (λ counted. All (λ line. line.thorn < length bound.now) counted.lines.items) }
    ensures entries { IfOk result
        (λ counted. All (λ entry. entry.thorn < length bound.now) counted.entries.items) }
{
    let counted = count_all(alloc, bound, files, values)?;
    check_bins(alloc, &counted.entries)?;
    check_names(alloc, &counted.entries)?;
    Ok(counted)
}

/// What entries' names stand for, where none of a placed entry has a fault and the trees aren't too large.
fn checked_meanings(
    alloc: Global,
    context: &Context<'_>,
    entries: &[Entry<'_>],
    placed: &Placed,
) -> Result<Vec<Meaning>, OrderFault>
    requires scope { IsOfBound context.now }
    requires thorns { All (HasThorn context.now) entries.now }
    requires placed { IsPlaced (seen_entries entries.now) placed.now }
    ensures names { let fs = forests_in (seen_entries entries.now) placed.now in
        IfOk result (λ _. entry_fault (world_of context.now) fs ≡ None) }
    ensures limits { let fs = forests_in (seen_entries entries.now) placed.now in
        IfOk result (λ _. limit_fault (bin_trees (world_of context.now) 0 fs) ≡ None) }
    ensures meanings { let es = seen_entries entries.now in
        let wanted = map (names_of (world_of context.now)) es in
        IfOk result (λ meanings. meanings.items ≡ wanted) }
    ensures fault { let fs = forests_in (seen_entries entries.now) placed.now in
        let fault = plan_fault (world_of context.now) fs in
        IfErr result (λ e. (e ≡ faults.Memory) ⊎ (fault ≡ Some e)) }
{
    let meanings = meanings(alloc, context, entries)?;
    check_plan(alloc, entries, placed, &meanings)?;
    Ok(without_faults(alloc, meanings)?)
}

/// The plan of what counts: some STORAGE lines and entries.
fn planned(
    alloc: Global,
    bound: &Bound,
    lines: &[Line<'_>],
    entries: &[Entry<'_>],
) -> Result<Ordered, OrderFault>
    requires names { names_fault (seen_entries entries.now) ≡ None }
    requires lines { All (λ line. line.thorn < length bound.now) lines.now }
    requires entries { All (λ entry. entry.thorn < length bound.now) entries.now }
    ensures plan { IfOk result (IsPlanFrom bound.now (seen_as lines.now entries.now)) }
    ensures fault { let c = seen_as lines.now entries.now in
        IfErr result (λ e. (e ≡ faults.Memory) ⊎ IsFaultFrom bound.now c e) }
{
    let placed = place_entries(alloc, entries)?;
    let scope = Scope::new(alloc, bound)?;
    let storage = stored_levels(alloc, &scope, bound, lines)?;
    let context = Context {
        alloc,
        bound,
        scope: &scope,
        storage: &storage,
    };
    let meanings = checked_meanings(alloc, &context, entries, &placed)?;
    let source = Source {
        context: &context,
        entries,
        placed: &placed,
        meanings: &meanings,
    };
    let Planned { plan, items, text } = plan(&source)?;
    Ok(Ordered {
        plan,
        items,
        storage,
        text,
    })
}

/// The plan of the schedule files of bound thorns, one file for each in the order of activation, by the values of parameters.
///
/// Blocks and STORAGE lines count where each `if` around them holds; what stands in a branch that isn't taken is neither
/// evaluated nor tested. The entries of a bin or group are numbered by their thorns and then by their places in the files. They
/// run in the least order, compared number by number, in which each stands behind those that must come before it. A group runs
/// its contents at each place where it stands; WHILE stands around an entry's work and its SYNC, and IF outside. A STORAGE line
/// gives its group so many levels for the whole run, all declared ones where no number stands, and the greatest number counts.
/// (Cactus 4 Users' Guide, schedule.ccl; the least order, and storage for the whole run, are this project's own.)
///
/// Expr: an `if` has no value. UnknownBin: a bin isn't there. TwoNames: two entries of one bin or group have one name.
/// GroupCycle: a group contains itself, also through others. Cycle: entries of one bin or group must each come before the next,
/// and the last before the first. Scope: a name of a STORAGE line, and then one of an entry that is placed, in the order of
/// the trees, stands for nothing, an IF or WHILE isn't for one scalar, or a SYNC is for a scalar. Limit: trees are more than 32
/// `depth` or have more than 4,096 `nodes`. The first of the first kind counts. Memory: out of memory.
///
/// Files and values have one plan or a fault, and never both: where there is a plan, it is the answer, unless memory runs out.
pub fn order(
    alloc: Global,
    bound: &Bound,
    files: &List<ScheduleFile>,
    values: &Values,
) -> Result<Ordered, OrderFault>
    requires { length files.now ≡ length bound.now }
    ensures answers { OrderAnswers (input_of bound.now files.now values.now) result }
    ensures only { (plan : Ordered) → IsPlan (input_of bound.now files.now values.now) plan
        → MatchResult result (λ found. found ≡ plan) (λ e. e ≡ faults.Memory) }
{
    let counted = counted_entries(alloc, bound, files.as_slice(), values)?;
    planned(
        alloc,
        bound,
        counted.lines.as_slice(),
        counted.entries.as_slice(),
    )
}
