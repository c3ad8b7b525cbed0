//! What the names of entries stand for.

ghost use Rattle.std.specs.Prelude.{◌≡◌, ◌<◌, ◌↔◌, ◌++◌, Ok, map, length, All, IsTrue, IfOk, OnOk};
ghost use Rattle.std.specs.List.{list_any};
ghost use Rattle.cx_plan.specs.Lists.{once, all_ok};
ghost use Rattle.cx_scope.specs.Resolving.{ref_text};
ghost use Rattle.cx_text.specs.Telling.{Answers};
ghost use Rattle.cx_scope.specs.declared.fault.ScopeFault.TheVariants as faults;
ghost use Rattle.cx_order.specs.Meanings.{is_scalar, meant, one_scalar, tested, all_grid, all_joined, synced, touch, touches, unless_group, meaning, meaning_or_none};
ghost use Rattle.cx_order_entries.specs.Seen.{seen_entry, seen_entries};
ghost use Rattle.cx_order.specs.Worlds.{world_of, IsOfBound, HasThorn};
ghost use Rattle.cx_plan.specs.Regions.{same_variable};

use crate::context::Context;
use crate::meaning::Meaning;
use cx_order_entries::Entry;
use cx_plan::{Region, Touch, VarId};
use cx_sched::{Block, Ref};
use cx_scope::{ScopeFault, ref_text};
use cx_text::{List, Memory, Text};
use std::alloc::Global;

/// The fault of a test whose name means something other than one scalar.
fn not_scalar(alloc: Global, name: &Ref) -> Result<ScopeFault, Memory>
    ensures { IfOk result (λ fault. fault ≡ faults.NotScalar (ref_text name.now)) }
{
    Ok(ScopeFault::NotScalar(ref_text(alloc, name)?))
}

/// The fault of a scalar that is to be synchronised.
fn not_grid(alloc: Global, name: &Ref) -> Result<ScopeFault, Memory>
    ensures { IfOk result (λ fault. fault ≡ faults.NotGrid (ref_text name.now)) }
{
    Ok(ScopeFault::NotGrid(ref_text(alloc, name)?))
}

/// The one scalar that a name of IF or WHILE means, by the levels that it means.
fn one_scalar(
    alloc: Global,
    context: &Context<'_>,
    name: &Ref,
    levels: &[(VarId, u8)],
) -> Result<Option<VarId>, ScopeFault>
    ensures { let told = one_scalar (world_of context.now) name.now (Ok levels.now) in
        Answers faults.Memory told result }
{
    match levels {
        [(variable, _)] if context.is_scalar(*variable) => Ok(Some(*variable)),
        _ => Err(not_scalar(alloc, name)?),
    }
}

/// The scalar of IF or WHILE.
fn tested(
    alloc: Global,
    context: &Context<'_>,
    thorn: u32,
    name: &Option<Ref>,
) -> Result<Option<VarId>, ScopeFault>
    requires scope { IsOfBound context.now }
    requires thorn { thorn < length context.now.bound.now }
    ensures { Answers faults.Memory (tested (world_of context.now) thorn name.now) result }
{
    match name {
        Some(name) => {
            let levels = context.meant(thorn, name)?;
            one_scalar(alloc, context, name, levels.as_slice())
        }
        None => Ok(None),
    }
}

/// Whether one of the levels is of a scalar.
fn has_scalar(context: &Context<'_>, levels: &[(VarId, u8)]) -> bool
    ensures { result ≡ list_any (λ l. is_scalar (world_of context.now) l.0) levels.now }
{
    levels.iter().any(|level| context.is_scalar(level.0))
}

/// The variables of levels, in their order.
fn variables_of(alloc: Global, levels: &[(VarId, u8)]) -> Result<List<VarId>, Memory>
    ensures { IfOk result (λ variables. variables ≡ map (λ l. l.0) levels.now) }
{
    let mut variables = List::empty(alloc);
    'levels: for (variable, _) in levels {
        variables.push(*variable)?;
    }
    Ok(variables)
}

/// The grid variables that a name of SYNC means, by the levels that it means.
fn grid_variables(
    alloc: Global,
    context: &Context<'_>,
    name: &Ref,
    levels: &[(VarId, u8)],
) -> Result<List<VarId>, ScopeFault>
    ensures { let told = all_grid (world_of context.now) name.now (Ok levels.now) in
        Answers faults.Memory told result }
{
    if has_scalar(context, levels) {
        return Err(not_grid(alloc, name)?);
    }
    Ok(variables_of(alloc, levels)?)
}

/// The grid variables that a name of SYNC means.
fn all_grid(
    alloc: Global,
    context: &Context<'_>,
    thorn: u32,
    name: &Ref,
) -> Result<List<VarId>, ScopeFault>
    requires scope { IsOfBound context.now }
    requires thorn { thorn < length context.now.bound.now }
    ensures { let w = world_of context.now in
        Answers faults.Memory (all_grid w name.now (meant w thorn name.now)) result }
{
    let levels = context.meant(thorn, name)?;
    grid_variables(alloc, context, name, levels.as_slice())
}

/// The grid variables that the names of SYNC mean, also those that come again.
fn all_synced(
    alloc: Global,
    context: &Context<'_>,
    thorn: u32,
    names: &[Ref],
) -> Result<List<VarId>, ScopeFault>
    requires scope { IsOfBound context.now }
    requires thorn { thorn < length context.now.bound.now }
    ensures { let w = world_of context.now in
        let told = all_joined (all_ok (map (λ r. all_grid w r (meant w thorn r)) names.now)) in
        Answers faults.Memory told result }
{
    let mut variables = Vec::new(alloc);
    'names: for name in names {
        let more = all_grid(alloc, context, thorn, name)?;
        variables.extend_from_slice(more.as_slice())?;
    }
    Ok(List::new(variables))
}

/// Whether a variable is in the list.
fn has_variable(variables: &[VarId], variable: VarId) -> bool
    ensures { result ≡ list_any (same_variable variable) variables.now }
{
    variables.iter().any(|other| variable.0 == other.0)
}

/// Each variable once, at its first place.
fn each_once(alloc: Global, variables: &[VarId]) -> Result<List<VarId>, Memory>
    ensures { IfOk result (λ list. list ≡ once same_variable variables.now) }
{
    let mut list = List::empty(alloc);
    'variables: for variable in variables {
        if !has_variable(list.as_slice(), *variable) {
            list.push(*variable)?;
        }
    }
    Ok(list)
}

/// The variables of SYNC, each once.
fn synced(
    alloc: Global,
    context: &Context<'_>,
    thorn: u32,
    names: &[Ref],
) -> Result<List<VarId>, ScopeFault>
    requires scope { IsOfBound context.now }
    requires thorn { thorn < length context.now.bound.now }
    ensures { Answers faults.Memory (synced (world_of context.now) thorn names.now) result }
{
    let variables = all_synced(alloc, context, thorn, names)?;
    Ok(each_once(alloc, variables.as_slice())?)
}

/// Adds accesses to these levels in a region, without neighbours.
fn push_touches(
    touches: &mut Vec<Touch>,
    region: Region,
    levels: &[(VarId, u8)],
) -> Result<(), Memory>
    ensures { OnOk result
        (touches.new.items ≡ touches.old.items ++ map (touch region) levels.now) }
{
    'levels: for (var, level) in levels {
        touches.push(Touch {
            var: *var,
            level: *level,
            region,
            reach: 0,
        })?;
    }
    Ok(())
}

/// What READS or WRITES name: each level, in its region.
fn touches(
    alloc: Global,
    context: &Context<'_>,
    thorn: u32,
    names: &[(Ref, Region)],
) -> Result<List<Touch>, ScopeFault>
    requires scope { IsOfBound context.now }
    requires thorn { thorn < length context.now.bound.now }
    ensures { Answers faults.Memory (touches (world_of context.now) thorn names.now) result }
{
    let mut touches = Vec::new(alloc);
    'names: for (name, region) in names {
        let levels = context.meant(thorn, name)?;
        push_touches(&mut touches, *region, levels.as_slice())?;
    }
    Ok(List::new(touches))
}

/// The names of READS or WRITES, which have no effect at a group.
fn unless_group<'a>(block: &'a Block, names: &'a [(Ref, Region)]) -> &'a [(Ref, Region)]
    ensures { result.now ≡ unless_group block.now names.now }
{
    if block.group { &names[..0] } else { names }
}

/// What an entry's names stand for, in the order IF, WHILE, SYNC, READS, WRITES, or the first fault.
pub(crate) fn meaning(
    alloc: Global,
    context: &Context<'_>,
    entry: &Entry<'_>,
) -> Result<Meaning, ScopeFault>
    requires scope { IsOfBound context.now }
    requires thorn { HasThorn context.now entry.now }
    ensures { Answers faults.Memory (meaning (world_of context.now) (seen_entry entry.now)) result }
{
    let thorn = entry.thorn;
    let block = entry.block;
    let test = tested(alloc, context, thorn, &block.test)?;
    let turn = tested(alloc, context, thorn, &block.turn)?;
    let sync = synced(alloc, context, thorn, block.sync.as_slice())?;
    let reads = touches(
        alloc,
        context,
        thorn,
        unless_group(block, block.reads.as_slice()),
    )?;
    let writes = touches(
        alloc,
        context,
        thorn,
        unless_group(block, block.writes.as_slice()),
    )?;
    Ok(Meaning {
        test,
        turn,
        sync,
        reads,
        writes,
    })
}

/// Whether a name couldn't be looked up because memory ran out.
fn is_memory(fault: &ScopeFault) -> bool
    ensures { IsTrue result ↔ (fault.now ≡ faults.Memory) }
{
    matches!(fault, ScopeFault::Memory)
}

/// What an entry's names stand for, or their fault.
fn meaning_or_fault(
    alloc: Global,
    context: &Context<'_>,
    entry: &Entry<'_>,
) -> Result<Result<Meaning, ScopeFault>, Memory>
    requires scope { IsOfBound context.now }
    requires thorn { HasThorn context.now entry.now }
    ensures { let wanted = meaning (world_of context.now) (seen_entry entry.now) in
        IfOk result (λ told. told ≡ wanted) }
{
    match meaning(alloc, context, entry) {
        Ok(meaning) => Ok(Ok(meaning)),
        Err(fault) => {
            if is_memory(&fault) {
                return Err(Memory);
            }
            Ok(Err(fault))
        }
    }
}

/// What each entry's names stand for, or their fault: that of an entry that stands nowhere is never told.
pub(crate) fn meanings(
    alloc: Global,
    context: &Context<'_>,
    entries: &[Entry<'_>],
) -> Result<Vec<Result<Meaning, ScopeFault>>, Memory>
    requires scope { IsOfBound context.now }
    requires thorns { All (HasThorn context.now) entries.now }
    ensures { let wanted = map (meaning (world_of context.now)) (seen_entries entries.now) in
        IfOk result (λ meanings. meanings.items ≡ wanted) }
{
    let mut meanings = Vec::new(alloc);
    'entries: for entry in entries {
        let told = meaning_or_fault(alloc, context, entry)?;
        meanings.push(told)?;
    }
    Ok(meanings)
}

/// What the names of an entry mean; nothing at all if one of them has a fault.
fn meaning_or_none(alloc: Global, told: Result<Meaning, ScopeFault>) -> Meaning
    ensures { result ≡ meaning_or_none told }
{
    match told {
        Ok(meaning) => meaning,
        Err(_) => Meaning {
            test: None,
            turn: None,
            sync: List::empty(alloc),
            reads: List::empty(alloc),
            writes: List::empty(alloc),
        },
    }
}

/// What entries' names stand for, and nothing where they have a fault.
pub(crate) fn without_faults(
    alloc: Global,
    meanings: Vec<Result<Meaning, ScopeFault>>,
) -> Result<Vec<Meaning>, Memory>
    ensures { IfOk result (λ all. all.items ≡ map meaning_or_none meanings.items) }
{
    let mut all = Vec::new(alloc);
    'meanings: for told in meanings {
        all.push(meaning_or_none(alloc, told))?;
    }
    Ok(all)
}
