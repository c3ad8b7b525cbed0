//! How many levels each variable stores.

ghost use Rattle.std.specs.Prelude.{◌≡◌, ◌⊎◌, ◌<◌, ◌∷◌, [], map, replicate, length, All, Ok, IfOk, OnOk};
ghost use Rattle.cx_bind.specs.Variables.{variable_infos};
ghost use Rattle.cx_scope.specs.Closures.{thorns_in, sight_in};
ghost use Rattle.cx_scope.specs.declared.fault.ScopeFault.TheVariants as scope_faults;
ghost use Rattle.cx_order.specs.declared.fault.OrderFault.TheVariants as faults;
ghost use Rattle.cx_text.specs.Telling.{Tells};
ghost use Rattle.cx_order.specs.Files.{thorn_name};
ghost use Rattle.cx_order_entries.specs.Seen.{seen_line};
ghost use Rattle.cx_order.specs.Storage.{line_fault, storage_fault, granted, given, given_by, storage, IsRaised, stored_by};

use crate::fault::OrderFault;
use cx_bind::Bound;
use cx_order_entries::Line;
use cx_plan::{VarId, VarInfo};
use cx_scope::{Scope, ScopeFault};
use cx_text::{List, Text};
use std::alloc::{AllocError, Global};

/// So many levels, and all declared ones where no number stands.
fn granted(declared: u8, levels: Option<u32>) -> u8
    ensures { result ≡ granted declared levels }
{
    match levels {
        None => declared,
        Some(levels) => levels.min(u32::from(declared)) as u8,
    }
}

/// Gives a variable these levels, where it has fewer.
fn raise(stored: &mut [u8], variables: &[VarInfo], variable: VarId, levels: Option<u32>)
    requires { length stored.old ≡ length variables.now }
    ensures length { length stored.new ≡ length stored.old }
    ensures levels { let more = given variables.now levels (Ok (variable ∷ [])) in
        IsRaised stored.old stored.new more }
{
    let place = variable.0 as usize;
    if let Some(info) = variables.get(place) {
        stored[place] = stored[place].max(granted(info.levels, levels));
    }
}

/// Gives each variable of a group these levels, where it has fewer.
fn raise_group(stored: &mut [u8], variables: &[VarInfo], group: &[VarId], levels: Option<u32>)
    requires { length stored.old ≡ length variables.now }
    ensures length { length stored.new ≡ length stored.old }
    ensures levels { IsRaised stored.old stored.new (given variables.now levels (Ok group.now)) }
{
    'group: for variable in group {
        raise(stored, variables, *variable, levels);
    }
}

/// The fault of a name in a STORAGE line of a thorn, or want of memory.
fn name_fault(alloc: Global, thorn: &Text, fault: ScopeFault) -> OrderFault
    ensures memory { fault ≡ scope_faults.Memory → result ≡ faults.Memory }
    ensures told { (result ≡ faults.Memory) ⊎ (result ≡ faults.Scope thorn.now fault) }
{
    match fault {
        ScopeFault::Memory => OrderFault::Memory,
        fault => match thorn.copy(alloc) {
            Ok(thorn) => OrderFault::Scope(thorn, fault),
            Err(_) => OrderFault::Memory,
        },
    }
}

/// The name of a thorn by its number.
fn thorn_name(bound: &Bound, thorn: u32) -> &Text
    requires { thorn < length bound.now }
    ensures { result.now ≡ thorn_name bound.now thorn }
{
    &bound.thorns().as_slice()[thorn as usize].name
}

/// Gives the variables of a STORAGE line's group its levels.
fn raise_line(
    stored: &mut [u8],
    alloc: Global,
    scope: &Scope<'_>,
    bound: &Bound,
    line: &Line<'_>,
) -> Result<(), OrderFault>
    requires thorns { thorns_in scope.now ≡ bound.now }
    requires within { line.now.thorn < length bound.now }
    requires length { length stored.old ≡ length (variable_infos bound.now) }
    ensures told { let fault = line_fault bound.now (sight_in scope.now) (seen_line line.now) in
        Tells faults.Memory fault result }
    ensures length { length stored.new ≡ length stored.old }
    ensures levels { OnOk result (IsRaised stored.old stored.new
        (λ v. given_by bound.now (sight_in scope.now) v (seen_line line.now))) }
{
    match scope.group_of(alloc, line.thorn, line.group) {
        Ok(group) => {
            let variables = bound.variables().as_slice();
            raise_group(stored, variables, group.as_slice(), line.levels);
            Ok(())
        }
        Err(fault) => Err(name_fault(alloc, thorn_name(bound, line.thorn), fault)),
    }
}

/// Gives the variables of each STORAGE line's group its levels.
fn raise_lines(
    stored: &mut [u8],
    alloc: Global,
    scope: &Scope<'_>,
    bound: &Bound,
    lines: &[Line<'_>],
) -> Result<(), OrderFault>
    requires thorns { thorns_in scope.now ≡ bound.now }
    requires within { All (λ line. line.thorn < length bound.now) lines.now }
    requires length { length stored.old ≡ length (variable_infos bound.now) }
    ensures told { let lines = map seen_line lines.now in
        let fault = storage_fault bound.now (sight_in scope.now) lines in
        Tells faults.Memory fault result }
    ensures length { length stored.new ≡ length stored.old }
    ensures levels { OnOk result (IsRaised stored.old stored.new
        (stored_by bound.now (sight_in scope.now) (map seen_line lines.now))) }
{
    'lines: for line in lines {
        raise_line(stored, alloc, scope, bound, line)?;
    }
    Ok(())
}

/// So many variables, none with a level.
fn no_levels(alloc: Global, count: usize) -> Result<Vec<u8>, AllocError>
    ensures { IfOk result (λ levels. levels.items ≡ replicate count 0) }
{
    vec![in alloc; 0; count]
}

/// How many levels each variable stores, by the variables' numbers: the most that a STORAGE line grants it.
pub(crate) fn stored_levels(
    alloc: Global,
    scope: &Scope<'_>,
    bound: &Bound,
    lines: &[Line<'_>],
) -> Result<List<u8>, OrderFault>
    requires thorns { thorns_in scope.now ≡ bound.now }
    requires within { All (λ line. line.thorn < length bound.now) lines.now }
    ensures told { let lines = map seen_line lines.now in
        let fault = storage_fault bound.now (sight_in scope.now) lines in
        Tells faults.Memory fault result }
    ensures levels { let lines = map seen_line lines.now in
        let wanted = storage bound.now (sight_in scope.now) lines in
        IfOk result (λ levels. levels ≡ wanted) }
{
    let mut stored = no_levels(alloc, bound.variables().len())?;
    raise_lines(&mut stored, alloc, scope, bound, lines)?;
    Ok(List::new(stored))
}
