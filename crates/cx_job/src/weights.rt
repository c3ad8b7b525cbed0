//! The variable whose numbers weigh the points of the grid.

ghost use Rattle.std.specs.Prelude.{◌≡◌, ◌<◌, ◌^◌, length, option_map, IfOk, IfSome};
ghost use Rattle.cx_text.specs.Telling.{Tells};
ghost use Rattle.cx_scope.specs.Resolving.{var_id};
ghost use Rattle.cx_scope.specs.declared.fault.ScopeFault.TheVariants as faults;
ghost use Rattle.cx_job.specs.Weights.{grid_fault, weight_by, weight_fault, weight_fault_by, weight_of};

use crate::outputs::{is_stored, variable_named};
use cx_bind::Bound;
use cx_job_values::weight_name;
use cx_plan::{VarId, VarInfo};
use cx_scope::ScopeFault;
use cx_text::{List, Memory, Text};
use cx_values::Values;
use std::alloc::Global;

/// Tests what a name gives: a variable that weighs is one of the grid, with storage.
fn check_grid(
    alloc: Global,
    vars: &[VarInfo],
    storage: &[u8],
    name: &[u8],
    number: Option<usize>,
) -> Result<(), ScopeFault>
    requires { IfSome number (λ k. k < length vars.now) }
    ensures { Tells faults.Memory (grid_fault vars.now storage.now name.now number) result }
{
    let Some(number) = number else {
        return Err(ScopeFault::NotFound(Text::from_slice(alloc, name)?));
    };
    if vars[number].scalar {
        return Err(ScopeFault::NotGrid(Text::from_slice(alloc, name)?));
    }
    if !is_stored(storage, number) {
        return Err(ScopeFault::NoStorage(Text::from_slice(alloc, name)?));
    }
    Ok(())
}

/// Tests the name of the variable that weighs, if it isn't empty.
fn check_name(
    alloc: Global,
    vars: &[VarInfo],
    storage: &[u8],
    name: &[u8],
) -> Result<(), ScopeFault>
    ensures { Tells faults.Memory (weight_fault_by vars.now storage.now name.now) result }
{
    if name.is_empty() {
        return Ok(());
    }
    check_grid(alloc, vars, storage, name, variable_named(vars, name))
}

/// Tests the variable that `driver::weight` names, if it isn't empty: its whole text is the full name in any case.
///
/// NotFound: no variable has the name. NotGrid: it is a scalar. NoStorage: no level is stored of it.
pub(crate) fn check_weight(
    alloc: Global,
    bound: &Bound,
    values: &Values,
    storage: &List<u8>,
) -> Result<(), ScopeFault>
    ensures { Tells faults.Memory (weight_fault bound.now values.now storage.now) result }
{
    let name = weight_name(alloc, values)?;
    let vars = bound.variables().as_slice();
    check_name(alloc, vars, storage.as_slice(), name.as_slice())
}

/// The variable of a number.
fn id_of(number: Option<usize>) -> Option<VarId>
    requires { IfSome number (λ k. k < 2 ^ 32) }
    ensures { result ≡ option_map var_id number }
{
    match number {
        Some(number) => Some(VarId(number as u32)),
        None => None,
    }
}

/// The variable of the full name, if it isn't empty.
fn weight_by(vars: &[VarInfo], name: &[u8]) -> Option<VarId>
    requires { length vars.now < 2 ^ 32 }
    ensures { result ≡ weight_by vars.now name.now }
{
    if name.is_empty() {
        return None;
    }
    id_of(variable_named(vars, name))
}

/// The variable that weighs, if `driver::weight` names one.
pub(crate) fn weight_of(
    alloc: Global,
    bound: &Bound,
    values: &Values,
) -> Result<Option<VarId>, Memory>
    ensures { IfOk result (λ weight. weight ≡ weight_of bound.now values.now) }
{
    let name = weight_name(alloc, values)?;
    Ok(weight_by(bound.variables().as_slice(), name.as_slice()))
}
