//! Steps of parameters: other values from an iteration on.

ghost use Rattle.std.specs.Prelude.{◌≡◌, [], ◌∷◌, Some, IfOk};
ghost use Rattle.std.specs.List.{flat_map};
ghost use Rattle.cx_text.specs.Telling.{Tells};
ghost use Rattle.cx_bind.specs.NamePlaces.{place_of};
ghost use Rattle.cx_values.specs.Numbers.{dues_of};
ghost use Rattle.cx_values.specs.Steering.{may_change, order_fault, change_fault, change_fault_of, line_fault, lines_fault, step_of, step_by, Steers};
ghost use Rattle.cx_values.specs.declared.fault.ValueFault.TheVariants as faults;

use crate::fault::ValueFault;
use crate::given::held_set;
use crate::lookups::element;
use crate::naming::all_names;
use crate::numbers::{Dues, dues_of, is_due_in};
use crate::settings::find_parameter;
use crate::values::Values;
use cx_bind::{Bound, NamePlaces, Param};
use cx_param::{Steer, Value};
use cx_parfile::SteerLine;
use cx_text::List;
use std::alloc::Global;

/// A parameter's value from an iteration on.
#[derive(Debug, Drop)]
pub struct SteerStep {
    /// The first iteration with this value.
    pub at: u64,
    /// The place of the parameter among those of the configuration.
    pub param: usize,
    /// The element, if the parameter is an array.
    pub index: Option<u32>,
    /// The value; a keyword is spelled as it is declared.
    pub value: Value,
}

/// Whether a parameter may change at an iteration.
fn may_change(dues: Dues, steer: Steer, n: u64) -> bool
    ensures { result ≡ may_change dues steer n }
{
    match steer {
        Steer::Never => false,
        Steer::Always => true,
        Steer::Recover => n != 0 && is_due_in(dues, n - 1),
    }
}

/// Tests that a line's iteration isn't below that of the line before.
fn check_order(before: u64, n: u64, line: u32) -> Result<(), ValueFault>
    ensures { Tells faults.Memory (order_fault before n line) result }
{
    if n < before {
        return Err(ValueFault::SteerOrder(line));
    }
    Ok(())
}

/// The step that a line gives a parameter, by the parameter's place.
fn step_of(
    alloc: Global,
    dues: Dues,
    before: u64,
    line: &SteerLine,
    parameter: usize,
    param: &Param,
) -> Result<SteerStep, ValueFault>
    ensures told { Tells faults.Memory (change_fault dues before line.now param.now) result }
    ensures step { IfOk result (λ step. step ∷ [] ≡ step_of line.now parameter (Some param.now)) }
{
    if !may_change(dues, param.decl.steer, line.at) {
        return Err(ValueFault::NotSteerable(line.setting.line));
    }
    let held = held_set(alloc, b"", param, &line.setting)?;
    check_order(before, line.at, line.setting.line)?;
    Ok(SteerStep {
        at: line.at,
        param: parameter,
        index: line.setting.index,
        value: held.value,
    })
}

/// The step that a line gives the parameter that it names, if its index fits.
fn indexed_step(
    alloc: Global,
    dues: Dues,
    before: u64,
    line: &SteerLine,
    parameter: usize,
    param: &Param,
) -> Result<SteerStep, ValueFault>
    ensures told { Tells faults.Memory
        (change_fault_of dues before line.now (Some param.now)) result }
    ensures step { IfOk result (λ step. step ∷ [] ≡ step_of line.now parameter (Some param.now)) }
{
    match element(param.decl.length, line.setting.index) {
        None => Err(ValueFault::Index(line.setting.line)),
        Some(_) => step_of(alloc, dues, before, line, parameter, param),
    }
}

/// The step that a line gives, behind a line of the iteration `before`; a fault if it gives none.
fn step_by(
    alloc: Global,
    params: &[Param],
    names: &NamePlaces,
    dues: Dues,
    before: u64,
    line: &SteerLine,
) -> Result<SteerStep, ValueFault>
    ensures told { Tells faults.Memory
        (line_fault params.now (place_of names.now) dues before line.now) result }
    ensures step { IfOk result
        (λ step. step ∷ [] ≡ step_by params.now (place_of names.now) line.now) }
{
    let Some(parameter) = find_parameter(alloc, names, &line.setting)? else {
        return Err(ValueFault::UnknownParam(line.setting.line));
    };
    match params.get(parameter) {
        None => Err(ValueFault::UnknownParam(line.setting.line)),
        Some(param) => indexed_step(alloc, dues, before, line, parameter, param),
    }
}

/// The steps that lines give, in the order of the file. The first fault counts.
fn all_steps(
    alloc: Global,
    params: &[Param],
    names: &NamePlaces,
    dues: Dues,
    lines: &[SteerLine],
) -> Result<List<SteerStep>, ValueFault>
    ensures told { Tells faults.Memory
        (lines_fault params.now (place_of names.now) dues 0 lines.now) result }
    ensures steps { IfOk result
        (λ steps. steps ≡ flat_map (step_by params.now (place_of names.now)) lines.now) }
{
    let mut steps = List::empty(alloc);
    let mut before = 0;
    'lines: for line in lines {
        let step = step_by(alloc, params, names, dues, before, line)?;
        before = line.at;
        steps.push(step)?;
    }
    Ok(steps)
}

/// What the lines of a steer file give parameters, in the order of the file; `values` are those before the run, by which
/// checkpoints are due.
///
/// The first line with a fault counts. A line's name and index are read as a setting's are, and it is tested for
/// UnknownParam, Index, NotSteerable, BadSpelling, OutOfRange and SteerOrder, in this order. NotSteerable comes where the
/// parameter is declared NEVER, as all built-in ones are, or is declared RECOVER and no checkpoint is due at the
/// iteration before the line's. SteerOrder comes where the line's iteration is below that of the line before.
pub fn steer(
    alloc: Global,
    bound: &Bound,
    values: &Values,
    lines: &List<SteerLine>,
) -> Result<List<SteerStep>, ValueFault>
    ensures { Steers bound.now values.now lines.now result }
{
    let thorns = bound.thorns().as_slice();
    let params = bound.parameters().as_slice();
    let names = all_names(alloc, thorns, params)?;
    let dues = dues_of(alloc, values)?;
    all_steps(alloc, params, &names, dues, lines.as_slice())
}
