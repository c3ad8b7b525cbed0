//! The key of a job, and the lines of the parameters that only say how and where a run is done.

ghost use Rattle.std.specs.Prelude.{◌≡◌, ◌<◌, ◌++◌, Some, map, IfOk, OnOk};
ghost use Rattle.std.specs.List.{flat_map};
ghost use Rattle.cx_grid.specs.Grid.{IsShape};
ghost use Rattle.cx_job.specs.Keys.{thorn_line, direction_line, direction_lines, variable_line, variable_lines, parameter_line, parameter_lines, lines_if_starred, lines_unless_starred, starred_lines, key, lines_at, step_line, step_lines};
ghost use Rattle.cx_bind.specs.Variables.{copies};

use crate::lines::{direction_line, parameter_line, step_line, thorn_line, variable_line};
use cx_bind::{Bound, Param, Thorn};
use cx_grid::Shape;
use cx_job_items::{is_starred, param_of};
use cx_plan::VarInfo;
use cx_text::{List, Memory, Text};
use cx_values::{SteerStep, Values};
use std::alloc::Global;

/// Adds a line for each active thorn, in the order of activation.
fn push_thorns(alloc: Global, text: &mut Text, thorns: &[Thorn]) -> Result<(), Memory>
    ensures { OnOk result (text.new ≡ text.old ++ flat_map thorn_line thorns.now) }
{
    'thorns: for thorn in thorns {
        text.push_slice(thorn_line(alloc, thorn)?.as_slice())?;
    }
    Ok(())
}

/// Adds the line of one direction of the grid: points, ghosts and whether it is periodic.
fn push_direction(
    alloc: Global,
    text: &mut Text,
    shape: &Shape,
    direction: u8,
) -> Result<(), Memory>
    requires { direction < 3 }
    ensures { OnOk result (text.new ≡ text.old ++ direction_line shape.now direction) }
{
    text.push_slice(direction_line(alloc, shape, direction)?.as_slice())
}

/// Adds the lines of the grid's directions.
fn push_directions(alloc: Global, text: &mut Text, shape: &Shape) -> Result<(), Memory>
    requires { IsShape shape.now }
    ensures { OnOk result (text.new ≡ text.old ++ direction_lines shape.now) }
{
    'directions: for direction in 0..shape.dims {
        push_direction(alloc, text, shape, direction)?;
    }
    Ok(())
}

/// Adds the line of a variable with its number.
fn push_variable(
    alloc: Global,
    text: &mut Text,
    number: usize,
    info: &VarInfo,
) -> Result<(), Memory>
    ensures { OnOk result (text.new ≡ text.old ++ variable_line (number, info.now)) }
{
    text.push_slice(variable_line(alloc, number, info)?.as_slice())
}

/// Adds the lines of all variables, in the order of their numbers.
fn push_variables(alloc: Global, text: &mut Text, vars: &[VarInfo]) -> Result<(), Memory>
    ensures { OnOk result (text.new ≡ text.old ++ variable_lines vars.now) }
{
    'vars: for (number, info) in vars.iter().enumerate() {
        push_variable(alloc, text, number, info)?;
    }
    Ok(())
}

/// Adds the line of a parameter, or of one element of an array.
fn push_element(
    alloc: Global,
    text: &mut Text,
    values: &Values,
    param: &Param,
    index: Option<u32>,
) -> Result<(), Memory>
    ensures { OnOk result (text.new ≡ text.old ++ parameter_line values.now param.now index) }
{
    text.push_slice(parameter_line(alloc, values, param, index)?.as_slice())
}

/// Adds the lines of all elements of an array.
fn push_elements(
    alloc: Global,
    text: &mut Text,
    values: &Values,
    param: &Param,
    length: u32,
) -> Result<(), Memory>
    ensures { OnOk result
        (text.new ≡ text.old ++ lines_at values.now param.now (copies (Some length))) }
{
    'elements: for k in 0..length {
        push_element(alloc, text, values, param, Some(k))?;
    }
    Ok(())
}

/// Adds the line of a parameter, or those of all its elements.
fn push_parameter(
    alloc: Global,
    text: &mut Text,
    values: &Values,
    param: &Param,
) -> Result<(), Memory>
    ensures { OnOk result (text.new ≡ text.old ++ parameter_lines values.now param.now) }
{
    match param.decl.length {
        None => push_element(alloc, text, values, param, None),
        Some(length) => push_elements(alloc, text, values, param, length),
    }
}

/// Adds the lines of a parameter that only says how and where a run is done; of another one nothing.
fn push_if_starred(
    alloc: Global,
    text: &mut Text,
    values: &Values,
    param: &Param,
) -> Result<(), Memory>
    ensures { OnOk result (text.new ≡ text.old ++ lines_if_starred values.now param.now) }
{
    if is_starred(param.full.as_slice()) {
        push_parameter(alloc, text, values, param)
    } else {
        Ok(())
    }
}

/// Adds the lines of a parameter; nothing if it only says how and where a run is done.
fn push_unless_starred(
    alloc: Global,
    text: &mut Text,
    values: &Values,
    param: &Param,
) -> Result<(), Memory>
    ensures { OnOk result (text.new ≡ text.old ++ lines_unless_starred values.now param.now) }
{
    if is_starred(param.full.as_slice()) {
        Ok(())
    } else {
        push_parameter(alloc, text, values, param)
    }
}

/// Adds the lines of all parameters that only say how and where a run is done.
fn push_starred(
    alloc: Global,
    text: &mut Text,
    values: &Values,
    params: &[Param],
) -> Result<(), Memory>
    ensures { OnOk result
        (text.new ≡ text.old ++ flat_map (lines_if_starred values.now) params.now) }
{
    'params: for param in params {
        push_if_starred(alloc, text, values, param)?;
    }
    Ok(())
}

/// Adds the lines of all other parameters, which belong to the key.
fn push_others(
    alloc: Global,
    text: &mut Text,
    values: &Values,
    params: &[Param],
) -> Result<(), Memory>
    ensures { OnOk result
        (text.new ≡ text.old ++ flat_map (lines_unless_starred values.now) params.now) }
{
    'params: for param in params {
        push_unless_starred(alloc, text, values, param)?;
    }
    Ok(())
}

/// The lines of the parameters that only say how and where a run is done.
pub fn starred_lines(alloc: Global, bound: &Bound, values: &Values) -> Result<Text, Memory>
    ensures { IfOk result (λ text. text ≡ starred_lines bound.now values.now) }
{
    let mut text = Text::new(Vec::new(alloc));
    push_starred(alloc, &mut text, values, bound.parameters().as_slice())?;
    Ok(text)
}

/// The key of a job: a line for each thorn, for each direction of its grid, for each variable and for each parameter that
/// says what is done, and the plan's text.
pub fn key(
    alloc: Global,
    bound: &Bound,
    values: &Values,
    shape: &Shape,
    vars: &List<VarInfo>,
    plan_text: &Text,
) -> Result<Text, Memory>
    requires { IsShape shape.now }
    ensures { IfOk result (λ t. t ≡ key shape.now bound.now values.now vars.now plan_text.now) }
{
    let mut text = Text::new(Vec::new(alloc));
    push_thorns(alloc, &mut text, bound.thorns().as_slice())?;
    push_directions(alloc, &mut text, shape)?;
    push_variables(alloc, &mut text, vars.as_slice())?;
    push_others(alloc, &mut text, values, bound.parameters().as_slice())?;
    text.push_slice(plan_text.as_slice())?;
    Ok(text)
}

/// Adds the line of a step.
fn push_step(
    alloc: Global,
    text: &mut Text,
    params: &[Param],
    step: &SteerStep,
) -> Result<(), Memory>
    ensures { OnOk result (text.new ≡ text.old ++ step_line params.now step.now) }
{
    match param_of(params, step) {
        Some(param) => text.push_slice(step_line(alloc, param, step)?.as_slice()),
        None => Ok(()),
    }
}

/// Adds the lines of steps, in the order of the steer file.
pub(crate) fn push_steps(
    alloc: Global,
    text: &mut Text,
    params: &[Param],
    steps: &[SteerStep],
) -> Result<(), Memory>
    ensures { OnOk result (text.new ≡ text.old ++ step_lines params.now steps.now) }
{
    'steps: for step in steps {
        push_step(alloc, text, params, step)?;
    }
    Ok(())
}
