//! The lines of keys.

ghost use Rattle.std.specs.Prelude.{◌≡◌, ◌<◌, ◌++◌, Some, IfOk, OnOk};
ghost use Rattle.std.specs.Option.{option_copied};
ghost use Rattle.cx_grid.specs.Boxes.{along};
ghost use Rattle.cx_grid.specs.Grid.{is_periodic};
ghost use Rattle.cx_job.specs.Keys.{thorn_line, letter, side_text, direction_line, type_name, kind_text, variable_line, escaped_byte, escaped, value_text, place_text, element_name, parameter_line, step_line_of};

use cx_bind::{Param, Thorn};
use cx_grid::{Point, Shape};
use cx_param::{PType, Value};
use cx_plan::VarInfo;
use cx_text::{CType, Memory, Text};
use cx_values::{SteerStep, Values, number_by};
use std::alloc::Global;

/// The line of an active thorn.
pub(crate) fn thorn_line(alloc: Global, thorn: &Thorn) -> Result<Text, Memory>
    ensures { IfOk result (λ line. line ≡ thorn_line thorn.now) }
{
    let mut line = Text::from_slice(alloc, b"thorn ")?;
    line.push_slice(thorn.arrangement.as_slice())?;
    line.push_slice(b"/")?;
    line.push_slice(thorn.name.as_slice())?;
    line.push_slice(b" ")?;
    line.push_slice(thorn.interface.implements.as_slice())?;
    line.push_slice(b"\n")?;
    Ok(line)
}

/// The letter of a direction (0 to 2), as texts write it.
pub fn direction_letter(direction: u8) -> &'static [u8]
    ensures { result.now ≡ letter direction }
{
    match direction {
        0 => b"x",
        1 => b"y",
        _ => b"z",
    }
}

/// The coordinate of a point along a direction, where each direction from 2 on is z.
fn coordinate(point: &Point, direction: u8) -> i64
    ensures { result ≡ along point.now direction }
{
    match direction {
        0 => i64::from(point.x),
        1 => i64::from(point.y),
        _ => i64::from(point.z),
    }
}

/// The word for what is at the ends of a direction: ` periodic` or ` boundary`.
fn side(periodic: bool) -> &'static [u8]
    ensures { result.now ≡ side_text periodic }
{
    if periodic { b" periodic" } else { b" boundary" }
}

/// The line of a direction of the grid.
pub(crate) fn direction_line(alloc: Global, shape: &Shape, direction: u8) -> Result<Text, Memory>
    requires { direction < 3 }
    ensures { IfOk result (λ line. line ≡ direction_line shape.now direction) }
{
    let mut line = Text::from_slice(alloc, b"direction ")?;
    line.push_slice(direction_letter(direction))?;
    line.push_slice(b" points ")?;
    line.push_signed_number(alloc, coordinate(&shape.n, direction))?;
    line.push_slice(b" ghost ")?;
    line.push_signed_number(alloc, coordinate(&shape.ghost_, direction))?;
    line.push_slice(side(shape.periodic[direction as usize]))?;
    line.push_slice(b"\n")?;
    Ok(line)
}

/// The word for a type of variables, as an interface file has it.
fn type_name(ctype: CType) -> &'static [u8]
    ensures { result.now ≡ type_name ctype }
{
    match ctype {
        CType::Char => b"CHAR",
        CType::Byte => b"BYTE",
        CType::Int => b"INT",
        CType::Int2 => b"INT2",
        CType::Int4 => b"INT4",
        CType::Int8 => b"INT8",
        CType::Real => b"REAL",
        CType::Complex => b"COMPLEX",
    }
}

/// The word for a kind of variables: ` SCALAR` or ` GF`.
fn kind(scalar: bool) -> &'static [u8]
    ensures { result.now ≡ kind_text scalar }
{
    if scalar { b" SCALAR" } else { b" GF" }
}

/// The line of the variable of this number.
pub(crate) fn variable_line(alloc: Global, number: usize, info: &VarInfo) -> Result<Text, Memory>
    ensures { IfOk result (λ line. line ≡ variable_line (number, info.now)) }
{
    let mut line = Text::from_slice(alloc, b"variable ")?;
    line.push_number(alloc, number as u64)?;
    line.push_slice(b" ")?;
    line.push_slice(info.full.as_slice())?;
    line.push_slice(b" ")?;
    line.push_slice(type_name(info.ctype))?;
    line.push_slice(kind(info.scalar))?;
    line.push_slice(b" levels ")?;
    line.push_number(alloc, u64::from(info.levels))?;
    line.push_slice(b"\n")?;
    Ok(line)
}

/// Adds a byte; a quote, a backslash or a line end is escaped with a backslash.
fn push_escaped_byte(text: &mut Text, byte: u8) -> Result<(), Memory>
    ensures { OnOk result (text.new ≡ text.old ++ escaped_byte byte) }
{
    match byte {
        b'"' => text.push_slice(b"\\\""),
        b'\\' => text.push_slice(b"\\\\"),
        b'\n' => text.push_slice(b"\\n"),
        _ => text.push_slice(&[byte]),
    }
}

/// Adds bytes with quotes, backslashes and line ends escaped.
fn push_escaped(text: &mut Text, bytes: &[u8]) -> Result<(), Memory>
    ensures { OnOk result (text.new ≡ text.old ++ escaped bytes.now) }
{
    'bytes: for byte in bytes {
        push_escaped_byte(text, *byte)?;
    }
    Ok(())
}

/// Adds a value: a number, yes or no, or an escaped text. Of no value nothing.
fn push_value(alloc: Global, text: &mut Text, value: Option<&Value>) -> Result<(), Memory>
    ensures { OnOk result (text.new ≡ text.old ++ value_text (option_copied value.entry)) }
{
    match value {
        None => Ok(()),
        Some(Value::Number(n)) => text.push_signed_number(alloc, *n),
        Some(Value::Flag(true)) => text.push_slice(b"yes"),
        Some(Value::Flag(false)) => text.push_slice(b"no"),
        Some(Value::Text(bytes)) => push_escaped(text, bytes.as_slice()),
    }
}

/// Adds a blank and the place of a keyword's word among its ranges. Of another type nothing.
fn push_place(
    alloc: Global,
    text: &mut Text,
    ptype: PType,
    place: Option<i64>,
) -> Result<(), Memory>
    ensures { OnOk result (text.new ≡ text.old ++ place_text ptype place) }
{
    let (PType::Keyword, Some(place)) = (ptype, place) else {
        return Ok(());
    };
    text.push_slice(b" ")?;
    text.push_signed_number(alloc, place)
}

/// Adds the full name of a parameter, and the index of an element in brackets.
fn push_element_name(
    alloc: Global,
    text: &mut Text,
    full: &[u8],
    index: Option<u32>,
) -> Result<(), Memory>
    ensures { OnOk result (text.new ≡ text.old ++ element_name full.now index) }
{
    text.push_slice(full)?;
    let Some(index) = index else {
        return Ok(());
    };
    text.push_slice(b"[")?;
    text.push_signed_number(alloc, i64::from(index))?;
    text.push_slice(b"]")
}

/// The line of a parameter, or with an index that of an element of an array.
pub(crate) fn parameter_line(
    alloc: Global,
    values: &Values,
    param: &Param,
    index: Option<u32>,
) -> Result<Text, Memory>
    ensures { IfOk result (λ line. line ≡ parameter_line values.now param.now index) }
{
    let mut line = Text::from_slice(alloc, b"parameter ")?;
    push_element_name(alloc, &mut line, param.full.as_slice(), index)?;
    line.push_slice(b" = \"")?;
    push_value(alloc, &mut line, values.get(&param.full, index))?;
    line.push_slice(b"\"")?;
    push_place(
        alloc,
        &mut line,
        param.decl.ptype,
        values.number(&param.full, index),
    )?;
    line.push_slice(b"\n")?;
    Ok(line)
}

/// The line of a step of a parameter.
pub(crate) fn step_line(alloc: Global, param: &Param, step: &SteerStep) -> Result<Text, Memory>
    ensures { IfOk result (λ line. line ≡ step_line_of step.now (Some param.now)) }
{
    let place = number_by(param.decl.ptype, param.ranges.as_slice(), &step.value);
    let mut line = Text::from_slice(alloc, b"steer ")?;
    line.push_number(alloc, step.at)?;
    line.push_slice(b" ")?;
    push_element_name(alloc, &mut line, param.full.as_slice(), step.index)?;
    line.push_slice(b" = \"")?;
    push_value(alloc, &mut line, Some(&step.value))?;
    line.push_slice(b"\"")?;
    push_place(alloc, &mut line, param.decl.ptype, place)?;
    line.push_slice(b"\n")?;
    Ok(line)
}
