//! The values of built-in parameters, by their full names.

ghost use Rattle.std.specs.Prelude.{◌≡◌, ◌≤◌, ◌++◌, IfOk};
ghost use Rattle.cx_job_values.specs.Grids.{text_of, holds_at, text_at, letter, natural_along};

use crate::Direction;
use cx_param::Value;
use cx_text::{Memory, Text};
use cx_values::{Values, is_on_at, natural_at};
use std::alloc::Global;

/// The name of a direction's parameter.
pub(crate) fn name_along(alloc: Global, begin: &[u8], direction: Direction) -> Result<Text, Memory>
    ensures { IfOk result (λ name. name ≡ begin.now ++ letter direction) }
{
    let mut name = Text::from_slice(alloc, begin)?;
    name.push_slice(direction.letter())?;
    Ok(name)
}

/// The natural number of a direction's parameter whose range has these ends.
pub(crate) fn natural_along(
    alloc: Global,
    values: &Values,
    low: u32,
    high: u32,
    begin: &[u8],
    direction: Direction,
) -> Result<u32, Memory>
    requires { low ≤ high }
    ensures value { IfOk result (λ n. n ≡ natural_along values.now low high begin.now direction) }
    ensures from { IfOk result (λ n. low ≤ n) }
    ensures to { IfOk result (λ n. n ≤ high) }
{
    let full = name_along(alloc, begin, direction)?;
    Ok(natural_at(values, low, high, &full))
}

/// Whether a direction's flag is on.
pub(crate) fn holds_along(
    alloc: Global,
    values: &Values,
    begin: &[u8],
    direction: Direction,
) -> Result<bool, Memory>
    ensures { IfOk result (λ holds. holds ≡ holds_at values.now (begin.now ++ letter direction)) }
{
    let full = name_along(alloc, begin, direction)?;
    Ok(is_on_at(values, &full))
}

/// The bytes of a text; of another value none.
fn text_of(value: &Value) -> &[u8]
    ensures { result.now ≡ text_of value.now }
{
    match value {
        Value::Text(text) => text.as_slice(),
        Value::Number(_) | Value::Flag(_) => b"",
    }
}

/// The text of a parameter.
fn text_at<'a>(values: &'a Values, full: &Text) -> &'a [u8]
    ensures { result.now ≡ text_at values.now full.now }
{
    match values.get(full, None) {
        Some(value) => text_of(value),
        None => b"",
    }
}

/// The text of a direction's parameter.
pub(crate) fn text_along<'a>(
    alloc: Global,
    values: &'a Values,
    begin: &[u8],
    direction: Direction,
) -> Result<&'a [u8], Memory>
    ensures { IfOk result (λ text. text.now ≡ text_at values.now (begin.now ++ letter direction)) }
{
    let full = name_along(alloc, begin, direction)?;
    Ok(text_at(values, &full))
}

/// A copy of the text of a parameter.
pub fn text_copy(alloc: Global, values: &Values, full: &[u8]) -> Result<Text, Memory>
    ensures { IfOk result (λ text. text ≡ text_at values.now full.now) }
{
    let full = Text::from_slice(alloc, full)?;
    Text::from_slice(alloc, text_at(values, &full))
}
