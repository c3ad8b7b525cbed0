//! Numbers of ranges and of defaults.

ghost use Rattle.std.specs.Prelude.{◌≡◌};
ghost use Rattle.cx_text.specs.Grammar.{passes, head};
ghost use Rattle.cx_text.specs.Rules.{Obeys, token};
ghost use Rattle.cx_text.specs.Lexemes.{number_of};
ghost use Rattle.cx_param.specs.Numbers.{lowest, highest, too_high, positive_of, negative_of, digits_of, begins_number, number, below_zero, number_text, step_mark, step};

use cx_text::{Kind, Mark, Reader, Stop, Text, Why, decimal, negative};
use std::alloc::Global;

/// How far a number of 64 signed bits reaches above 0, and below it.
const HIGHEST: u64 = 9_223_372_036_854_775_807;

const LOWEST: u64 = 9_223_372_036_854_775_808;

const BAD_NUMBER: Stop = Stop::Fault(Why::Marked(Mark::BadNumber));

/// Whether a number begins here, with its sign or without one.
pub fn at_number(reader: &Reader) -> bool
    ensures { result ≡ passes begins_number (head reader.now.rest.now) }
{
    match reader.rest {
        [token, ..] => token.is_sign(b'-') || matches!(token.kind, Kind::Number),
        [] => false,
    }
}

/// Reads a number of at most 2^63 - 1 that has no sign, but no line end after it.
fn positive_here(reader: &mut Reader) -> Result<i64, Stop>
    ensures { Obeys (token positive_of (too_high highest)) result reader.old reader.new }
{
    match reader.rest {
        [token, rest @ ..] if matches!(token.kind, Kind::Number) => {
            match decimal(token.text.as_slice(), HIGHEST) {
                Some(n) => {
                    reader.rest = rest;
                    Ok(n as i64)
                }
                None => Err(BAD_NUMBER),
            }
        }
        _ => Err(Stop::Fault(Why::Unexpected)),
    }
}

/// Reads the digits after a minus sign, at most 2^63, as a number below 0.
fn negative_here(reader: &mut Reader) -> Result<i64, Stop>
    ensures { Obeys (token negative_of (too_high lowest)) result reader.old reader.new }
{
    match reader.rest {
        [token, rest @ ..] if matches!(token.kind, Kind::Number) => {
            match decimal(token.text.as_slice(), LOWEST) {
                Some(n) => {
                    reader.rest = rest;
                    Ok(negative(n))
                }
                None => Err(BAD_NUMBER),
            }
        }
        _ => Err(Stop::Fault(Why::Unexpected)),
    }
}

/// A number of 64 signed bits.
pub fn number(reader: &mut Reader) -> Result<i64, Stop>
    ensures { Obeys number result reader.old reader.new }
{
    if reader.at_sign(b'-') {
        reader.sign(b'-')?;
        let n = negative_here(reader)?;
        reader.skip_line_ends();
        Ok(n)
    } else {
        let n = positive_here(reader)?;
        reader.skip_line_ends();
        Ok(n)
    }
}

/// Reads a number of at most `high` as the digits that are written.
fn digits_here(reader: &mut Reader, alloc: Global, high: u64) -> Result<Text, Stop>
    ensures { Obeys (token digits_of (too_high high)) result reader.old reader.new }
{
    match reader.rest {
        [token, rest @ ..] if matches!(token.kind, Kind::Number) => {
            match decimal(token.text.as_slice(), high) {
                Some(_) => {
                    let digits = Text::from_slice(alloc, token.text.as_slice())?;
                    reader.rest = rest;
                    Ok(digits)
                }
                None => Err(BAD_NUMBER),
            }
        }
        _ => Err(Stop::Fault(Why::Unexpected)),
    }
}

/// Reads a minus sign and digits as they are written.
fn below_zero(reader: &mut Reader, alloc: Global) -> Result<Text, Stop>
    ensures { Obeys below_zero result reader.old reader.new }
{
    reader.sign(b'-')?;
    let digits = digits_here(reader, alloc, LOWEST)?;
    reader.skip_line_ends();
    let mut text = Text::from_slice(alloc, b"-")?;
    text.push_slice(digits.as_slice())?;
    Ok(text)
}

/// A number of 64 signed bits, as it is written.
pub fn number_text(reader: &mut Reader, alloc: Global) -> Result<Text, Stop>
    ensures { Obeys number_text result reader.old reader.new }
{
    if reader.at_sign(b'-') {
        below_zero(reader, alloc)
    } else {
        let digits = digits_here(reader, alloc, HIGHEST)?;
        reader.skip_line_ends();
        Ok(digits)
    }
}

/// Reads a step from 1 to 2^64 - 1, but no line end after it. It is a fault where there is no low end.
fn step_here(reader: &mut Reader, low: Option<i64>) -> Result<u64, Stop>
    ensures { Obeys (token number_of (step_mark low)) result reader.old reader.new }
{
    match reader.rest {
        [token, rest @ ..] if matches!(token.kind, Kind::Number) => {
            match decimal(token.text.as_slice(), u64::MAX) {
                Some(n) if n >= 1 && low.is_some() => {
                    reader.rest = rest;
                    Ok(n)
                }
                _ => Err(BAD_NUMBER),
            }
        }
        _ => Err(Stop::Fault(Why::Unexpected)),
    }
}

/// A step, which needs a low end from which it counts.
pub fn step(reader: &mut Reader, low: Option<i64>) -> Result<u64, Stop>
    ensures { Obeys (step low) result reader.old reader.new }
{
    let n = step_here(reader, low)?;
    reader.skip_line_ends();
    Ok(n)
}
