//! The values that texts spell.

ghost use Rattle.std.specs.Prelude.{◌≡◌, ◌<◌, ◌^◌, pos, length, find, position, IfOk};
ghost use Rattle.std.specs.Option.{option_copied, option_map};
ghost use Rattle.cx_text.specs.Lexemes.{among};
ghost use Rattle.cx_values.specs.Spelling.{number_in, yes_words, no_words, flag_in, spelled, is_word, word_or, as_declared, number_by, held, held_by};

use crate::values::Held;
use cx_param::{PType, Range, Value};
use cx_text::{Memory, Text, natural_in, negative, same_name};
use std::alloc::Global;

/// How far a number of 64 signed bits reaches above 0, and below it.
const HIGHEST: u64 = 9_223_372_036_854_775_807;

const LOWEST: u64 = 9_223_372_036_854_775_808;

/// The number of 64 signed bits that a text spells, with an optional minus sign.
fn number_in(text: &[u8]) -> Option<i64>
    ensures { result ≡ number_in text.now }
{
    match text {
        [b'-', digits @ ..] => match natural_in(LOWEST, digits) {
            Some(n) => Some(negative(n)),
            None => None,
        },
        _ => match natural_in(HIGHEST, text) {
            Some(n) => Some(n as i64),
            None => None,
        },
    }
}

/// Whether a text spells yes in any of the five ways.
fn is_yes(text: &[u8]) -> bool
    ensures { result ≡ among yes_words text.now }
{
    same_name(text, b"yes")
        || same_name(text, b"true")
        || same_name(text, b"y")
        || same_name(text, b"t")
        || same_name(text, b"1")
}

/// Whether a text spells no in any of the five ways.
fn is_no(text: &[u8]) -> bool
    ensures { result ≡ among no_words text.now }
{
    same_name(text, b"no")
        || same_name(text, b"false")
        || same_name(text, b"n")
        || same_name(text, b"f")
        || same_name(text, b"0")
}

/// The flag that a text spells: yes, no or neither.
fn flag_in(text: &[u8]) -> Option<bool>
    ensures { result ≡ flag_in text.now }
{
    if is_yes(text) {
        Some(true)
    } else if is_no(text) {
        Some(false)
    } else {
        None
    }
}

/// The value that a text spells, if it spells one.
pub(crate) fn value_of_text(
    alloc: Global,
    ptype: PType,
    text: &[u8],
) -> Result<Option<Value>, Memory>
    ensures { IfOk result (λ value. value ≡ spelled ptype text.now) }
{
    match ptype {
        PType::Boolean => match flag_in(text) {
            Some(flag) => Ok(Some(Value::Flag(flag))),
            None => Ok(None),
        },
        PType::Int => match number_in(text) {
            Some(n) => Ok(Some(Value::Number(n))),
            None => Ok(None),
        },
        PType::Keyword | PType::String => Ok(Some(Value::Text(Text::from_slice(alloc, text)?))),
        PType::Real => Ok(None),
    }
}

/// Whether a range is the word that the text spells, in any case.
fn is_word(text: &[u8], range: &Range) -> bool
    ensures { result ≡ is_word text.now range.now }
{
    match range {
        Range::Word(word) => same_name(word.as_slice(), text),
        Range::Ints { .. } | Range::AnyText | Range::SomeText | Range::Other(_) => false,
    }
}

/// The first range that is the word which the text spells.
fn word_in<'a>(text: &[u8], ranges: &'a [Range]) -> Option<&'a Range>
    ensures { option_copied result ≡ find (is_word text.now) ranges.now }
{
    ranges.iter().find(|range| is_word(text, range))
}

/// The place among the ranges of the word that the text spells.
fn place_of_word(text: &[u8], ranges: &[Range]) -> Option<usize>
    ensures { result ≡ position (is_word text.now) ranges.now }
{
    ranges.iter().position(|range| is_word(text, range))
}

/// A word as it is declared.
fn declared(alloc: Global, text: Text, ranges: &[Range]) -> Result<Text, Memory>
    ensures { IfOk result (λ word. word ≡ word_or text (find (is_word text) ranges.now)) }
{
    match word_in(text.as_slice(), ranges) {
        Some(Range::Word(word)) => Text::from_slice(alloc, word.as_slice()),
        _ => Ok(text),
    }
}

/// The value; a keyword is spelled as its declaration spells it.
fn as_declared(alloc: Global, ptype: PType, ranges: &[Range], value: Value) -> Result<Value, Memory>
    ensures { IfOk result (λ stated. stated ≡ as_declared ptype ranges.now value) }
{
    match (ptype, value) {
        (PType::Keyword, Value::Text(text)) => Ok(Value::Text(declared(alloc, text, ranges)?)),
        (_, value) => Ok(value),
    }
}

/// The place of a keyword's word among its ranges, as a number.
fn number_of_word(text: &[u8], ranges: &[Range]) -> Option<i64>
    requires { length ranges.now < 2 ^ 63 }
    ensures { result ≡ option_map (λ k. pos k) (position (is_word text.now) ranges.now) }
{
    match place_of_word(text, ranges) {
        Some(place) => Some(place as i64),
        None => None,
    }
}

/// The value as a number: a keyword's place among its words, 0 or 1 for a flag. A text has none.
pub fn number_by(ptype: PType, ranges: &[Range], value: &Value) -> Option<i64>
    requires { length ranges.now < 2 ^ 63 }
    ensures { result ≡ number_by ptype ranges.now value.now }
{
    match (ptype, value) {
        (PType::Keyword, Value::Text(word)) => number_of_word(word.as_slice(), ranges),
        (PType::Boolean, Value::Flag(flag)) => Some(i64::from(*flag)),
        (PType::Int, Value::Number(n)) => Some(*n),
        _ => None,
    }
}

/// What a parameter holds that has this value.
pub(crate) fn held_value(
    alloc: Global,
    ptype: PType,
    ranges: &[Range],
    value: Value,
) -> Result<Held, Memory>
    ensures { IfOk result (λ one. one ≡ held ptype ranges.now value) }
{
    let number = number_by(ptype, ranges, &value);
    Ok(Held {
        value: as_declared(alloc, ptype, ranges, value)?,
        number,
    })
}

/// What a parameter holds where a text gives its value.
pub(crate) fn held_by(
    alloc: Global,
    ptype: PType,
    ranges: &[Range],
    text: &[u8],
) -> Result<Held, Memory>
    ensures { IfOk result (λ one. one ≡ held_by ptype ranges.now text.now) }
{
    match value_of_text(alloc, ptype, text)? {
        Some(value) => held_value(alloc, ptype, ranges, value),
        None => held_value(
            alloc,
            ptype,
            ranges,
            Value::Text(Text::from_slice(alloc, b"")?),
        ),
    }
}
