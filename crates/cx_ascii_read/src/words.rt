//! Words and numbers of files in the output's form, and what stands behind them.

ghost use Rattle.std.specs.Prelude.{◌≡◌, ◌≤◌, ◌<◌, ◌^◌, ◌∷◌, ℕ, Some, true, false, IsTrue, length, take, IfOk, IfSome, option_copied};
ghost use Rattle.std.specs.List.{list_all, position};
ghost use Rattle.std.specs.Char.{is_ascii_digit};
ghost use Rattle.cx_text.specs.Bytes.{is_printable};
ghost use Rattle.cx_text.specs.Lexemes.{decimal_from};
ghost use Rattle.cx_ascii_read.specs.Records.{is_name};
ghost use Rattle.cx_ascii_read.specs.Reading.{Gives, field_at, is_end, word_len, word, behind, skip, skip_text, has_leading_zero, number_of, negative_of, size_of, value_of, name_at, number_at, value_at, size_end, size_at};

use cx_text::{Memory, natural_in, negative};
use std::alloc::{AllocError, AllocFailed};

/// Why reading stopped.
#[derive(Clone, Copy, Debug, PartialEq, Eq)]
pub enum Stop {
    /// The bytes are none of what is read here.
    Other,
    /// Out of memory.
    Memory,
}

impl From<Memory> for Stop {
    ghost use Rattle.std.specs.Prelude.{◌≡◌};
    ghost use Rattle.cx_ascii_read.specs.declared.words.Stop.TheVariants as stop;

    ghost from_gives = { λ _ e. e ≡ stop.Memory };

    fn from(_: Memory) -> Self {
        Stop::Memory
    }
}

impl From<AllocError> for Stop {
    ghost use Rattle.std.specs.Prelude.{◌≡◌};
    ghost use Rattle.cx_ascii_read.specs.declared.words.Stop.TheVariants as stop;

    ghost from_gives = { λ _ e. e ≡ stop.Memory };

    fn from(_: AllocError) -> Self {
        Stop::Memory
    }
}

impl<T: Drop> From<AllocFailed<T>> for Stop {
    ghost use Rattle.std.specs.Prelude.{◌≡◌};
    ghost use Rattle.cx_ascii_read.specs.declared.words.Stop.TheVariants as stop;

    ghost from_gives = { λ _ e. e ≡ stop.Memory };

    fn from(_: AllocFailed<T>) -> Self {
        Stop::Memory
    }
}

/// Whether a byte ends a word: a blank or a line end.
fn is_end(byte: u8) -> bool
    ensures { result ≡ is_end byte }
{
    byte == b' ' || byte == b'\n'
}

/// The place of the first blank or line end.
fn first_end(bytes: &[u8]) -> Option<usize>
    ensures { result ≡ position is_end bytes.now }
{
    bytes.iter().position(|byte| is_end(*byte))
}

/// How many bytes the word in front has.
fn word_len(bytes: &[u8]) -> usize
    ensures value { result ≡ word_len bytes.now }
    ensures within { result ≤ length bytes.now }
{
    match first_end(bytes) {
        Some(len) => len,
        None => bytes.len(),
    }
}

/// The word in front, and what stands behind it.
fn split_word(bytes: &[u8]) -> (&[u8], &[u8])
    ensures word { result.0.now ≡ word bytes.now }
    ensures behind { result.1.now ≡ behind bytes.now }
{
    bytes.split_at(word_len(bytes))
}

/// What stands behind a byte in front.
pub fn skip(byte: u8, bytes: &[u8]) -> Result<&[u8], Stop>
    ensures { Gives (λ x. x.now) result (skip byte bytes.now) }
{
    match bytes {
        [first, rest @ ..] if *first == byte => Ok(rest),
        _ => Err(Stop::Other),
    }
}

/// What comes after a text in front, if the bytes begin with it.
pub fn strip_text<'a>(text: &[u8], bytes: &'a [u8]) -> Option<&'a [u8]>
    ensures { option_copied result ≡ skip_text text.now bytes.now }
{
    if bytes.starts_with(text) {
        Some(&bytes[text.len()..])
    } else {
        None
    }
}

/// What comes after a text in front.
pub fn skip_text<'a>(text: &[u8], bytes: &'a [u8]) -> Result<&'a [u8], Stop>
    ensures { Gives (λ x. x.now) result (skip_text text.now bytes.now) }
{
    match strip_text(text, bytes) {
        Some(rest) => Ok(rest),
        None => Err(Stop::Other),
    }
}

/// Whether a text of several bytes begins with 0, as no written number does.
fn has_leading_zero(text: &[u8]) -> bool
    ensures { result ≡ has_leading_zero text.now }
{
    match text {
        [first, _, ..] => *first == b'0',
        _ => false,
    }
}

/// The number that digits are, in its shortest spelling, if it isn't above `high`.
fn number_of(high: u64, text: &[u8]) -> Result<u64, Stop>
    ensures value { Gives (λ n. n) result (number_of high text.now) }
    ensures most { IfOk result (λ n. n ≤ high) }
{
    if has_leading_zero(text) {
        return Err(Stop::Other);
    }
    match natural_in(high, text) {
        Some(number) => Ok(number),
        None => Err(Stop::Other),
    }
}

/// The number of points of a direction.
fn size_of(text: &[u8]) -> Result<u32, Stop>
    ensures { Gives (λ n. n) result (size_of text.now) }
{
    match number_of(16_777_216, text)? {
        0 => Err(Stop::Other),
        size => Ok(size as u32),
    }
}

/// The value below 0 whose digits these are.
fn negative_of(digits: &[u8]) -> Result<i64, Stop>
    ensures { Gives (λ v. v) result (negative_of digits.now) }
{
    match number_of(1 << 63, digits)? {
        0 => Err(Stop::Other),
        size => Ok(negative(size)),
    }
}

/// The number of 64 signed bits that a text spells in the only way in which the output spells it.
fn value_of(text: &[u8]) -> Result<i64, Stop>
    ensures { Gives (λ v. v) result (value_of text.now) }
{
    match text {
        [] => Err(Stop::Other),
        [b'-', digits @ ..] => negative_of(digits),
        [_, ..] => Ok(number_of(i64::MAX as u64, text)? as i64),
    }
}

/// Whether a byte is printable ASCII other than a blank.
fn is_printable(byte: u8) -> bool
    ensures { result ≡ is_printable byte }
{
    33 <= byte && byte <= 126
}

/// Whether all bytes are printable and none is a blank.
fn all_printable(text: &[u8]) -> bool
    ensures { result ≡ list_all is_printable text.now }
{
    text.iter().all(|byte| is_printable(*byte))
}

/// Whether a text can be a full name: not empty, and all bytes printable.
fn is_name(text: &[u8]) -> bool
    ensures { result ≡ is_name text.now }
{
    match text {
        [] => false,
        [_, ..] => all_printable(text),
    }
}

/// The number that the digits before the first other byte make, and how many digits these are. None where no other byte comes
/// within 18 digits.
fn digits_at(bytes: &[u8]) -> Option<(u64, usize)>
    ensures digits { IfSome result (λ x. list_all is_ascii_digit (take x.1 bytes.now) ≡ true) }
    ensures number { IfSome result (λ x. decimal_from 0 (take x.1 bytes.now) ≡ x.0) }
    ensures short { IfSome result (λ x. x.0 < 10 ^ 18) }
    ensures within { IfSome result (λ x. x.1 ≤ length bytes.now) }
{
    let mut number: u64 = 0;
    'digits: for (index, byte) in bytes.iter().enumerate() {
        if !byte.is_ascii_digit() {
            return Some((number, index));
        }
        if number >= 100_000_000_000_000_000 {
            return None;
        }
        number = number * 10 + u64::from(*byte - b'0');
    }
    None
}

/// Whether a text isn't empty, and doesn't begin with 0 before further bytes.
fn begins_number(text: &[u8]) -> bool
    ensures { IsTrue result → (1 ≤ length text.now) × (has_leading_zero text.now ≡ false) }
{
    match text {
        [] => false,
        [_, ..] => !has_leading_zero(text),
    }
}

/// What stands behind a byte in front, if that byte ends a word.
#[inline(always)]
fn skip_end(byte: u8, bytes: &[u8]) -> Option<&[u8]>
    ensures { IfSome result (λ rest. (is_end byte ≡ true) × (bytes.now ≡ byte ∷ rest.now)) }
{
    match bytes {
        [end, rest @ ..] if *end == byte && is_end(byte) => Some(rest),
        _ => None,
    }
}

/// A number of one digit, and what stands behind the byte that ends it.
#[inline(always)]
fn digit_at(byte: u8, bytes: &[u8]) -> Option<(u64, &[u8])>
    ensures number { IfSome result (λ x. (high : ℕ) → 10 ^ 18 ≤ high
        → field_at (number_of high) byte bytes.now ≡ Some (x.0, x.1.now)) }
    ensures short { IfSome result (λ x. x.0 < 10 ^ 18) }
{
    match bytes {
        [digit, rest @ ..] if digit.is_ascii_digit() => {
            let rest = skip_end(byte, rest)?;
            Some((u64::from(*digit - b'0'), rest))
        }
        _ => None,
    }
}

/// A number of one to 18 digits, and what stands behind the byte that ends it.
fn some_digits_at(byte: u8, bytes: &[u8]) -> Option<(u64, &[u8])>
    ensures number { IfSome result (λ x. (high : ℕ) → 10 ^ 18 ≤ high
        → field_at (number_of high) byte bytes.now ≡ Some (x.0, x.1.now)) }
    ensures short { IfSome result (λ x. x.0 < 10 ^ 18) }
{
    let (number, len) = digits_at(bytes)?;
    let (digits, rest) = bytes.split_at(len);
    if !begins_number(digits) {
        return None;
    }
    let rest = skip_end(byte, rest)?;
    Some((number, rest))
}

/// A number of at most 18 digits, and what stands behind the byte that ends it.
#[inline(always)]
fn short_number_at(byte: u8, bytes: &[u8]) -> Option<(u64, &[u8])>
    ensures number { IfSome result (λ x. (high : ℕ) → 10 ^ 18 ≤ high
        → field_at (number_of high) byte bytes.now ≡ Some (x.0, x.1.now)) }
    ensures short { IfSome result (λ x. x.0 < 10 ^ 18) }
{
    match digit_at(byte, bytes) {
        Some(found) => Some(found),
        None => some_digits_at(byte, bytes),
    }
}

/// A value of at most 18 digits and without a sign, and what stands behind the byte that ends it.
#[inline(always)]
fn short_positive_at(byte: u8, bytes: &[u8]) -> Option<(i64, &[u8])>
    ensures { IfSome result (λ x. value_at byte bytes.now ≡ Some (x.0, x.1.now)) }
{
    let (number, rest) = short_number_at(byte, bytes)?;
    Some((number as i64, rest))
}

/// A value of at most 18 digits below 0, given from behind its sign on, and what stands behind the byte that ends it.
fn short_negative_at(byte: u8, digits: &[u8]) -> Option<(i64, &[u8])>
    ensures { IfSome result (λ x. value_at byte (45 ∷ digits.now) ≡ Some (x.0, x.1.now)) }
{
    let (size, rest) = short_number_at(byte, digits)?;
    if size == 0 {
        return None;
    }
    Some((negative(size), rest))
}

/// A value of at most 18 digits, and what stands behind the byte that ends it.
#[inline(always)]
fn short_value_at(byte: u8, bytes: &[u8]) -> Option<(i64, &[u8])>
    ensures { IfSome result (λ x. value_at byte bytes.now ≡ Some (x.0, x.1.now)) }
{
    match bytes {
        [b'-', digits @ ..] => short_negative_at(byte, digits),
        _ => short_positive_at(byte, bytes),
    }
}

/// Any value and a byte behind it.
#[cold]
#[inline(never)]
fn long_value_at(byte: u8, bytes: &[u8]) -> Result<(i64, &[u8]), Stop>
    ensures { Gives (λ x. (x.0, x.1.now)) result (value_at byte bytes.now) }
{
    let (text, rest) = split_word(bytes);
    let value = value_of(text)?;
    Ok((value, skip(byte, rest)?))
}

/// A value and a byte behind it. One of at most 18 digits is read in one pass.
#[inline(always)]
pub fn value_at(byte: u8, bytes: &[u8]) -> Result<(i64, &[u8]), Stop>
    ensures { Gives (λ x. (x.0, x.1.now)) result (value_at byte bytes.now) }
{
    match short_value_at(byte, bytes) {
        Some(found) => Ok(found),
        None => long_value_at(byte, bytes),
    }
}

/// A number that isn't above `high`, and what comes after the blank that ends it.
pub fn number_at(high: u64, bytes: &[u8]) -> Result<(u64, &[u8]), Stop>
    ensures value { Gives (λ x. (x.0, x.1.now)) result (number_at high bytes.now) }
    ensures most { IfOk result (λ x. x.0 ≤ high) }
{
    let (text, rest) = split_word(bytes);
    let number = number_of(high, text)?;
    Ok((number, skip(b' ', rest)?))
}

/// A name and a blank behind it.
pub fn name_at(bytes: &[u8]) -> Result<(&[u8], &[u8]), Stop>
    ensures { Gives (λ x. (x.0.now, x.1.now)) result (name_at bytes.now) }
{
    let (text, rest) = split_word(bytes);
    if !is_name(text) {
        return Err(Stop::Other);
    }
    Ok((text, skip(b' ', rest)?))
}

/// Whether a size is the last one, and what stands behind it.
fn size_end(bytes: &[u8]) -> Result<(bool, &[u8]), Stop>
    ensures { Gives (λ x. (x.0, x.1.now)) result (size_end bytes.now) }
{
    match bytes {
        [b'\n', rest @ ..] => Ok((true, rest)),
        [b' ', rest @ ..] => Ok((false, rest)),
        _ => Err(Stop::Other),
    }
}

/// A size, whether it is the last one, and what stands behind it.
pub fn size_at(bytes: &[u8]) -> Result<(u32, bool, &[u8]), Stop>
    ensures { Gives (λ x. (x.0, x.1, x.2.now)) result (size_at bytes.now) }
{
    let (text, rest) = split_word(bytes);
    let size = size_of(text)?;
    let (last, rest) = size_end(rest)?;
    Ok((size, last, rest))
}
