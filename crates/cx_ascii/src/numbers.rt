//! Numbers in decimal.

ghost use Rattle.std.specs.Prelude.{◌≡◌, [], ◌∷◌, ◌++◌, ◌<◌, pos, IfSome, OnOk};
ghost use Rattle.std.specs.List.{flat_map};
ghost use Rattle.std.specs.Fmt.{decimal, signed_decimal};
ghost use Rattle.cx_ascii.specs.Output.{after_blank};

use cx_text::{Memory, Text};
use itoa::Buffer;

/// Adds a number in decimal, with its sign.
pub(crate) fn push_value(text: &mut Text, value: i64) -> Result<(), Memory>
    ensures { OnOk result (text.new ≡ text.old ++ signed_decimal value) }
{
    text.push_slice(Buffer::new().format(value).as_bytes())
}

/// Adds a number in decimal at the end.
pub fn push_count(text: &mut Text, count: u64) -> Result<(), Memory>
    ensures { OnOk result (text.new ≡ text.old ++ decimal count) }
{
    text.push_slice(Buffer::new().format(count).as_bytes())
}

/// The byte of a digit.
#[inline(always)]
#[tactic(auto, using(std::proofs::lemmas::Fmt::decimal_digit))]
fn byte_of(digit: u8) -> u8
    requires { digit < 10 }
    ensures { signed_decimal (pos digit) ≡ result ∷ [] }
{
    b'0' + digit
}

/// The one byte of a value of one digit.
#[inline(always)]
fn digit_of(value: i64) -> Option<u8>
    ensures { IfSome result (λ byte. signed_decimal value ≡ byte ∷ []) }
{
    if 0 <= value && value < 10 {
        Some(byte_of(value as u8))
    } else {
        None
    }
}

/// A value behind a blank.
fn push_next(text: &mut Text, value: i64) -> Result<(), Memory>
    ensures { OnOk result (text.new ≡ text.old ++ after_blank value) }
{
    if let Some(byte) = digit_of(value) {
        return text.push_slice(&[b' ', byte]);
    }
    text.push_slice(b" ")?;
    push_value(text, value)
}

/// Eight values, a blank before each, if each has one digit.
#[inline(always)]
fn digits_of(eight: &[i64; 8]) -> Option<[u8; 16]>
    ensures { IfSome result (λ bytes. bytes ≡ flat_map after_blank eight.now) }
{
    let [a, b, c, d, e, f, g, h] = *eight;
    let (a, b, c, d) = (digit_of(a)?, digit_of(b)?, digit_of(c)?, digit_of(d)?);
    let (e, f, g, h) = (digit_of(e)?, digit_of(f)?, digit_of(g)?, digit_of(h)?);
    Some([
        b' ', a, b' ', b, b' ', c, b' ', d, b' ', e, b' ', f, b' ', g, b' ', h,
    ])
}

/// Adds values with a blank before each.
fn push_each(text: &mut Text, values: &[i64]) -> Result<(), Memory>
    ensures { OnOk result (text.new ≡ text.old ++ flat_map after_blank values.now) }
{
    'values: for value in values {
        push_next(text, *value)?;
    }
    Ok(())
}

/// Adds eight values with a blank before each. Where each has one digit, they are added at once.
#[inline(always)]
fn push_eight(text: &mut Text, eight: &[i64; 8]) -> Result<(), Memory>
    ensures { OnOk result (text.new ≡ text.old ++ flat_map after_blank eight.now) }
{
    match digits_of(eight) {
        Some(bytes) => text.push_slice(&bytes),
        None => push_each(text, eight),
    }
}

/// Adds values with a blank before each, eight at a time.
#[tactic(auto, using(crate::proofs::EightLaws::eight_more))]
pub(crate) fn push_others(text: &mut Text, values: &[i64]) -> Result<(), Memory>
    ensures { OnOk result (text.new ≡ text.old ++ flat_map after_blank values.now) }
{
    let mut rest = values;
    'values: while let Some((eight, others)) = rest.split_first_chunk::<8>() {
        push_eight(text, eight)?;
        rest = others;
    }
    push_each(text, rest)
}
