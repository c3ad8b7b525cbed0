//! Numbers in texts, and words between blanks.

ghost use Rattle.std.specs.Prelude.{◌≡◌, ◌≤◌, ◌^◌, pos, neg_ℤ, map, IfOk};
ghost use Rattle.std.specs.List.{list_all, slice_split};
ghost use Rattle.std.specs.Char.{is_ascii_digit};
ghost use Rattle.cx_text.specs.Bytes.{is_blank};
ghost use Rattle.cx_text.specs.Digits.{is_digits, natural_in};

use crate::byte::is_blank;
use crate::decimal;
use std::alloc::{AllocError, Global};

/// Whether all of a text are digits.
pub fn has_digits(text: &[u8]) -> bool
    ensures { result ≡ list_all is_ascii_digit text.now }
{
    text.iter().all(|byte| byte.is_ascii_digit())
}

/// Whether a text is one digit or more, and nothing else.
pub fn is_digits(text: &[u8]) -> bool
    ensures { result ≡ is_digits text.now }
{
    match text {
        [] => false,
        [_, ..] => has_digits(text),
    }
}

/// The number that a text of one digit or more is, if it isn't above `high`.
pub fn natural_in(high: u64, text: &[u8]) -> Option<u64>
    ensures { result ≡ natural_in high text.now }
{
    if is_digits(text) {
        decimal(text, high)
    } else {
        None
    }
}

/// The number that lies so far below 0.
pub fn negative(n: u64) -> i64
    requires { n ≤ 2 ^ 63 }
    ensures { result ≡ neg_ℤ (pos n) }
{
    match i64::try_from(n) {
        Ok(n) => -n,
        Err(_) => i64::MIN,
    }
}

/// The parts of a text between blanks: nothing where two blanks follow one another.
pub fn parts_between_blanks(alloc: Global, text: &[u8]) -> Result<Vec<&[u8]>, AllocError>
    ensures { IfOk result (λ parts. map (λ x. x.now) parts.items ≡ slice_split is_blank text.now) }
{
    text.split(|byte| is_blank(*byte)).collect(alloc)
}
