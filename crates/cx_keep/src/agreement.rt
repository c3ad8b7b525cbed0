//! Keys that agree up to an iteration.
ghost use Rattle.std.specs.Prelude.{ℕ, ◌≡◌, ◌==◌, ◌<◌, ◌≤◌, ◌&&◌, nat_lt, List, [], ◌∷◌, Some, None, length, option_copied, IfSome, MatchOption};
ghost use Rattle.std.specs.List.{position};
ghost use Rattle.cx_text.specs.Digits.{is_digits};
ghost use Rattle.cx_text.specs.Lexemes.{decimal_from};
ghost use Rattle.cx_keep.specs.Agreement.{split_at_byte, is_later, steered_in, steered_at, lines_to, first_apart, parts_in, lines_from, left_length};

use cx_text::{decimal, is_digits};

/// Where the first such byte of a text is.
fn place_of(byte: u8, text: &[u8]) -> Option<usize>
    ensures { result ≡ position (λ b. b == byte) text.now }
{
    text.iter().position(|b| *b == byte)
}

/// The part of a text before the first such byte, and what comes after that byte.
fn split_first(byte: u8, text: &[u8]) -> (&[u8], Option<&[u8]>)
    ensures parts { split_at_byte byte text.now
        ≡ result.0.now ∷ parts_in byte (option_copied result.1) }
    ensures shorter { left_length (option_copied result.1) ≤ length text.now }
{
    match place_of(byte, text) {
        Some(at) => (&text[..at], Some(&text[at + 1..])),
        None => (text, None),
    }
}

/// Whether a text is a number above this one.
fn is_above(c: u64, text: &[u8]) -> bool
    ensures { result ≡ (is_digits text.now && nat_lt c (decimal_from 0 text.now)) }
{
    is_digits(text) && decimal(text, c).is_none()
}

/// Whether a line of these two words and others is a steer line of a later iteration.
fn are_later(c: u64, word: &[u8], number: &[u8]) -> bool
    ensures { (more : List ℕ) (rest : List (List ℕ)) → result
        ≡ is_later c (steered_in (word.now ∷ number.now ∷ more ∷ rest)) }
{
    word == b"steer".as_slice() && is_above(c, number)
}

/// Whether a line of this word and the words of a text is one.
fn is_later_with(c: u64, word: &[u8], rest: &[u8]) -> bool
    ensures { result ≡ is_later c (steered_in (word.now ∷ split_at_byte 32 rest.now)) }
{
    match split_first(b' ', rest) {
        (number, Some(_)) => are_later(c, word, number),
        _ => false,
    }
}

/// Whether a line is one.
fn is_later(c: u64, line: &[u8]) -> bool
    ensures { result ≡ is_later c (steered_at line.now) }
{
    match split_first(b' ', line) {
        (word, Some(rest)) => is_later_with(c, word, rest),
        _ => false,
    }
}

/// The first of these lines that counts up to an iteration, and the lines after it.
fn next_line(c: u64, lines: Option<&[u8]>) -> Option<(&[u8], Option<&[u8]>)>
    ensures next { MatchOption result (lines_from c (option_copied lines.entry) ≡ [])
        (λ r. lines_from c (option_copied lines.entry)
        ≡ r.0.now ∷ lines_from c (option_copied r.1)) }
    ensures shorter { IfSome result
        (λ r. left_length (option_copied r.1) < left_length (option_copied lines.entry)) }
{
    let mut left = lines;
    'skip: while let Some(text) = left {
        let (line, more) = split_first(b'\n', text);
        if !is_later(c, line) {
            return Some((line, more));
        }
        left = more;
    }
    None
}

/// The first lines in which two keys differ, but for steer lines of later iterations than this one. A key that has ended has an
/// empty one.
pub fn first_apart<'a>(c: u64, a: &'a [u8], b: &'a [u8]) -> Option<(&'a [u8], &'a [u8])>
    ensures { let apart = first_apart (lines_to c a.now) (lines_to c b.now) in
        MatchOption result (apart ≡ None) (λ p. apart ≡ Some (p.0.now, p.1.now)) }
{
    let mut left = (Some(a), Some(b));
    'same: loop {
        match (next_line(c, left.0), next_line(c, left.1)) {
            (None, None) => return None,
            (Some((x, _)), None) => return Some((x, b"".as_slice())),
            (None, Some((y, _))) => return Some((b"".as_slice(), y)),
            (Some((x, xs)), Some((y, ys))) => {
                if *x != *y {
                    return Some((x, y));
                }
                left = (xs, ys);
            }
        }
    }
}
