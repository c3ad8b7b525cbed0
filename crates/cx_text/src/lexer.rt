//! The tokens of a text.

ghost use Rattle.std.specs.Prelude.{◌≡◌, ◌++◌, ◌≤◌, ◌<◌, length, IfOk, Err, [], ◌∷◌, if◌then◌else◌};
ghost use Rattle.cx_text.specs.declared.fault.TextFault.TheVariants as faults;
ghost use Rattle.cx_text.specs.Pieces.{Reads, OneReading, OnlyTokens, OnlyFault, max_text, merged, ended, or_nothing, line_end};

use crate::scanner::{Scanner, line_end};
use crate::{List, Memory, Style, TextFault, Token};
use std::alloc::Global;

const MAX_TEXT: usize = 1_048_576;

/// Tokens so far, each run of LineEnds as its first one.
#[derive(Drop)]
struct Gathered {
    tokens: Vec<Token>,
    /// No token, or a LineEnd last.
    ended: bool,
}

impl Gathered {
    /// Adds a token, if there is one and it is no second LineEnd.
    fn add(&mut self, token: Option<Token>) -> Result<(), Memory>
        ensures tokens { let added = merged self.old.ended (or_nothing token) in
            IfOk result (λ x. self.new.tokens.items ≡ self.old.tokens.items ++ added) }
        ensures ended { let ends = ended self.old.ended (or_nothing token) in
            IfOk result (λ x. self.new.ended ≡ ends) }
    {
        let Some(token) = token else { return Ok(()) };
        let ends = token.is_line_end();
        if !(ends && self.ended) {
            self.tokens.push(token)?;
        }
        self.ended = ends;
        Ok(())
    }

    /// The tokens, with a LineEnd at the end.
    fn finish(self, alloc: Global, line: u32) -> Result<List<Token>, Memory>
        ensures { let last = if self.ended then [] else (line_end line ∷ []) in
            IfOk result (λ list. list ≡ self.tokens.items ++ last) }
    {
        let Gathered { mut tokens, ended } = self;
        if !ended {
            tokens.push(line_end(alloc, line))?;
        }
        Ok(List::new(tokens))
    }
}

/// The tokens of a text that isn't too long.
fn read(alloc: Global, bytes: &[u8], style: Style) -> Result<List<Token>, TextFault>
    requires { length bytes.now ≤ max_text }
    ensures { Reads bytes.now style result }
{
    let mut scanner = Scanner {
        rest: bytes,
        fresh: true,
        line: 1,
    };
    let mut gathered = Gathered {
        tokens: Vec::new(alloc),
        ended: true,
    };
    'pieces: while let [first, rest @ ..] = scanner.rest {
        scanner.rest = rest;
        let token = scanner.piece(alloc, style, *first)?;
        gathered.add(token)?;
    }
    let tokens = gathered.finish(alloc, scanner.line)?;
    Ok(tokens)
}

/// The tokens of a text in a style, each with the line of its first byte, counted from 1.
///
/// Blanks are space, tab and carriage return, and a comment goes from `#` to the line's end. A run of line feeds, with
/// blanks and comments among them, is one LineEnd; none stands at the beginning, and one is added where the last token
/// is none. A quoted text goes to the same quote, over line feeds too; in it a backslash before a quote or a backslash
/// stands for nothing.
///
/// - Ccl: a Word is a letter or `_` and letters, digits and `_` behind it, a Number is digits, quotes are `"` and `'`.
///   `::`, `<=`, `>=`, `==`, `!=`, `&&` and `||` are signs, and so is each other printable byte but the backslash. A
///   backslash, blanks and a line feed are a blank.
/// - Par: a line that begins with `!` is ignored. Quotes are `"`, signs are `=`, `[` and `]`, and other printable bytes
///   are Words.
/// - Thorns: a line that begins with `!` is ignored, and printable bytes are Words.
///
/// # Errors
///
/// TooLong for more than 1,048,576 bytes. Else the first of these in the text: OpenQuote, with the line of an opening
/// quote that nothing closes, and BadByte, with the line of a byte that may not stand there, as a control byte, a byte
/// from 127 on or another backslash outside quoted texts, comments and ignored lines. Memory where memory runs out.
pub fn tokens(alloc: Global, bytes: &[u8], style: Style) -> Result<List<Token>, TextFault>
    ensures reads { Reads bytes.now style result }
    ensures too_long { max_text < length bytes.now → result ≡ Err faults.TooLong }
    ensures only_tokens { OnlyTokens bytes.now style result }
    ensures only_fault { OnlyFault bytes.now style result }
    ensures one { OneReading bytes.now style }
{
    if bytes.len() > MAX_TEXT {
        return Err(TextFault::TooLong);
    }
    read(alloc, bytes, style)
}
