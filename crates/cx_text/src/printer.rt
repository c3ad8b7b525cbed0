//! Tokens as text.

ghost use Rattle.std.specs.Prelude.{◌≡◌, ◌++◌, IfOk};
ghost use Rattle.cx_text.specs.declared.token.Style.TheVariants as styles;
ghost use Rattle.cx_text.specs.Printing.{escaped, escaped_byte, spelling, gap, printed, HasText, SpelledAgain};

use crate::{Kind, List, Memory, Text, Token};
use std::alloc::Global;

/// Adds a byte; a double quote or a backslash is escaped with a backslash.
fn push_escaped_byte(text: &mut Text, byte: u8) -> Result<(), Memory>
    ensures { IfOk result (λ x. text.new ≡ text.old ++ escaped_byte byte) }
{
    if byte == b'"' || byte == b'\\' {
        text.push_slice(&[b'\\', byte])
    } else {
        text.push_slice(&[byte])
    }
}

/// Adds bytes with double quotes and backslashes escaped.
fn push_escaped(text: &mut Text, bytes: &[u8]) -> Result<(), Memory>
    ensures { IfOk result (λ x. text.new ≡ text.old ++ escaped bytes.now) }
{
    for byte in bytes {
        push_escaped_byte(text, *byte)?;
    }
    Ok(())
}

/// Adds a token as a file has it: a quoted text in double quotes, a line end as one byte.
fn push_spelling(text: &mut Text, token: &Token) -> Result<(), Memory>
    ensures { IfOk result (λ x. text.new ≡ text.old ++ spelling token.now.kind token.now.text) }
{
    match token.kind {
        Kind::Word | Kind::Number | Kind::Sign => text.push_slice(token.text.as_slice()),
        Kind::Quoted => {
            text.push_slice(b"\"")?;
            push_escaped(text, token.text.as_slice())?;
            text.push_slice(b"\"")
        }
        Kind::LineEnd => text.push_slice(b"\n"),
    }
}

/// Adds a token to a line, which is fresh where it has no token yet.
fn push_token(text: &mut Text, fresh: bool, token: &Token) -> Result<(), Memory>
    ensures { let spelled = gap fresh token.now ++ spelling token.now.kind token.now.text in
        IfOk result (λ x. text.new ≡ text.old ++ spelled) }
{
    if fresh || token.is_line_end() {
        return push_spelling(text, token);
    }
    text.push_slice(b" ")?;
    push_spelling(text, token)
}

/// A text of these tokens: each as it is written, one blank between two tokens of a line, and a line feed for LineEnd.
/// Quoted texts stand in double quotes.
pub fn write_tokens(alloc: Global, tokens: &List<Token>) -> Result<Text, Memory>
    ensures { IfOk result (λ text. text ≡ printed tokens.now) }
{
    let mut text = Text::new(Vec::new(alloc));
    let mut fresh = true;
    for token in tokens.as_slice() {
        push_token(&mut text, fresh, token)?;
        fresh = token.is_line_end();
    }
    Ok(text)
}

/// A text of these tokens, which are those of some text in style Ccl: each as it is written, one blank between two
/// tokens of a line, and a line feed for LineEnd. Quoted texts stand in double quotes. Read in style Ccl, where it has
/// at most 1,048,576 bytes, it has these tokens again but for their lines.
pub fn print_tokens(alloc: Global, tokens: &List<Token>) -> Result<Text, Memory>
    requires { HasText styles.Ccl tokens.now }
    ensures printed { IfOk result (λ text. text ≡ printed tokens.now) }
    ensures again { IfOk result (λ text. SpelledAgain styles.Ccl text tokens.now) }
{
    let text = write_tokens(alloc, tokens)?;
    Ok(text)
}
