//! The defaults of parameters.

ghost use Rattle.std.specs.Prelude.{◌≡◌, IfOk};
ghost use Rattle.cx_text.specs.Rules.{Obeys, Builds, loop};
ghost use Rattle.cx_text.specs.Printing.{spelling};
ghost use Rattle.cx_text.specs.Lexemes.{in_line};
ghost use Rattle.cx_param.specs.Defaults.{plain_default, printed, more_printed, real_default, default_of, unused_default};

use crate::PType;
use crate::numbers::{at_number, number, number_text};
use cx_text::{List, Memory, Reader, Stop, Text, Token, Why, write_tokens};
use std::alloc::Global;

/// Reads a default that is a quoted text, a word or a number, as its text.
fn plain_default(reader: &mut Reader, alloc: Global) -> Result<Text, Stop>
    ensures { Obeys plain_default result reader.old reader.new }
{
    if reader.at_quoted_text() {
        reader.quoted_text(alloc)
    } else if reader.at_word() {
        reader.word(alloc)
    } else {
        number_text(reader, alloc)
    }
}

/// A token as it is written.
fn spelled(alloc: Global, token: &Token) -> Result<Text, Memory>
    ensures { IfOk result (λ text. text ≡ spelling token.now.kind token.now.text) }
{
    let mut tokens = List::empty(alloc);
    tokens.push_copy(alloc, token)?;
    write_tokens(alloc, &tokens)
}

/// Reads the next token of the line as its text.
fn printed(reader: &mut Reader, alloc: Global) -> Result<Text, Stop>
    ensures { Obeys printed result reader.old reader.new }
{
    match reader.rest {
        [token, rest @ ..] if !token.is_line_end() => {
            let text = spelled(alloc, token)?;
            reader.rest = rest;
            Ok(text)
        }
        _ => Err(Stop::Fault(Why::Unexpected)),
    }
}

/// Adds a blank and the text of the next token of the line.
fn more_printed(reader: &mut Reader, alloc: Global, text: &mut Text) -> Result<(), Stop>
    ensures { Builds (more_printed text.old) text.new result reader.old reader.new }
{
    let token = printed(reader, alloc)?;
    text.push_slice(b" ")?;
    text.push_slice(token.as_slice())?;
    Ok(())
}

/// Adds the texts of the remaining tokens of the line, with one blank before each.
fn printed_after(reader: &mut Reader, alloc: Global, text: &mut Text) -> Result<(), Stop>
    ensures { Builds (loop in_line more_printed text.old) text.new result reader.old reader.new }
{
    'turns: while reader.at_in_line() {
        more_printed(reader, alloc, text)?;
    }
    Ok(())
}

/// Reads the default of a `REAL` parameter: the rest of the line, with one blank between tokens.
fn real_default(reader: &mut Reader, alloc: Global) -> Result<Text, Stop>
    ensures { Obeys real_default result reader.old reader.new }
{
    let mut text = printed(reader, alloc)?;
    printed_after(reader, alloc, &mut text)?;
    reader.line_end()?;
    Ok(text)
}

/// The text of a default of a parameter of this type.
pub fn default_of(reader: &mut Reader, alloc: Global, ptype: PType) -> Result<Text, Stop>
    ensures { Obeys (default_of ptype) result reader.old reader.new }
{
    match ptype {
        PType::Real => real_default(reader, alloc),
        PType::Boolean | PType::Int | PType::Keyword | PType::String => {
            plain_default(reader, alloc)
        }
    }
}

/// A default without effect, if one stands here.
pub fn unused_default(reader: &mut Reader, alloc: Global) -> Result<(), Stop>
    ensures { Obeys unused_default result reader.old reader.new }
{
    if reader.at_quoted_text() {
        reader.quoted_text(alloc)?;
        Ok(())
    } else if at_number(reader) {
        number(reader)?;
        Ok(())
    } else {
        Ok(())
    }
}
