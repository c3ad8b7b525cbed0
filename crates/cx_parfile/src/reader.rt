//! A parameter file, read.

ghost use Rattle.std.specs.Prelude.{◌≡◌};
ghost use Rattle.cx_text.specs.Tokens.{is_word};
ghost use Rattle.cx_text.specs.Grammar.{ReadsBy, AnswersOnly};
ghost use Rattle.cx_text.specs.Rules.{Obeys, Builds, token, loop, unmarked, sign_here};
ghost use Rattle.cx_parfile.specs.ParFile.{name_of, name_mark, is_long_name, is_long_owner, is_index, index_of, index_mark, value_of, thorns_mark, bracketed, index, active, setting, is_active, behind, line, parameter_file};

use crate::gathered::Gathered;
use crate::value::{has_long_thorn, name_in, value_in};
use crate::{Setting, Settings};
use cx_text::{
    CclFault, Kind, List, MAX_NAME, Mark, Reader, Stop, Text, Token, Why, decimal, has_digits,
    same_name,
};
use std::alloc::Global;

/// The most settings of a parameter file.
const MAX_SETTINGS: usize = 4096;

/// The last element of an array.
const MAX_INDEX: u64 = 1023;

/// A name, and the line that it stands on.
#[derive(Drop)]
pub struct Name {
    pub owner: Option<Text>,
    pub name: Text,
    pub line: u32,
}

/// What is read so far, and how many settings may still stand.
#[derive(Drop)]
pub struct Read {
    pub left: usize,
    pub settings: Gathered,
}

/// Whether a name has an owner of more than 64 bytes.
fn is_long_owner(owner: &Option<Text>) -> bool
    ensures { result ≡ is_long_owner owner.now }
{
    match owner {
        Some(owner) => owner.len() > MAX_NAME,
        None => false,
    }
}

/// Reads the name of a parameter, with its owner if it has one. It is a fault if no more settings may come.
pub(crate) fn name_here(reader: &mut Reader, alloc: Global, left: usize) -> Result<Name, Stop>
    ensures { Obeys (token name_of (name_mark left)) result reader.old reader.new }
{
    match reader.rest {
        [token, rest @ ..] if token.is_word() => {
            let Some(name) = name_in(alloc, token.text.as_slice(), token.line)? else {
                return Err(Stop::Fault(Why::Unexpected));
            };
            if left == 0 || is_long_owner(&name.owner) || name.name.len() > MAX_NAME {
                return Err(Stop::Fault(Why::Marked(Mark::Limit)));
            }
            reader.rest = rest;
            Ok(name)
        }
        _ => Err(Stop::Fault(Why::Unexpected)),
    }
}

/// Whether a token can be an index: digits only.
fn is_index(token: &Token) -> bool
    ensures { result ≡ is_index token.now }
{
    token.is_word() && !token.text.is_empty() && has_digits(token.text.as_slice())
}

/// Reads the index of an array's element.
fn index_here(reader: &mut Reader) -> Result<u32, Stop>
    ensures { Obeys (token index_of index_mark) result reader.old reader.new }
{
    match reader.rest {
        [token, rest @ ..] if is_index(token) => {
            match decimal(token.text.as_slice(), MAX_INDEX) {
                Some(index) => {
                    reader.rest = rest;
                    Ok(index as u32)
                }
                None => Err(Stop::Fault(Why::Marked(Mark::BadNumber))),
            }
        }
        _ => Err(Stop::Fault(Why::Unexpected)),
    }
}

/// Reads a value; for `$parfile` it is the base name.
fn value_here(reader: &mut Reader, alloc: Global, base: &[u8]) -> Result<Text, Stop>
    ensures { Obeys (token (value_of base.now) unmarked) result reader.old reader.new }
{
    match reader.rest {
        [token, rest @ ..] if matches!(token.kind, Kind::Quoted | Kind::Word) => {
            let value = Text::from_slice(alloc, value_in(base, token.text.as_slice()))?;
            reader.rest = rest;
            Ok(value)
        }
        _ => Err(Stop::Fault(Why::Unexpected)),
    }
}

/// Reads the value of `ActiveThorns`. It is a fault if one of its names is too long.
fn thorns_here(reader: &mut Reader, alloc: Global, base: &[u8]) -> Result<Text, Stop>
    ensures { Obeys (token (value_of base.now) (thorns_mark base.now))
        result reader.old reader.new }
{
    match reader.rest {
        [token, rest @ ..] if matches!(token.kind, Kind::Quoted | Kind::Word) => {
            let value = Text::from_slice(alloc, value_in(base, token.text.as_slice()))?;
            if has_long_thorn(alloc, value.as_slice())? {
                return Err(Stop::Fault(Why::Marked(Mark::Limit)));
            }
            reader.rest = rest;
            Ok(value)
        }
        _ => Err(Stop::Fault(Why::Unexpected)),
    }
}

/// Reads an index in brackets.
fn bracketed(reader: &mut Reader) -> Result<Option<u32>, Stop>
    ensures { Obeys bracketed result reader.old reader.new }
{
    reader.sign_here(b'[')?;
    let index = index_here(reader)?;
    reader.sign_here(b']')?;
    Ok(Some(index))
}

/// Reads an optional index in brackets.
pub(crate) fn index(reader: &mut Reader) -> Result<Option<u32>, Stop>
    ensures { Obeys index result reader.old reader.new }
{
    if reader.at_sign(b'[') {
        bracketed(reader)
    } else {
        Ok(None)
    }
}

/// The `=` before a value.
pub(crate) fn equals(reader: &mut Reader) -> Result<(), Stop>
    ensures { Obeys (sign_here 61) result reader.old reader.new }
{
    reader.sign_here(b'=')
}

/// Reads an equals sign and thorns, and activates them.
fn active(
    reader: &mut Reader,
    alloc: Global,
    base: &[u8],
    settings: &mut Gathered,
) -> Result<(), Stop>
    ensures { Builds (active base.now settings.old) settings.new result reader.old reader.new }
{
    equals(reader)?;
    let value = thorns_here(reader, alloc, base)?;
    settings.activate(alloc, value.as_slice())?;
    Ok(())
}

/// Reads an index, an equals sign and a value, and adds the setting of the parameter.
fn setting(
    reader: &mut Reader,
    alloc: Global,
    base: &[u8],
    name: Name,
    settings: &mut Gathered,
) -> Result<(), Stop>
    ensures { Builds (setting base.now name settings.old) settings.new
        result reader.old reader.new }
{
    let index = index(reader)?;
    equals(reader)?;
    let value = value_here(reader, alloc, base)?;
    settings.add(Setting {
        owner: name.owner,
        name: name.name,
        index,
        value,
        line: name.line,
    })?;
    Ok(())
}

/// Whether a name is `ActiveThorns`, without an owner.
fn is_active(name: &Name) -> bool
    ensures { result ≡ is_active name.now }
{
    name.owner.is_none() && same_name(name.name.as_slice(), b"ActiveThorns")
}

/// Reads what follows the first name of a line: thorns to activate, or a value to set.
fn behind(
    reader: &mut Reader,
    alloc: Global,
    base: &[u8],
    name: Name,
    settings: &mut Gathered,
) -> Result<(), Stop>
    ensures { Builds (behind base.now name settings.old) settings.new result reader.old reader.new }
{
    if is_active(&name) && !reader.at_sign(b'[') {
        active(reader, alloc, base, settings)
    } else {
        setting(reader, alloc, base, name, settings)
    }
}

/// Reads one line of a parameter file.
fn line(reader: &mut Reader, alloc: Global, base: &[u8], read: &mut Read) -> Result<(), Stop>
    ensures { Builds (line base.now read.old) read.new result reader.old reader.new }
{
    let name = name_here(reader, alloc, read.left)?;
    behind(reader, alloc, base, name, &mut read.settings)?;
    reader.one_line_end()?;
    read.left = read.left.saturating_sub(1);
    Ok(())
}

/// Reads lines for as long as a word comes next.
fn lines(reader: &mut Reader, alloc: Global, base: &[u8], read: &mut Read) -> Result<(), Stop>
    ensures { Builds (loop is_word (line base.now) read.old) read.new result reader.old reader.new }
{
    'lines: while reader.at_word() {
        line(reader, alloc, base, read)?;
    }
    Ok(())
}

/// Reads a parameter file; `base` is its base name.
fn whole(reader: &mut Reader, alloc: Global, base: &[u8]) -> Result<Settings, Stop>
    ensures { Obeys (parameter_file base.now) result reader.old reader.new }
{
    let mut read = Read {
        left: MAX_SETTINGS,
        settings: Gathered::new(alloc),
    };
    lines(reader, alloc, base, &mut read)?;
    Ok(read.settings.into_settings())
}

/// What the tokens of a parameter file spell, in a file of this base name: a value that is wholly `$parfile` stands
/// for it. The values of `ActiveThorns` are split at blanks, commas and line feeds, and a thorn that is named again,
/// in any case, is ignored.
///
/// # Errors
/// `Unexpected` at the first token with which no parameter file goes on, `BadNumber` at an index above 1,023, `Limit`
/// at an owner or a name of more than 64 bytes, at a value of `ActiveThorns` that names such a thorn, or at the
/// 4,097th setting, whichever comes first; each with the token's line.
pub fn read_parfile(alloc: Global, tokens: &List<Token>, base: &Text) -> Result<Settings, CclFault>
    // The answer is what the tokens spell, or the first fault.
    ensures answers { ReadsBy (parameter_file base.now).derives (λ x. x) tokens.now result }
    // What is spelled is answered, unless memory runs out.
    ensures only { AnswersOnly (parameter_file base.now).derives (λ x. x) tokens.now result }
{
    let tokens = tokens.as_slice();
    let mut reader = Reader::new(tokens);
    let answer = whole(&mut reader, alloc, base.as_slice());
    reader.finish(tokens, answer)
}
