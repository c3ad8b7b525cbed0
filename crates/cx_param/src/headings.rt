//! The types of parameters, and what stands before a parameter's block.

ghost use Rattle.std.specs.Prelude.{◌≡◌, None};
ghost use Rattle.cx_text.specs.Rules.{Obeys, token, unmarked};
ghost use Rattle.cx_text.specs.Lexemes.{first_mark, number_of, number_mark};
ghost use Rattle.cx_text.specs.declared.stop.Mark.TheVariants as marks;
ghost use Rattle.cx_param.specs.Headings.{is_boolean, is_int, is_keyword, is_string, is_real, ptype_of, is_ptype, counted_ptype, ptype, steer_of, in_brackets, length_of, comment, other_name, alias_of, steered, steering, heading};

use crate::{PType, Steer};
use cx_text::{Kind, Mark, Reader, Stop, Text, Token, Why, decimal};
use std::alloc::Global;

/// What stands between the type of a parameter and its block.
#[derive(Drop)]
pub struct Heading {
    pub name: Text,
    pub length: Option<u32>,
    pub alias: Option<Text>,
    pub steer: Steer,
}

/// The most elements of an array.
const MAX_LENGTH: u64 = 1024;

/// Whether a token names the type `BOOLEAN` by any of its four names.
fn is_boolean(token: &Token) -> bool
    ensures { result ≡ is_boolean token.now }
{
    token.is_named(b"BOOLEAN")
        || token.is_named(b"BOOL")
        || token.is_named(b"CCTK_BOOLEAN")
        || token.is_named(b"CCTK_BOOL")
}

/// Whether a token names the type `INT`.
fn is_int(token: &Token) -> bool
    ensures { result ≡ is_int token.now }
{
    token.is_named(b"INT") || token.is_named(b"CCTK_INT")
}

/// Whether a token names the type `KEYWORD`, which has words for values.
fn is_keyword(token: &Token) -> bool
    ensures { result ≡ is_keyword token.now }
{
    token.is_named(b"KEYWORD") || token.is_named(b"CCTK_KEYWORD")
}

/// Whether a token names the type `STRING`.
fn is_string(token: &Token) -> bool
    ensures { result ≡ is_string token.now }
{
    token.is_named(b"STRING") || token.is_named(b"CCTK_STRING")
}

/// Whether a token names the type `REAL`.
fn is_real(token: &Token) -> bool
    ensures { result ≡ is_real token.now }
{
    token.is_named(b"REAL") || token.is_named(b"CCTK_REAL")
}

/// The type of a parameter that a token names.
fn ptype_of(token: &Token) -> Option<PType>
    ensures { result ≡ ptype_of token.now }
{
    if is_boolean(token) {
        Some(PType::Boolean)
    } else if is_int(token) {
        Some(PType::Int)
    } else if is_keyword(token) {
        Some(PType::Keyword)
    } else if is_string(token) {
        Some(PType::String)
    } else if is_real(token) {
        Some(PType::Real)
    } else {
        None
    }
}

/// Whether a token names a type of a parameter.
pub fn is_ptype(token: &Token) -> bool
    ensures { result ≡ is_ptype token.now }
{
    is_boolean(token) || is_int(token) || is_keyword(token) || is_string(token) || is_real(token)
}

/// Reads the name of a type but no line end after it. A `full` file has room for no more declarations.
fn ptype_here(reader: &mut Reader, full: bool) -> Result<PType, Stop>
    ensures { Obeys (token ptype_of (λ t. first_mark full marks.Limit None))
        result reader.old reader.new }
{
    match reader.rest {
        [token, rest @ ..] => match ptype_of(token) {
            Some(ptype) => {
                if full {
                    return Err(Stop::Fault(Why::Marked(Mark::Limit)));
                }
                reader.rest = rest;
                Ok(ptype)
            }
            None => Err(Stop::Fault(Why::Unexpected)),
        },
        [] => Err(Stop::Fault(Why::Unexpected)),
    }
}

/// A type that begins a declaration, where it is `full` if as many as may stand are there already.
pub fn counted_ptype(reader: &mut Reader, full: bool) -> Result<PType, Stop>
    ensures { Obeys (counted_ptype full) result reader.old reader.new }
{
    let ptype = ptype_here(reader, full)?;
    reader.skip_line_ends();
    Ok(ptype)
}

/// A type.
pub fn ptype(reader: &mut Reader) -> Result<PType, Stop>
    ensures { Obeys ptype result reader.old reader.new }
{
    counted_ptype(reader, false)
}

/// Reads an array length from 1 to 1,024, but no line end after it.
fn length_here(reader: &mut Reader) -> Result<u32, Stop>
    ensures { Obeys (token number_of (number_mark 1 1024)) result reader.old reader.new }
{
    match reader.rest {
        [token, rest @ ..] if matches!(token.kind, Kind::Number) => {
            match decimal(token.text.as_slice(), MAX_LENGTH) {
                Some(length) if length >= 1 => {
                    reader.rest = rest;
                    Ok(length as u32)
                }
                _ => Err(Stop::Fault(Why::Marked(Mark::BadNumber))),
            }
        }
        _ => Err(Stop::Fault(Why::Unexpected)),
    }
}

/// Reads an array length in square brackets.
fn in_brackets(reader: &mut Reader) -> Result<Option<u32>, Stop>
    ensures { Obeys in_brackets result reader.old reader.new }
{
    reader.sign(b'[')?;
    let length = length_here(reader)?;
    reader.skip_line_ends();
    reader.sign(b']')?;
    Ok(Some(length))
}

/// Reads an optional array length after the name; without one the parameter is no array.
fn length(reader: &mut Reader) -> Result<Option<u32>, Stop>
    ensures { Obeys length_of result reader.old reader.new }
{
    if reader.at_sign(b'[') {
        in_brackets(reader)
    } else {
        Ok(None)
    }
}

/// Skips an optional quoted description.
fn comment(reader: &mut Reader, alloc: Global) -> Result<(), Stop>
    ensures { Obeys comment result reader.old reader.new }
{
    if reader.at_quoted_text() {
        reader.quoted_text(alloc)?;
        Ok(())
    } else {
        Ok(())
    }
}

/// Reads `AS` and the alias after it.
fn other_name(reader: &mut Reader, alloc: Global) -> Result<Option<Text>, Stop>
    ensures { Obeys other_name result reader.old reader.new }
{
    reader.keyword(b"AS")?;
    let name = reader.name(alloc)?;
    Ok(Some(name))
}

/// Reads an optional alias of the parameter.
fn alias(reader: &mut Reader, alloc: Global) -> Result<Option<Text>, Stop>
    ensures { Obeys alias_of result reader.old reader.new }
{
    if reader.at_keyword(b"AS") {
        other_name(reader, alloc)
    } else {
        Ok(None)
    }
}

/// The time of steering that a token names: `NEVER`, `ALWAYS` or `RECOVER`.
fn steer_of(token: &Token) -> Option<Steer>
    ensures { result ≡ steer_of token.now }
{
    if token.is_named(b"NEVER") {
        Some(Steer::Never)
    } else if token.is_named(b"ALWAYS") {
        Some(Steer::Always)
    } else if token.is_named(b"RECOVER") {
        Some(Steer::Recover)
    } else {
        None
    }
}

/// Reads when the parameter may be steered, but no line end after it.
fn steer_here(reader: &mut Reader) -> Result<Steer, Stop>
    ensures { Obeys (token steer_of unmarked) result reader.old reader.new }
{
    match reader.rest {
        [token, rest @ ..] => match steer_of(token) {
            Some(steer) => {
                reader.rest = rest;
                Ok(steer)
            }
            None => Err(Stop::Fault(Why::Unexpected)),
        },
        [] => Err(Stop::Fault(Why::Unexpected)),
    }
}

/// Reads `STEERABLE =` and when the parameter may be steered.
fn steered(reader: &mut Reader) -> Result<Steer, Stop>
    ensures { Obeys steered result reader.old reader.new }
{
    reader.keyword(b"STEERABLE")?;
    reader.sign(b'=')?;
    let steer = steer_here(reader)?;
    reader.skip_line_ends();
    Ok(steer)
}

/// Reads an optional `STEERABLE` clause; without one the parameter is never steered.
fn steering(reader: &mut Reader) -> Result<Steer, Stop>
    ensures { Obeys steering result reader.old reader.new }
{
    if reader.at_keyword(b"STEERABLE") {
        steered(reader)
    } else {
        Ok(Steer::Never)
    }
}

/// What stands between the type of a parameter and its block.
pub fn read_heading(reader: &mut Reader, alloc: Global) -> Result<Heading, Stop>
    ensures { Obeys heading result reader.old reader.new }
{
    let name = reader.name(alloc)?;
    let length = length(reader)?;
    comment(reader, alloc)?;
    let alias = alias(reader, alloc)?;
    let steer = steering(reader)?;
    Ok(Heading {
        name,
        length,
        alias,
        steer,
    })
}
