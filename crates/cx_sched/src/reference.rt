//! Names of variables and groups, with what may stand behind them.

ghost use Rattle.std.specs.Prelude.{◌≡◌, ◌≤◌, None, IfOk};
ghost use Rattle.cx_text.specs.Rules.{Obeys, Builds, token, loop, unmarked, lexeme};
ghost use Rattle.cx_text.specs.Tokens.{is_word};
ghost use Rattle.cx_text.specs.Lexemes.{number_in};
ghost use Rattle.cx_sched.specs.Words.{region_of};
ghost use Rattle.cx_sched.specs.Refs.{owned, behind_word, reference, bracket, bracketed, parens, region, store, sync_name, access, owned_here, behind_word_here, bracket_here, bracketed_here, comma_here, more_stores, stores};

use crate::Ref;
use cx_plan::Region;
use cx_text::{List, Reader, Stop, Text, Token, Why};
use std::alloc::Global;

/// Reads a number from 0 to `high`, both included.
fn number_up_to(reader: &mut Reader, high: u64) -> Result<u64, Stop>
    ensures reads { Obeys (number_in 0 high) result reader.old reader.new }
    ensures most { IfOk result (λ n. n ≤ high) }
{
    reader.number_in(0, high)
}

/// Reads `::` and the name after an owner.
fn owned(reader: &mut Reader, alloc: Global, owner: Text) -> Result<Ref, Stop>
    ensures { Obeys (owned owner) result reader.old reader.new }
{
    reader.sign_pair(b':', b':')?;
    let name = reader.name(alloc)?;
    Ok(Ref {
        owner: Some(owner),
        name,
        copy: None,
    })
}

/// The name that begins with this word.
fn behind_word(reader: &mut Reader, alloc: Global, word: Text) -> Result<Ref, Stop>
    ensures { Obeys (behind_word word) result reader.old reader.new }
{
    if reader.at_sign_pair(b':', b':') {
        owned(reader, alloc, word)
    } else {
        Ok(Ref {
            owner: None,
            name: word,
            copy: None,
        })
    }
}

/// A name, alone or behind its owner's.
pub fn reference(reader: &mut Reader, alloc: Global) -> Result<Ref, Stop>
    ensures { Obeys reference result reader.old reader.new }
{
    let word = reader.name(alloc)?;
    behind_word(reader, alloc, word)
}

/// Reads a number of 32 bits in square brackets.
fn bracket(reader: &mut Reader) -> Result<Option<u32>, Stop>
    ensures { Obeys bracket result reader.old reader.new }
{
    reader.sign(b'[')?;
    let number = number_up_to(reader, u32::MAX as u64)?;
    reader.sign(b']')?;
    Ok(Some(number as u32))
}

/// Reads an optional number in square brackets.
fn bracketed(reader: &mut Reader) -> Result<Option<u32>, Stop>
    ensures { Obeys bracketed result reader.old reader.new }
{
    if reader.at_sign(b'[') {
        bracket(reader)
    } else {
        Ok(None)
    }
}

/// The region that a word names.
fn region_of(token: &Token) -> Option<Region>
    ensures { result ≡ region_of token.now }
{
    if token.is_named(b"INTERIOR") {
        Some(Region::Interior)
    } else if token.is_named(b"BOUNDARY") {
        Some(Region::Boundary)
    } else if token.is_named(b"EVERYWHERE") {
        Some(Region::Everywhere)
    } else {
        None
    }
}

/// Reads the word of a region, but no line end after it.
fn region_here(reader: &mut Reader) -> Result<Region, Stop>
    ensures { Obeys (token region_of unmarked) result reader.old reader.new }
{
    match reader.rest {
        [word, rest @ ..] => match region_of(word) {
            Some(region) => {
                reader.rest = rest;
                Ok(region)
            }
            None => Err(Stop::Fault(Why::Unexpected)),
        },
        [] => Err(Stop::Fault(Why::Unexpected)),
    }
}

/// Reads the word of a region.
fn region_word(reader: &mut Reader) -> Result<Region, Stop>
    ensures { Obeys (lexeme region_of unmarked) result reader.old reader.new }
{
    let region = region_here(reader)?;
    reader.skip_line_ends();
    Ok(region)
}

/// Reads a region in parentheses.
fn parens(reader: &mut Reader) -> Result<Region, Stop>
    ensures { Obeys parens result reader.old reader.new }
{
    reader.sign(b'(')?;
    let region = region_word(reader)?;
    reader.sign(b')')?;
    Ok(region)
}

/// A region in parentheses, or else everywhere.
fn region(reader: &mut Reader) -> Result<Region, Stop>
    ensures { Obeys region result reader.old reader.new }
{
    if reader.at_sign(b'(') {
        parens(reader)
    } else {
        Ok(Region::Everywhere)
    }
}

/// A group that has storage, behind the first word of its name.
pub fn store(reader: &mut Reader, alloc: Global, word: Text) -> Result<(Ref, Option<u32>), Stop>
    ensures { Obeys (store word) result reader.old reader.new }
{
    let name = behind_word(reader, alloc, word)?;
    let levels = bracketed(reader)?;
    reader.comma()?;
    Ok((name, levels))
}

/// What is synchronised, behind the first word of its name.
pub fn sync_name(reader: &mut Reader, alloc: Global, word: Text) -> Result<Ref, Stop>
    ensures { Obeys (sync_name word) result reader.old reader.new }
{
    let name = behind_word(reader, alloc, word)?;
    reader.comma()?;
    Ok(name)
}

/// What is read or written, behind the first word of its name.
pub fn access(reader: &mut Reader, alloc: Global, word: Text) -> Result<(Ref, Region), Stop>
    ensures { Obeys (access word) result reader.old reader.new }
{
    let Ref { owner, name, .. } = behind_word(reader, alloc, word)?;
    let copy = bracketed(reader)?;
    let region = region(reader)?;
    reader.comma()?;
    Ok((Ref { owner, name, copy }, region))
}

/// Reads `::` and the name after an owner, but no line end after them.
fn owned_here(reader: &mut Reader, alloc: Global, owner: Text) -> Result<Ref, Stop>
    ensures { Obeys (owned_here owner) result reader.old reader.new }
{
    reader.sign_pair(b':', b':')?;
    let name = reader.name_here(alloc)?;
    Ok(Ref {
        owner: Some(owner),
        name,
        copy: None,
    })
}

/// The name that begins with this word, and what follows it on its line.
fn behind_word_here(reader: &mut Reader, alloc: Global, word: Text) -> Result<Ref, Stop>
    ensures { Obeys (behind_word_here word) result reader.old reader.new }
{
    if reader.at_sign_pair(b':', b':') {
        owned_here(reader, alloc, word)
    } else {
        Ok(Ref {
            owner: None,
            name: word,
            copy: None,
        })
    }
}

/// Reads a number in square brackets, but no line end after them.
fn bracket_here(reader: &mut Reader) -> Result<Option<u32>, Stop>
    ensures { Obeys bracket_here result reader.old reader.new }
{
    reader.sign(b'[')?;
    let number = number_up_to(reader, u32::MAX as u64)?;
    reader.sign_here(b']')?;
    Ok(Some(number as u32))
}

/// Reads an optional number in square brackets, but no line end after them.
fn bracketed_here(reader: &mut Reader) -> Result<Option<u32>, Stop>
    ensures { Obeys bracketed_here result reader.old reader.new }
{
    if reader.at_sign(b'[') {
        bracket_here(reader)
    } else {
        Ok(None)
    }
}

/// Skips an optional comma, but no line end after it.
fn comma_here(reader: &mut Reader) -> Result<(), Stop>
    ensures { Obeys comma_here result reader.old reader.new }
{
    if reader.at_sign(b',') {
        reader.sign_here(b',')
    } else {
        Ok(())
    }
}

/// Reads a group with its number of time levels, and an optional comma.
fn more_stores(
    reader: &mut Reader,
    alloc: Global,
    groups: &mut List<(Ref, Option<u32>)>,
) -> Result<(), Stop>
    ensures { Builds (more_stores groups.old) groups.new result reader.old reader.new }
{
    let word = reader.name_here(alloc)?;
    let name = behind_word_here(reader, alloc, word)?;
    let levels = bracketed_here(reader)?;
    comma_here(reader)?;
    groups.push((name, levels))?;
    Ok(())
}

/// Reads groups for as long as a word comes next.
fn stores_after(
    reader: &mut Reader,
    alloc: Global,
    groups: &mut List<(Ref, Option<u32>)>,
) -> Result<(), Stop>
    ensures { Builds (loop is_word more_stores groups.old) groups.new result reader.old reader.new }
{
    'groups: while reader.at_word() {
        more_stores(reader, alloc, groups)?;
    }
    Ok(())
}

/// Groups that have storage, up to the end of the line.
pub fn stores(reader: &mut Reader, alloc: Global) -> Result<List<(Ref, Option<u32>)>, Stop>
    ensures { Obeys stores result reader.old reader.new }
{
    let mut groups = List::empty(alloc);
    stores_after(reader, alloc, &mut groups)?;
    Ok(groups)
}
