//! Blocks: routines and groups of routines.

ghost use Rattle.std.specs.Prelude.{◌≡◌, []};
ghost use Rattle.cx_text.specs.Grammar.{passes, head as next};
ghost use Rattle.cx_text.specs.Rules.{Obeys, Builds, token, loop, unmarked, choice, nothing};
ghost use Rattle.cx_text.specs.Lexemes.{is_quoted, quoted};
ghost use Rattle.cx_sched.specs.Blocks.{is_way, way_of, way, is_way_name, spot, placed, place, group_place, either, behind_group, behind_name, head, no_clauses, names_in_parens, one_name, name_list, alias, tested, turning, before, after, is_clause, clause, block_of, behind_head, block};

use crate::lines::{Lines, all_lines};
use crate::reference::reference;
use crate::{Block, Ref, Spot};
use cx_text::{List, Reader, Stop, Text, Token, Why, same_name};
use std::alloc::Global;

/// What stands before a block's clauses.
#[derive(Drop)]
struct Head {
    group: bool,
    name: Text,
    spot: Spot,
}

/// What a block's clauses say so far.
#[derive(Drop)]
struct Clauses {
    alias: Option<Text>,
    test: Option<Ref>,
    turn: Option<Ref>,
    before: List<Text>,
    after: List<Text>,
}

/// A block, and how many lines may stand in those behind it.
#[derive(Drop)]
pub struct Made {
    pub lines: usize,
    pub block: Block,
}

/// Whether a token says where a block is placed: `AT` or `IN`.
fn is_way(token: &Token) -> bool
    ensures { result ≡ is_way token.now }
{
    token.is_named(b"AT") || token.is_named(b"IN")
}

/// Whether the next token is `AT` or `IN`.
fn at_way(reader: &Reader) -> bool
    ensures { result ≡ passes is_way (next reader.now.rest.now) }
{
    match reader.rest {
        [token, ..] => is_way(token),
        [] => false,
    }
}

/// Reads `AT` or `IN` as it is spelled, but no line end after it.
fn way_here(reader: &mut Reader, alloc: Global) -> Result<Text, Stop>
    ensures { Obeys (token way_of unmarked) result reader.old reader.new }
{
    match reader.rest {
        [token, rest @ ..] if is_way(token) => {
            let word = Text::from_slice(alloc, token.text.as_slice())?;
            reader.rest = rest;
            Ok(word)
        }
        _ => Err(Stop::Fault(Why::Unexpected)),
    }
}

/// AT or IN.
fn way(reader: &mut Reader, alloc: Global) -> Result<Text, Stop>
    ensures { Obeys way result reader.old reader.new }
{
    let word = way_here(reader, alloc)?;
    reader.skip_line_ends();
    Ok(word)
}

/// Whether a name is the word `AT` or `IN`.
fn is_way_name(name: &[u8]) -> bool
    ensures { result ≡ is_way_name name.now }
{
    same_name(name, b"AT") || same_name(name, b"IN")
}

/// The place of a block: a bin after `AT`, a group after `IN`.
fn spot(word: &Text, place: Text) -> Spot
    ensures { result ≡ spot word.now place }
{
    if same_name(word.as_slice(), b"AT") {
        Spot::At(place)
    } else {
        Spot::Inside(place)
    }
}

/// Reads `AT` or `IN` and the bin or group after it, which end the heading of a block.
fn placed(reader: &mut Reader, alloc: Global, group: bool, name: Text) -> Result<Head, Stop>
    ensures { Obeys (placed group name) result reader.old reader.new }
{
    let word = way(reader, alloc)?;
    let place = reader.name(alloc)?;
    Ok(Head {
        group,
        name,
        spot: spot(&word, place),
    })
}

/// Reads the bin or group after `GROUP AT` or `GROUP IN`, where `GROUP` is the routine's name.
fn place(reader: &mut Reader, alloc: Global, name: Text, word: &Text) -> Result<Head, Stop>
    ensures { Obeys (place name word.now) result reader.old reader.new }
{
    let place = reader.name(alloc)?;
    Ok(Head {
        group: false,
        name,
        spot: spot(word, place),
    })
}

/// Reads the bin or group after `GROUP NAME AT` or `GROUP NAME IN`.
fn group_place(reader: &mut Reader, alloc: Global, name: Text, word: &Text) -> Result<Head, Stop>
    ensures { Obeys (group_place name word.now) result reader.old reader.new }
{
    let place = reader.name(alloc)?;
    Ok(Head {
        group: true,
        name,
        spot: spot(word, place),
    })
}

/// Reads the heading after `GROUP AT` or `GROUP IN`, where `AT` or `IN` follows again.
fn either(reader: &mut Reader, alloc: Global, group: Text, name: Text) -> Result<Head, Stop>
    ensures { Obeys (either group name) result reader.old reader.new }
{
    let word = way(reader, alloc)?;
    if reader.at_word() {
        group_place(reader, alloc, name, &word)
    } else {
        Ok(Head {
            group: false,
            name: group,
            spot: spot(&name, word),
        })
    }
}

/// Reads the heading after `GROUP` and a word, which may be `AT` or `IN`.
fn behind_group(
    reader: &mut Reader,
    alloc: Global,
    is_way: bool,
    group: Text,
    name: Text,
) -> Result<Head, Stop>
    ensures { Obeys (behind_group is_way group name) result reader.old reader.new }
{
    if !is_way {
        placed(reader, alloc, true, name)
    } else if at_way(reader) {
        either(reader, alloc, group, name)
    } else {
        place(reader, alloc, group, &name)
    }
}

/// Reads the heading after its first word, which may be `GROUP`.
fn behind_name(reader: &mut Reader, alloc: Global, is_group: bool, name: Text) -> Result<Head, Stop>
    ensures { Obeys (behind_name is_group name) result reader.old reader.new }
{
    if is_group {
        let second = reader.name(alloc)?;
        let is_way = is_way_name(second.as_slice());
        behind_group(reader, alloc, is_way, name, second)
    } else {
        placed(reader, alloc, false, name)
    }
}

/// Reads the heading of a block after `SCHEDULE`, up to its clauses.
fn heading(reader: &mut Reader, alloc: Global) -> Result<Head, Stop>
    ensures { Obeys head result reader.old reader.new }
{
    let name = reader.name(alloc)?;
    let is_group = same_name(name.as_slice(), b"GROUP");
    behind_name(reader, alloc, is_group, name)
}

/// Reads a list of names in parentheses.
fn names_in_parens(reader: &mut Reader, alloc: Global, names: &mut List<Text>) -> Result<(), Stop>
    ensures { Builds (names_in_parens names.old) names.new result reader.old reader.new }
{
    reader.sign(b'(')?;
    reader.name_list(alloc, names)?;
    reader.sign(b')')
}

/// Reads one name and adds it to the list.
fn one_name(reader: &mut Reader, alloc: Global, names: &mut List<Text>) -> Result<(), Stop>
    ensures { Builds (one_name names.old) names.new result reader.old reader.new }
{
    let name = reader.name(alloc)?;
    names.push(name)?;
    Ok(())
}

/// Reads one name, or several in parentheses.
fn name_list(reader: &mut Reader, alloc: Global, names: &mut List<Text>) -> Result<(), Stop>
    ensures { Builds (name_list names.old) names.new result reader.old reader.new }
{
    if reader.at_sign(b'(') {
        names_in_parens(reader, alloc, names)
    } else {
        one_name(reader, alloc, names)
    }
}

/// Reads `AS` and a name, which a block has at most once.
fn alias(reader: &mut Reader, alloc: Global, clauses: &mut Clauses) -> Result<(), Stop>
    ensures { Builds (alias clauses.old) clauses.new result reader.old reader.new }
{
    reader.once(b"AS", clauses.alias.is_some())?;
    let name = reader.name(alloc)?;
    clauses.alias = Some(name);
    Ok(())
}

/// Reads `IF` and a scalar, which a block has at most once.
fn tested(reader: &mut Reader, alloc: Global, clauses: &mut Clauses) -> Result<(), Stop>
    ensures { Builds (tested clauses.old) clauses.new result reader.old reader.new }
{
    reader.once(b"IF", clauses.test.is_some())?;
    let scalar = reference(reader, alloc)?;
    clauses.test = Some(scalar);
    Ok(())
}

/// Reads `WHILE` and a scalar, which a block has at most once.
fn turning(reader: &mut Reader, alloc: Global, clauses: &mut Clauses) -> Result<(), Stop>
    ensures { Builds (turning clauses.old) clauses.new result reader.old reader.new }
{
    reader.once(b"WHILE", clauses.turn.is_some())?;
    let scalar = reference(reader, alloc)?;
    clauses.turn = Some(scalar);
    Ok(())
}

/// Reads `BEFORE` and names, which add to those of an earlier `BEFORE`.
fn before(reader: &mut Reader, alloc: Global, clauses: &mut Clauses) -> Result<(), Stop>
    ensures { Builds (before clauses.old) clauses.new result reader.old reader.new }
{
    reader.keyword(b"BEFORE")?;
    name_list(reader, alloc, &mut clauses.before)
}

/// Reads `AFTER` and names, which add to those of an earlier `AFTER`.
fn after(reader: &mut Reader, alloc: Global, clauses: &mut Clauses) -> Result<(), Stop>
    ensures { Builds (after clauses.old) clauses.new result reader.old reader.new }
{
    reader.keyword(b"AFTER")?;
    name_list(reader, alloc, &mut clauses.after)
}

/// Whether a token begins a clause of a block.
fn is_clause(token: &Token) -> bool
    ensures { result ≡ is_clause token.now }
{
    token.is_named(b"AS")
        || token.is_named(b"IF")
        || token.is_named(b"WHILE")
        || token.is_named(b"BEFORE")
        || token.is_named(b"AFTER")
}

/// Whether a clause of a block begins at the next token.
fn at_clause(reader: &Reader) -> bool
    ensures { result ≡ passes is_clause (next reader.now.rest.now) }
{
    match reader.rest {
        [token, ..] => is_clause(token),
        [] => false,
    }
}

/// Reads one clause of a block.
fn clause(reader: &mut Reader, alloc: Global, clauses: &mut Clauses) -> Result<(), Stop>
    ensures { Builds (clause clauses.old) clauses.new result reader.old reader.new }
{
    if reader.at_keyword(b"AS") {
        alias(reader, alloc, clauses)
    } else if reader.at_keyword(b"IF") {
        tested(reader, alloc, clauses)
    } else if reader.at_keyword(b"WHILE") {
        turning(reader, alloc, clauses)
    } else if reader.at_keyword(b"BEFORE") {
        before(reader, alloc, clauses)
    } else {
        after(reader, alloc, clauses)
    }
}

/// Reads clauses for as long as one begins at the next token.
fn clauses_after(reader: &mut Reader, alloc: Global, clauses: &mut Clauses) -> Result<(), Stop>
    ensures { Builds (loop is_clause clause clauses.old) clauses.new result reader.old reader.new }
{
    'clauses: while at_clause(reader) {
        clause(reader, alloc, clauses)?;
    }
    Ok(())
}

/// Reads the clauses of a block, in any order.
fn all_clauses(reader: &mut Reader, alloc: Global) -> Result<Clauses, Stop>
    ensures { Obeys (loop is_clause clause no_clauses) result reader.old reader.new }
{
    let mut clauses = Clauses {
        alias: None,
        test: None,
        turn: None,
        before: List::empty(alloc),
        after: List::empty(alloc),
    };
    clauses_after(reader, alloc, &mut clauses)?;
    Ok(clauses)
}

/// Reads an optional quoted text; without one it is empty.
fn description(reader: &mut Reader, alloc: Global) -> Result<Text, Stop>
    ensures { Obeys (choice is_quoted quoted (nothing [])) result reader.old reader.new }
{
    if reader.at_quoted_text() {
        reader.quoted_text(alloc)
    } else {
        Ok(Text::new(Vec::new(alloc)))
    }
}

/// The block of a heading, clauses, lines and a description.
fn block_of(head: Head, clauses: Clauses, lines: Lines, text: Text) -> Block
    ensures { result ≡ block_of head clauses lines text }
{
    Block {
        group: head.group,
        name: head.name,
        spot: head.spot,
        alias: clauses.alias,
        test: clauses.test,
        turn: clauses.turn,
        before: clauses.before,
        after: clauses.after,
        storage: lines.storage,
        sync: lines.sync,
        reads: lines.reads,
        writes: lines.writes,
        rest: lines.rest,
        text,
    }
}

/// Reads a block after its heading. It may have `left` lines.
fn behind_head(reader: &mut Reader, alloc: Global, head: Head, left: usize) -> Result<Made, Stop>
    ensures { Obeys (behind_head head left) result reader.old reader.new }
{
    let clauses = all_clauses(reader, alloc)?;
    let lines = all_lines(reader, alloc, left)?;
    let text = description(reader, alloc)?;
    Ok(Made {
        lines: lines.left,
        block: block_of(head, clauses, lines, text),
    })
}

/// A block, which is past the limit where `full` holds, and in which so many lines may stand.
pub fn block(reader: &mut Reader, alloc: Global, full: bool, left: usize) -> Result<Made, Stop>
    ensures { Obeys (block full left) result reader.old reader.new }
{
    reader.counted_keyword(b"SCHEDULE", full)?;
    let head = heading(reader, alloc)?;
    behind_head(reader, alloc, head, left)
}
