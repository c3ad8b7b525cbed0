//! The lines of a block. A list ends before a word that a colon follows, so the word is read first.

ghost use Rattle.std.specs.Prelude.{◌≡◌, ◌++◌, IfOk, OnOk, None};
ghost use Rattle.cx_text.specs.Rules.{Obeys, Builds, token, loop, if_is, unmarked, is_sign, lexeme};
ghost use Rattle.cx_text.specs.Lexemes.{first_mark, kept_if, is_inside};
ghost use Rattle.cx_text.specs.Written as written;
ghost use Rattle.cx_text.specs.declared.stop.Mark.TheVariants as marks;
ghost use Rattle.cx_sched.specs.Words.{is_idle, line_of};
ghost use Rattle.cx_sched.specs.Lines.{beginning, begin, line_word, first, begun_by, keep, kept_after, kept, item, named, entry, lines};

use crate::Ref;
use crate::reference::{access, store, sync_name};
use cx_plan::Region;
use cx_text::{Kind as TokenKind, List, Mark, Memory, Reader, Stop, Text, Token, Why, same_name};
use std::alloc::Global;

/// A line that is a list of names.
#[derive(Clone, Copy, Drop)]
pub enum Kind {
    Storage,
    Sync,
    Reads,
    Writes,
}

/// In which line a token stands.
#[derive(Clone, Copy, Drop)]
pub enum Line {
    /// In none: a block begins.
    Start,
    /// In one without effect.
    Tokens,
    /// In one without effect, behind a word, which no colon follows.
    Word,
    /// In a list of names.
    Names(Kind),
}

/// What a block's lines say so far, and how many lines may still stand.
#[derive(Drop)]
pub struct Lines {
    pub left: usize,
    pub line: Line,
    pub storage: List<(Ref, Option<u32>)>,
    pub sync: List<Ref>,
    pub reads: List<(Ref, Region)>,
    pub writes: List<(Ref, Region)>,
    pub rest: List<Token>,
}

/// Whether a word begins a line without effect.
fn is_idle(word: &[u8]) -> bool
    ensures { result ≡ is_idle word.now }
{
    same_name(word, b"LANG") || same_name(word, b"OPTIONS") || same_name(word, b"TRIGGERS")
}

/// The line that a word begins.
fn line_of(word: &[u8]) -> Option<Line>
    ensures { result ≡ line_of word.now }
{
    if is_idle(word) {
        Some(Line::Tokens)
    } else if same_name(word, b"STORAGE") {
        Some(Line::Names(Kind::Storage))
    } else if same_name(word, b"SYNC") {
        Some(Line::Names(Kind::Sync))
    } else if same_name(word, b"READS") {
        Some(Line::Names(Kind::Reads))
    } else if same_name(word, b"WRITES") {
        Some(Line::Names(Kind::Writes))
    } else {
        None
    }
}

/// A token that is this word. It is of line 0, since it isn't read.
fn word_token(alloc: Global, word: &[u8]) -> Result<Token, Memory>
    ensures { IfOk result (λ t. t ≡ written.word word.now) }
{
    Ok(Token {
        kind: TokenKind::Word,
        text: Text::from_slice(alloc, word)?,
        line: 0,
    })
}

/// A token that is a colon. It is of line 0, since it isn't read.
fn colon_token(alloc: Global) -> Result<Token, Memory>
    ensures { IfOk result (λ t. t ≡ written.sign 58) }
{
    Ok(Token {
        kind: TokenKind::Sign,
        text: Text::from_slice(alloc, b":")?,
        line: 0,
    })
}

/// Keeps a line's word and colon, where the line has no effect.
fn keep_beginning(
    alloc: Global,
    line: Line,
    word: &Text,
    rest: &mut List<Token>,
) -> Result<(), Memory>
    ensures { OnOk result (rest.new ≡ rest.old ++ beginning line word.now) }
{
    match line {
        Line::Tokens => {
            rest.push(word_token(alloc, word.as_slice())?)?;
            rest.push(colon_token(alloc)?)?;
            Ok(())
        }
        _ => Ok(()),
    }
}

/// Reads a colon but no line end after it. In a `full` file it is one line too many.
fn colon_here(reader: &mut Reader, full: bool) -> Result<(), Stop>
    ensures { Obeys (token (if_is (is_sign 58)) (λ t. first_mark full marks.Limit None))
        result reader.old reader.new }
{
    match reader.rest {
        [token, rest @ ..] if token.is_sign(b':') => {
            if full {
                return Err(Stop::Fault(Why::Marked(Mark::Limit)));
            }
            reader.rest = rest;
            Ok(())
        }
        _ => Err(Stop::Fault(Why::Unexpected)),
    }
}

/// Reads the colon of a line. In a `full` file it is one line too many.
fn colon(reader: &mut Reader, full: bool) -> Result<(), Stop>
    ensures { Obeys (lexeme (if_is (is_sign 58)) (λ t. first_mark full marks.Limit None))
        result reader.old reader.new }
{
    colon_here(reader, full)?;
    reader.skip_line_ends();
    Ok(())
}

/// Reads the colon after the word of a line, which begins the line.
fn begin(
    reader: &mut Reader,
    alloc: Global,
    line: Line,
    word: &Text,
    lines: &mut Lines,
) -> Result<(), Stop>
    ensures { Builds (begin line word.now lines.old) lines.new result reader.old reader.new }
{
    colon(reader, lines.left == 0)?;
    keep_beginning(alloc, line, word, &mut lines.rest)?;
    lines.left = lines.left.saturating_sub(1);
    lines.line = line;
    Ok(())
}

/// Reads a word that begins a line of a block, but no line end after it.
fn line_word_here(reader: &mut Reader, alloc: Global) -> Result<(Line, Text), Stop>
    ensures { Obeys (token line_word unmarked) result reader.old reader.new }
{
    match reader.rest {
        [token, rest @ ..] if token.is_word() => match line_of(token.text.as_slice()) {
            Some(line) => {
                let word = Text::from_slice(alloc, token.text.as_slice())?;
                reader.rest = rest;
                Ok((line, word))
            }
            None => Err(Stop::Fault(Why::Unexpected)),
        },
        _ => Err(Stop::Fault(Why::Unexpected)),
    }
}

/// Reads a word that begins a line of a block: the line's kind and the word as it is spelled.
fn line_word(reader: &mut Reader, alloc: Global) -> Result<(Line, Text), Stop>
    ensures { Obeys (lexeme line_word unmarked) result reader.old reader.new }
{
    let line = line_word_here(reader, alloc)?;
    reader.skip_line_ends();
    Ok(line)
}

/// The first line of a block.
fn first(reader: &mut Reader, alloc: Global, lines: &mut Lines) -> Result<(), Stop>
    ensures { Builds (first lines.old) lines.new result reader.old reader.new }
{
    let (line, word) = line_word(reader, alloc)?;
    begin(reader, alloc, line, &word, lines)
}

/// Whether a line without effect may go on with this token. No colon may follow a word of it.
fn is_kept(token: &Token, behind: bool) -> bool
    ensures { result ≡ kept_after behind token.now }
{
    !token.is_sign(b'}') && !(behind && token.is_sign(b':'))
}

/// Reads a token of a line without effect, but no line end after it. No colon may follow a word.
fn kept_here(reader: &mut Reader, alloc: Global, behind: bool) -> Result<Token, Stop>
    ensures { Obeys (token (kept_if (kept_after behind)) unmarked) result reader.old reader.new }
{
    match reader.rest {
        [token, rest @ ..] if is_kept(token, behind) => {
            let kept = token.kept_copy(alloc)?;
            reader.rest = rest;
            Ok(kept)
        }
        _ => Err(Stop::Fault(Why::Unexpected)),
    }
}

/// Reads a token of a line without effect. No colon may follow a word of the line.
fn kept_token(reader: &mut Reader, alloc: Global, behind: bool) -> Result<Token, Stop>
    ensures { Obeys (lexeme (kept_if (kept_after behind)) unmarked) result reader.old reader.new }
{
    let kept = kept_here(reader, alloc, behind)?;
    reader.skip_line_ends();
    Ok(kept)
}

/// The line that a token can begin, if a colon follows it.
fn begun_by(token: &Token) -> Option<Line>
    ensures { result ≡ begun_by token.now }
{
    if token.is_word() {
        line_of(token.text.as_slice())
    } else {
        None
    }
}

/// Adds a token to those of the lines without effect, and notes whether it is a word.
fn keep(token: Token, lines: &mut Lines) -> Result<(), Memory>
    ensures { OnOk result (lines.new ≡ keep token lines.old) }
{
    lines.line = if token.is_word() {
        Line::Word
    } else {
        Line::Tokens
    };
    lines.rest.push(token)?;
    Ok(())
}

/// A token of a line without effect, or the beginning of the next line.
fn kept(reader: &mut Reader, alloc: Global, behind: bool, lines: &mut Lines) -> Result<(), Stop>
    ensures { Builds (kept behind lines.old) lines.new result reader.old reader.new }
{
    let token = kept_token(reader, alloc, behind)?;
    match begun_by(&token) {
        Some(line) if reader.at_sign(b':') => begin(reader, alloc, line, &token.text, lines),
        _ => {
            keep(token, lines)?;
            Ok(())
        }
    }
}

/// Reads a name in a list after its first word, and adds it.
fn item(
    reader: &mut Reader,
    alloc: Global,
    kind: Kind,
    word: Text,
    lines: &mut Lines,
) -> Result<(), Stop>
    ensures { Builds (item kind word lines.old) lines.new result reader.old reader.new }
{
    match kind {
        Kind::Storage => lines.storage.push(store(reader, alloc, word)?)?,
        Kind::Sync => lines.sync.push(sync_name(reader, alloc, word)?)?,
        Kind::Reads => lines.reads.push(access(reader, alloc, word)?)?,
        Kind::Writes => lines.writes.push(access(reader, alloc, word)?)?,
    }
    Ok(())
}

/// A name in a list, or the beginning of the next line.
fn named(reader: &mut Reader, alloc: Global, kind: Kind, lines: &mut Lines) -> Result<(), Stop>
    ensures { Builds (named kind lines.old) lines.new result reader.old reader.new }
{
    let word = reader.name(alloc)?;
    match line_of(word.as_slice()) {
        Some(line) if reader.at_sign(b':') => begin(reader, alloc, line, &word, lines),
        _ => item(reader, alloc, kind, word, lines),
    }
}

/// Reads what comes next in a block: the beginning of a line, or a token or name of one.
fn entry(reader: &mut Reader, alloc: Global, lines: &mut Lines) -> Result<(), Stop>
    ensures { Builds (entry lines.old) lines.new result reader.old reader.new }
{
    match lines.line {
        Line::Start => first(reader, alloc, lines),
        Line::Tokens => kept(reader, alloc, false, lines),
        Line::Word => kept(reader, alloc, true, lines),
        Line::Names(kind) => named(reader, alloc, kind, lines),
    }
}

/// Reads the lines of a block up to its closing brace.
fn entries(reader: &mut Reader, alloc: Global, lines: &mut Lines) -> Result<(), Stop>
    ensures { Builds (loop is_inside entry lines.old) lines.new result reader.old reader.new }
{
    'entries: while reader.at_inside() {
        entry(reader, alloc, lines)?;
    }
    Ok(())
}

/// The lines of a block in their braces, where so many lines may still stand.
pub fn all_lines(reader: &mut Reader, alloc: Global, left: usize) -> Result<Lines, Stop>
    ensures { Obeys (lines left) result reader.old reader.new }
{
    let mut read = Lines {
        left,
        line: Line::Start,
        storage: List::empty(alloc),
        sync: List::empty(alloc),
        reads: List::empty(alloc),
        writes: List::empty(alloc),
        rest: List::empty(alloc),
    };
    reader.sign(b'{')?;
    entries(reader, alloc, &mut read)?;
    reader.sign(b'}')?;
    Ok(read)
}
