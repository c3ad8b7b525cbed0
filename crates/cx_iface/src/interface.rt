//! The interface file of a thorn.

ghost use Rattle.std.specs.Prelude.{◌≡◌, [], None};
ghost use Rattle.cx_text.specs.Grammar.{passes, head, line_at, ReadsBy, AnswersOnly};
ghost use Rattle.cx_text.specs.Reading.{Gives, read_marked};
ghost use Rattle.cx_text.specs.Rules.{Obeys, Builds, token, loop, is_named};
ghost use Rattle.cx_text.specs.Tokens.{is_word};
ghost use Rattle.cx_text.specs.Lexemes.{first_mark, kept_if, more_kept, in_line};
ghost use Rattle.cx_text.specs.declared.stop.Mark.TheVariants as marks;
ghost use Rattle.cx_iface.specs.Words.{FUNCTION, is_line_word, begins_with};
ghost use Rattle.cx_iface.specs.File.{implements, inherits, friends, access, grouped, line, kept_line, function, part, is_again, again_mark, worded, item, file, interface, implemented};

use crate::group::group;
use crate::words::{First, begins_with, is_line_word};
use crate::{Access, Interface};
use cx_text::{CType, CclFault, List, Mark, Reader, Stop, Text, Token, Why};
use std::alloc::Global;

/// The most groups of an interface file, and the most lines that are kept as they stand.
const MAX_PARTS: usize = 4096;

/// What is read so far: the access of the next group, which headers stood, how many groups and lines may still stand.
#[derive(Drop)]
struct Read {
    access: Access,
    implements: bool,
    inherits: bool,
    friend: bool,
    groups: usize,
    lines: usize,
    tree: Interface,
}

/// Reads what follows `IMPLEMENTS`: a colon, the implementation and the end of the line.
fn implements(reader: &mut Reader, alloc: Global, read: &mut Read) -> Result<(), Stop>
    ensures { Builds (implements read.old) read.new result reader.old reader.new }
{
    reader.skip_line_ends();
    reader.sign(b':')?;
    let name = reader.name_here(alloc)?;
    reader.line_end()?;
    read.implements = true;
    read.tree.implements = name;
    Ok(())
}

/// Reads what follows `INHERITS`: a colon, implementations and the end of the line.
fn inherits(reader: &mut Reader, alloc: Global, read: &mut Read) -> Result<(), Stop>
    ensures { Builds (inherits read.old) read.new result reader.old reader.new }
{
    let mut names = List::empty(alloc);
    reader.skip_line_ends();
    reader.sign_here(b':')?;
    reader.names(alloc, &mut names)?;
    reader.line_end()?;
    read.inherits = true;
    read.tree.inherits = names;
    Ok(())
}

/// Reads what follows `FRIEND`: a colon, implementations and the end of the line.
fn friends(reader: &mut Reader, alloc: Global, read: &mut Read) -> Result<(), Stop>
    ensures { Builds (friends read.old) read.new result reader.old reader.new }
{
    let mut names = List::empty(alloc);
    reader.skip_line_ends();
    reader.sign_here(b':')?;
    reader.names(alloc, &mut names)?;
    reader.line_end()?;
    read.friend = true;
    read.tree.friends = names;
    Ok(())
}

/// Reads the colon of an access line, which holds for the groups after it.
fn access(reader: &mut Reader, level: Access, read: &mut Read) -> Result<(), Stop>
    ensures { Builds (access level read.old) read.new result reader.old reader.new }
{
    reader.skip_line_ends();
    reader.sign(b':')?;
    read.access = level;
    Ok(())
}

/// Reads a group whose variables have this type, and adds it.
fn grouped(reader: &mut Reader, alloc: Global, ctype: CType, read: &mut Read) -> Result<(), Stop>
    ensures { Builds (grouped ctype read.old) read.new result reader.old reader.new }
{
    let group = group(reader, alloc, read.access, ctype, read.groups == 0)?;
    read.tree.groups.push(group)?;
    read.groups = read.groups.saturating_sub(1);
    Ok(())
}

/// Reads and keeps one more token of the line.
fn more_kept(reader: &mut Reader, alloc: Global, tokens: &mut List<Token>) -> Result<(), Stop>
    ensures { Builds (more_kept in_line tokens.old) tokens.new result reader.old reader.new }
{
    match reader.rest {
        [token, rest @ ..] if !token.is_line_end() => {
            let kept = token.kept_copy(alloc)?;
            reader.rest = rest;
            tokens.push(kept)?;
            Ok(())
        }
        _ => Err(Stop::Fault(Why::Unexpected)),
    }
}

/// Reads and keeps the remaining tokens of the line.
fn kept_up_to_line_end(
    reader: &mut Reader,
    alloc: Global,
    tokens: &mut List<Token>,
) -> Result<(), Stop>
    ensures { Builds (loop in_line (more_kept in_line) tokens.old) tokens.new
        result reader.old reader.new }
{
    'kept: while reader.at_in_line() {
        more_kept(reader, alloc, tokens)?;
    }
    Ok(())
}

/// What follows these tokens up to the end of the line.
fn line(
    reader: &mut Reader,
    alloc: Global,
    mut tokens: List<Token>,
    read: &mut Read,
) -> Result<(), Stop>
    ensures { Builds (line tokens read.old) read.new result reader.old reader.new }
{
    kept_up_to_line_end(reader, alloc, &mut tokens)?;
    reader.line_end()?;
    read.tree.others.push(tokens)?;
    read.lines = read.lines.saturating_sub(1);
    Ok(())
}

/// Reads the word that begins a line without effect. In a `full` file it is one line too many.
fn line_word(reader: &mut Reader, alloc: Global, full: bool) -> Result<Token, Stop>
    ensures { Obeys (token (kept_if is_line_word) (λ t. first_mark full marks.Limit None))
        result reader.old reader.new }
{
    match reader.rest {
        [token, rest @ ..] if is_line_word(token) => {
            if full {
                return Err(Stop::Fault(Why::Marked(Mark::Limit)));
            }
            let kept = token.kept_copy(alloc)?;
            reader.rest = rest;
            Ok(kept)
        }
        _ => Err(Stop::Fault(Why::Unexpected)),
    }
}

/// Reads a line without effect and keeps it.
fn kept_line(reader: &mut Reader, alloc: Global, read: &mut Read) -> Result<(), Stop>
    ensures { Builds (kept_line read.old) read.new result reader.old reader.new }
{
    let word = line_word(reader, alloc, read.lines == 0)?;
    let mut tokens = List::empty(alloc);
    tokens.push(word)?;
    line(reader, alloc, tokens, read)
}

/// Reads `FUNCTION` in a line without effect. In a `full` file it is one line too many.
fn function_word(reader: &mut Reader, alloc: Global, full: bool) -> Result<Token, Stop>
    ensures { Obeys (token (kept_if (is_named FUNCTION)) (λ t. first_mark full marks.Limit None))
        result reader.old reader.new }
{
    match reader.rest {
        [token, rest @ ..] if token.is_named(b"FUNCTION") => {
            if full {
                return Err(Stop::Fault(Why::Marked(Mark::Limit)));
            }
            let kept = token.kept_copy(alloc)?;
            reader.rest = rest;
            Ok(kept)
        }
        _ => Err(Stop::Fault(Why::Unexpected)),
    }
}

/// A function's declaration behind its first word.
fn function(reader: &mut Reader, alloc: Global, word: Token, read: &mut Read) -> Result<(), Stop>
    ensures { Builds (function word read.old) read.new result reader.old reader.new }
{
    let function = function_word(reader, alloc, read.lines == 0)?;
    let mut tokens = List::empty(alloc);
    tokens.push(word)?;
    tokens.push(function)?;
    line(reader, alloc, tokens, read)
}

/// What a word begins, behind it.
fn part(reader: &mut Reader, alloc: Global, word: Token, read: &mut Read) -> Result<(), Stop>
    ensures { Builds (part (begins_with word) word read.old) read.new result reader.old reader.new }
{
    if reader.at_keyword(b"FUNCTION") {
        return function(reader, alloc, word, read);
    }
    match begins_with(&word) {
        First::Implements => implements(reader, alloc, read),
        First::Inherits => inherits(reader, alloc, read),
        First::Friend => friends(reader, alloc, read),
        First::Access(level) => access(reader, level, read),
        First::Group(ctype) => grouped(reader, alloc, ctype, read),
        First::Other => function(reader, alloc, word, read),
    }
}

/// Whether a token begins a header that the file already has.
fn is_again(read: &Read, token: &Token) -> bool
    ensures { result ≡ is_again read.now token.now }
{
    (read.implements && token.is_named(b"IMPLEMENTS"))
        || (read.inherits && token.is_named(b"INHERITS"))
        || (read.friend && token.is_named(b"FRIEND"))
}

/// Whether the next token is `FUNCTION`, which makes a line of the word before it.
fn is_function(rest: &[Token]) -> bool
    ensures { result ≡ passes (is_named FUNCTION) (head rest.now) }
{
    match rest {
        [token, ..] => token.is_named(b"FUNCTION"),
        [] => false,
    }
}

/// Whether a word before these tokens is the first one of a header of which one stands already.
fn is_repeated(read: &Read, token: &Token, rest: &[Token]) -> bool
    ensures { again_mark read.now (passes (is_named FUNCTION) (head rest.now)) token.now
        ≡ first_mark result marks.Repeated None }
{
    !is_function(rest) && is_again(read, token)
}

/// Reads the word that begins a part of the file. It is a fault if it begins a header again.
fn first_word(reader: &mut Reader, alloc: Global, read: &Read) -> Result<Token, Stop>
    ensures { Gives (λ w. w) result reader.new.rest.now
        (read_marked (kept_if is_word) (is_named FUNCTION) (again_mark read.now)
        reader.old.rest.now) }
{
    match reader.rest {
        [token, rest @ ..] if token.is_word() => {
            if is_repeated(read, token, rest) {
                return Err(Stop::Fault(Why::Marked(Mark::Repeated)));
            }
            let kept = token.kept_copy(alloc)?;
            reader.rest = rest;
            Ok(kept)
        }
        _ => Err(Stop::Fault(Why::Unexpected)),
    }
}

/// Reads a header, an access line, a group or a line that begins with this word.
fn worded(reader: &mut Reader, alloc: Global, read: &mut Read) -> Result<(), Stop>
    ensures { Builds (worded read.old) read.new result reader.old reader.new }
{
    let word = first_word(reader, alloc, read)?;
    part(reader, alloc, word, read)
}

/// Whether a line without effect begins at the next token.
fn at_line_word(reader: &Reader) -> bool
    ensures { result ≡ passes is_line_word (head reader.now.rest.now) }
{
    match reader.rest {
        [token, ..] => is_line_word(token),
        [] => false,
    }
}

/// Reads one part of the file: a line without effect, a header, an access line or a group.
fn item(reader: &mut Reader, alloc: Global, read: &mut Read) -> Result<(), Stop>
    ensures { Builds (item read.old) read.new result reader.old reader.new }
{
    if at_line_word(reader) {
        kept_line(reader, alloc, read)
    } else {
        worded(reader, alloc, read)
    }
}

/// Reads parts of the file for as long as a word comes next.
fn items(reader: &mut Reader, alloc: Global, read: &mut Read) -> Result<(), Stop>
    ensures { Builds (loop is_word item read.old) read.new result reader.old reader.new }
{
    'items: while reader.at_word() {
        item(reader, alloc, read)?;
    }
    Ok(())
}

/// Reads an interface file; its groups are private until an access line says otherwise.
fn whole(reader: &mut Reader, alloc: Global) -> Result<Read, Stop>
    ensures { Obeys file result reader.old reader.new }
{
    let mut read = Read {
        access: Access::Private,
        implements: false,
        inherits: false,
        friend: false,
        groups: MAX_PARTS,
        lines: MAX_PARTS,
        tree: Interface {
            implements: Text::new(Vec::new(alloc)),
            inherits: List::empty(alloc),
            friends: List::empty(alloc),
            groups: List::empty(alloc),
            others: List::empty(alloc),
        },
    };
    reader.skip_line_ends();
    items(reader, alloc, &mut read)?;
    Ok(read)
}

/// What is answered for what was read: a file that names no implementation is unexpected at its end.
fn implemented(
    reader: &Reader,
    tokens: &[Token],
    answer: Result<Read, CclFault>,
) -> Result<Interface, CclFault>
    ensures { result ≡ implemented (line_at tokens.now reader.now.rest.now) answer }
{
    let read = answer?;
    if read.implements {
        Ok(read.tree)
    } else {
        Err(reader.fault(tokens, Stop::Fault(Why::Unexpected)))
    }
}

/// What the tokens of an interface file spell.
///
/// Headers say what the thorn implements, inherits and shares, access lines who sees the groups behind them. A group
/// is a type, a name, its copies in brackets, attributes, a description and a block of variables. Include lines and
/// function declarations are kept token by token and have no effect. Words are read in any case, types with or
/// without `CCTK_`.
///
/// # Errors
/// The first of these, each with its token's line:
/// - `Unexpected`: a token with which no interface file goes on, or the end of one that is cut off or names no
///   implementation, with the line of the last token;
/// - `Repeated`: the first word of a second header of one kind, unless the word FUNCTION stands behind it, a second
///   attribute of one kind, a variable that its group has already;
/// - `BadNumber`: DIM outside 1 to 3, TIMELEVELS outside 1 to 8, copies outside 1 to 64;
/// - `Limit`: a name of more than 64 bytes, the name of the 4,097th group, the first word of the 4,097th line that
///   is kept, or the word FUNCTION in it.
pub fn read_interface(alloc: Global, tokens: &List<Token>) -> Result<Interface, CclFault>
    // The answer is what the tokens spell, or the first fault.
    ensures answers { ReadsBy interface (λ x. x) tokens.now result }
    // What is spelled is answered, unless memory runs out.
    ensures only { AnswersOnly interface (λ x. x) tokens.now result }
{
    let tokens = tokens.as_slice();
    let mut reader = Reader::new(tokens);
    let answer = whole(&mut reader, alloc);
    let finished = reader.finish(tokens, answer);
    implemented(&reader, tokens, finished)
}
