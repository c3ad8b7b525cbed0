//! The configuration file of a thorn.

ghost use Rattle.std.specs.Prelude.{◌≡◌};
ghost use Rattle.cx_text.specs.Grammar.{passes, head, ReadsBy, AnswersOnly};
ghost use Rattle.cx_text.specs.Rules.{Obeys, Builds, loop};
ghost use Rattle.cx_conf.specs.Conf.{provides, optional, thorns, capabilities, requires_, is_entry, entry, more, configuration};

use cx_text::{CclFault, List, Reader, Stop, Text, Token};
use std::alloc::Global;

/// What a thorn provides and needs.
#[derive(Debug, Drop)]
pub struct Configuration {
    /// The capabilities that it provides.
    pub provides: List<Text>,
    /// The capabilities that it requires.
    pub requires_: List<Text>,
    /// The thorns that it requires.
    pub thorns: List<Text>,
    /// The capabilities that it can use, and doesn't require.
    pub optional: List<Text>,
}

/// The most entries of a configuration file.
const MAX_ENTRIES: usize = 4096;

/// What is read so far, and how many entries may still stand.
#[derive(Drop)]
struct Read {
    left: usize,
    tree: Configuration,
}

/// Reads `PROVIDES`, a capability and a block in braces, whose content is skipped.
fn provides(
    reader: &mut Reader,
    alloc: Global,
    left: usize,
    tree: &mut Configuration,
) -> Result<(), Stop>
    ensures { Builds (provides left tree.old) tree.new result reader.old reader.new }
{
    reader.counted_keyword(b"PROVIDES", left == 0)?;
    let name = reader.name(alloc)?;
    reader.braces()?;
    tree.provides.push(name)?;
    Ok(())
}

/// Reads `OPTIONAL`, a capability and a block in braces, whose content is skipped.
fn optional(
    reader: &mut Reader,
    alloc: Global,
    left: usize,
    tree: &mut Configuration,
) -> Result<(), Stop>
    ensures { Builds (optional left tree.old) tree.new result reader.old reader.new }
{
    reader.counted_keyword(b"OPTIONAL", left == 0)?;
    let name = reader.name(alloc)?;
    reader.braces()?;
    tree.optional.push(name)?;
    Ok(())
}

/// Reads `THORNS:` and the thorns that the rest of the line names.
fn thorns(reader: &mut Reader, alloc: Global, tree: &mut Configuration) -> Result<(), Stop>
    ensures { Builds (thorns tree.old) tree.new result reader.old reader.new }
{
    reader.keyword(b"THORNS")?;
    reader.sign_here(b':')?;
    reader.names(alloc, &mut tree.thorns)?;
    reader.line_end()
}

/// Reads the capabilities that the rest of the line names, at least one.
fn capabilities(reader: &mut Reader, alloc: Global, tree: &mut Configuration) -> Result<(), Stop>
    ensures { Builds (capabilities tree.old) tree.new result reader.old reader.new }
{
    reader.some_names(alloc, &mut tree.requires_)?;
    reader.line_end()
}

/// Reads `REQUIRES` and the thorns or capabilities after it.
fn requires_(
    reader: &mut Reader,
    alloc: Global,
    left: usize,
    tree: &mut Configuration,
) -> Result<(), Stop>
    ensures { Builds (requires_ left tree.old) tree.new result reader.old reader.new }
{
    reader.counted_keyword(b"REQUIRES", left == 0)?;
    if reader.at_keyword(b"THORNS") {
        thorns(reader, alloc, tree)
    } else {
        capabilities(reader, alloc, tree)
    }
}

/// Whether an entry begins at the next token: `PROVIDES`, `OPTIONAL` or `REQUIRES`.
fn at_entry(reader: &Reader) -> bool
    ensures { result ≡ passes is_entry (head reader.now.rest.now) }
{
    match reader.rest {
        [token, ..] => token.is_named(b"PROVIDES")
            || token.is_named(b"OPTIONAL")
            || token.is_named(b"REQUIRES"),
        [] => false,
    }
}

/// Reads one entry. `left` entries may still come, so it is a fault at 0.
fn entry(
    reader: &mut Reader,
    alloc: Global,
    left: usize,
    tree: &mut Configuration,
) -> Result<(), Stop>
    ensures { Builds (entry left tree.old) tree.new result reader.old reader.new }
{
    if reader.at_keyword(b"PROVIDES") {
        provides(reader, alloc, left, tree)
    } else if reader.at_keyword(b"OPTIONAL") {
        optional(reader, alloc, left, tree)
    } else {
        requires_(reader, alloc, left, tree)
    }
}

/// Reads one more entry and counts it.
fn more(reader: &mut Reader, alloc: Global, read: &mut Read) -> Result<(), Stop>
    ensures { Builds (more read.old) read.new result reader.old reader.new }
{
    entry(reader, alloc, read.left, &mut read.tree)?;
    read.left = read.left.saturating_sub(1);
    Ok(())
}

/// Reads entries for as long as one begins at the next token.
fn entries(reader: &mut Reader, alloc: Global, read: &mut Read) -> Result<(), Stop>
    ensures { Builds (loop is_entry more read.old) read.new result reader.old reader.new }
{
    'entries: while at_entry(reader) {
        more(reader, alloc, read)?;
    }
    Ok(())
}

/// Reads a configuration file.
fn whole(reader: &mut Reader, alloc: Global) -> Result<Configuration, Stop>
    ensures { Obeys configuration result reader.old reader.new }
{
    let mut read = Read {
        left: MAX_ENTRIES,
        tree: Configuration {
            provides: List::empty(alloc),
            requires_: List::empty(alloc),
            thorns: List::empty(alloc),
            optional: List::empty(alloc),
        },
    };
    reader.skip_line_ends();
    entries(reader, alloc, &mut read)?;
    Ok(read.tree)
}

/// What the tokens of a configuration file spell.
///
/// Each entry adds to one of the lists: `PROVIDES` and `OPTIONAL` the capability that they name, `REQUIRES` the
/// capabilities that it names, `REQUIRES THORNS:` the thorns. What stands in braces has no effect.
///
/// # Errors
/// `Unexpected` at the first token with which no configuration file goes on, `Limit` at a name of more than 64
/// bytes or the first token of the 4,097th entry, whichever comes first; each with the token's line.
pub fn read_configuration(alloc: Global, tokens: &List<Token>) -> Result<Configuration, CclFault>
    // The answer is what the tokens spell, or the first fault.
    ensures answers { ReadsBy configuration.derives (λ x. x) tokens.now result }
    // What is spelled is answered, unless memory runs out.
    ensures only { AnswersOnly configuration.derives (λ x. x) tokens.now result }
{
    let tokens = tokens.as_slice();
    let mut reader = Reader::new(tokens);
    let answer = whole(&mut reader, alloc);
    reader.finish(tokens, answer)
}
