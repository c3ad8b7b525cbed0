//! The list of thorns, each in its arrangement.

ghost use Rattle.std.specs.Prelude.{◌≡◌, Some, None, MatchOption, position};
ghost use Rattle.std.specs.List.{list_any};
ghost use Rattle.cx_text.specs.Tokens.{is_word};
ghost use Rattle.cx_text.specs.Grammar.{ReadsBy, AnswersOnly};
ghost use Rattle.cx_text.specs.Rules.{Obeys, Builds, token, loop};
ghost use Rattle.cx_conf.specs.Thorns.{place_in, place_of, place_mark, line, thorn_list};
ghost use Rattle.cx_text.specs.Bytes.{is_slash};

use cx_text::{CclFault, List, MAX_NAME, Mark, Reader, Stop, Text, Token, Why};
use std::alloc::Global;

/// The thorns that there are.
#[derive(Debug, Drop)]
pub struct ThornList {
    /// Each thorn's arrangement and its name, in file order.
    pub places: List<(Text, Text)>,
}

/// The most lines of a thorn list.
const MAX_LINES: usize = 4096;

/// The places of the lines so far, and how many lines may still stand.
#[derive(Drop)]
struct Places {
    left: usize,
    places: List<(Text, Text)>,
}

/// The place of the first slash, where the arrangement ends.
fn slash_at(text: &[u8]) -> Option<usize>
    ensures { result ≡ position is_slash text.now }
{
    text.iter().position(|byte| *byte == b'/')
}

/// Whether a text has a slash.
fn has_slash(text: &[u8]) -> bool
    ensures { result ≡ list_any is_slash text.now }
{
    text.iter().any(|byte| *byte == b'/')
}

/// The two names round the one slash.
fn place_in(text: &[u8]) -> Option<(&[u8], &[u8])>
    ensures { let told = place_in text.now in
        MatchOption result (told ≡ None) (λ p. told ≡ Some (p.0.now, p.1.now)) }
{
    let slash = slash_at(text)?;
    let (_, thorn) = text.split_at(slash + 1);
    let (arrangement, _) = text.split_at(slash);
    if arrangement.is_empty() || thorn.is_empty() || has_slash(thorn) {
        None
    } else {
        Some((arrangement, thorn))
    }
}

/// Reads `ARRANGEMENT/THORN`. It is a fault if no more lines may come.
fn place(reader: &mut Reader, alloc: Global, left: usize) -> Result<(Text, Text), Stop>
    ensures { Obeys (token place_of (place_mark left)) result reader.old reader.new }
{
    match reader.rest {
        [token, rest @ ..] if token.is_word() => {
            let Some((arrangement, thorn)) = place_in(token.text.as_slice()) else {
                return Err(Stop::Fault(Why::Unexpected));
            };
            if left == 0 || arrangement.len() > MAX_NAME || thorn.len() > MAX_NAME {
                return Err(Stop::Fault(Why::Marked(Mark::Limit)));
            }
            let arrangement = Text::from_slice(alloc, arrangement)?;
            let thorn = Text::from_slice(alloc, thorn)?;
            reader.rest = rest;
            Ok((arrangement, thorn))
        }
        _ => Err(Stop::Fault(Why::Unexpected)),
    }
}

/// Reads a thorn with its arrangement and the line end after it.
fn line(reader: &mut Reader, alloc: Global, lines: &mut Places) -> Result<(), Stop>
    ensures { Builds (line lines.old) lines.new result reader.old reader.new }
{
    let place = place(reader, alloc, lines.left)?;
    reader.one_line_end()?;
    lines.places.push(place)?;
    lines.left = lines.left.saturating_sub(1);
    Ok(())
}

/// Reads lines for as long as a word comes next.
fn lines(reader: &mut Reader, alloc: Global, read: &mut Places) -> Result<(), Stop>
    ensures { Builds (loop is_word line read.old) read.new result reader.old reader.new }
{
    'lines: while reader.at_word() {
        line(reader, alloc, read)?;
    }
    Ok(())
}

/// Reads a list of thorns.
fn whole(reader: &mut Reader, alloc: Global) -> Result<ThornList, Stop>
    ensures { Obeys thorn_list result reader.old reader.new }
{
    let mut read = Places {
        left: MAX_LINES,
        places: List::empty(alloc),
    };
    lines(reader, alloc, &mut read)?;
    Ok(ThornList {
        places: read.places,
    })
}

/// What the tokens of a thorn list spell: on each line an arrangement and the name of a thorn, with one `/` between.
///
/// # Errors
/// `Unexpected` at the first token with which no thorn list goes on, `Limit` at an arrangement or a thorn of more
/// than 64 bytes or the 4,097th line, whichever comes first; each with the token's line.
pub fn read_thornlist(alloc: Global, tokens: &List<Token>) -> Result<ThornList, CclFault>
    // The answer is what the tokens spell, or the first fault.
    ensures answers { ReadsBy thorn_list.derives (λ x. x) tokens.now result }
    // What is spelled is answered, unless memory runs out.
    ensures only { AnswersOnly thorn_list.derives (λ x. x) tokens.now result }
{
    let tokens = tokens.as_slice();
    let mut reader = Reader::new(tokens);
    let answer = whole(&mut reader, alloc);
    reader.finish(tokens, answer)
}
