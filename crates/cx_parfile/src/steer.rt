//! The steer file, read.

ghost use Rattle.std.specs.Prelude.{◌≡◌};
ghost use Rattle.cx_text.specs.Tokens.{is_word};
ghost use Rattle.cx_text.specs.Grammar.{ReadsBy, AnswersOnly};
ghost use Rattle.cx_text.specs.Rules.{Obeys, Builds, token, loop, unmarked};
ghost use Rattle.cx_parfile.specs.ParFile.{name_of, name_mark, index};
ghost use Rattle.cx_parfile.specs.SteerFile.{are_digits, is_at_word, is_iteration, iteration_of, iteration_mark, plain_value, steered, steer_line, steer_file};

use crate::Setting;
use crate::reader::{Name, equals, index, name_here};
use cx_text::{CclFault, Kind, List, Mark, Reader, Stop, Text, Token, Why, decimal, has_digits};
use std::alloc::Global;

/// The most lines of a steer file.
const MAX_LINES: usize = 4096;

/// The last iteration that a line may name.
const MAX_ITERATION: u64 = 1_000_000;

/// One line of a steer file: a setting that counts from an iteration on.
#[derive(Debug, Drop)]
pub struct SteerLine {
    /// The first iteration with this value, 1 to 1,000,000.
    pub at: u64,
    /// The parameter and its value. A value `$parfile` stands for itself.
    pub setting: Setting,
}

/// The lines that are read so far, and how many may still come.
#[derive(Drop)]
pub struct ReadSteers {
    pub left: usize,
    pub lines: List<SteerLine>,
}

/// Whether a text is one to seven digits.
fn are_digits(text: &[u8]) -> bool
    ensures { result ≡ are_digits text.now }
{
    text.len() >= 1 && text.len() <= 7 && has_digits(text)
}

/// Whether a text is `@` and one to seven digits.
fn is_at_word(text: &[u8]) -> bool
    ensures { result ≡ is_at_word text.now }
{
    match text {
        [] => false,
        [byte, digits @ ..] => *byte == b'@' && are_digits(digits),
    }
}

/// Whether a token can be an iteration.
fn is_iteration(token: &Token) -> bool
    ensures { result ≡ is_iteration token.now }
{
    token.is_word() && is_at_word(token.text.as_slice())
}

/// Reads an iteration. It is a fault if no more lines may come.
fn iteration_here(reader: &mut Reader, left: usize) -> Result<u64, Stop>
    ensures { Obeys (token iteration_of (iteration_mark left)) result reader.old reader.new }
{
    match reader.rest {
        [token, rest @ ..] if is_iteration(token) => {
            if left == 0 {
                return Err(Stop::Fault(Why::Marked(Mark::Limit)));
            }
            match decimal(&token.text.as_slice()[1..], MAX_ITERATION) {
                Some(iteration) if iteration != 0 => {
                    reader.rest = rest;
                    Ok(iteration)
                }
                _ => Err(Stop::Fault(Why::Marked(Mark::BadNumber))),
            }
        }
        _ => Err(Stop::Fault(Why::Unexpected)),
    }
}

/// Reads a value, as it is spelled.
fn value_here(reader: &mut Reader, alloc: Global) -> Result<Text, Stop>
    ensures { Obeys (token plain_value unmarked) result reader.old reader.new }
{
    match reader.rest {
        [token, rest @ ..] if matches!(token.kind, Kind::Quoted | Kind::Word) => {
            let value = Text::from_slice(alloc, token.text.as_slice())?;
            reader.rest = rest;
            Ok(value)
        }
        _ => Err(Stop::Fault(Why::Unexpected)),
    }
}

/// Reads what follows the name of a parameter.
fn steered(reader: &mut Reader, alloc: Global, at: u64, name: Name) -> Result<SteerLine, Stop>
    ensures { Obeys (steered at name) result reader.old reader.new }
{
    let index = index(reader)?;
    equals(reader)?;
    let value = value_here(reader, alloc)?;
    Ok(SteerLine {
        at,
        setting: Setting {
            owner: name.owner,
            name: name.name,
            index,
            value,
            line: name.line,
        },
    })
}

/// Reads one line of a steer file.
fn line(reader: &mut Reader, alloc: Global, read: &mut ReadSteers) -> Result<(), Stop>
    ensures { Builds (steer_line read.old) read.new result reader.old reader.new }
{
    let at = iteration_here(reader, read.left)?;
    let name = name_here(reader, alloc, 1)?;
    let line = steered(reader, alloc, at, name)?;
    reader.one_line_end()?;
    read.lines.push(line)?;
    read.left = read.left.saturating_sub(1);
    Ok(())
}

/// Reads lines for as long as a word comes next.
fn lines(reader: &mut Reader, alloc: Global, read: &mut ReadSteers) -> Result<(), Stop>
    ensures { Builds (loop is_word steer_line read.old) read.new result reader.old reader.new }
{
    'lines: while reader.at_word() {
        line(reader, alloc, read)?;
    }
    Ok(())
}

/// Reads a steer file.
fn whole(reader: &mut Reader, alloc: Global) -> Result<List<SteerLine>, Stop>
    ensures { Obeys steer_file result reader.old reader.new }
{
    let mut read = ReadSteers {
        left: MAX_LINES,
        lines: List::empty(alloc),
    };
    lines(reader, alloc, &mut read)?;
    Ok(read.lines)
}

/// What the tokens of a steer file spell. `$parfile` stands for itself there, and `ActiveThorns` is a parameter's name
/// like any other.
///
/// # Errors
/// `Unexpected` at the first token with which no steer file goes on, `BadNumber` at an iteration outside 1 to 1,000,000
/// or at an index above 1,023, `Limit` at an owner or a name of more than 64 bytes or at the 4,097th line, whichever
/// comes first; each with the token's line.
pub fn read_steer(alloc: Global, tokens: &List<Token>) -> Result<List<SteerLine>, CclFault>
    // The answer is what the tokens spell, or the first fault.
    ensures answers { ReadsBy steer_file.derives (λ x. x) tokens.now result }
    // What is spelled is answered, unless memory runs out.
    ensures only { AnswersOnly steer_file.derives (λ x. x) tokens.now result }
{
    let tokens = tokens.as_slice();
    let mut reader = Reader::new(tokens);
    let answer = whole(&mut reader, alloc);
    reader.finish(tokens, answer)
}
