//! An expression within a list of tokens.

ghost use Rattle.std.specs.Prelude.{◌≡◌, ◌≤◌, length};
ghost use Rattle.cx_expr.specs.AtMost.{past, left_behind, is_over, cut_short};
ghost use Rattle.cx_expr.specs.Exprs.{expression};
ghost use Rattle.cx_expr.specs.Parts.{AnswersFrom, AnswersFromOnly};
ghost use Rattle.cx_text.specs.Rules.{Obeys};

use crate::Expr;
use crate::read::{Level, TOO_DEEP, chain_at};
use cx_text::{CclFault, List, Reader, Stop, Token};
use std::alloc::Global;

/// The most tokens of an expression. LineEnds don't count.
const MAX_TOKENS: usize = 1024;

/// The most parentheses round one another.
const MAX_PARENTHESES: u32 = 32;

/// The most signs round one another.
const MAX_SIGNS: u32 = 32;

/// How many tokens may still come after this one; a line end doesn't count.
fn left_behind(left: usize, token: &Token) -> usize
    ensures { result ≡ left_behind left token.now }
{
    if token.is_line_end() {
        left
    } else {
        left.saturating_sub(1)
    }
}

/// Whether a token is one too many, where `left` may still stand.
fn is_over(left: usize, token: &Token) -> bool
    ensures { result ≡ is_over left token.now }
{
    left == 0 && !token.is_line_end()
}

/// What is left from the first token on that is one too many, where `most` may stand.
fn past(tokens: &[Token], most: usize) -> &[Token]
    ensures { result.now ≡ past most tokens.now }
{
    let mut left = most;
    let mut rest = tokens;
    'behind: while let [token, after @ ..] = rest {
        if is_over(left, token) {
            return rest;
        }
        left = left_behind(left, token);
        rest = after;
    }
    rest
}

/// What is answered where the tokens that may stand didn't suffice.
fn cut_short(answer: Result<Expr, Stop>) -> Result<Expr, Stop>
    ensures { result ≡ cut_short answer }
{
    match answer {
        Err(Stop::Memory) => Err(Stop::Memory),
        _ => Err(TOO_DEEP),
    }
}

/// Reads an expression, for the readers of files in which one stands.
pub fn expression(reader: &mut Reader, alloc: Global) -> Result<Expr, Stop>
    ensures { Obeys expression result reader.old reader.new }
{
    let tokens = reader.rest;
    let over = past(tokens, MAX_TOKENS);
    if over.is_empty() {
        return chain_at(reader, alloc, Level::Or, MAX_PARENTHESES, MAX_SIGNS);
    }
    // The tokens up to the first that is one too many are enough to tell how reading goes on.
    let (window, after) = tokens.split_at(tokens.len() - over.len() + 1);
    reader.rest = window;
    let answer = chain_at(reader, alloc, Level::Or, MAX_PARENTHESES, MAX_SIGNS);
    if reader.rest.is_empty() {
        reader.rest = over;
        return cut_short(answer);
    }
    let read = tokens.len().saturating_sub(after.len());
    let (_, rest) = tokens.split_at(read.saturating_sub(reader.rest.len()));
    reader.rest = rest;
    answer
}

/// Reads the expression that stands at a place in a list of tokens: its tree, and the place behind it.
///
/// The longest part from the place on that begins an expression is taken, so `1 < 2 < 3` is read as `1 < 2`. LineEnds
/// are skipped. `CCTK_Equals`, in any case, is the keyword where a parenthesis stands behind it, else a name.
///
/// # Errors
/// The first fault, with its line, where that part isn't an expression: `Unexpected` at the token behind it, or the
/// line of the list's last token where the list ends too early; `BadNumber` at a number above 2^63 - 1 or an index
/// above 4,294,967,295; `Limit` at a name of more than 64 bytes, at the 1,025th token, and at the 33rd parenthesis or
/// the 33rd sign of those round one another.
pub fn read_expr(alloc: Global, tokens: &List<Token>, at: usize) -> Result<(Expr, usize), CclFault>
    requires { at ≤ length tokens.now }
    // The answer is what the longest part spells and the place behind it, or the first fault.
    ensures answers { AnswersFrom expression.derives tokens.now at result }
    // Where the longest part is spelled, that is answered, unless memory runs out.
    ensures only { AnswersFromOnly expression.derives tokens.now at result }
{
    let tokens = tokens.as_slice();
    let (_, rest) = tokens.split_at(at);
    let mut reader = Reader::new(rest);
    match expression(&mut reader, alloc) {
        Ok(e) => Ok((e, tokens.len() - reader.rest.len())),
        Err(stop) => Err(reader.fault(tokens, stop)),
    }
}
