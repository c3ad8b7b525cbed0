//! What stands between a parameter's braces.

ghost use Rattle.std.specs.Prelude.{◌≡◌, IfOk};
ghost use Rattle.cx_text.specs.Grammar.{passes, head};
ghost use Rattle.cx_text.specs.Rules.{Obeys, Builds, loop, is_sign};
ghost use Rattle.cx_text.specs.Lexemes.{is_quoted, is_inside, more_kept};
ghost use Rattle.cx_param.specs.Blocks.{description, opened, begun, range_of, is_colon, is_bracket, is_close, is_end, bracket, close_bracket, end, bound, closing, closed, upper, is_step, stepped, next_span, further, uppers, behind_low, bracketed, from_low, from_colon, from_close, ints, is_ints, number_range, string_range, text_range, one_text, more_text, texts, number_block, or_any, text_block, kept_block, block};

use crate::numbers::{number, step};
use crate::{PType, Range};
use cx_text::{Kind, List, Memory, Reader, Stop, Text, Token, Why};
use std::alloc::Global;

/// A range of numbers, as far as it is read.
#[derive(Clone, Copy, Drop)]
struct Span {
    low: Option<i64>,
    low_in: bool,
    high: Option<i64>,
    high_in: bool,
    step: Option<u64>,
}

/// A range of which only the low end is read: one number, or all of them.
fn begun(low: Option<i64>, low_in: bool) -> Span
    ensures { result ≡ begun low low_in }
{
    Span {
        low,
        low_in,
        high: low,
        high_in: true,
        step: None,
    }
}

/// The range as the param file declares it; its step is 1 where none is written.
fn range_of(span: Span) -> Range
    ensures { result ≡ range_of span }
{
    Range::Ints {
        low: span.low,
        low_in: span.low_in,
        high: span.high,
        high_in: span.high_in,
        step: span.step.unwrap_or(1),
    }
}

/// Skips an optional `::` and quoted text after a range.
fn description(reader: &mut Reader, alloc: Global) -> Result<(), Stop>
    ensures { Obeys description result reader.old reader.new }
{
    if reader.at_sign_pair(b':', b':') {
        reader.sign_pair(b':', b':')?;
        reader.quoted_text(alloc)?;
        Ok(())
    } else {
        Ok(())
    }
}

/// Whether a token opens a range of numbers: `(` or `[`.
fn is_bracket(token: &Token) -> bool
    ensures { result ≡ is_bracket token.now }
{
    token.is_sign(b'(') || token.is_sign(b'[')
}

/// Whether the next token is `(` or `[`.
fn at_bracket(reader: &Reader) -> bool
    ensures { result ≡ passes is_bracket (head reader.now.rest.now) }
{
    match reader.rest {
        [token, ..] => is_bracket(token),
        [] => false,
    }
}

/// Whether a token closes a range of numbers: `)` or `]`.
fn is_close(token: &Token) -> bool
    ensures { result ≡ is_close token.now }
{
    token.is_sign(b')') || token.is_sign(b']')
}

/// Whether the next token is `)` or `]`.
fn at_close(reader: &Reader) -> bool
    ensures { result ≡ passes is_close (head reader.now.rest.now) }
{
    match reader.rest {
        [token, ..] => is_close(token),
        [] => false,
    }
}

/// Whether an end of a range begins with this token: `*`, `-` or a number.
fn is_end(token: &Token) -> bool
    ensures { result ≡ is_end token.now }
{
    token.is_sign(b'*') || token.is_sign(b'-') || matches!(token.kind, Kind::Number)
}

/// Whether an end of a range begins at the next token.
fn at_end(reader: &Reader) -> bool
    ensures { result ≡ passes is_end (head reader.now.rest.now) }
{
    match reader.rest {
        [token, ..] => is_end(token),
        [] => false,
    }
}

/// Whether the next token is the step of the range: a number, where the range has no step yet.
fn at_step(reader: &Reader, span: &Span) -> bool
    ensures { result ≡ passes (is_step span.now) (head reader.now.rest.now) }
{
    match reader.rest {
        [token, ..] => span.step.is_none() && matches!(token.kind, Kind::Number),
        [] => false,
    }
}

/// Whether a range of numbers begins at the next token.
fn at_ints(reader: &Reader) -> bool
    ensures { result ≡ passes is_ints (head reader.now.rest.now) }
{
    match reader.rest {
        [token, ..] => {
            is_bracket(token) || token.is_sign(b':') || is_close(token) || is_end(token)
        }
        [] => false,
    }
}

/// Reads an opening bracket: whether the low end that follows is in the range.
fn bracket(reader: &mut Reader) -> Result<bool, Stop>
    ensures { Obeys bracket result reader.old reader.new }
{
    if reader.at_sign(b'(') {
        reader.sign(b'(')?;
        Ok(false)
    } else {
        reader.sign(b'[')?;
        Ok(true)
    }
}

/// Reads a closing bracket: whether the high end before it is in the range.
fn close_bracket(reader: &mut Reader) -> Result<bool, Stop>
    ensures { Obeys close_bracket result reader.old reader.new }
{
    if reader.at_sign(b')') {
        reader.sign(b')')?;
        Ok(false)
    } else {
        reader.sign(b']')?;
        Ok(true)
    }
}

/// Reads an end of a range: a number, or `*` for no bound.
fn end(reader: &mut Reader) -> Result<Option<i64>, Stop>
    ensures { Obeys end result reader.old reader.new }
{
    if reader.at_sign(b'*') {
        reader.sign(b'*')?;
        Ok(None)
    } else {
        Ok(Some(number(reader)?))
    }
}

/// Reads an optional end of a range; without one there is no bound.
fn bound(reader: &mut Reader) -> Result<Option<i64>, Stop>
    ensures { Obeys bound result reader.old reader.new }
{
    if at_end(reader) {
        end(reader)
    } else {
        Ok(None)
    }
}

/// Reads an optional closing bracket: without one the high end is in the range.
fn closing(reader: &mut Reader) -> Result<bool, Stop>
    ensures { Obeys closing result reader.old reader.new }
{
    if at_close(reader) {
        close_bracket(reader)
    } else {
        Ok(true)
    }
}

/// Reads an optional closing bracket, and adds the range that it ends.
fn closed(reader: &mut Reader, ranges: &mut List<Range>, span: Span) -> Result<(), Stop>
    ensures { Builds (closed (opened ranges.old span)) ranges.new result reader.old reader.new }
{
    let high_in = closing(reader)?;
    ranges.push(range_of(Span { high_in, ..span }))?;
    Ok(())
}

/// Reads a colon and an optional high end.
fn upper(reader: &mut Reader, span: &mut Span) -> Result<(), Stop>
    ensures { (rs : _) → Builds (upper (opened rs span.old)) (opened rs span.new)
        result reader.old reader.new }
{
    reader.sign(b':')?;
    span.high = bound(reader)?;
    Ok(())
}

/// Ends the range before the colon just read, and begins another one with that colon.
fn next_span(reader: &mut Reader, ranges: &mut List<Range>, span: &mut Span) -> Result<(), Stop>
    ensures { Builds (next_span (opened ranges.old span.old)) (opened ranges.new span.new)
        result reader.old reader.new }
{
    let high = bound(reader)?;
    ranges.push(range_of(*span))?;
    *span = Span {
        low: None,
        low_in: true,
        high,
        high_in: true,
        step: None,
    };
    Ok(())
}

/// Reads the step of a range.
fn stepped(reader: &mut Reader, span: &mut Span) -> Result<(), Stop>
    ensures { (rs : _) → Builds (stepped (opened rs span.old)) (opened rs span.new)
        result reader.old reader.new }
{
    let step = step(reader, span.low)?;
    span.step = Some(step);
    Ok(())
}

/// Reads a further colon and what it begins: the step of the range, or another range, as in `0:5:-3`.
fn further(reader: &mut Reader, ranges: &mut List<Range>, span: &mut Span) -> Result<(), Stop>
    ensures { Builds (further (opened ranges.old span.old)) (opened ranges.new span.new)
        result reader.old reader.new }
{
    reader.sign(b':')?;
    if at_step(reader, span) {
        stepped(reader, span)
    } else {
        next_span(reader, ranges, span)
    }
}

/// Reads all further colons, each with a step or with another range.
fn furthers(reader: &mut Reader, ranges: &mut List<Range>, span: &mut Span) -> Result<(), Stop>
    ensures { Builds (loop is_colon further (opened ranges.old span.old))
        (opened ranges.new span.new) result reader.old reader.new }
{
    'turns: while reader.at_sign(b':') {
        further(reader, ranges, span)?;
    }
    Ok(())
}

/// Reads a colon with the high end, then an optional step and the ranges that begin with a colon.
fn uppers(reader: &mut Reader, ranges: &mut List<Range>, span: &mut Span) -> Result<(), Stop>
    ensures { Builds (uppers (opened ranges.old span.old)) (opened ranges.new span.new)
        result reader.old reader.new }
{
    upper(reader, span)?;
    furthers(reader, ranges, span)
}

/// Reads the rest of a range after its low end.
fn behind_low(reader: &mut Reader, ranges: &mut List<Range>, span: Span) -> Result<(), Stop>
    ensures { Builds (behind_low (opened ranges.old span)) ranges.new result reader.old reader.new }
{
    let mut span = span;
    if reader.at_sign(b':') {
        uppers(reader, ranges, &mut span)?;
        closed(reader, ranges, span)
    } else {
        closed(reader, ranges, span)
    }
}

/// Reads a range that begins with a bracket.
fn bracketed(reader: &mut Reader, ranges: &mut List<Range>) -> Result<(), Stop>
    ensures { Builds (bracketed ranges.old) ranges.new result reader.old reader.new }
{
    let low_in = bracket(reader)?;
    let low = bound(reader)?;
    behind_low(reader, ranges, begun(low, low_in))
}

/// Reads a range that begins with its low end.
fn from_low(reader: &mut Reader, ranges: &mut List<Range>) -> Result<(), Stop>
    ensures { Builds (from_low ranges.old) ranges.new result reader.old reader.new }
{
    let low = end(reader)?;
    behind_low(reader, ranges, begun(low, true))
}

/// Reads a range that begins with a colon, so it has no low end.
fn from_colon(reader: &mut Reader, ranges: &mut List<Range>) -> Result<(), Stop>
    ensures { Builds (from_colon ranges.old) ranges.new result reader.old reader.new }
{
    let mut span = begun(None, true);
    uppers(reader, ranges, &mut span)?;
    closed(reader, ranges, span)
}

/// Reads a range that is a closing bracket alone, so it has no bound.
fn from_close(reader: &mut Reader, ranges: &mut List<Range>) -> Result<(), Stop>
    ensures { Builds (from_close ranges.old) ranges.new result reader.old reader.new }
{
    let high_in = close_bracket(reader)?;
    ranges.push(range_of(Span {
        high_in,
        ..begun(None, true)
    }))?;
    Ok(())
}

/// Reads a range of numbers in any of its forms. It can be several ranges, as in `0:5:-3`.
fn ints(reader: &mut Reader, ranges: &mut List<Range>) -> Result<(), Stop>
    ensures { Builds (ints ranges.old) ranges.new result reader.old reader.new }
{
    if at_bracket(reader) {
        bracketed(reader, ranges)
    } else if reader.at_sign(b':') {
        from_colon(reader, ranges)
    } else if at_close(reader) {
        from_close(reader, ranges)
    } else {
        from_low(reader, ranges)
    }
}

/// Reads a range of numbers and its optional description.
fn number_range(reader: &mut Reader, alloc: Global, ranges: &mut List<Range>) -> Result<(), Stop>
    ensures { Builds (number_range ranges.old) ranges.new result reader.old reader.new }
{
    ints(reader, ranges)?;
    description(reader, alloc)
}

/// Reads ranges of numbers for as long as one begins at the next token.
fn number_ranges(reader: &mut Reader, alloc: Global, ranges: &mut List<Range>) -> Result<(), Stop>
    ensures { Builds (loop is_ints number_range ranges.old) ranges.new
        result reader.old reader.new }
{
    'turns: while at_ints(reader) {
        number_range(reader, alloc, ranges)?;
    }
    Ok(())
}

/// Reads a block of number ranges with its braces.
fn number_block(reader: &mut Reader, alloc: Global) -> Result<List<Range>, Stop>
    ensures { Obeys number_block result reader.old reader.new }
{
    reader.sign(b'{')?;
    let mut ranges = List::empty(alloc);
    number_ranges(reader, alloc, &mut ranges)?;
    reader.sign(b'}')?;
    Ok(ranges)
}

/// The range that a text in a `STRING` block declares: every text, every one but the empty, or a word.
fn string_range(text: Text) -> Range
    ensures { result ≡ string_range text }
{
    let bytes = text.as_slice();
    if bytes == b"".as_slice() || bytes == b".*".as_slice() {
        Range::AnyText
    } else if bytes == b".+".as_slice() {
        Range::SomeText
    } else {
        Range::Word(text)
    }
}

/// The range that a quoted text in a block of this type declares.
fn text_range(ptype: PType, text: Text) -> Range
    ensures { result ≡ text_range ptype text }
{
    match ptype {
        PType::String => string_range(text),
        PType::Boolean | PType::Int | PType::Keyword | PType::Real => Range::Word(text),
    }
}

/// Reads a quoted text and adds the range that it declares.
fn one_text(
    reader: &mut Reader,
    alloc: Global,
    ptype: PType,
    ranges: &mut List<Range>,
) -> Result<(), Stop>
    ensures { Builds (one_text ptype ranges.old) ranges.new result reader.old reader.new }
{
    let text = reader.quoted_text(alloc)?;
    ranges.push(text_range(ptype, text))?;
    Ok(())
}

/// Reads a comma and the quoted text after it.
fn more_text(
    reader: &mut Reader,
    alloc: Global,
    ptype: PType,
    ranges: &mut List<Range>,
) -> Result<(), Stop>
    ensures { Builds (more_text ptype ranges.old) ranges.new result reader.old reader.new }
{
    reader.sign(b',')?;
    one_text(reader, alloc, ptype, ranges)
}

/// Reads the quoted texts that follow after commas.
fn more_texts(
    reader: &mut Reader,
    alloc: Global,
    ptype: PType,
    ranges: &mut List<Range>,
) -> Result<(), Stop>
    ensures { Builds (loop (is_sign 44) (more_text ptype) ranges.old) ranges.new
        result reader.old reader.new }
{
    'turns: while reader.at_sign(b',') {
        more_text(reader, alloc, ptype, ranges)?;
    }
    Ok(())
}

/// Reads quoted texts with commas between them, and their optional description.
fn texts(
    reader: &mut Reader,
    alloc: Global,
    ptype: PType,
    ranges: &mut List<Range>,
) -> Result<(), Stop>
    ensures { Builds (texts ptype ranges.old) ranges.new result reader.old reader.new }
{
    one_text(reader, alloc, ptype, ranges)?;
    more_texts(reader, alloc, ptype, ranges)?;
    description(reader, alloc)
}

/// Reads lists of quoted texts for as long as one begins at the next token.
fn text_ranges(
    reader: &mut Reader,
    alloc: Global,
    ptype: PType,
    ranges: &mut List<Range>,
) -> Result<(), Stop>
    ensures { Builds (loop is_quoted (texts ptype) ranges.old) ranges.new
        result reader.old reader.new }
{
    'turns: while reader.at_quoted_text() {
        texts(reader, alloc, ptype, ranges)?;
    }
    Ok(())
}

/// The ranges read; a `STRING` block without any holds every text.
fn or_any(ptype: PType, ranges: List<Range>) -> Result<List<Range>, Memory>
    ensures { IfOk result (λ all. all ≡ or_any ptype ranges) }
{
    match ptype {
        PType::String if ranges.is_empty() => {
            let mut ranges = ranges;
            ranges.push(Range::AnyText)?;
            Ok(ranges)
        }
        _ => Ok(ranges),
    }
}

/// Reads a block of quoted texts with its braces.
fn text_block(reader: &mut Reader, alloc: Global, ptype: PType) -> Result<List<Range>, Stop>
    ensures { Obeys (text_block ptype) result reader.old reader.new }
{
    reader.sign(b'{')?;
    let mut ranges = List::empty(alloc);
    text_ranges(reader, alloc, ptype, &mut ranges)?;
    reader.sign(b'}')?;
    Ok(or_any(ptype, ranges)?)
}

/// Keeps a copy of the next token, which is not `}`.
fn keep(reader: &mut Reader, alloc: Global, tokens: &mut List<Token>) -> Result<(), Stop>
    ensures { Builds (more_kept is_inside tokens.old) tokens.new result reader.old reader.new }
{
    match reader.rest {
        [token, rest @ ..] if !token.is_sign(b'}') => {
            let kept = token.kept_copy(alloc)?;
            tokens.push(kept)?;
            reader.rest = rest;
            Ok(())
        }
        _ => Err(Stop::Fault(Why::Unexpected)),
    }
}

/// Keeps copies of all tokens before the next `}`.
fn keep_all(reader: &mut Reader, alloc: Global, tokens: &mut List<Token>) -> Result<(), Stop>
    ensures { Builds (loop is_inside (more_kept is_inside) tokens.old) tokens.new
        result reader.old reader.new }
{
    'turns: while reader.at_inside() {
        keep(reader, alloc, tokens)?;
    }
    Ok(())
}

/// Reads the block of a `REAL` parameter: its tokens are kept as they are and restrict nothing.
fn kept_block(reader: &mut Reader, alloc: Global) -> Result<List<Range>, Stop>
    ensures { Obeys kept_block result reader.old reader.new }
{
    reader.sign_here(b'{')?;
    let mut tokens = List::empty(alloc);
    keep_all(reader, alloc, &mut tokens)?;
    reader.sign(b'}')?;
    let mut ranges = List::empty(alloc);
    ranges.push(Range::Other(tokens))?;
    Ok(ranges)
}

/// The ranges in a block of a parameter of this type.
pub fn block(reader: &mut Reader, alloc: Global, ptype: PType) -> Result<List<Range>, Stop>
    ensures { Obeys (block ptype) result reader.old reader.new }
{
    match ptype {
        PType::Int => number_block(reader, alloc),
        PType::Real => kept_block(reader, alloc),
        PType::Boolean | PType::Keyword | PType::String => text_block(reader, alloc, ptype),
    }
}
