//! Expressions read from tokens.

ghost use Rattle.std.specs.Prelude.{◌≡◌, ◌^◌, ◌-◌, ◌≤◌, IfOk};
ghost use Rattle.cx_text.specs.Grammar.{passes, head};
ghost use Rattle.cx_text.specs.Rules.{Obeys, loop, token, unmarked};
ghost use Rattle.cx_text.specs.Lexemes.{number_in};
ghost use Rattle.cx_expr.specs.Exprs.{is_written, sign_among, is_among, operator, joined, chain, once_joined, number, index, equals, opens_equals, behind, named, parens, negation, negative, operand, expr, signs_of, under, tests};
ghost use Rattle.cx_expr.specs.declared.read.Level.TheVariants as level;
ghost use Rattle.cx_expr.specs.declared.tree.Sign.TheVariants as signs;
ghost use Rattle.cx_expr.specs.declared.tree.Expr.{Not, Negative, Pair};

use crate::{Expr, Name, Operator, Sign};
use cx_text::{Boxed, Kind, Mark, Memory, Reader, Stop, Text, Token, Why, same_name};
use std::alloc::Global;

/// The operators that are joined at one level of the grammar, the loosest first.
#[derive(Clone, Copy, Debug, Drop, PartialEq, Eq)]
pub enum Level {
    Or,
    And,
    Test,
    Sum,
    Product,
}

impl Level {
    /// The operators of this level, which bind equally tightly.
    fn signs(self) -> &'static [Sign]
        ensures { result.now ≡ signs_of self }
    {
        match self {
            Level::Or => &[Sign::Or],
            Level::And => &[Sign::And],
            Level::Test => &[
                Sign::Equal,
                Sign::Differs,
                Sign::Below,
                Sign::AtMost,
                Sign::Above,
                Sign::AtLeast,
            ],
            Level::Sum => &[Sign::Plus, Sign::Minus],
            Level::Product => &[Sign::Times, Sign::Over, Sign::Rest],
        }
    }
}

pub const TOO_DEEP: Stop = Stop::Fault(Why::Marked(Mark::Limit));

/// Whether a token is the sign of this operator.
fn is_written(token: &Token, sign: Sign) -> bool
    ensures { result ≡ is_written sign token.now }
{
    matches!(token.kind, Kind::Sign) && token.text.as_slice() == sign.text()
}

/// Which of these signs a token is.
fn sign_among(token: &Token, signs: &[Sign]) -> Option<Sign>
    ensures { result ≡ sign_among signs.now token.now }
{
    for sign in signs {
        if is_written(token, *sign) {
            return Some(*sign);
        }
    }
    None
}

/// Whether the next token is an operator of this level.
fn at_operator(reader: &Reader, level: Level) -> bool
    ensures { result ≡ passes (is_among (signs_of level)) (head reader.now.rest.now) }
{
    match reader.rest {
        [token, ..] => sign_among(token, level.signs()).is_some(),
        [] => false,
    }
}

/// Reads an operator of this level, but no line end after it.
fn operator_here(reader: &mut Reader, level: Level) -> Result<Sign, Stop>
    ensures { Obeys (token (sign_among (signs_of level)) unmarked) result reader.old reader.new }
{
    match reader.rest {
        [token, rest @ ..] => match sign_among(token, level.signs()) {
            Some(sign) => {
                reader.rest = rest;
                Ok(sign)
            }
            None => Err(Stop::Fault(Why::Unexpected)),
        },
        [] => Err(Stop::Fault(Why::Unexpected)),
    }
}

/// Reads an operator of this level.
fn operator(reader: &mut Reader, level: Level) -> Result<Sign, Stop>
    ensures { Obeys (operator (signs_of level)) result reader.old reader.new }
{
    let sign = operator_here(reader, level)?;
    reader.skip_line_ends();
    Ok(sign)
}

/// Reads a number from 0 to `high`, both included.
fn number_up_to(reader: &mut Reader, high: u64) -> Result<u64, Stop>
    ensures reads { Obeys (number_in 0 high) result reader.old reader.new }
    ensures most { IfOk result (λ n. n ≤ high) }
{
    reader.number_in(0, high)
}

/// Reads a number from 0 to 2^63 - 1.
fn number(reader: &mut Reader) -> Result<Expr, Stop>
    ensures { Obeys number result reader.old reader.new }
{
    let value = number_up_to(reader, i64::MAX as u64)?;
    Ok(Expr::Number(value as i64))
}

/// Reads the index of an array's element in brackets, after the array's name.
fn index(reader: &mut Reader, alloc: Global, name: &Text) -> Result<Expr, Stop>
    ensures { Obeys (index name.now) result reader.old reader.new }
{
    reader.sign(b'[')?;
    let place = number_up_to(reader, u32::MAX as u64)?;
    reader.sign(b']')?;
    Ok(Expr::Named(Name::new(alloc, name.as_slice())?, Some(place as u32)))
}

/// Reads the arguments of `CCTK_Equals`: a name and a quoted text in parentheses.
fn equals(reader: &mut Reader, alloc: Global) -> Result<Expr, Stop>
    ensures { Obeys equals result reader.old reader.new }
{
    reader.sign(b'(')?;
    let name = reader.name(alloc)?;
    reader.sign(b',')?;
    let text = reader.quoted_text(alloc)?;
    reader.sign(b')')?;
    Ok(Expr::Equals(Name::new(alloc, name.as_slice())?, text))
}

/// Whether the arguments of `CCTK_Equals` begin here: it is the name before them.
fn opens_equals(reader: &Reader, name: &Text) -> bool
    ensures { result ≡ passes (opens_equals name.now) (head reader.now.rest.now) }
{
    match reader.rest {
        [token, ..] => same_name(name.as_slice(), b"CCTK_Equals") && token.is_sign(b'('),
        [] => false,
    }
}

/// Reads what follows a name: arguments of `CCTK_Equals`, an index or nothing.
fn behind(reader: &mut Reader, alloc: Global, name: &Text) -> Result<Expr, Stop>
    ensures { Obeys (behind name.now) result reader.old reader.new }
{
    if opens_equals(reader, name) {
        equals(reader, alloc)
    } else if reader.at_sign(b'[') {
        index(reader, alloc, name)
    } else {
        Ok(Expr::Named(Name::new(alloc, name.as_slice())?, None))
    }
}

/// Reads a name with what follows it.
fn named(reader: &mut Reader, alloc: Global) -> Result<Expr, Stop>
    ensures { Obeys named result reader.old reader.new }
{
    let name = reader.name(alloc)?;
    behind(reader, alloc, &name)
}

/// The expression `!` of this one.
fn not_of(alloc: Global, inner: Expr) -> Result<Expr, Memory>
    ensures { IfOk result (λ e. e ≡ Not inner) }
{
    Ok(Expr::Not(Boxed::new(alloc, inner)?))
}

/// The expression with a minus sign before it.
fn negative_of(alloc: Global, inner: Expr) -> Result<Expr, Memory>
    ensures { IfOk result (λ e. e ≡ Negative signs.Minus inner) }
{
    let minus = Operator::new(alloc, Sign::Minus)?;
    Ok(Expr::Negative(minus, Boxed::new(alloc, inner)?))
}

/// The expression of two others with an operator between them.
fn pair_of(alloc: Global, sign: Sign, left: Expr, right: Expr) -> Result<Expr, Memory>
    ensures { IfOk result (λ e. e ≡ Pair sign left right) }
{
    let operator = Operator::new(alloc, sign)?;
    let left = Boxed::new(alloc, left)?;
    Ok(Expr::Pair(operator, left, Boxed::new(alloc, right)?))
}

/// Reads an expression in parentheses.
#[cycle(expr)]
fn parens(reader: &mut Reader, alloc: Global, depth: u32, signs: u32) -> Result<Expr, Stop>
    ensures { Obeys (parens (expr depth signs)) result reader.old reader.new }
{
    reader.sign(b'(')?;
    let inner = chain_at(reader, alloc, Level::Or, depth, signs)?;
    reader.sign(b')')?;
    Ok(inner)
}

/// Reads `!` and its operand.
#[cycle(expr)]
fn negation(reader: &mut Reader, alloc: Global, depth: u32, signs: u32) -> Result<Expr, Stop>
    ensures { Obeys (negation (operand depth signs)) result reader.old reader.new }
{
    reader.sign(b'!')?;
    let inner = operand(reader, alloc, depth, signs)?;
    let negation = not_of(alloc, inner)?;
    Ok(negation)
}

/// Reads a minus sign and its operand.
#[cycle(expr)]
fn negative(reader: &mut Reader, alloc: Global, depth: u32, signs: u32) -> Result<Expr, Stop>
    ensures { Obeys (negative (operand depth signs)) result reader.old reader.new }
{
    reader.sign(b'-')?;
    let inner = operand(reader, alloc, depth, signs)?;
    let negative = negative_of(alloc, inner)?;
    Ok(negative)
}

/// What stands between operators, where so many parentheses and so many signs may still stand round one another.
#[cycle(expr)]
fn operand(reader: &mut Reader, alloc: Global, depth: u32, signs: u32) -> Result<Expr, Stop>
    ensures { Obeys (operand depth signs) result reader.old reader.new }
{
    if reader.at_sign(b'!') {
        if signs == 0 {
            return Err(TOO_DEEP);
        }
        negation(reader, alloc, depth, signs - 1)
    } else if reader.at_sign(b'-') {
        if signs == 0 {
            return Err(TOO_DEEP);
        }
        negative(reader, alloc, depth, signs - 1)
    } else if reader.at_sign(b'(') {
        if depth == 0 {
            return Err(TOO_DEEP);
        }
        parens(reader, alloc, depth - 1, signs)
    } else if reader.at_number() {
        number(reader)
    } else {
        named(reader, alloc)
    }
}

/// What a level's operators join.
#[cycle(expr)]
fn under(
    reader: &mut Reader,
    alloc: Global,
    level: Level,
    depth: u32,
    signs: u32,
) -> Result<Expr, Stop>
    ensures { Obeys (under level (operand depth signs)) result reader.old reader.new }
{
    match level {
        Level::Or => chain_at(reader, alloc, Level::And, depth, signs),
        Level::And => compared(reader, alloc, depth, signs),
        Level::Test => chain_at(reader, alloc, Level::Sum, depth, signs),
        Level::Sum => chain_at(reader, alloc, Level::Product, depth, signs),
        Level::Product => operand(reader, alloc, depth, signs),
    }
}

/// An operator and what it joins to what stands before it.
#[cycle(expr)]
fn joined(
    reader: &mut Reader,
    alloc: Global,
    level: Level,
    depth: u32,
    signs: u32,
    left: Expr,
) -> Result<Expr, Stop>
    ensures { let part = under level (operand depth signs) in
        Obeys (joined (signs_of level) part left) result reader.old reader.new }
{
    let sign = operator(reader, level)?;
    let right = under(reader, alloc, level, depth, signs)?;
    let pair = pair_of(alloc, sign, left, right)?;
    Ok(pair)
}

/// Reads operators of a level, each with its right operand, for as long as one comes next.
#[cycle(expr)]
fn more(
    reader: &mut Reader,
    alloc: Global,
    level: Level,
    depth: u32,
    signs: u32,
    first: Expr,
) -> Result<Expr, Stop>
    ensures { let joins = joined (signs_of level) (under level (operand depth signs)) in
        Obeys (loop (is_among (signs_of level)) joins first) result reader.old reader.new }
{
    let mut left = first;
    'more: while at_operator(reader, level) {
        left = joined(reader, alloc, level, depth, signs, left)?;
    }
    Ok(left)
}

/// A level's operators, any number of them: the first two parts are joined first.
#[cycle(expr)]
#[tactic(auto, unfolding(crate::specs::Exprs::chain))]
pub fn chain_at(
    reader: &mut Reader,
    alloc: Global,
    level: Level,
    depth: u32,
    signs: u32,
) -> Result<Expr, Stop>
    ensures { let part = under level (operand depth signs) in
        Obeys (chain (signs_of level) part) result reader.old reader.new }
{
    let first = under(reader, alloc, level, depth, signs)?;
    more(reader, alloc, level, depth, signs, first)
}

/// A test, of which one may stand.
#[cycle(expr)]
#[tactic(auto, unfolding(crate::specs::Exprs::once_joined))]
fn compared(reader: &mut Reader, alloc: Global, depth: u32, signs: u32) -> Result<Expr, Stop>
    ensures { let part = under level.Test (operand depth signs) in
        Obeys (once_joined tests part) result reader.old reader.new }
{
    let left = under(reader, alloc, Level::Test, depth, signs)?;
    if at_operator(reader, Level::Test) {
        joined(reader, alloc, Level::Test, depth, signs, left)
    } else {
        Ok(left)
    }
}
