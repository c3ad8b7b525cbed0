//! Expressions as text.

ghost use Rattle.std.specs.Prelude.{◌≡◌, ◌++◌, ◌∷◌, [], nat_lt, IfOk, OnOk};
ghost use Rattle.cx_text.specs.declared.token.Style.TheVariants as styles;
ghost use Rattle.cx_text.specs.Printing.{printed, HasSpelling, TextSpells};
ghost use Rattle.cx_text.specs.Written.{word, number, quoted, sign};
ghost use Rattle.std.specs.Fmt.{signed_decimal};
ghost use Rattle.cx_expr.specs.Exprs.{expression};
ghost use Rattle.cx_expr.specs.Printed.{level, level_of, left_level, right_level, operator_token, index_tokens, call_tokens, equals_tokens, in_parens, expr_tokens, expr_line};

use crate::{Expr, Sign};
use cx_text::{Kind, List, Memory, Text, Token, write_tokens};
use std::alloc::Global;

/// The level of what stands between operators.
const OPERAND: u8 = 0;

/// The grammar's level at which an operator joins: the higher, the looser.
fn level_of(sign: Sign) -> u8
    ensures { result ≡ level_of sign }
{
    match sign {
        Sign::Or => 5,
        Sign::And => 4,
        Sign::Equal | Sign::Differs | Sign::Below | Sign::AtMost | Sign::Above | Sign::AtLeast => 3,
        Sign::Plus | Sign::Minus => 2,
        Sign::Times | Sign::Over | Sign::Rest => 1,
    }
}

/// What may stand without parentheses at an operator's left side: a test isn't chained.
fn left_level(sign: Sign) -> u8
    ensures { result ≡ left_level sign }
{
    match level_of(sign) {
        3 => 2,
        level => level,
    }
}

/// What may stand without parentheses at an operator's right side.
fn right_level(sign: Sign) -> u8
    ensures { result ≡ right_level sign }
{
    level_of(sign).saturating_sub(1)
}

/// Whether an expression stands in parentheses where operators up to a level may stand without.
fn is_looser(e: &Expr, most: u8) -> bool
    ensures { result ≡ nat_lt most (level e.now) }
{
    match e {
        Expr::Pair(operator, _, _) => most < level_of(operator.sign()),
        Expr::Number(_)
        | Expr::Named(_, _)
        | Expr::Equals(_, _)
        | Expr::Not(_)
        | Expr::Negative(_, _) => false,
    }
}

/// Appends a number.
fn push_value(alloc: Global, tokens: &mut List<Token>, value: i64) -> Result<(), Memory>
    ensures { OnOk result (tokens.new ≡ tokens.old ++ number (signed_decimal value) ∷ []) }
{
    let digits = value.to_string(alloc)?;
    tokens.push(Token {
        kind: Kind::Number,
        text: Text::from_slice(alloc, digits.as_bytes())?,
        line: 0,
    })
}

/// Appends the sign of an operator.
fn push_operator(alloc: Global, tokens: &mut List<Token>, sign: Sign) -> Result<(), Memory>
    ensures { OnOk result (tokens.new ≡ tokens.old ++ operator_token sign ∷ []) }
{
    tokens.push(Token {
        kind: Kind::Sign,
        text: Text::from_slice(alloc, sign.text())?,
        line: 0,
    })
}

/// Appends a name and its index in brackets, if it has one.
fn named(
    alloc: Global,
    tokens: &mut List<Token>,
    name: &Text,
    index: Option<u32>,
) -> Result<(), Memory>
    ensures { OnOk result (tokens.new ≡ tokens.old ++ (word name.now ∷ index_tokens index)) }
{
    tokens.push_word(alloc, name.as_slice())?;
    match index {
        Some(place) => {
            tokens.push_sign(alloc, b'[')?;
            tokens.push_number(alloc, u64::from(place))?;
            tokens.push_sign(alloc, b']')
        }
        None => Ok(()),
    }
}

/// A keyword, and a name and a text in parentheses.
fn call(
    alloc: Global,
    tokens: &mut List<Token>,
    keyword: &[u8],
    name: &Text,
    text: &Text,
) -> Result<(), Memory>
    ensures { OnOk result (tokens.new ≡ tokens.old ++ call_tokens keyword.now name.now text.now) }
{
    tokens.push_word(alloc, keyword)?;
    tokens.push_sign(alloc, b'(')?;
    tokens.push_word(alloc, name.as_slice())?;
    tokens.push_sign(alloc, b',')?;
    tokens.push_quoted_text(alloc, text.as_slice())?;
    tokens.push_sign(alloc, b')')
}

/// Appends `CCTK_Equals` with a name and a text in parentheses.
fn equals(alloc: Global, tokens: &mut List<Token>, name: &Text, text: &Text) -> Result<(), Memory>
    ensures { OnOk result (tokens.new ≡ tokens.old ++ equals_tokens name.now text.now) }
{
    call(alloc, tokens, b"CCTK_Equals", name, text)
}

/// Adds an expression's tokens at the end of a list: parentheses stand only where the grammar needs them.
#[cycle(print)]
pub fn expr_tokens(alloc: Global, e: &Expr, tokens: &mut List<Token>) -> Result<(), Memory>
    ensures { OnOk result (tokens.new ≡ tokens.old ++ expr_tokens e.now) }
{
    match e {
        Expr::Number(n) => push_value(alloc, tokens, *n),
        Expr::Named(name, index) => named(alloc, tokens, name.text(), *index),
        Expr::Equals(name, text) => equals(alloc, tokens, name.text(), text),
        Expr::Not(one) => {
            tokens.push_sign(alloc, b'!')?;
            side(alloc, one.get(), OPERAND, tokens)
        }
        Expr::Negative(_, one) => {
            tokens.push_sign(alloc, b'-')?;
            side(alloc, one.get(), OPERAND, tokens)
        }
        Expr::Pair(operator, left, right) => {
            let sign = operator.sign();
            side(alloc, left.get(), left_level(sign), tokens)?;
            push_operator(alloc, tokens, sign)?;
            side(alloc, right.get(), right_level(sign), tokens)
        }
    }
}

/// An expression beside an operator, where operators up to a level may stand without parentheses.
#[cycle(print)]
fn side(alloc: Global, e: &Expr, most: u8, tokens: &mut List<Token>) -> Result<(), Memory>
    ensures { let printed = in_parens (nat_lt most (level e.now)) (expr_tokens e.now) in
        OnOk result (tokens.new ≡ tokens.old ++ printed) }
{
    if is_looser(e, most) {
        tokens.push_sign(alloc, b'(')?;
        expr_tokens(alloc, e, tokens)?;
        tokens.push_sign(alloc, b')')
    } else {
        expr_tokens(alloc, e, tokens)
    }
}

/// The tokens of a line that is this expression.
fn line_of(alloc: Global, e: &Expr) -> Result<List<Token>, Memory>
    ensures { IfOk result (λ tokens. tokens ≡ expr_line e.now) }
{
    let mut tokens = List::empty(alloc);
    expr_tokens(alloc, e, &mut tokens)?;
    tokens.push_line_end(alloc)?;
    Ok(tokens)
}

/// A text that spells an expression, which is one that some text spells: a line of its tokens, with parentheses only
/// where the grammar needs them. Read again, where it has at most 1,048,576 bytes, it spells the same expression.
pub fn print_expr(alloc: Global, e: &Expr) -> Result<Text, Memory>
    requires { HasSpelling styles.Ccl expression.derives e.now }
    ensures printed { IfOk result (λ text. text ≡ printed (expr_line e.now)) }
    ensures again { IfOk result (λ text. TextSpells styles.Ccl expression.derives text e.now) }
{
    let tokens = line_of(alloc, e)?;
    let text = write_tokens(alloc, &tokens)?;
    Ok(text)
}
