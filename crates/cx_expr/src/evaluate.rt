//! The value of an expression.

ghost use Rattle.std.specs.Prelude.{◌≡◌, ℕ, List, Option, None};
ghost use Rattle.cx_expr.specs.Known.{Known, known};
ghost use Rattle.cx_expr.specs.Evaluation.{eval, not_of, negative_of, both, decided, combined};
ghost use Rattle.cx_expr.specs.Seen.{seen, or_range};

use crate::{Expr, ExprFault, Operator, Sign};
use cx_text::Text;

/// What a name stands for.
#[derive(Debug, Drop)]
pub enum Found<'a> {
    /// A number.
    Number(i64),
    /// A text.
    Text(&'a [u8]),
    /// Nothing.
    Missing,
}

/// What names stand for.
pub trait Lookup {
    ghost finds: { Self → List ℕ → Option ℕ → Known };

    /// What a name stands for, with an index or without one.
    fn find(&self, name: &Text, index: Option<u32>) -> Found<'_>
        ensures { known result ≡ finds self.now name.now index };
}

/// The value of `!`: 1 of 0, and 0 of another number. A fault stays.
fn negated<'e>(one: Result<i64, &'e ExprFault>) -> Result<i64, &'e ExprFault>
    ensures { seen result ≡ not_of (seen one.entry) }
{
    match one {
        Ok(n) => Ok(i64::from(n == 0)),
        Err(fault) => Err(fault),
    }
}

/// The value of a minus sign before a number; a fault of the range at -2^63.
fn negative<'e>(
    operator: &'e Operator,
    one: Result<i64, &'e ExprFault>,
) -> Result<i64, &'e ExprFault>
    ensures { seen result ≡ negative_of operator.now (seen one.entry) }
{
    match one {
        Ok(n) => match n.checked_neg() {
            Some(m) => Ok(m),
            None => Err(operator.range()),
        },
        Err(fault) => Err(fault),
    }
}

/// What the left side decides alone.
fn decided(sign: Sign, a: i64) -> Option<i64>
    ensures { result ≡ decided sign a }
{
    match sign {
        Sign::Or if a != 0 => Some(1),
        Sign::And if a == 0 => Some(0),
        _ => None,
    }
}

/// The value of an expression, in numbers of 64 signed bits.
///
/// Tests and logical operators give 1 or 0, and what isn't 0 is true. `||` and `&&` leave out their right side where
/// the left one decides. `/` cuts toward 0, and `%` has the sign of the left side.
///
/// # Errors
/// The first fault, operands being evaluated from left to right: `UnknownName`, `NotNumber` and `NotText` with the
/// name, without its index, and `Range` with the operator's sign for a result outside 64 bits or a divisor of 0.
pub fn eval<'e, L: Lookup>(e: &'e Expr, names: &L) -> Result<i64, &'e ExprFault>
    ensures { seen result ≡ eval (L.finds names.now) e.now }
{
    match e {
        Expr::Number(n) => Ok(*n),
        Expr::Named(name, index) => match names.find(name.text(), *index) {
            Found::Number(n) => Ok(n),
            Found::Text(_) => Err(name.not_number()),
            Found::Missing => Err(name.unknown()),
        },
        Expr::Equals(name, text) => match names.find(name.text(), None) {
            Found::Number(_) => Err(name.not_text()),
            Found::Text(known) => Ok(i64::from(known.eq_ignore_ascii_case(text.as_slice()))),
            Found::Missing => Err(name.unknown()),
        },
        Expr::Not(one) => negated(eval(one.get(), names)),
        Expr::Negative(operator, one) => negative(operator, eval(one.get(), names)),
        Expr::Pair(operator, left, right) => match eval(left.get(), names) {
            Ok(a) => match decided(operator.sign(), a) {
                Some(n) => Ok(n),
                None => combined(operator, a, eval(right.get(), names)),
            },
            Err(fault) => Err(fault),
        },
    }
}

/// Both sides of an operator that takes both.
fn combined<'e>(
    operator: &'e Operator,
    a: i64,
    right: Result<i64, &'e ExprFault>,
) -> Result<i64, &'e ExprFault>
    ensures { seen result ≡ both operator.now a (seen right.entry) }
{
    match right {
        Ok(b) => match number_of(operator.sign(), a, b) {
            Some(n) => Ok(n),
            None => Err(operator.range()),
        },
        Err(fault) => Err(fault),
    }
}

/// The number that an operator gives of two, or none where it doesn't fit.
fn number_of(sign: Sign, a: i64, b: i64) -> Option<i64>
    ensures { or_range sign result ≡ combined sign a b }
{
    match sign {
        Sign::Or | Sign::And => Some(i64::from(b != 0)),
        Sign::Equal => Some(i64::from(a == b)),
        Sign::Differs => Some(i64::from(a != b)),
        Sign::Below => Some(i64::from(a < b)),
        Sign::AtMost => Some(i64::from(a <= b)),
        Sign::Above => Some(i64::from(b < a)),
        Sign::AtLeast => Some(i64::from(b <= a)),
        Sign::Plus => a.checked_add(b),
        Sign::Minus => a.checked_sub(b),
        Sign::Times => a.checked_mul(b),
        Sign::Over => a.checked_div(b),
        Sign::Rest => { if b == -1 { Some(0) } else { a.checked_rem(b) } }
    }
}
