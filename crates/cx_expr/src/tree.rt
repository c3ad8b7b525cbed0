//! Expressions as trees.

ghost use Rattle.std.specs.Prelude.{◌≡◌, IfOk};
ghost use Rattle.cx_expr.specs.declared.tree.ExprFault.TheVariants.{UnknownName, NotNumber, NotText, Range};
ghost use Rattle.cx_expr.specs.Signs.{sign_text};

use cx_text::{Boxed, Memory, OrDash, Text};
use std::alloc::Global;
use std::marker::Model;
use thiserror::Error;

/// Why an expression has no value. Each text but that of `Range` is a name, without its index.
#[derive(Debug, Drop, Error)]
pub enum ExprFault {
    /// A name that stands for nothing.
    #[error("UnknownName {}", OrDash(.0))]
    UnknownName(Text),
    /// A name that stands for a text, where a number is asked for.
    #[error("NotNumber {}", OrDash(.0))]
    NotNumber(Text),
    /// A name that stands for a number, where a text is asked for.
    #[error("NotText {}", OrDash(.0))]
    NotText(Text),
    /// An operator's sign: its result isn't a number of 64 signed bits, or it divides by 0.
    #[error("Range {}", OrDash(.0))]
    Range(Text),
}

/// An operator between two expressions.
#[derive(Clone, Copy, PartialEq, Eq, Debug, Drop)]
pub enum Sign {
    /// `||`
    Or,
    /// `&&`
    And,
    /// `==`
    Equal,
    /// `!=`
    Differs,
    /// `<`
    Below,
    /// `<=`
    AtMost,
    /// `>`
    Above,
    /// `>=`
    AtLeast,
    /// `+`
    Plus,
    /// `-`
    Minus,
    /// `*`
    Times,
    /// `/`
    Over,
    /// `%`
    Rest,
}

impl Sign {
    /// The operator as it is written.
    pub fn text(self) -> &'static [u8]
        ensures { result.now ≡ sign_text self }
    {
        match self {
            Sign::Or => b"||",
            Sign::And => b"&&",
            Sign::Equal => b"==",
            Sign::Differs => b"!=",
            Sign::Below => b"<",
            Sign::AtMost => b"<=",
            Sign::Above => b">",
            Sign::AtLeast => b">=",
            Sign::Plus => b"+",
            Sign::Minus => b"-",
            Sign::Times => b"*",
            Sign::Over => b"/",
            Sign::Rest => b"%",
        }
    }
}

/// An expression. Parentheses leave no node.
#[derive(Debug, Drop)]
pub enum Expr {
    /// A number.
    Number(i64),
    /// What a name stands for, with its index if it has one.
    Named(Name, Option<u32>),
    /// Whether a name stands for this text, without regard to ASCII case.
    Equals(Name, Text),
    /// `!` before an expression.
    Not(Boxed<Expr>),
    /// `-` before an expression: the operator has the sign `Minus`.
    Negative(Operator, Boxed<Expr>),
    /// An operator between two expressions.
    Pair(Operator, Boxed<Expr>, Boxed<Expr>),
}

/// A name, with the faults that it can have. Contracts see the name.
#[derive(Debug, Drop)]
pub struct Name {
    text: Text,
    unknown: ExprFault,
    not_number: ExprFault,
    not_text: ExprFault,
}

impl Model for Name {
    ghost use Rattle.std.specs.Prelude.{List, ℕ, ◌≡◌};
    ghost use Rattle.cx_expr.specs.declared.tree.ExprFault.TheVariants.{UnknownName, NotNumber, NotText};

    ghost Value = { List ℕ };

    ghost view = { λ n. n.text };

    ghost invariant = { λ n. (n.unknown ≡ UnknownName n.text) × (n.not_number ≡ NotNumber n.text) × (n.not_text ≡ NotText n.text) };
}

impl Name {
    /// This name.
    pub fn new(alloc: Global, name: &[u8]) -> Result<Self, Memory>
        ensures { IfOk result (λ made. made ≡ name.now) }
    {
        Ok(Name {
            text: Text::from_slice(alloc, name)?,
            unknown: ExprFault::UnknownName(Text::from_slice(alloc, name)?),
            not_number: ExprFault::NotNumber(Text::from_slice(alloc, name)?),
            not_text: ExprFault::NotText(Text::from_slice(alloc, name)?),
        })
    }

    /// The name as a text.
    pub fn text(&self) -> &Text
        ensures { result.now ≡ self.now }
    {
        &self.text
    }

    /// Its fault where it stands for nothing.
    pub fn unknown(&self) -> &ExprFault
        ensures { result.now ≡ UnknownName self.now }
    {
        &self.unknown
    }

    /// Its fault where it stands for a text.
    pub fn not_number(&self) -> &ExprFault
        ensures { result.now ≡ NotNumber self.now }
    {
        &self.not_number
    }

    /// Its fault where it stands for a number.
    pub fn not_text(&self) -> &ExprFault
        ensures { result.now ≡ NotText self.now }
    {
        &self.not_text
    }
}

/// An operator, with the fault that it can have. Contracts see its sign.
#[derive(Debug, Drop)]
pub struct Operator {
    sign: Sign,
    range: ExprFault,
}

impl Model for Operator {
    ghost use Rattle.std.specs.Prelude.{List, ℕ, ◌≡◌};
    ghost use Rattle.cx_expr.specs.declared.tree.Sign.{Sign};
    ghost use Rattle.cx_expr.specs.declared.tree.ExprFault.TheVariants.{Range};
    ghost use Rattle.cx_expr.specs.Signs.{sign_text};

    ghost Value = { Sign };

    ghost view = { λ o. o.sign };

    ghost invariant = { λ o. o.range ≡ Range (sign_text o.sign) };
}

impl Operator {
    /// The operator of this sign.
    pub fn new(alloc: Global, sign: Sign) -> Result<Self, Memory>
        ensures { IfOk result (λ made. made ≡ sign) }
    {
        Ok(Operator {
            sign,
            range: ExprFault::Range(Text::from_slice(alloc, sign.text())?),
        })
    }

    /// Its sign.
    pub fn sign(&self) -> Sign
        ensures { result ≡ self.now }
    {
        self.sign
    }

    /// Its fault.
    pub fn range(&self) -> &ExprFault
        ensures { result.now ≡ Range (sign_text self.now) }
    {
        &self.range
    }
}
