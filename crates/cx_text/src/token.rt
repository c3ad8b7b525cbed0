//! Tokens of a text.

ghost use Rattle.std.specs.Prelude.{◌≡◌, IfOk};
ghost use Rattle.cx_text.specs.Tokens.{is_word, is_line_end};
ghost use Rattle.cx_text.specs.Rules.{is_sign, is_named};
ghost use Rattle.cx_text.specs.Lexemes.{is_sign_pair, kept};

use crate::{Memory, Text};
use std::alloc::Global;

/// What a token is.
#[derive(Clone, Copy, Debug, Drop, PartialEq, Eq)]
pub enum Kind {
    Word,
    Number,
    Quoted,
    Sign,
    LineEnd,
}

/// A token, and the line of its first byte, counted from 1. A quoted text is kept without its quotes, and with what
/// its backslashes stand for.
#[derive(Debug, Drop)]
pub struct Token {
    pub kind: Kind,
    pub text: Text,
    pub line: u32,
}

/// How a text is cut into tokens: as a CCL file, as a parameter file or as a list of thorns.
#[derive(Clone, Copy, Debug, Drop, PartialEq, Eq)]
pub enum Style {
    Ccl,
    Par,
    Thorns,
}

impl Token {
    /// Whether it is a word.
    pub fn is_word(&self) -> bool
        ensures { result ≡ is_word self.now }
    {
        matches!(self.kind, Kind::Word)
    }

    /// Whether it is the end of a line.
    pub fn is_line_end(&self) -> bool
        ensures { result ≡ is_line_end self.now }
    {
        matches!(self.kind, Kind::LineEnd)
    }

    /// Whether it is this sign of one byte.
    pub fn is_sign(&self, sign: u8) -> bool
        ensures { result ≡ is_sign sign self.now }
    {
        matches!(self.kind, Kind::Sign) && self.text.as_slice() == [sign].as_slice()
    }

    /// Whether it is this sign of two bytes.
    pub fn is_sign_pair(&self, first: u8, second: u8) -> bool
        ensures { result ≡ is_sign_pair first second self.now }
    {
        matches!(self.kind, Kind::Sign) && self.text.as_slice() == [first, second].as_slice()
    }

    /// A copy of the token, its line too.
    pub fn copy(&self, alloc: Global) -> Result<Token, Memory>
        ensures { IfOk result (λ token. token ≡ self.now) }
    {
        Ok(Token {
            kind: self.kind,
            text: self.text.copy(alloc)?,
            line: self.line,
        })
    }

    /// A copy, as a tree keeps it: with line 0.
    pub fn kept_copy(&self, alloc: Global) -> Result<Token, Memory>
        ensures { IfOk result (λ token. token ≡ kept self.now) }
    {
        Ok(Token {
            kind: self.kind,
            text: self.text.copy(alloc)?,
            line: 0,
        })
    }

    /// Whether it is a word of this name, in any case.
    pub fn is_named(&self, name: &[u8]) -> bool
        ensures { result ≡ is_named name.now self.now }
    {
        self.is_word() && self.text.as_slice().eq_ignore_ascii_case(name)
    }
}
