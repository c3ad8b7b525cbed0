//! Tokens as printers write them.

ghost use Rattle.std.specs.Prelude.{◌≡◌, [], ◌∷◌, ◌++◌, IfOk, OnOk, OnErr};
ghost use Rattle.std.specs.Fmt.{decimal};
ghost use Rattle.cx_text.specs.Written.{word, words, number, quoted, sign, sign_pair, line_end};

use crate::{Kind, List, Memory, Text, Token};
use std::alloc::Global;

impl Token {
    /// A word that is on no line.
    pub fn word(alloc: Global, text: &[u8]) -> Result<Token, Memory>
        ensures { IfOk result (λ token. token ≡ word text.now) }
    {
        Ok(Token {
            kind: Kind::Word,
            text: Text::from_slice(alloc, text)?,
            line: 0,
        })
    }

    /// A quoted text that is on no line.
    pub fn quoted_text(alloc: Global, text: &[u8]) -> Result<Token, Memory>
        ensures { IfOk result (λ token. token ≡ quoted text.now) }
    {
        Ok(Token {
            kind: Kind::Quoted,
            text: Text::from_slice(alloc, text)?,
            line: 0,
        })
    }

    /// A number that is on no line.
    pub fn number(alloc: Global, value: u64) -> Result<Token, Memory>
        ensures { IfOk result (λ token. token ≡ number (decimal value)) }
    {
        let digits = value.to_string(alloc)?;
        Ok(Token {
            kind: Kind::Number,
            text: Text::from_slice(alloc, digits.as_bytes())?,
            line: 0,
        })
    }

    /// A sign of one byte that is on no line.
    pub fn sign(alloc: Global, byte: u8) -> Result<Token, Memory>
        ensures { IfOk result (λ token. token ≡ sign byte) }
    {
        Ok(Token {
            kind: Kind::Sign,
            text: Text::from_slice(alloc, &[byte])?,
            line: 0,
        })
    }

    /// A sign of two bytes that is on no line.
    pub fn sign_pair(alloc: Global, first: u8, second: u8) -> Result<Token, Memory>
        ensures { IfOk result (λ token. token ≡ sign_pair first second) }
    {
        Ok(Token {
            kind: Kind::Sign,
            text: Text::from_slice(alloc, &[first, second])?,
            line: 0,
        })
    }

    /// The end of a line that is none of a text.
    pub fn line_end(alloc: Global) -> Result<Token, Memory>
        ensures { IfOk result (λ token. token ≡ line_end) }
    {
        Ok(Token {
            kind: Kind::LineEnd,
            text: Text::new(Vec::new(alloc)),
            line: 0,
        })
    }
}

impl List<Token> {
    /// Adds a word at the end. Where memory runs out, the list is as it was.
    pub fn push_word(&mut self, alloc: Global, text: &[u8]) -> Result<(), Memory>
        ensures ok { OnOk result (self.new ≡ self.old ++ word text.now ∷ []) }
        ensures err { OnErr result (self.new ≡ self.old) }
    {
        self.push(Token::word(alloc, text)?)
    }

    /// Adds these names as words at the end.
    pub fn push_words(&mut self, alloc: Global, names: &[Text]) -> Result<(), Memory>
        ensures { OnOk result (self.new ≡ self.old ++ words names.now) }
    {
        for name in names {
            self.push_word(alloc, name.as_slice())?;
        }
        Ok(())
    }

    /// Adds a number at the end. Where memory runs out, the list is as it was.
    pub fn push_number(&mut self, alloc: Global, value: u64) -> Result<(), Memory>
        ensures ok { OnOk result (self.new ≡ self.old ++ number (decimal value) ∷ []) }
        ensures err { OnErr result (self.new ≡ self.old) }
    {
        self.push(Token::number(alloc, value)?)
    }

    /// Adds the same token at the end. Where memory runs out, the list is as it was.
    pub fn push_copy(&mut self, alloc: Global, token: &Token) -> Result<(), Memory>
        ensures ok { OnOk result (self.new ≡ self.old ++ token.now ∷ []) }
        ensures err { OnErr result (self.new ≡ self.old) }
    {
        self.push(token.copy(alloc)?)
    }

    /// Adds the same tokens at the end.
    pub fn push_copies(&mut self, alloc: Global, tokens: &[Token]) -> Result<(), Memory>
        ensures { OnOk result (self.new ≡ self.old ++ tokens.now) }
    {
        for token in tokens {
            self.push_copy(alloc, token)?;
        }
        Ok(())
    }

    /// Adds a quoted text at the end. Where memory runs out, the list is as it was.
    pub fn push_quoted_text(&mut self, alloc: Global, text: &[u8]) -> Result<(), Memory>
        ensures ok { OnOk result (self.new ≡ self.old ++ quoted text.now ∷ []) }
        ensures err { OnErr result (self.new ≡ self.old) }
    {
        self.push(Token::quoted_text(alloc, text)?)
    }

    /// Adds a sign at the end. Where memory runs out, the list is as it was.
    pub fn push_sign(&mut self, alloc: Global, byte: u8) -> Result<(), Memory>
        ensures ok { OnOk result (self.new ≡ self.old ++ sign byte ∷ []) }
        ensures err { OnErr result (self.new ≡ self.old) }
    {
        self.push(Token::sign(alloc, byte)?)
    }

    /// Adds the end of a line at the end. Where memory runs out, the list is as it was.
    pub fn push_line_end(&mut self, alloc: Global) -> Result<(), Memory>
        ensures ok { OnOk result (self.new ≡ self.old ++ line_end ∷ []) }
        ensures err { OnErr result (self.new ≡ self.old) }
    {
        self.push(Token::line_end(alloc)?)
    }
}
