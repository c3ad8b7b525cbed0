//! A place in a text, from which pieces are taken one after the other.

ghost use Rattle.std.specs.Prelude.{◌≡◌, ◌+◌, ◌<◌, ◌∷◌, ◌==◌, ◌^◌, length, true, false, Some, IfOk, MatchResult};
ghost use Rattle.cx_text.specs.declared.fault.TextFault.TheVariants as faults;
ghost use Rattle.cx_text.specs.declared.byte.Class.TheVariants as classes;
ghost use Rattle.cx_text.specs.Bytes.{role_of, LINE_FEED};
ghost use Rattle.cx_text.specs.Scanning.{front, behind, quoted, take_quoted, take_sign, take_as, Steps, long_token, TakesByte, TakesText, next_byte};
ghost use Rattle.cx_text.specs.Pieces.{fault_at, line_end, meaning, QuotedByte};

use crate::byte::{Class, Role, front_len, is_escapable, is_pair, role_of};
use crate::{Kind, Memory, Style, Text, TextFault, Token};
use std::alloc::{AllocError, AllocFailed, Global};

/// What is left of a text, and where it begins.
#[derive(Drop)]
pub struct Scanner<'a> {
    pub rest: &'a [u8],
    /// Nothing but blanks stands before on the line.
    pub fresh: bool,
    /// Counted from 1.
    pub line: u32,
}

impl<'a> Scanner<'a> {
    /// Takes the bytes of a class that stand here.
    fn run(&mut self, class: Class) -> &'a [u8]
        ensures taken { result.now ≡ front class self.old.rest.now }
        ensures rest { self.new.rest.now ≡ behind class self.old.rest.now }
        ensures fresh { self.new.fresh ≡ self.old.fresh }
        ensures line { self.new.line ≡ self.old.line }
    {
        let (run, rest) = self.rest.split_at(front_len(class, self.rest));
        self.rest = rest;
        run
    }

    /// Takes the next byte if it is this one, and says whether it did.
    fn take_byte(&mut self, byte: u8) -> bool
        ensures taken { TakesByte result self.new.rest.now byte self.old.rest.now }
        ensures fresh { self.new.fresh ≡ self.old.fresh }
        ensures line { self.new.line ≡ self.old.line }
    {
        match self.rest {
            [first, rest @ ..] if *first == byte => {
                self.rest = rest;
                true
            }
            _ => false,
        }
    }

    /// The text behind an opening quote, if it is closed.
    fn quoted_text(&mut self, alloc: Global, quote: u8) -> Result<Option<Text>, Memory>
        requires { self.old.line + length self.old.rest.now < 2 ^ 32 }
        ensures text { let taken = quoted quote self.old.rest.now in
            TakesText result self.new.line self.new.rest.now taken self.old.line }
        ensures fresh { self.new.fresh ≡ self.old.fresh }
    {
        let mut text = Vec::new(alloc);
        'bytes: while let [first, rest @ ..] = self.rest {
            if *first == quote {
                self.rest = rest;
                return Ok(Some(Text::new(text)));
            }
            let (byte, rest) = unescaped(*first, rest);
            text.push(byte)?;
            self.line += u32::from(byte == b'\n');
            self.rest = rest;
        }
        Ok(None)
    }

    /// Takes a quoted text behind its opening quote.
    fn quoted_token(&mut self, alloc: Global, quote: u8) -> Result<Option<Token>, TextFault>
        requires room { self.old.line + length self.old.rest.now < 2 ^ 32 }
        requires quote { (quote == LINE_FEED) ≡ false }
        ensures { let taken = take_quoted quote (quoted quote self.old.rest.now) in
            Steps result self.old self.new taken (faults.OpenQuote self.old.line) }
    {
        let line = self.line;
        self.fresh = false;
        match self.quoted_text(alloc, quote)? {
            Some(text) => Ok(Some(Token {
                kind: Kind::Quoted,
                text,
                line,
            })),
            None => Err(TextFault::OpenQuote(line)),
        }
    }

    /// Takes what goes on with a first byte, as a token.
    fn long_token(
        &mut self,
        alloc: Global,
        kind: Kind,
        first: u8,
        class: Class,
    ) -> Result<Option<Token>, TextFault>
        ensures token { let long = long_token kind first class self.old in
            MatchResult result (λ token. token ≡ Some long) (λ e. e ≡ faults.Memory) }
        ensures rest { self.new.rest.now ≡ behind class self.old.rest.now }
        ensures fresh { self.new.fresh ≡ false }
        ensures line { self.new.line ≡ self.old.line }
    {
        let more = self.run(class);
        self.fresh = false;
        let text = bytes_behind(alloc, first, more)?;
        Ok(Some(Token {
            kind,
            text,
            line: self.line,
        }))
    }

    /// Takes a sign behind its first byte.
    fn sign(&mut self, alloc: Global, style: Style, first: u8) -> Result<Option<Token>, TextFault>
        requires { (first == LINE_FEED) ≡ false }
        ensures { let taken = take_sign style first self.old.rest.now in
            Steps result self.old self.new taken (faults.BadByte self.old.line) }
    {
        self.fresh = false;
        let text = match self.rest {
            [second, rest @ ..] if style == Style::Ccl && is_pair(first, *second) => {
                self.rest = rest;
                Text::from_slice(alloc, &[first, *second])?
            }
            _ => Text::from_slice(alloc, &[first])?,
        };
        Ok(Some(Token {
            kind: Kind::Sign,
            text,
            line: self.line,
        }))
    }

    /// Takes a line feed that was the byte before.
    fn line_feed(&mut self, alloc: Global) -> Token
        requires { self.old.line + 1 < 2 ^ 32 }
        ensures token { result ≡ line_end self.old.line }
        ensures rest { self.new.rest.now ≡ self.old.rest.now }
        ensures fresh { self.new.fresh ≡ true }
        ensures line { self.new.line ≡ self.old.line + 1 }
    {
        let token = line_end(alloc, self.line);
        self.line += 1;
        self.fresh = true;
        token
    }

    /// Takes the piece whose first byte was the byte before, and gives the token that it is, if it is one. A fault is
    /// that of this first byte.
    pub fn piece(
        &mut self,
        alloc: Global,
        style: Style,
        first: u8,
    ) -> Result<Option<Token>, TextFault>
        requires { self.old.line + 1 + length self.old.rest.now < 2 ^ 32 }
        ensures { let role = role_of style self.old.fresh first in
            let taken = take_as style role first self.old.rest.now in
            Steps result self.old self.new taken (fault_at role self.old.line) }
    {
        match role_of(style, self.fresh, first) {
            Role::Blank => Ok(None),
            Role::LineFeed => Ok(Some(self.line_feed(alloc))),
            Role::Comment | Role::IgnoredLine => {
                self.run(Class::Line);
                self.fresh = false;
                Ok(None)
            }
            Role::Quote => self.quoted_token(alloc, first),
            Role::Word => self.long_token(alloc, Kind::Word, first, Class::Word(style)),
            Role::Number => self.long_token(alloc, Kind::Number, first, Class::Digit),
            Role::Joint => {
                self.run(Class::Blank);
                if !self.take_byte(b'\n') {
                    return Err(TextFault::BadByte(self.line));
                }
                self.line += 1;
                self.fresh = false;
                Ok(None)
            }
            Role::Sign => self.sign(alloc, style, first),
            Role::Bad => Err(TextFault::BadByte(self.line)),
        }
    }
}

/// The next byte of a quoted text, and what stands behind it.
fn unescaped(first: u8, rest: &[u8]) -> (u8, &[u8])
    ensures byte { result.0 ≡ meaning (next_byte first rest.now).0 }
    ensures rest { result.1.now ≡ (next_byte first rest.now).1 }
{
    match rest {
        [second, more @ ..] if first == b'\\' && is_escapable(*second) => (*second, more),
        _ => (first, rest),
    }
}

/// A byte and others behind it.
fn bytes_behind(alloc: Global, first: u8, more: &[u8]) -> Result<Text, Memory>
    ensures { IfOk result (λ text. text ≡ first ∷ more.now) }
{
    let mut bytes = Vec::new(alloc);
    bytes.reserve_exact(1 + more.len())?;
    bytes.push(first)?;
    bytes.extend_from_slice(more)?;
    Ok(Text::new(bytes))
}

/// The end of a line.
pub fn line_end(alloc: Global, line: u32) -> Token
    ensures { result ≡ line_end line }
{
    Token {
        kind: Kind::LineEnd,
        text: Text::new(Vec::new(alloc)),
        line,
    }
}
