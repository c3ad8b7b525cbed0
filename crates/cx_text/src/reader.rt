//! A place in a list of tokens.

ghost use Rattle.std.specs.Prelude.{◌≡◌, ◌<◌, length, Some, None, Option, List, IsTrue};
ghost use Rattle.std.specs.Prelude.{Ok, MatchBool, ◌≤◌};
ghost use Rattle.cx_text.specs.Tokens.{is_word, is_line_end};
ghost use Rattle.cx_text.specs.Rules.{Obeys, token, if_is, unmarked, is_sign, is_named, one_line_end, line_ends, keyword, sign, name, name_here, sign_here, line_end};
ghost use Rattle.cx_text.specs.Grammar.{passes, head, last_line, line_at};
ghost use Rattle.cx_text.specs.Reading.{read_token, read_end, fault_of};

use crate::{CclFault, Mark, Stop, Text, Token, Why};
use std::alloc::Global;

/// The most bytes of a name.
pub const MAX_NAME: usize = 64;

/// What is left of a list of tokens. After a fault it begins with the faulty token.
#[derive(Drop)]
pub struct Reader<'a> {
    pub rest: &'a [Token],
}

impl<'a> Reader<'a> {
    /// At the first of these tokens.
    pub fn new(tokens: &'a [Token]) -> Reader<'a>
        ensures { result.rest.now ≡ tokens.now }
    {
        Reader { rest: tokens }
    }

    /// Whether a word stands here.
    pub fn at_word(&self) -> bool
        ensures { result ≡ passes is_word (head self.now.rest.now) }
    {
        match self.rest {
            [token, ..] => token.is_word(),
            [] => false,
        }
    }

    /// Whether the next token is a line end.
    fn at_line_end(&self) -> bool
        ensures { result ≡ passes is_line_end (head self.now.rest.now) }
    {
        match self.rest {
            [token, ..] => token.is_line_end(),
            [] => false,
        }
    }

    /// Whether this sign of one byte stands here.
    pub fn at_sign(&self, sign: u8) -> bool
        ensures { result ≡ passes (is_sign sign) (head self.now.rest.now) }
    {
        match self.rest {
            [token, ..] => token.is_sign(sign),
            [] => false,
        }
    }

    /// Whether this word stands here, in any case.
    pub fn at_keyword(&self, name: &[u8]) -> bool
        ensures { result ≡ passes (is_named name.now) (head self.now.rest.now) }
    {
        match self.rest {
            [token, ..] => token.is_named(name),
            [] => false,
        }
    }

    /// Takes a LineEnd if one stands here, and says whether it did.
    fn take_line_end(&mut self) -> bool
        ensures at { result ≡ passes is_line_end (head self.old.rest.now) }
        ensures taken { let read = (one_line_end tt).reads self.old.rest.now in
            MatchBool result (read ≡ Ok (tt, self.new.rest.now)) (self.new.rest.now ≡ self.old.rest.now) }
        ensures len { length self.new.rest.now ≤ length self.old.rest.now }
    {
        match self.rest {
            [token, rest @ ..] if token.is_line_end() => {
                self.rest = rest;
                true
            }
            _ => false,
        }
    }

    /// One LineEnd.
    pub fn one_line_end(&mut self) -> Result<(), Stop>
        ensures { Obeys (one_line_end tt) result self.old self.new }
    {
        match self.rest {
            [token, rest @ ..] if token.is_line_end() => {
                self.rest = rest;
                Ok(())
            }
            _ => Err(Stop::Fault(Why::Unexpected)),
        }
    }

    /// Skips the LineEnds that stand here.
    pub fn skip_line_ends(&mut self)
        ensures { line_ends.reads self.old.rest.now ≡ Ok (tt, self.new.rest.now) }
    {
        'skipped: while self.at_line_end() {
            self.take_line_end();
        }
    }

    /// A sign of one byte, and what follows it on its line.
    pub fn sign_here(&mut self, sign: u8) -> Result<(), Stop>
        ensures { Obeys (sign_here sign) result self.old self.new }
    {
        match self.rest {
            [token, rest @ ..] if token.is_sign(sign) => {
                self.rest = rest;
                Ok(())
            }
            _ => Err(Stop::Fault(Why::Unexpected)),
        }
    }

    /// A sign of one byte.
    pub fn sign(&mut self, byte: u8) -> Result<(), Stop>
        ensures { Obeys (sign byte) result self.old self.new }
    {
        self.sign_here(byte)?;
        self.skip_line_ends();
        Ok(())
    }

    /// Reads a keyword in any case, but no line end after it.
    fn keyword_here(&mut self, name: &[u8]) -> Result<(), Stop>
        ensures { Obeys (token (if_is (is_named name.now)) unmarked) result self.old self.new }
    {
        match self.rest {
            [token, rest @ ..] if token.is_named(name) => {
                self.rest = rest;
                Ok(())
            }
            _ => Err(Stop::Fault(Why::Unexpected)),
        }
    }

    /// A word, in any case.
    pub fn keyword(&mut self, name: &[u8]) -> Result<(), Stop>
        ensures { Obeys (keyword name.now) result self.old self.new }
    {
        self.keyword_here(name)?;
        self.skip_line_ends();
        Ok(())
    }

    /// A name, and what follows it on its line.
    pub fn name_here(&mut self, alloc: Global) -> Result<Text, Stop>
        ensures { Obeys name_here result self.old self.new }
    {
        match self.rest {
            [token, rest @ ..] if token.is_word() => {
                if token.text.len() > MAX_NAME {
                    return Err(Stop::Fault(Why::Marked(Mark::Limit)));
                }
                let name = Text::from_slice(alloc, token.text.as_slice())?;
                self.rest = rest;
                Ok(name)
            }
            _ => Err(Stop::Fault(Why::Unexpected)),
        }
    }

    /// A name: a word of at most 64 bytes.
    pub fn name(&mut self, alloc: Global) -> Result<Text, Stop>
        ensures { Obeys name result self.old self.new }
    {
        let name = self.name_here(alloc)?;
        self.skip_line_ends();
        Ok(name)
    }

    /// One LineEnd or more.
    pub fn line_end(&mut self) -> Result<(), Stop>
        ensures { Obeys line_end result self.old self.new }
    {
        self.one_line_end()?;
        self.skip_line_ends();
        Ok(())
    }

    /// The fault for which reading stopped here, in a list of which this is the rest.
    pub fn fault(&self, tokens: &[Token], stop: Stop) -> CclFault
        ensures { result ≡ fault_of stop (line_at tokens.now self.now.rest.now) }
    {
        let line = match self.rest {
            [token, ..] => token.line,
            [] => last_line(tokens),
        };
        match stop {
            Stop::Memory => CclFault::Memory,
            Stop::Fault(Why::Unexpected) => CclFault::Unexpected(line),
            Stop::Fault(Why::Marked(Mark::Repeated)) => CclFault::Repeated(line),
            Stop::Fault(Why::Marked(Mark::BadNumber)) => CclFault::BadNumber(line),
            Stop::Fault(Why::Marked(Mark::Limit)) => CclFault::Limit(line),
        }
    }
}

/// The line of the last token; 1 if there is none.
fn last_line(tokens: &[Token]) -> u32
    ensures { result ≡ last_line tokens.now }
{
    let mut line = 1;
    for token in tokens {
        line = token.line;
    }
    line
}
