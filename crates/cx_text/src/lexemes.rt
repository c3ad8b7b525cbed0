//! Tokens that several grammars share: numbers, quoted texts, lists of names, tokens in braces.

ghost use Rattle.std.specs.Prelude.{◌≡◌, ◌<◌, ◌≤◌, MatchOption};
ghost use Rattle.cx_text.specs.Grammar.{passes, head};
ghost use Rattle.cx_text.specs.Rules.{Obeys, Builds, token, loop, if_is, name_of, unmarked};
ghost use Rattle.cx_text.specs.Lexemes.{same_name, among, once_here, once, counted_keyword_here, counted_keyword, word, is_sign_pair, sign_pair, decimal_from, is_number, number_of, number_mark, number_in, is_quoted, quoted_of, quoted, is_comma_or_word, comma, more_names, some_names, names, more_listed, listed, in_line, is_inside, inside, braces, finished};

use crate::reader::MAX_NAME;
use crate::{CclFault, Kind, List, Mark, Reader, Stop, Text, Token, Why};
use std::alloc::Global;

/// Whether two names are one, in any case.
pub fn same_name(a: &[u8], b: &[u8]) -> bool
    ensures { result ≡ same_name a.now b.now }
{
    a.eq_ignore_ascii_case(b)
}

/// Whether a name is among these, in any case.
pub fn among(names: &[Text], name: &[u8]) -> bool
    ensures { result ≡ among names.now name.now }
{
    for other in names {
        if same_name(name, other.as_slice()) {
            return true;
        }
    }
    false
}

/// The number of a run of digits, where it is at most `high`.
pub fn decimal(digits: &[u8], high: u64) -> Option<u64>
    ensures { let number = decimal_from 0 digits.now in
        MatchOption result (high < number) (λ n. (number ≡ n) × (n ≤ high)) }
{
    let mut value: u64 = 0;
    for byte in digits {
        let digit = u64::from(byte.saturating_sub(b'0'));
        if digit > high || value > (high - digit) / 10 {
            return None;
        }
        value = value * 10 + digit;
    }
    Some(value)
}

impl<'a> Reader<'a> {
    /// Whether a number stands here.
    pub fn at_number(&self) -> bool
        ensures { result ≡ passes is_number (head self.now.rest.now) }
    {
        match self.rest {
            [token, ..] => matches!(token.kind, Kind::Number),
            [] => false,
        }
    }

    /// Whether a quoted text stands here.
    pub fn at_quoted_text(&self) -> bool
        ensures { result ≡ passes is_quoted (head self.now.rest.now) }
    {
        match self.rest {
            [token, ..] => matches!(token.kind, Kind::Quoted),
            [] => false,
        }
    }

    /// Whether a token stands here with which its line goes on.
    pub fn at_in_line(&self) -> bool
        ensures { result ≡ passes in_line (head self.now.rest.now) }
    {
        match self.rest {
            [token, ..] => !token.is_line_end(),
            [] => false,
        }
    }

    /// Whether this sign of two bytes stands here.
    pub fn at_sign_pair(&self, a: u8, b: u8) -> bool
        ensures { result ≡ passes (is_sign_pair a b) (head self.now.rest.now) }
    {
        match self.rest {
            [token, ..] => token.is_sign_pair(a, b),
            [] => false,
        }
    }

    /// Whether a comma or a word stands here.
    pub fn at_comma_or_word(&self) -> bool
        ensures { result ≡ passes is_comma_or_word (head self.now.rest.now) }
    {
        match self.rest {
            [token, ..] => token.is_sign(b',') || token.is_word(),
            [] => false,
        }
    }

    /// Reads two signs that belong together, such as `::`, but no line end after them.
    fn sign_pair_here(&mut self, a: u8, b: u8) -> Result<(), Stop>
        ensures { Obeys (token (if_is (is_sign_pair a b)) unmarked) result self.old self.new }
    {
        match self.rest {
            [token, rest @ ..] if token.is_sign_pair(a, b) => {
                self.rest = rest;
                Ok(())
            }
            _ => Err(Stop::Fault(Why::Unexpected)),
        }
    }

    /// A sign of two bytes.
    pub fn sign_pair(&mut self, a: u8, b: u8) -> Result<(), Stop>
        ensures { Obeys (sign_pair a b) result self.old self.new }
    {
        self.sign_pair_here(a, b)?;
        self.skip_line_ends();
        Ok(())
    }

    /// Reads a keyword, but no line end after it. It is a fault if the keyword was there before.
    fn once_here(&mut self, name: &[u8], seen: bool) -> Result<(), Stop>
        ensures { Obeys (once_here name.now seen) result self.old self.new }
    {
        match self.rest {
            [token, rest @ ..] if token.is_named(name) => {
                if seen {
                    return Err(Stop::Fault(Why::Marked(Mark::Repeated)));
                }
                self.rest = rest;
                Ok(())
            }
            _ => Err(Stop::Fault(Why::Unexpected)),
        }
    }

    /// A keyword that may stand once.
    pub fn once(&mut self, name: &[u8], seen: bool) -> Result<(), Stop>
        ensures { Obeys (once name.now seen) result self.old self.new }
    {
        self.once_here(name, seen)?;
        self.skip_line_ends();
        Ok(())
    }

    /// Reads a keyword, but no line end after it. In a `full` file it is one too many.
    fn counted_keyword_here(&mut self, name: &[u8], full: bool) -> Result<(), Stop>
        ensures { Obeys (counted_keyword_here name.now full) result self.old self.new }
    {
        match self.rest {
            [token, rest @ ..] if token.is_named(name) => {
                if full {
                    return Err(Stop::Fault(Why::Marked(Mark::Limit)));
                }
                self.rest = rest;
                Ok(())
            }
            _ => Err(Stop::Fault(Why::Unexpected)),
        }
    }

    /// A keyword that begins what is counted, where it is `full` if as many as may stand are there already.
    pub fn counted_keyword(&mut self, name: &[u8], full: bool) -> Result<(), Stop>
        ensures { Obeys (counted_keyword name.now full) result self.old self.new }
    {
        self.counted_keyword_here(name, full)?;
        self.skip_line_ends();
        Ok(())
    }

    /// Reads a word of any length, but no line end after it.
    fn word_here(&mut self, alloc: Global) -> Result<Text, Stop>
        ensures { Obeys (token name_of unmarked) result self.old self.new }
    {
        match self.rest {
            [token, rest @ ..] if token.is_word() => {
                let text = Text::from_slice(alloc, token.text.as_slice())?;
                self.rest = rest;
                Ok(text)
            }
            _ => Err(Stop::Fault(Why::Unexpected)),
        }
    }

    /// A word that is no name, so of any length.
    pub fn word(&mut self, alloc: Global) -> Result<Text, Stop>
        ensures { Obeys word result self.old self.new }
    {
        let text = self.word_here(alloc)?;
        self.skip_line_ends();
        Ok(text)
    }

    /// Reads a number from `low` to `high`, both included, but no line end after it.
    fn number_here(&mut self, low: u64, high: u64) -> Result<u64, Stop>
        ensures { Obeys (token number_of (number_mark low high)) result self.old self.new }
    {
        match self.rest {
            [token, rest @ ..] if matches!(token.kind, Kind::Number) => {
                match decimal(token.text.as_slice(), high) {
                    Some(value) if value >= low => {
                        self.rest = rest;
                        Ok(value)
                    }
                    _ => Err(Stop::Fault(Why::Marked(Mark::BadNumber))),
                }
            }
            _ => Err(Stop::Fault(Why::Unexpected)),
        }
    }

    /// A number from `low` to `high`.
    pub fn number_in(&mut self, low: u64, high: u64) -> Result<u64, Stop>
        ensures { Obeys (number_in low high) result self.old self.new }
    {
        let value = self.number_here(low, high)?;
        self.skip_line_ends();
        Ok(value)
    }

    /// Reads a quoted text, but no line end after it.
    fn quoted_text_here(&mut self, alloc: Global) -> Result<Text, Stop>
        ensures { Obeys (token quoted_of unmarked) result self.old self.new }
    {
        match self.rest {
            [token, rest @ ..] if matches!(token.kind, Kind::Quoted) => {
                let text = Text::from_slice(alloc, token.text.as_slice())?;
                self.rest = rest;
                Ok(text)
            }
            _ => Err(Stop::Fault(Why::Unexpected)),
        }
    }

    /// A quoted text.
    pub fn quoted_text(&mut self, alloc: Global) -> Result<Text, Stop>
        ensures { Obeys quoted result self.old self.new }
    {
        let text = self.quoted_text_here(alloc)?;
        self.skip_line_ends();
        Ok(text)
    }

    /// A comma, if one stands here.
    pub fn comma(&mut self) -> Result<(), Stop>
        ensures { Obeys comma result self.old self.new }
    {
        if self.at_sign(b',') {
            self.sign(b',')
        } else {
            Ok(())
        }
    }

    /// Reads an optional comma and a further name of the line, but no line end after it.
    fn more_names(&mut self, alloc: Global, names: &mut List<Text>) -> Result<(), Stop>
        ensures { Builds (more_names names.old) names.new result self.old self.new }
    {
        self.comma()?;
        let name = self.name_here(alloc)?;
        names.push(name)?;
        Ok(())
    }

    /// More names, if a comma or a word stands here.
    fn names_after(&mut self, alloc: Global, names: &mut List<Text>) -> Result<(), Stop>
        ensures { Builds (loop is_comma_or_word more_names names.old) names.new result
            self.old self.new }
    {
        'names: while self.at_comma_or_word() {
            self.more_names(alloc, names)?;
        }
        Ok(())
    }

    /// One name or more, behind which a LineEnd may stand: they are added to the list.
    pub fn some_names(&mut self, alloc: Global, list: &mut List<Text>) -> Result<(), Stop>
        ensures { Builds (some_names list.old) list.new result self.old self.new }
    {
        let name = self.name_here(alloc)?;
        list.push(name)?;
        self.names_after(alloc, list)
    }

    /// Any number of names, behind which a LineEnd may stand: they are added to the list.
    pub fn names(&mut self, alloc: Global, list: &mut List<Text>) -> Result<(), Stop>
        ensures { Builds (names list.old) list.new result self.old self.new }
    {
        if self.at_word() {
            self.some_names(alloc, list)
        } else {
            Ok(())
        }
    }

    /// Reads an optional comma and a further name of a list.
    fn more_listed(&mut self, alloc: Global, names: &mut List<Text>) -> Result<(), Stop>
        ensures { Builds (more_listed names.old) names.new result self.old self.new }
    {
        self.comma()?;
        let name = self.name(alloc)?;
        names.push(name)?;
        Ok(())
    }

    /// Reads names for as long as a comma or a word comes next.
    fn name_list_after(&mut self, alloc: Global, names: &mut List<Text>) -> Result<(), Stop>
        ensures { Builds (loop is_comma_or_word more_listed names.old) names.new result
            self.old self.new }
    {
        'names: while self.at_comma_or_word() {
            self.more_listed(alloc, names)?;
        }
        Ok(())
    }

    /// One name or more, where LineEnds are skipped: they are added to the list.
    pub fn name_list(&mut self, alloc: Global, list: &mut List<Text>) -> Result<(), Stop>
        ensures { Builds (listed list.old) list.new result self.old self.new }
    {
        let name = self.name(alloc)?;
        list.push(name)?;
        self.name_list_after(alloc, list)
    }

    /// Whether a token stands here that doesn't end braces.
    pub fn at_inside(&self) -> bool
        ensures { result ≡ passes is_inside (head self.now.rest.now) }
    {
        match self.rest {
            [token, ..] => !token.is_sign(b'}'),
            [] => false,
        }
    }

    /// Skips the next token, which is not `}`.
    fn inside(&mut self) -> Result<(), Stop>
        ensures { Obeys (inside tt) result self.old self.new }
    {
        match self.rest {
            [token, rest @ ..] if !token.is_sign(b'}') => {
                self.rest = rest;
                Ok(())
            }
            _ => Err(Stop::Fault(Why::Unexpected)),
        }
    }

    /// Skips all tokens before the next `}`.
    fn skip_inside(&mut self) -> Result<(), Stop>
        ensures { Obeys (loop is_inside inside tt) result self.old self.new }
    {
        'skipped: while self.at_inside() {
            self.inside()?;
        }
        Ok(())
    }

    /// Tokens in braces.
    pub fn braces(&mut self) -> Result<(), Stop>
        ensures { Obeys braces result self.old self.new }
    {
        self.sign(b'{')?;
        self.skip_inside()?;
        self.sign(b'}')
    }

    /// What is answered for a list of which this is the rest: the value that was read, if nothing is left, or the fault.
    pub fn finish<T: Drop>(&self, tokens: &[Token], answer: Result<T, Stop>) -> Result<T, CclFault>
        ensures { result ≡ finished tokens.now self.now.rest.now answer }
    {
        match answer {
            Err(stop) => Err(self.fault(tokens, stop)),
            Ok(value) => match self.rest {
                [token, ..] => Err(CclFault::Unexpected(token.line)),
                [] => Ok(value),
            },
        }
    }
}
