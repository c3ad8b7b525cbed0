//! Texts as a message shows them.

ghost use Rattle.std.specs.Prelude.{Some};
ghost use Rattle.std.specs.Str.Lossy.{utf8_lossy};

use crate::{List, Text};
use std::fmt;

/// The text, with U+FFFD for each sequence of bytes that isn't UTF-8.
impl fmt::Display for Text {
    ghost output = { λ text. Some (utf8_lossy text) };

    /// The text with U+FFFD in place of each sequence of bytes that isn't UTF-8.
    fn fmt<W: fmt::Write>(&self, f: &mut fmt::Formatter<W>) -> fmt::Result {
        'chunks: for chunk in self.as_slice().utf8_chunks() {
            f.write_str(chunk.valid())?;
            if !chunk.invalid().is_empty() {
                f.write_str("\u{FFFD}")?;
            }
        }
        Ok(())
    }
}

/// A text that a message shows as one word: an empty one is a dash.
#[derive(Clone, Copy)]
pub struct OrDash<'a>(pub &'a Text);

impl fmt::Display for OrDash<'_> {
    /// The text, or `-` if it is empty.
    fn fmt<W: fmt::Write>(&self, f: &mut fmt::Formatter<W>) -> fmt::Result {
        if self.0.is_empty() {
            f.write_str("-")
        } else {
            write!(f, "{}", self.0)
        }
    }
}

/// Texts that a message shows as one word, with a comma between each two.
#[derive(Clone, Copy)]
pub struct Listed<'a>(pub &'a List<Text>);

impl fmt::Display for Listed<'_> {
    /// The texts with commas between them, an empty one as `-`.
    fn fmt<W: fmt::Write>(&self, f: &mut fmt::Formatter<W>) -> fmt::Result {
        for (number, text) in self.0.as_slice().iter().enumerate() {
            if number != 0 {
                f.write_str(",")?;
            }
            write!(f, "{}", OrDash(text))?;
        }
        Ok(())
    }
}
