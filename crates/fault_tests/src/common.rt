//! One assertion for the message of a fault, and the texts that faults keep.

use cx_text::{List, Memory, Text};
use std::alloc::Global;
use std::fmt::{Display, InlineText};
use std::process::Abort;

/// Asserts that a fault's message has these words.
pub(crate) fn says<F: Display + Drop>(rt: &impl Abort, fault: F, words: &str) {
    let message = InlineText::<96>::of(fault);
    assert_eq!(rt; message.as_str(), words, "{words}");
}

/// A text of these bytes.
pub(crate) fn text(alloc: Global, bytes: &[u8]) -> Result<Text, Memory> {
    Text::from_slice(alloc, bytes)
}

/// Texts of these bytes.
pub(crate) fn texts(alloc: Global, names: &[&[u8]]) -> Result<List<Text>, Memory> {
    let mut list = List::empty(alloc);
    for bytes in names {
        list.push(text(alloc, bytes)?)?;
    }
    Ok(list)
}
