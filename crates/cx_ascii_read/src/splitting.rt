//! An output of several variables, split by their names.

ghost use Rattle.std.specs.Prelude.{◌≡◌, ◌++◌, [], IfOk, OnOk, bytes_eq, if◌then◌else◌};
ghost use Rattle.std.specs.List.{list_any};
ghost use Rattle.cx_ascii_read.specs.Records.{record_text};
ghost use Rattle.cx_ascii_read.specs.Reading.{Gives, record_at};
ghost use Rattle.cx_ascii_read.specs.Splitting.{appended, next_of, split_of, texts_named};

use crate::Record;
use crate::reading::record_at;
use crate::words::Stop;
use cx_text::{List, Memory, Text};
use std::alloc::Global;

/// The record in front, its bytes, and what comes after it.
#[tactic(auto, using(crate::proofs::SplitLaws::front_is))]
fn front_record(alloc: Global, bytes: &[u8]) -> Result<(Record, &[u8], &[u8]), Stop>
    ensures value { Gives (λ x. (x.0, x.2.now)) result (record_at bytes.now) }
    ensures text { IfOk result (λ x. x.1.now ≡ record_text x.0) }
{
    let (record, rest) = record_at(alloc, bytes)?;
    let text = &bytes[..bytes.len().saturating_sub(rest.len())];
    Ok((record, text, rest))
}

/// Whether a full name is one of these, byte for byte.
fn is_among(full: &Text, names: &[Text]) -> bool
    ensures { result ≡ list_any (λ name. bytes_eq full.now name) names.now }
{
    names.iter().any(|name| full.as_slice() == name.as_slice())
}

/// Adds bytes to the text of a name, if it is this one.
fn append_if(text: &mut Text, is_its: bool, bytes: &[u8]) -> Result<(), Memory>
    ensures { OnOk result (text.new ≡ (if is_its then text.old ++ bytes.now else text.old)) }
{
    if is_its {
        text.push_slice(bytes)
    } else {
        Ok(())
    }
}

/// Adds bytes to the text of each name that is this one.
fn append(texts: &mut [Text], names: &[Text], full: &Text, bytes: &[u8]) -> Result<(), Memory>
    ensures { OnOk result (texts.new ≡ appended full.now bytes.now names.now texts.old) }
{
    let Some((name, names)) = names.split_first() else {
        return Ok(());
    };
    let Some((text, texts)) = texts.split_first_mut() else {
        return Ok(());
    };
    append_if(text, full.as_slice() == name.as_slice(), bytes)?;
    append(texts, names, full, bytes)
}

/// Adds the record in front to the text of its name. Gives what comes after it.
#[tactic(auto, unfolding(crate::specs::Splitting::next_of))]
fn append_next<'a>(
    alloc: Global,
    texts: &mut Vec<Text>,
    names: &[Text],
    bytes: &'a [u8],
) -> Result<&'a [u8], Stop>
    ensures { Gives (λ rest. (texts.new.items, rest.now)) result
        (next_of names.now texts.old.items bytes.now) }
{
    let (record, text, rest) = front_record(alloc, bytes)?;
    if !is_among(&record.full, names) {
        return Err(Stop::Other);
    }
    append(texts, names, &record.full, text)?;
    Ok(rest)
}

/// An empty text for each name.
fn empty_texts(alloc: Global, names: &[Text]) -> Result<Vec<Text>, Memory>
    ensures { IfOk result (λ texts. texts.items ≡ texts_named names.now []) }
{
    let mut texts = Vec::new(alloc);
    'each: for _ in names {
        texts.push(Text::new(Vec::new(alloc)))?;
    }
    Ok(texts)
}

/// The records of each name.
fn texts_of(alloc: Global, names: &[Text], bytes: &[u8]) -> Result<Vec<Text>, Stop>
    ensures { Gives (λ texts. texts.items) result (split_of bytes.now names.now) }
{
    let mut texts = empty_texts(alloc, names)?;
    let mut rest = bytes;
    'each: while !rest.is_empty() {
        rest = append_next(alloc, &mut texts, names, rest)?;
    }
    Ok(texts)
}

/// Splits an output that holds the records of several variables: for each name the bytes of its records, in their order. None
/// where the bytes aren't records, or a record has a name that isn't among these.
///
/// Names are compared byte by byte. What size or iteration a record has doesn't matter here.
pub fn split(alloc: Global, bytes: &[u8], names: &List<Text>) -> Result<Option<List<Text>>, Memory>
    ensures { IfOk result (λ found. found ≡ split_of bytes.now names.now) }
{
    match texts_of(alloc, names.as_slice(), bytes) {
        Ok(texts) => Ok(Some(List::new(texts))),
        Err(Stop::Other) => Ok(None),
        Err(Stop::Memory) => Err(Memory),
    }
}
