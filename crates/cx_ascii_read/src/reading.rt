//! Records from bytes.

ghost use Rattle.std.specs.Prelude.{◌≡◌, Some, IfOk, codes, List as ListOf};
ghost use Rattle.cx_ascii_read.specs.declared.record.Record.{Record};
ghost use Rattle.cx_ascii_read.specs.Records.{Spells, ReadsAs};
ghost use Rattle.cx_ascii_read.specs.Reading.{Gives, skip_text, head_at, section_at, line_at, body_at, record_at};

use crate::Record;
use crate::entry::{Entry, read_all};
use crate::values::grid_at;
use crate::words::{Stop, name_at, number_at, skip_text, strip_text, value_at};
use cx_text::{List, Memory, Text};
use std::alloc::Global;

/// The name and the iteration that a section or a line begins with, and what comes after them.
#[tactic(auto, unfolding(crate::specs::Reading::head_at))]
pub fn head_at(bytes: &[u8]) -> Result<(&[u8], u64, &[u8]), Stop>
    ensures { Gives (λ x. ((x.0.now, x.1), x.2.now)) result (head_at bytes.now) }
{
    let rest = skip_text(b"# ", bytes)?;
    let (full, rest) = name_at(rest)?;
    let rest = skip_text(b"iteration ", rest)?;
    let (iteration, rest) = number_at(u64::MAX, rest)?;
    Ok((full, iteration, rest))
}

/// A section behind the word `size`.
#[tactic(auto, unfolding(crate::specs::Reading::section_at))]
fn section_at<'a>(
    alloc: Global,
    full: &[u8],
    iteration: u64,
    bytes: &'a [u8],
) -> Result<(Record, &'a [u8]), Stop>
    ensures { Gives (λ x. (x.0, x.1.now)) result (section_at full.now iteration bytes.now) }
{
    let (size, values, rest) = grid_at(alloc, bytes)?;
    let record = Record {
        full: Text::from_slice(alloc, full)?,
        iteration,
        size,
        values,
    };
    Ok((record, rest))
}

/// A scalar's line behind the word `value`.
#[tactic(auto, unfolding(crate::specs::Reading::line_at))]
pub fn line_at<'a>(
    alloc: Global,
    full: &[u8],
    iteration: u64,
    bytes: &'a [u8],
) -> Result<(Record, &'a [u8]), Stop>
    ensures { Gives (λ x. (x.0, x.1.now)) result (line_at full.now iteration bytes.now) }
{
    let (value, rest) = value_at(b'\n', bytes)?;
    let mut values = List::empty(alloc);
    values.push(value)?;
    let record = Record {
        full: Text::from_slice(alloc, full)?,
        iteration,
        size: List::empty(alloc),
        values,
    };
    Ok((record, rest))
}

/// What stands behind a record's name and iteration.
fn body_at<'a>(
    alloc: Global,
    full: &[u8],
    iteration: u64,
    bytes: &'a [u8],
) -> Result<(Record, &'a [u8]), Stop>
    ensures { Gives (λ x. (x.0, x.1.now)) result
        (body_at full.now iteration bytes.now (skip_text (codes "size ") bytes.now)) }
{
    match strip_text(b"size ", bytes) {
        Some(sizes) => section_at(alloc, full, iteration, sizes),
        None => line_at(alloc, full, iteration, skip_text(b"value ", bytes)?),
    }
}

/// The record in front.
#[tactic(auto, unfolding(crate::specs::Reading::record_at))]
pub(crate) fn record_at(alloc: Global, bytes: &[u8]) -> Result<(Record, &[u8]), Stop>
    ensures { Gives (λ x. (x.0, x.1.now)) result (record_at bytes.now) }
{
    let (full, iteration, rest) = head_at(bytes)?;
    body_at(alloc, full, iteration, rest)
}

impl Entry for Record {
    ghost use Rattle.cx_ascii_read.specs.Records.{record_text, IsRecord};
    ghost use Rattle.cx_ascii_read.specs.Reading.{record_at};

    ghost text = { record_text };

    ghost fits = { IsRecord };

    ghost entry_at = { record_at };

    /// Reads the record at the front of the bytes, and hands over what follows it.
    fn read(alloc: Global, bytes: &[u8]) -> Result<(Self, &[u8]), Stop> {
        record_at(alloc, bytes)
    }
}

/// The records that the bytes of an output file are: sections of grid variables, and lines of scalars, one after another and
/// with nothing else. None where they aren't such a file.
pub fn read_output(alloc: Global, bytes: &[u8]) -> Result<Option<List<Record>>, Memory>
    ensures reads { IfOk result (λ found. ReadsAs bytes.now found) }
    ensures only { IfOk result (λ found. (rs : ListOf Record) → Spells bytes.now rs
        → found ≡ Some rs) }
{
    read_all(alloc, bytes)
}
