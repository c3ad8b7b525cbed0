//! Pieces from bytes.
ghost use Rattle.std.specs.Prelude.{◌≡◌, Some, IfOk, codes, List as ListOf};
ghost use Rattle.cx_ascii_read.specs.Spelling.{ReadsAll};
ghost use Rattle.cx_ascii_read.specs.Reading.{Gives, grid_at, skip_text};
ghost use Rattle.cx_chunks.specs.declared.piece.Piece.{Piece};
ghost use Rattle.cx_chunks.specs.Pieces.{IsPiece, SpellsChunk, piece_text};
ghost use Rattle.cx_chunks.specs.Reading.{section_at, value_at, body_at, piece_at};

use crate::piece::Piece;
use crate::place::place_at;
use crate::values::Values;
use cx_ascii_read::{Entry, Stop, grid_at, head_at, line_at, read_all, skip_text, strip_text};
use cx_text::{List, Memory, Text};
use std::alloc::Global;

/// A grid of values: its sizes, the values, and what comes after them.
fn values_at(alloc: Global, bytes: &[u8]) -> Result<(List<u32>, Values, &[u8]), Stop>
    ensures { Gives (λ x. ((x.0, x.1), x.2.now)) result (grid_at bytes.now) }
{
    let (size, numbers, rest) = grid_at(alloc, bytes)?;
    let values = Values::new(alloc, numbers.as_slice())?;
    Ok((size, values, rest))
}

/// A part's section, after the word `part`.
#[tactic(auto, unfolding(crate::specs::Reading::section_at))]
fn section_at<'a>(
    alloc: Global,
    full: &[u8],
    iteration: u64,
    bytes: &'a [u8],
) -> Result<(Piece, &'a [u8]), Stop>
    ensures { Gives (λ x. (x.0, x.1.now)) result (section_at full.now iteration bytes.now) }
{
    let (place, rest) = place_at(alloc, bytes)?;
    let (size, values, rest) = values_at(alloc, rest)?;
    if place.from.len() != size.len() {
        return Err(Stop::Other);
    }
    let section = Piece::Box {
        full: Text::from_slice(alloc, full)?,
        iteration,
        part: place.part,
        parts: place.parts,
        from: place.from,
        size,
        values,
    };
    Ok((section, rest))
}

/// A scalar's line, after its iteration.
#[tactic(auto, unfolding(crate::specs::Reading::value_at))]
fn value_at<'a>(
    alloc: Global,
    full: &[u8],
    iteration: u64,
    bytes: &'a [u8],
) -> Result<(Piece, &'a [u8]), Stop>
    ensures { Gives (λ x. (x.0, x.1.now)) result (value_at full.now iteration bytes.now) }
{
    let (record, rest) = line_at(alloc, full, iteration, skip_text(b"value ", bytes)?)?;
    Ok((Piece::Line(record), rest))
}

/// The rest of a piece, after its name and iteration.
fn body_at<'a>(
    alloc: Global,
    full: &[u8],
    iteration: u64,
    bytes: &'a [u8],
) -> Result<(Piece, &'a [u8]), Stop>
    ensures { Gives (λ x. (x.0, x.1.now)) result
        (body_at full.now iteration bytes.now (skip_text (codes "part ") bytes.now)) }
{
    match strip_text(b"part ", bytes) {
        Some(part) => section_at(alloc, full, iteration, part),
        None => value_at(alloc, full, iteration, bytes),
    }
}

/// The piece in front.
#[tactic(auto, unfolding(crate::specs::Reading::piece_at))]
fn piece_at(alloc: Global, bytes: &[u8]) -> Result<(Piece, &[u8]), Stop>
    ensures { Gives (λ x. (x.0, x.1.now)) result (piece_at bytes.now) }
{
    let (full, iteration, rest) = head_at(bytes)?;
    body_at(alloc, full, iteration, rest)
}

impl Entry for Piece {
    ghost use Rattle.cx_chunks.specs.Pieces.{piece_text, IsPiece};
    ghost use Rattle.cx_chunks.specs.Reading.{piece_at};

    ghost text = { piece_text };

    ghost fits = { IsPiece };

    ghost entry_at = { piece_at };

    fn read(alloc: Global, bytes: &[u8]) -> Result<(Self, &[u8]), Stop> {
        piece_at(alloc, bytes)
    }
}

/// The pieces that the bytes of a chunk file are: sections of parts, and lines of scalars, one after another and with nothing
/// else. None where they aren't such a file.
///
/// A part's number needn't be below the number of parts, and its box may lie anywhere: `combine` tests both.
pub fn read_chunk(alloc: Global, bytes: &[u8]) -> Result<Option<List<Piece>>, Memory>
    ensures reads { IfOk result (λ found. ReadsAll piece_text IsPiece bytes.now found) }
    ensures only { IfOk result (λ found. (pieces : ListOf Piece) → SpellsChunk bytes.now pieces
        → found ≡ Some pieces) }
{
    read_all(alloc, bytes)
}
