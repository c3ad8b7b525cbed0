//! Where a part is.
ghost use Rattle.cx_ascii_read.specs.Reading.{Gives};
ghost use Rattle.cx_chunks.specs.Reading.{word_at, from_at, place_at};

use cx_ascii_read::{Stop, number_at, skip_text, strip_text};
use cx_text::List;
use std::alloc::Global;

/// A part's number, the number of parts, and the coordinates of its first point.
#[derive(Debug, Drop)]
pub(crate) struct Place {
    pub part: u32,
    pub parts: u32,
    pub from: List<u32>,
}

/// A number of 32 bits, and a blank after it.
fn word_at(bytes: &[u8]) -> Result<(u32, &[u8]), Stop>
    ensures { Gives (λ x. (x.0, x.1.now)) result (word_at bytes.now) }
{
    let (number, rest) = number_at(u32::MAX as u64, bytes)?;
    Ok((number as u32, rest))
}

/// At most so many coordinates more, each with a blank after it, up to the word `size`.
#[tactic(auto, unfolding(crate::specs::Reading::from_at))]
fn from_at(mut from: List<u32>, more: u8, bytes: &[u8]) -> Result<(List<u32>, &[u8]), Stop>
    ensures { Gives (λ x. (x.0, x.1.now)) result (from_at more from bytes.now) }
{
    if let Some(sizes) = strip_text(b"size ", bytes) {
        return Ok((from, sizes));
    }
    if more == 0 {
        return Err(Stop::Other);
    }
    let (number, rest) = word_at(bytes)?;
    from.push(number)?;
    from_at(from, more - 1, rest)
}

/// A place, after the word `part` and up to the word `size`.
#[tactic(auto, unfolding(crate::specs::Reading::place_at))]
pub(crate) fn place_at(alloc: Global, bytes: &[u8]) -> Result<(Place, &[u8]), Stop>
    ensures { Gives (λ x. (x.0, x.1.now)) result (place_at bytes.now) }
{
    let (part, rest) = word_at(bytes)?;
    let rest = skip_text(b"of ", rest)?;
    let (parts, rest) = word_at(rest)?;
    let rest = skip_text(b"from ", rest)?;
    let (from, rest) = from_at(List::empty(alloc), 3, rest)?;
    Ok((Place { part, parts, from }, rest))
}
