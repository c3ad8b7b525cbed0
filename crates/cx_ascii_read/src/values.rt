//! The sizes and the values of a section.

ghost use Rattle.std.specs.Prelude.{◌≡◌, ◌≤◌, length, slice_index_or};
ghost use Rattle.cx_ascii_read.specs.Reading.{Gives, with_front, sizes_at, row_at, rows_at, more_in_row, row_count, level_at, grid_at};

use crate::words::{Stop, size_at, skip, value_at};
use cx_text::List;
use std::alloc::Global;

/// One to three sizes, blanks between and the end of the line behind.
fn sizes_at(alloc: Global, bytes: &[u8]) -> Result<(List<u32>, &[u8]), Stop>
    ensures { Gives (λ x. (x.0, x.1.now)) result (sizes_at 3 bytes.now) }
{
    let mut sizes = List::empty(alloc);
    let mut rest = bytes;
    'each: for _ in 0..3_u8 {
        let (size, last, after) = size_at(rest)?;
        sizes.push(size)?;
        if last {
            return Ok((sizes, after));
        }
        rest = after;
    }
    Err(Stop::Other)
}

/// Adds the values of a row at the end: `more` of them with a blank after each, and the last of the line.
#[inline(never)]
fn push_row<'a>(values: &mut Vec<i64>, more: u32, bytes: &'a [u8]) -> Result<&'a [u8], Stop>
    ensures { Gives (λ rest. (values.new.items, rest.now)) result
        (with_front values.old.items (row_at more bytes.now)) }
{
    let mut rest = bytes;
    'each: for _ in 0..more {
        let (value, after) = value_at(b' ', rest)?;
        values.push(value)?;
        rest = after;
    }
    let (value, rest) = value_at(b'\n', rest)?;
    values.push(value)?;
    Ok(rest)
}

/// Adds the values of so many rows at the end.
fn push_rows<'a>(
    values: &mut Vec<i64>,
    more: u32,
    count: u64,
    bytes: &'a [u8],
) -> Result<&'a [u8], Stop>
    ensures { Gives (λ rest. (values.new.items, rest.now)) result
        (with_front values.old.items (rows_at more count bytes.now)) }
{
    let mut rest = bytes;
    'each: for _ in 0..count {
        rest = push_row(values, more, rest)?;
    }
    Ok(rest)
}

/// How many points a direction has: one where the grid doesn't have it.
fn points_along(sizes: &[u32], direction: usize) -> u32
    ensures { result ≡ slice_index_or sizes.now direction 1 }
{
    match sizes.get(direction) {
        Some(points) => *points,
        None => 1,
    }
}

/// How many values a row has after its first one.
fn more_in_row(sizes: &[u32]) -> u32
    ensures { result ≡ more_in_row sizes.now }
{
    points_along(sizes, 0).saturating_sub(1)
}

/// How many rows a section has.
fn row_count(sizes: &[u32]) -> u64
    ensures { result ≡ row_count sizes.now }
{
    u64::from(points_along(sizes, 1)) * u64::from(points_along(sizes, 2))
}

/// For how many values room is made: for all that a section's sizes say, but for no more than the bytes can hold.
fn room(more: u32, count: u64, bytes: &[u8]) -> usize
    ensures { result ≤ length bytes.now }
{
    let said = (u64::from(more) + 1).saturating_mul(count);
    (bytes.len() / 2).min(said as usize)
}

/// The values of a level with these sizes.
fn level_at<'a>(
    alloc: Global,
    sizes: &[u32],
    bytes: &'a [u8],
) -> Result<(List<i64>, &'a [u8]), Stop>
    ensures { Gives (λ x. (x.0, x.1.now)) result (level_at sizes.now bytes.now) }
{
    let more = more_in_row(sizes);
    let count = row_count(sizes);
    let mut values = Vec::new(alloc);
    values.reserve_exact(room(more, count, bytes))?;
    let rest = push_rows(&mut values, more, count, bytes)?;
    Ok((List::new(values), rest))
}

/// Sizes, the values of a level of these sizes in rows, and what comes after the empty line that ends them.
#[tactic(auto, unfolding(crate::specs::Reading::grid_at))]
pub fn grid_at(alloc: Global, bytes: &[u8]) -> Result<(List<u32>, List<i64>, &[u8]), Stop>
    ensures { Gives (λ x. ((x.0, x.1), x.2.now)) result (grid_at bytes.now) }
{
    let (size, rest) = sizes_at(alloc, bytes)?;
    let (values, rest) = level_at(alloc, size.as_slice(), rest)?;
    let rest = skip(b'\n', rest)?;
    Ok((size, values, rest))
}
