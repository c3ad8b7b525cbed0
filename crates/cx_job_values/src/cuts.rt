//! The cut of the grid, by the values of parameters.

ghost use Rattle.std.specs.Prelude.{◌≡◌, map, unsigned_abs, IfOk};
ghost use Rattle.std.specs.List.{filter_map};
ghost use Rattle.cx_job_values.specs.Grids.{width_in, listed_widths, widths_or, equal_widths, points_along, widths_along, cuts_by, cuts_of};

use crate::Direction;
use crate::built_in::{natural_along, text_along};
use crate::grids::{dims_of, points_along};
use cx_bind::Bound;
use cx_cut::even;
use cx_plan::Cuts;
use cx_text::{List, Memory, natural_in, parts_between_blanks};
use cx_values::Values;
use std::alloc::Global;

/// The greatest width of a part.
const MAX_WIDTH: u64 = 16_777_216;

/// The most parts along a direction.
const MAX_PARTS: u32 = 512;

/// The width that a word of digits says.
fn width_in(word: &[u8]) -> Option<u32>
    ensures { result ≡ width_in word.now }
{
    match natural_in(MAX_WIDTH, word) {
        Some(width) => Some(width as u32),
        None => None,
    }
}

/// The widths among the words, in their order; other words are left out.
fn widths_in(alloc: Global, words: &[&[u8]]) -> Result<List<u32>, Memory>
    ensures { IfOk result (λ widths. widths ≡ filter_map width_in (map (λ x. x.now) words.now)) }
{
    let mut widths = List::empty(alloc);
    for word in words {
        match width_in(word) {
            Some(width) => widths.push(width)?,
            None => {}
        }
    }
    Ok(widths)
}

/// The numbers of a text with blanks between.
fn listed_widths(alloc: Global, text: &[u8]) -> Result<List<u32>, Memory>
    ensures { IfOk result (λ widths. widths ≡ listed_widths text.now) }
{
    let parts = parts_between_blanks(alloc, text)?;
    widths_in(alloc, &parts)
}

/// The number of points of a direction, as a natural number.
fn point_count_along(
    alloc: Global,
    dims: u8,
    values: &Values,
    direction: Direction,
) -> Result<u32, Memory>
    ensures { IfOk result (λ n. n ≡ unsigned_abs (points_along dims values.now direction)) }
{
    let points = points_along(alloc, dims, values, direction)?;
    Ok(points.unsigned_abs())
}

/// The widths of an equal cut along a direction.
fn equal_widths(
    alloc: Global,
    dims: u8,
    values: &Values,
    direction: Direction,
) -> Result<List<u32>, Memory>
    ensures { IfOk result (λ widths. widths ≡ equal_widths dims values.now direction) }
{
    let points = point_count_along(alloc, dims, values, direction)?;
    let parts = natural_along(alloc, values, 1, MAX_PARTS, b"driver::parts_", direction)?;
    even(alloc, points, parts)
}

/// The widths that the text lists; if it is empty, those of an equal cut.
fn widths_or(
    alloc: Global,
    text: &[u8],
    dims: u8,
    values: &Values,
    direction: Direction,
) -> Result<List<u32>, Memory>
    ensures { IfOk result
        (λ widths. widths ≡ widths_or text.now (equal_widths dims values.now direction)) }
{
    if text.is_empty() {
        equal_widths(alloc, dims, values, direction)
    } else {
        listed_widths(alloc, text)
    }
}

/// The widths of the parts along a direction.
fn widths_along(
    alloc: Global,
    dims: u8,
    values: &Values,
    direction: Direction,
) -> Result<List<u32>, Memory>
    ensures { IfOk result (λ widths. widths ≡ widths_along dims values.now direction) }
{
    if !direction.is_in(dims) {
        let mut one = List::empty(alloc);
        one.push(1)?;
        return Ok(one);
    }
    let text = text_along(alloc, values, b"driver::widths_", direction)?;
    widths_or(alloc, text, dims, values, direction)
}

/// The cut along each direction, by the values of the parameters.
fn cuts_by(alloc: Global, dims: u8, values: &Values) -> Result<Cuts, Memory>
    ensures { IfOk result (λ cuts. cuts ≡ cuts_by dims values.now) }
{
    Ok(Cuts {
        x: widths_along(alloc, dims, values, Direction::X)?,
        y: widths_along(alloc, dims, values, Direction::Y)?,
        z: widths_along(alloc, dims, values, Direction::Z)?,
    })
}

/// How the grid of a bound configuration is cut, by the values of its parameters.
pub fn cuts_of(alloc: Global, bound: &Bound, values: &Values) -> Result<Cuts, Memory>
    ensures { IfOk result (λ cuts. cuts ≡ cuts_of bound.now values.now) }
{
    cuts_by(alloc, dims_of(bound.thorns().as_slice()), values)
}
