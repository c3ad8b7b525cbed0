//! Sections and lines that are added to a text.

ghost use Rattle.std.specs.Prelude.{◌≡◌, ◌*◌, ◌++◌, ◌∷◌, [], codes, unsigned_abs, OnOk};
ghost use Rattle.std.specs.Fmt.{decimal};
ghost use Rattle.cx_ascii.specs.Output.{head_text, line, rows_text, section, sizes_text};
ghost use Rattle.cx_grid.specs.Boxes.{along};
ghost use Rattle.cx_grid.specs.Grid.{IsShape};
ghost use Rattle.cx_chunks.specs.Pieces.{numbers_text, place_text};

use crate::own_box::OwnBox;
use crate::place::Place;
use cx_ascii::{head, push_count, push_rows, scalar_line};
use cx_grid::Shape;
use cx_text::{Memory, Text};
use std::alloc::Global;

/// Adds a number with a blank before it.
fn push_number(text: &mut Text, number: u32) -> Result<(), Memory>
    ensures { OnOk result (text.new ≡ text.old ++ (32 ∷ decimal number)) }
{
    text.push_slice(b" ")?;
    push_count(text, u64::from(number))
}

/// Adds numbers with a blank before each.
fn push_numbers(text: &mut Text, numbers: &[u32]) -> Result<(), Memory>
    ensures { OnOk result (text.new ≡ text.old ++ numbers_text numbers.now) }
{
    'numbers: for number in numbers {
        push_number(text, *number)?;
    }
    Ok(())
}

/// Adds where a part is: ` part K of P from A`.
fn push_place(text: &mut Text, place: &Place) -> Result<(), Memory>
    ensures { OnOk result (text.new
        ≡ text.old ++ place_text place.now.part place.now.parts place.now.from) }
{
    text.push_slice(b" part")?;
    push_number(text, place.part)?;
    text.push_slice(b" of")?;
    push_number(text, place.parts)?;
    text.push_slice(b" from")?;
    push_numbers(text, place.from.as_slice())
}

/// Adds what a part's section has before its rows: a head, where the part is, and its sizes.
pub(crate) fn push_section_head(
    alloc: Global,
    text: &mut Text,
    full: &Text,
    iteration: u64,
    own: &OwnBox,
) -> Result<(), Memory>
    ensures { OnOk result (text.new ≡ text.old ++ (head_text full.now iteration
        ++ place_text own.now.place.part own.now.place.parts own.now.place.from
        ++ codes " size" ++ numbers_text own.now.size ++ 10 ∷ [])) }
{
    let head = head(alloc, full, iteration)?;
    text.push_slice(head.as_slice())?;
    push_place(text, &own.place)?;
    text.push_slice(b" size")?;
    push_numbers(text, own.size.as_slice())?;
    text.push_slice(b"\n")
}

/// How many points a grid has in a direction.
fn points_along(shape: &Shape, direction: u8) -> u32
    ensures { result ≡ unsigned_abs (along shape.now.n direction) }
{
    match direction {
        0 => shape.n.x.unsigned_abs(),
        1 => shape.n.y.unsigned_abs(),
        _ => shape.n.z.unsigned_abs(),
    }
}

/// Adds the sizes of a grid with a blank before each.
#[tactic(auto, using(crate::proofs::RowTexts::grown))]
fn push_sizes(text: &mut Text, shape: &Shape) -> Result<(), Memory>
    ensures { OnOk result (text.new ≡ text.old ++ sizes_text shape.now) }
{
    'sizes: for direction in 0..shape.dims {
        push_number(text, points_along(shape, direction))?;
    }
    Ok(())
}

/// Adds what a section has before its rows: a head, and the sizes of the grid.
fn push_grid_head(
    alloc: Global,
    text: &mut Text,
    full: &Text,
    iteration: u64,
    shape: &Shape,
) -> Result<(), Memory>
    ensures { OnOk result (text.new ≡ text.old ++ (head_text full.now iteration
        ++ codes " size" ++ sizes_text shape.now ++ 10 ∷ [])) }
{
    let head = head(alloc, full, iteration)?;
    text.push_slice(head.as_slice())?;
    text.push_slice(b" size")?;
    push_sizes(text, shape)?;
    text.push_slice(b"\n")
}

/// How many rows a grid with these sizes in y and z has.
fn row_count(y: u32, z: u32) -> u64
    ensures { result ≡ y * z }
{
    u64::from(y) * u64::from(z)
}

/// Adds the values of a level, a line for each row along x.
fn push_level(text: &mut Text, shape: &Shape, level: &[i64]) -> Result<(), Memory>
    requires { IsShape shape.now }
    ensures { OnOk result (text.new ≡ text.old ++ rows_text shape.now level.now) }
{
    let width = points_along(shape, 0) as usize;
    let count = row_count(points_along(shape, 1), points_along(shape, 2));
    push_rows(text, width, count, level)
}

/// Adds the section of a level.
pub(crate) fn push_section(
    alloc: Global,
    text: &mut Text,
    full: &Text,
    iteration: u64,
    shape: &Shape,
    level: &[i64],
) -> Result<(), Memory>
    requires { IsShape shape.now }
    ensures { OnOk result (text.new
        ≡ text.old ++ section full.now iteration shape.now level.now) }
{
    push_grid_head(alloc, text, full, iteration, shape)?;
    push_level(text, shape, level)?;
    text.push_slice(b"\n")
}

/// Adds a scalar's line.
pub(crate) fn push_line(
    alloc: Global,
    text: &mut Text,
    full: &Text,
    iteration: u64,
    value: i64,
) -> Result<(), Memory>
    ensures { OnOk result (text.new ≡ text.old ++ line full.now iteration value) }
{
    let line = scalar_line(alloc, full, iteration, value)?;
    text.push_slice(line.as_slice())
}
