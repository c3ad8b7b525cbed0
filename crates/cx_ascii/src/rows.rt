//! The sizes of a grid, and its rows.

ghost use Rattle.std.specs.Prelude.{◌≡◌, ◌*◌, ◌++◌, [], ◌∷◌, OnOk, unsigned_abs, min, length, take, drop};
ghost use Rattle.std.specs.List.{flat_map, range_with_len};
ghost use Rattle.std.specs.Fmt.{decimal};
ghost use Rattle.cx_grid.specs.Boxes.{along, extent};
ghost use Rattle.cx_grid.specs.Grid.{IsShape, whole};
ghost use Rattle.cx_ascii.specs.Output.{size_of, sizes_text, row_of, row_in, rows_in, rows_text, values_of};

use crate::numbers::{push_count, push_others, push_value};
use cx_grid::Shape;
use cx_text::{Memory, Text};

/// The number of points of a direction.
pub(crate) fn size(shape: &Shape, direction: u8) -> u32
    ensures { result ≡ unsigned_abs (along shape.now.n direction) }
{
    match direction {
        0 => shape.n.x.unsigned_abs(),
        1 => shape.n.y.unsigned_abs(),
        _ => shape.n.z.unsigned_abs(),
    }
}

/// The sizes of the grid's directions, a blank before each.
#[tactic(auto, using(crate::proofs::MoreRows::grown))]
pub(crate) fn push_sizes(text: &mut Text, shape: &Shape) -> Result<(), Memory>
    ensures { OnOk result (text.new ≡ text.old ++ sizes_text shape.now) }
{
    'sizes: for direction in 0..shape.dims {
        push_size(text, size(shape, direction))?;
    }
    Ok(())
}

/// Adds a blank and a size.
fn push_size(text: &mut Text, size: u32) -> Result<(), Memory>
    ensures { OnOk result (text.new ≡ text.old ++ (32 ∷ decimal size)) }
{
    text.push_slice(b" ")?;
    push_count(text, u64::from(size))
}

/// The values in decimal, one blank between, and the end of the line.
fn push_row(text: &mut Text, values: &[i64]) -> Result<(), Memory>
    ensures { OnOk result (text.new ≡ text.old ++ (values_of values.now ++ 10 ∷ [])) }
{
    push_values(text, values)?;
    text.push_slice(b"\n")
}

/// Adds the numbers of a row with blanks between them.
fn push_values(text: &mut Text, values: &[i64]) -> Result<(), Memory>
    ensures { OnOk result (text.new ≡ text.old ++ values_of values.now) }
{
    let Some((first, others)) = values.split_first() else {
        return Ok(());
    };
    push_value(text, *first)?;
    push_others(text, others)
}

/// Adds `count` rows of `width` values each at the end, from the first value on. A row that the values don't fill ends with
/// the last of them.
#[tactic(auto, using(crate::proofs::MoreRows::row_grown, crate::proofs::MoreRows::rest_next, crate::proofs::MoreRows::none_dropped))]
pub fn push_rows(text: &mut Text, width: usize, count: u64, values: &[i64]) -> Result<(), Memory>
    ensures { OnOk result (text.new ≡ text.old ++ rows_in width values.now count) }
{
    let mut rest = values;
    'rows: for _ in 0..count {
        let (row, others) = rest.split_at(width.min(rest.len()));
        push_row(text, row)?;
        rest = others;
    }
    Ok(())
}

/// The values of a level, in rows along x.
pub(crate) fn push_level(text: &mut Text, shape: &Shape, values: &[i64]) -> Result<(), Memory>
    requires { IsShape shape.now }
    ensures { OnOk result (text.new ≡ text.old ++ rows_text shape.now values.now) }
{
    let width = size(shape, 0) as usize;
    let count = row_count(size(shape, 1), size(shape, 2));
    push_rows(text, width, count, values)
}

/// How many rows a grid with these sizes in y and z has.
fn row_count(y: u32, z: u32) -> u64
    ensures { result ≡ y * z }
{
    u64::from(y) * u64::from(z)
}
