//! Rows of a box: values that stand side by side both in the box and in the grid.

ghost use Rattle.std.specs.Prelude.{◌≡◌, ◌≤◌, ◌++◌, pos, length, slice_index_or, take, drop, replicate, OnOk};
ghost use Rattle.cx_chunks.specs.Rows.{values_from};

use cx_text::Memory;

/// The value at a place, or 0 after the last one.
pub(crate) fn value_at(values: &[i64], place: usize) -> i64
    ensures { result ≡ slice_index_or values.now place (pos 0) }
{
    match values.get(place) {
        Some(value) => *value,
        None => 0,
    }
}

/// At most so many values from a place on.
pub(crate) fn run<T>(values: &[T], from: usize, count: usize) -> &[T]
    ensures value { result.now ≡ take count (drop from values.now) }
    ensures few { length result.now ≤ count }
{
    let rest = &values[from.min(values.len())..];
    &rest[..count.min(rest.len())]
}

/// Adds so many zeros.
fn push_zeros(row: &mut Vec<i64>, count: usize) -> Result<(), Memory>
    ensures { OnOk result (row.new.items ≡ row.old.items ++ replicate count (pos 0)) }
{
    'zeros: for _ in 0..count {
        row.push(0)?;
    }
    Ok(())
}

/// Adds so many values from a place on; one that isn't there counts as 0.
pub(crate) fn push_row(
    row: &mut Vec<i64>,
    values: &[i64],
    from: usize,
    count: usize,
) -> Result<(), Memory>
    ensures { OnOk result (row.new.items ≡ row.old.items ++ values_from values.now from count) }
{
    let there = run(values, from, count);
    row.extend_from_slice(there)?;
    push_zeros(row, count - there.len())
}

/// Sets a row to the values from a place on; one that isn't there counts as 0.
pub(crate) fn set_row(row: &mut [i64], values: &[i64], from: usize)
    ensures { row.new ≡ values_from values.now from (length row.old) }
{
    let there = run(values, from, row.len());
    row[..there.len()].copy_from_slice(there);
    row[there.len()..].fill(0);
}
