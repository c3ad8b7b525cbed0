//! The lengths of sections and lines.

ghost use Rattle.std.specs.Prelude.{◌≡◌, ◌≤◌, ◌+◌, ◌*◌, ◌^◌, ◌++◌, codes, length};
ghost use Rattle.std.specs.List.{flat_map, range_with_len};
ghost use Rattle.std.specs.Fmt.{decimal, signed_decimal};
ghost use Rattle.cx_grid.specs.Boxes.{point_count};
ghost use Rattle.cx_grid.specs.Grid.{IsShape, whole};
ghost use Rattle.cx_ascii.specs.Output.{section, line, head_text, sizes_text, size_of, after_blank};

use crate::rows::size;
use cx_grid::Shape;
use cx_text::Text;

/// How many bytes `section` gives.
#[tactic(auto, using(crate::proofs::LengthLaws::section_by))]
pub fn section_length(full: &Text, iteration: u64, shape: &Shape, values: &[i64]) -> u64
    requires shape { IsShape shape.now }
    requires values { length values.now ≡ point_count (whole shape.now) }
    ensures { result ≡ length (section full.now iteration shape.now values.now) }
{
    head_length(full, iteration) + sizes_length(shape) + values_length(values) + 7
}

/// How many bytes `scalar_line` gives.
pub fn line_length(full: &Text, iteration: u64, value: i64) -> u64
    ensures { result ≡ length (line full.now iteration value) }
{
    head_length(full, iteration) + value_length(value) + 8
}

/// The length of a section's head: full name, iteration and fixed words.
fn head_length(full: &Text, iteration: u64) -> u64
    ensures value { result ≡ length (head_text full.now iteration) }
    ensures few { result ≤ 2 ^ 63 + 40 }
{
    full.as_slice().len() as u64 + digits(iteration) + 13
}

/// The length of the sizes, each with the blank before it.
fn sizes_length(shape: &Shape) -> u64
    requires { shape.now.dims ≤ 3 }
    ensures value { result ≡ length (sizes_text shape.now) }
    ensures few { result ≤ 63 }
{
    let mut total = 0;
    'sizes: for direction in 0..shape.dims {
        total += digits(u64::from(size(shape, direction))) + 1;
    }
    total
}

/// The length of the values, with a blank or the end of a line behind each.
fn values_length(values: &[i64]) -> u64
    requires { length values.now ≤ 2 ^ 24 }
    ensures value { result ≡ length (flat_map after_blank values.now) }
    ensures few { result ≤ 22 * length values.now }
{
    let mut total = 0;
    'values: for value in values {
        total += value_length(*value) + 1;
    }
    total
}

/// The length of a number in decimal, with its sign.
fn value_length(value: i64) -> u64
    ensures value { result ≡ length (signed_decimal value) }
    ensures few { result ≤ 21 }
{
    let digits = digits(value.unsigned_abs());
    if value < 0 { digits + 1 } else { digits }
}

/// How many digits a number has in decimal.
#[tactic(auto, using(crate::proofs::LengthLaws::digits_by, crate::proofs::LengthLaws::digit_of_none))]
fn digits(n: u64) -> u64
    ensures value { result ≡ length (decimal n) }
    ensures few { result ≤ 20 }
{
    match n.checked_ilog10() {
        None => 1,
        Some(power) => u64::from(power) + 1,
    }
}
