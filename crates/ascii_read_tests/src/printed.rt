//! What is printed is read back, and printed again as it was.

ghost use Rattle.std.specs.Prelude.{◌≡◌};
ghost use Rattle.cx_grid.specs.Boxes.{point_count};
ghost use Rattle.cx_grid.specs.Grid.{IsShape, whole};

use cx_ascii::{scalar_line, section};
use cx_ascii_read::{Record, read_output};
use cx_grid::{Point, Shape};
use cx_text::{Memory, Text};
use std::alloc::Global;
use std::test::Fail;
use test_cases::same;

/// A plate of two times three points, periodic along x.
fn plate() -> Shape
    ensures shape { IsShape result }
    ensures count { point_count (whole result) ≡ 6 }
{
    Shape {
        dims: 2,
        n: Point { x: 2, y: 3, z: 1 },
        ghost_: Point { x: 1, y: 0, z: 0 },
        periodic: [true, false, false],
    }
}

fn print_section(
    alloc: Global,
    full: &Text,
    iteration: u64,
    values: &[i64],
) -> Result<Text, Memory> {
    if values.len() != 6 {
        return Err(Memory);
    }
    section(alloc, full, iteration, &plate(), values)
}

fn print_record(alloc: Global, record: &Record) -> Result<Text, Memory> {
    let values = record.values.as_slice();
    match values {
        [value] => scalar_line(alloc, &record.full, record.iteration, *value),
        _ => print_section(alloc, &record.full, record.iteration, values),
    }
}

/// A section and a line for each of some iterations.
fn print_run(alloc: Global) -> Result<Text, Memory> {
    let field = Text::from_slice(alloc, b"wave::phi")?;
    let sum = Text::from_slice(alloc, b"wave::total")?;
    let mut text = Text::new(Vec::new(alloc));
    for iteration in [0, 20, 18_446_744_073_709_551_615] {
        let level = print_section(alloc, &field, iteration, &[0, -8, 2, 13, 4, i64::MIN])?;
        text.push_slice(level.as_slice())?;
        text.push_slice(scalar_line(alloc, &sum, iteration, i64::MAX)?.as_slice())?;
    }
    Ok(text)
}

#[test]
fn printed_is_read_and_printed_again(rt: HostRuntime) -> Result<(), Fail> {
    let alloc = rt.alloc();
    let text = print_run(alloc)?;
    let Some(records) = read_output(alloc, text.as_slice())? else {
        return Err(Memory.into());
    };
    same(&"how many records", &records.len(), &6)?;
    let mut again = Text::new(Vec::new(alloc));
    for record in records.as_slice() {
        again.push_slice(print_record(alloc, record)?.as_slice())?;
    }
    same(&"printed again", &again.as_slice(), &text.as_slice())
}
