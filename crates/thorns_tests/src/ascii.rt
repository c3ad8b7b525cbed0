//! Sections and lines of the output.

use cx_ascii::{line_length, scalar_line, section, section_length};
use cx_grid::{Point, Shape};
use cx_text::Text;
use std::alloc::Global;
use std::test::Fail;
use test_cases::same;

/// A row of cells, as a section and by its length.
fn row_is_one_line(alloc: Global) -> Result<(), Fail> {
    let shape = Shape {
        dims: 1,
        n: Point { x: 8, y: 1, z: 1 },
        ghost_: Point { x: 1, y: 0, z: 0 },
        periodic: [true, false, false],
    };
    let full = Text::from_slice(alloc, b"ca::cell")?;
    let values: [i64; 8] = [0, 0, 0, 1, 0, 0, 0, 0];
    let text = section(alloc, &full, 0, &shape, &values)?;
    let found = (text.as_slice(), section_length(&full, 0, &shape, &values));
    let want: &[u8] = b"# ca::cell iteration 0 size 8\n0 0 0 1 0 0 0 0\n\n";
    same(&"a row and the length of its section", &found, &(want, 47))
}

/// A scalar, as a line and by its length.
fn scalar_is_one_line(alloc: Global) -> Result<(), Fail> {
    let full = Text::from_slice(alloc, b"wave::total")?;
    let text = scalar_line(alloc, &full, 20, 200)?;
    let found = (text.as_slice(), line_length(&full, 20, 200));
    let want: &[u8] = b"# wave::total iteration 20 value 200\n";
    same(&"a scalar and the length of its line", &found, &(want, 37))
}

#[test]
fn rows_and_scalars_are_one_line_each(rt: HostRuntime) -> Result<(), Fail> {
    row_is_one_line(rt.alloc())?;
    scalar_is_one_line(rt.alloc())
}
