//! Grids and widths for the tests.

ghost use Rattle.std.specs.Prelude.{◌≡◌, ◌≤◌, IfOk};
ghost use Rattle.cx_grid.specs.Grid.{IsShape};

use cx_cut::even;
use cx_grid::{Point, Shape};
use cx_plan::Cuts;
use cx_text::List;
use std::alloc::Global;
use std::test::Fail;

/// A line of points, with a ghost width, that is a ring or open.
pub(crate) fn line(points: u16, ghosts: u8, ring: bool) -> Shape
    requires some { 1 ≤ points }
    requires few { ghosts ≤ 8 }
    ensures { IsShape result }
{
    Shape {
        dims: 1,
        n: Point {
            x: points as i32,
            y: 1,
            z: 1,
        },
        ghost_: Point {
            x: ghosts as i32,
            y: 0,
            z: 0,
        },
        periodic: [ring, false, false],
    }
}

/// A box of 16 points in each direction, with a ghost width of 2, that is periodic in x alone.
pub(crate) fn block() -> Shape
    ensures { IsShape result }
{
    Shape {
        dims: 3,
        n: Point {
            x: 16,
            y: 16,
            z: 16,
        },
        ghost_: Point { x: 2, y: 2, z: 2 },
        periodic: [true, false, false],
    }
}

fn one(alloc: Global) -> Result<List<u32>, Fail> {
    Ok(List::new(Vec::from_array(alloc, [1])?))
}

/// A line cut into parts of these widths.
pub(crate) fn line_widths(alloc: Global, widths: List<u32>) -> Result<Cuts, Fail> {
    Ok(Cuts {
        x: widths,
        y: one(alloc)?,
        z: one(alloc)?,
    })
}

/// An equal cut of a line.
pub(crate) fn even_line(alloc: Global, points: u32, parts: u32) -> Result<Cuts, Fail>
    requires { 1 ≤ parts }
{
    line_widths(alloc, even(alloc, points, parts)?)
}

/// An equal cut of the block, into as many parts along each direction.
pub(crate) fn even_block(alloc: Global, parts: u32) -> Result<Cuts, Fail>
    requires { 1 ≤ parts }
{
    Ok(Cuts {
        x: even(alloc, 16, parts)?,
        y: even(alloc, 16, parts)?,
        z: even(alloc, 16, parts)?,
    })
}
