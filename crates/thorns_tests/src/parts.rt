//! The boxes of parts, their owners and their neighbours.

ghost use Rattle.std.specs.Prelude.{◌≡◌, ◌<◌, ◌≤◌};
ghost use Rattle.cx_grid.specs.Grid.{IsShape};
ghost use Rattle.cx_cut.specs.Cuts.{part_count};

use crate::widths::{block, even_block, even_line, line};
use cx_cut::{Cut, cut, even};
use cx_grid::{Point, Shape, Side, contains, whole};
use std::alloc::Global;
use std::test::Fail;
use test_cases::same;

/// A part of a line: the ends of its own points, the ends of its local ones, and its neighbours at the low side and the high one.
type Row = (i32, i32, i32, i32, Option<u32>, Option<u32>);

fn row(cut: &Cut, k: u32) -> Row
    requires { k < part_count cut.now }
{
    let own = cut.part(k);
    let local = cut.local(k);
    let low = cut.neighbour(k, 0, Side::Low);
    let high = cut.neighbour(k, 0, Side::High);
    (own.low.x, own.high.x, local.low.x, local.high.x, low, high)
}

fn rows(alloc: Global, cut: &Cut) -> Result<Vec<Row>, Fail> {
    let mut all = Vec::new(alloc);
    for k in 0..cut.count() {
        all.push(row(cut, k))?;
    }
    Ok(all)
}

/// An equal cut of a line: how many points, the ghost width, whether it is a ring, how many parts; and the parts.
struct Line {
    points: u16,
    ghosts: u8,
    ring: bool,
    parts: u32,
    rows: &'static [Row],
}

const LINES: &[Line] = &[
    Line {
        points: 10,
        ghosts: 1,
        ring: true,
        parts: 3,
        rows: &[
            (0, 4, -1, 5, Some(2), Some(1)),
            (4, 7, 3, 8, Some(0), Some(2)),
            (7, 10, 6, 11, Some(1), Some(0)),
        ],
    },
    Line {
        points: 10,
        ghosts: 1,
        ring: false,
        parts: 3,
        rows: &[
            (0, 4, 0, 5, None, Some(1)),
            (4, 7, 3, 8, Some(0), Some(2)),
            (7, 10, 6, 10, Some(1), None),
        ],
    },
    // one part of a ring is its own neighbour
    Line {
        points: 8,
        ghosts: 2,
        ring: true,
        parts: 1,
        rows: &[(0, 8, -2, 10, Some(0), Some(0))],
    },
];

/// The parts of an equal cut of a line.
fn line_rows(alloc: Global, of: &Line) -> Result<Vec<Row>, Fail> {
    let shape = line(of.points.max(1), of.ghosts.min(8), of.ring);
    let widths = even_line(alloc, of.points as u32, of.parts.max(1))?;
    let made = cut(alloc, &shape, &widths)?;
    rows(alloc, &made)
}

/// A line has the parts that its row says.
fn line_has_parts(alloc: Global, line: &Line) -> Result<(), Fail> {
    let all = line_rows(alloc, line)?;
    let name = ("points, parts, a ring", line.points, line.parts, line.ring);
    same(&name, &all.as_slice(), &line.rows)
}

#[test]
fn parts_of_lines_and_their_neighbours(rt: HostRuntime) -> Result<(), Fail> {
    for line in LINES {
        line_has_parts(rt.alloc(), line)?;
    }
    Ok(())
}

/// Points, parts, and the widths of their equal cut.
type Equal = (u32, u32, &'static [u32]);

const EQUAL: &[Equal] = &[
    (11, 4, &[3, 3, 3, 2]),
    (10, 3, &[4, 3, 3]),
    (8, 4, &[2, 2, 2, 2]),
    (2, 3, &[1, 1, 0]),
    (0, 1, &[0]),
    (4294967295, 2, &[2147483648, 2147483647]),
];

/// An equal cut has the widths that its row says.
fn equal_cut_has(alloc: Global, row: &Equal) -> Result<(), Fail> {
    let (points, parts, want) = *row;
    let widths = even(alloc, points, parts.max(1))?;
    same(&(points, "points, parts", parts), &widths.as_slice(), &want)
}

#[test]
fn the_first_parts_of_an_equal_cut_are_wider(rt: HostRuntime) -> Result<(), Fail> {
    for row in EQUAL {
        equal_cut_has(rt.alloc(), row)?;
    }
    Ok(())
}

/// The part that owns a point, if the grid has it.
fn owner(cut: &Cut, shape: &Shape, p: Point) -> Option<u32>
    requires shape { IsShape shape.now }
    requires same { cut.now.shape ≡ shape.now }
{
    if contains(&whole(shape), p) {
        Some(cut.owner(p))
    } else {
        None
    }
}

/// How many parts own both their first point and their last one.
fn owners(cut: &Cut, shape: &Shape) -> u32
    requires shape { IsShape shape.now }
    requires same { cut.now.shape ≡ shape.now }
{
    let mut found = 0u32;
    for k in 0..cut.count() {
        let own = cut.part(k);
        let last = Point {
            x: own.high.x - 1,
            y: own.high.y - 1,
            z: own.high.z - 1,
        };
        if owner(cut, shape, own.low) == Some(k) && owner(cut, shape, last) == Some(k) {
            found = found.saturating_add(1);
        }
    }
    found
}

/// A part's neighbours at the low side and the high one of a direction, if the cut has the part.
fn beside(cut: &Cut, k: u32, dir: u8) -> Option<(Option<u32>, Option<u32>)>
    requires { dir < 3 }
{
    if k < cut.count() {
        let low = cut.neighbour(k, dir, Side::Low);
        let high = cut.neighbour(k, dir, Side::High);
        Some((low, high))
    } else {
        None
    }
}

/// How many parts the block has that is cut into 8 along each direction, and how many own both their first point and their last one.
fn block_owners(alloc: Global) -> Result<(u32, u32), Fail> {
    let shape = block();
    let block = cut(alloc, &shape, &even_block(alloc, 8)?)?;
    Ok((block.count(), owners(&block, &shape)))
}

/// A part of the block that is cut into 2 along each direction, a direction, and the part's neighbours.
type Beside = (u32, u8, Option<(Option<u32>, Option<u32>)>);

const BESIDE: &[Beside] = &[
    (5, 0, Some((Some(4), Some(4)))),
    (5, 1, Some((None, Some(7)))),
    (5, 2, Some((Some(1), None))),
    (8, 0, None),
];

/// A part has the neighbours that its row says.
fn is_beside(block: &Cut, row: &Beside) -> Result<(), Fail> {
    let (part, direction, want) = *row;
    let found = beside(block, part, direction % 3);
    same(&("part", part, "along direction", direction), &found, &want)
}

#[test]
fn owners_and_neighbours_in_three_directions(rt: HostRuntime) -> Result<(), Fail> {
    let owners = block_owners(rt.alloc())?;
    same(&"parts of a block and their owners", &owners, &(512, 512))?;
    let block = cut(rt.alloc(), &block(), &even_block(rt.alloc(), 2)?)?;
    for row in BESIDE {
        is_beside(&block, row)?;
    }
    Ok(())
}
