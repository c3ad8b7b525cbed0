//! Which widths cut a grid, and which fault the others have.

ghost use Rattle.cx_grid.specs.Grid.{IsShape};

use crate::widths::{block, even_block, even_line, line, line_widths};
use cx_cut::{CutFault, cut};
use cx_grid::Shape;
use cx_plan::Cuts;
use cx_text::List;
use std::alloc::Global;
use std::test::Fail;
use test_cases::same;

/// The fault of widths, if they have one.
fn fault_of(alloc: Global, shape: &Shape, widths: &Cuts) -> Option<CutFault>
    requires { IsShape shape.now }
{
    match cut(alloc, shape, widths) {
        Ok(_) => None,
        Err(fault) => Some(fault),
    }
}

/// How many points a line has, its ghost width, and whether it is a ring.
type Line = (u16, u8, bool);

/// A ring of ten points with ghost width 2.
const RING: Line = (10, 2, true);

/// A line, widths of it, and the fault of these.
type LineWidths = (Line, &'static [u32], Option<CutFault>);

const WIDTHS: &[LineWidths] = &[
    (RING, &[10], None),
    (RING, &[2, 8], None),
    (RING, &[4, 4, 2], None),
    (RING, &[1, 9], Some(CutFault::PartTooThin(1, 2))),
    (RING, &[9, 1], Some(CutFault::PartTooThin(1, 2))),
    (RING, &[1, 9, 0], Some(CutFault::PartTooThin(1, 2))),
    (RING, &[10, 0], Some(CutFault::PartTooThin(0, 2))),
    (RING, &[4, 4], Some(CutFault::WidthsDiffer(8, 10))),
    (RING, &[4, 7], Some(CutFault::WidthsDiffer(11, 10))),
    (RING, &[], Some(CutFault::WidthsDiffer(0, 10))),
    (
        RING,
        &[4294967295, 11],
        Some(CutFault::WidthsDiffer(4294967306, 10)),
    ),
    // an open line has an interior point
    ((4, 2, false), &[4], Some(CutFault::GridTooSmall(4, 5))),
    ((4, 2, false), &[1, 3], Some(CutFault::GridTooSmall(4, 5))),
    ((5, 2, false), &[5], None),
    ((4, 2, true), &[4], None),
    ((4, 2, false), &[5], Some(CutFault::WidthsDiffer(5, 4))),
    // without ghosts no part is empty either
    ((3, 0, false), &[1, 0, 2], Some(CutFault::PartTooThin(0, 1))),
    ((3, 0, false), &[1, 1, 1], None),
];

/// The fault of the widths of a line.
fn line_fault(alloc: Global, of: Line, widths: &[u32]) -> Result<Option<CutFault>, Fail> {
    let (points, ghosts, ring) = of;
    let shape = line(points.max(1), ghosts.min(8), ring);
    let widths = line_widths(alloc, List::new(widths.to_vec(alloc)?))?;
    Ok(fault_of(alloc, &shape, &widths))
}

/// A line, the number of parts of its equal cut, and the fault of that: a grid has at most 512 parts.
type LineParts = (Line, u32, Option<CutFault>);

const PARTS: &[LineParts] = &[
    ((512, 0, true), 512, None),
    ((513, 0, true), 513, Some(CutFault::TooMany(513, 512))),
    ((513, 2, true), 513, Some(CutFault::TooMany(513, 512))),
    ((16, 2, true), 9, Some(CutFault::PartTooThin(1, 2))),
];

/// The fault of a line that is cut into so many parts.
fn parts_fault(alloc: Global, of: Line, parts: u32) -> Result<Option<CutFault>, Fail> {
    let (points, ghosts, ring) = of;
    let shape = line(points.max(1), ghosts.min(8), ring);
    let widths = even_line(alloc, points as u32, parts.max(1))?;
    Ok(fault_of(alloc, &shape, &widths))
}

/// The fault of the block that is cut into as many parts along each direction.
fn block_fault(alloc: Global, parts: u32) -> Result<Option<CutFault>, Fail> {
    let widths = even_block(alloc, parts.max(1))?;
    Ok(fault_of(alloc, &block(), &widths))
}

/// The widths of a line have the fault that their row says.
fn widths_have(alloc: Global, row: &LineWidths) -> Result<(), Fail> {
    let (line, widths, want) = *row;
    let fault = line_fault(alloc, line, widths)?;
    same(&(line, "in widths", widths), &fault, &want)
}

/// The equal cut of a line has the fault that its row says.
fn parts_have(alloc: Global, row: &LineParts) -> Result<(), Fail> {
    let (line, parts, want) = *row;
    let fault = parts_fault(alloc, line, parts)?;
    same(&(line, "in parts", parts), &fault, &want)
}

/// The block can be cut into as many parts along each direction.
fn block_is_cut(alloc: Global, parts: u32) -> Result<(), Fail> {
    let fault = block_fault(alloc, parts)?;
    same(&("a block, parts each way", parts), &fault, &None)
}

#[test]
fn widths_cut_a_grid_or_have_their_first_fault(rt: HostRuntime) -> Result<(), Fail> {
    for row in WIDTHS {
        widths_have(rt.alloc(), row)?;
    }
    for row in PARTS {
        parts_have(rt.alloc(), row)?;
    }
    block_is_cut(rt.alloc(), 7)?;
    block_is_cut(rt.alloc(), 8)
}
