//! The lines that tell how the grid of a job is cut.

ghost use Rattle.std.specs.Prelude.{◌≡◌, ◌≤◌, ◌<◌, ◌++◌, None, unsigned_abs, IfOk, OnOk};
ghost use Rattle.std.specs.List.{flat_map};
ghost use Rattle.cx_grid.specs.Boxes.{along};
ghost use Rattle.cx_grid.specs.Grid.{IsShape};
ghost use Rattle.cx_cut.specs.Axis.{IsEnd};
ghost use Rattle.cx_cut.specs.Cuts.{IsCorner, part_count, widths};
ghost use Rattle.cx_cut.specs.Faults.{parts_of, cut_fault};
ghost use Rattle.cx_run.specs.CutTexts.{number_text, cut_line, cut_lines, size_of, point_text, neighbour_text, side_text, place_text, sides_text, part_line, parts_text};
ghost use Rattle.std.specs.Int.{int_gap};
ghost use Rattle.std.specs.Prelude.{pos};

use crate::fault_words::push_number;
use cx_cut::{Cut, CutFault, cut};
use cx_grid::{Box3, Point, Side};
use cx_job::direction_letter;
use cx_plan::Job;
use cx_text::{Memory, Text};
use std::alloc::Global;

/// The widths of the parts along a direction.
fn widths(job: &Job, direction: u8) -> &[u32]
    ensures { result.now ≡ widths (parts_of job.now.shape job.now.cut) direction }
{
    match direction {
        0 => job.cut.x.as_slice(),
        1 => job.cut.y.as_slice(),
        _ => job.cut.z.as_slice(),
    }
}

/// Adds widths, each after a blank.
fn push_widths(text: &mut Text, alloc: Global, widths: &[u32]) -> Result<(), Memory>
    ensures { OnOk result (text.new ≡ text.old ++ flat_map number_text widths.now) }
{
    'widths: for width in widths {
        push_number(text, alloc, u64::from(*width))?;
    }
    Ok(())
}

/// Adds a direction with the widths of its parts.
fn push_cut_line(text: &mut Text, alloc: Global, job: &Job, direction: u8) -> Result<(), Memory>
    ensures { OnOk result
        (text.new ≡ text.old ++ cut_line (parts_of job.now.shape job.now.cut) direction) }
{
    text.push_slice(b"cut ")?;
    text.push_slice(direction_letter(direction))?;
    push_widths(text, alloc, widths(job, direction))?;
    text.push_slice(b"\n")
}

/// Adds a line for each direction of the grid with the widths of its parts.
pub(crate) fn push_cut_lines(text: &mut Text, alloc: Global, job: &Job) -> Result<(), Memory>
    ensures { OnOk result
        (text.new ≡ text.old ++ cut_lines (parts_of job.now.shape job.now.cut)) }
{
    'directions: for direction in 0..job.shape.dims {
        push_cut_line(text, alloc, job, direction)?;
    }
    Ok(())
}

/// How far the second end is above the first.
fn gap(low: i32, high: i32) -> i32
    requires low { IsEnd low }
    requires high { IsEnd high }
    ensures { result ≡ pos (int_gap low high) }
{
    (high - low).max(0)
}

/// How many points a box has in each direction.
fn size_of(b: &Box3) -> Point
    requires low { IsCorner b.now.low }
    requires high { IsCorner b.now.high }
    ensures { result ≡ size_of b.now }
{
    Point {
        x: gap(b.low.x, b.high.x),
        y: gap(b.low.y, b.high.y),
        z: gap(b.low.z, b.high.z),
    }
}

/// How far a coordinate of a point is from 0.
fn coordinate(p: Point, direction: u8) -> u32
    ensures { result ≡ unsigned_abs (along p direction) }
{
    match direction {
        0 => p.x.unsigned_abs(),
        1 => p.y.unsigned_abs(),
        _ => p.z.unsigned_abs(),
    }
}

/// Adds the numbers of a point, each after a blank.
fn push_point(text: &mut Text, alloc: Global, dims: u8, p: Point) -> Result<(), Memory>
    ensures { OnOk result (text.new ≡ text.old ++ point_text dims p) }
{
    'directions: for direction in 0..dims {
        push_number(text, alloc, u64::from(coordinate(p, direction)))?;
    }
    Ok(())
}

/// Adds a neighbour, or a dash, after a blank.
fn push_neighbour(text: &mut Text, alloc: Global, neighbour: Option<u32>) -> Result<(), Memory>
    ensures { OnOk result (text.new ≡ text.old ++ neighbour_text neighbour) }
{
    match neighbour {
        Some(part) => push_number(text, alloc, u64::from(part)),
        None => text.push_slice(b" -"),
    }
}

/// Adds the neighbours of a part at a side.
fn push_side(
    text: &mut Text,
    alloc: Global,
    cut: &Cut,
    dims: u8,
    part: u32,
    side: Side,
) -> Result<(), Memory>
    requires part { part < part_count cut.now }
    requires dims { dims ≡ cut.now.shape.dims }
    requires most { dims ≤ 3 }
    ensures { OnOk result (text.new ≡ text.old ++ side_text cut.now part side) }
{
    'directions: for direction in 0..dims {
        push_neighbour(text, alloc, cut.neighbour(part, direction, side))?;
    }
    Ok(())
}

/// Adds a part's number, where its own points begin, and how many they are.
fn push_place(text: &mut Text, alloc: Global, cut: &Cut, dims: u8, part: u32) -> Result<(), Memory>
    requires part { part < part_count cut.now }
    requires dims { dims ≡ cut.now.shape.dims }
    ensures { OnOk result (text.new ≡ text.old ++ place_text cut.now part) }
{
    let own = cut.part(part);
    text.push_slice(b"part")?;
    push_number(text, alloc, u64::from(part))?;
    text.push_slice(b" from")?;
    push_point(text, alloc, dims, own.low)?;
    text.push_slice(b" size")?;
    push_point(text, alloc, dims, size_of(&own))
}

/// Adds the neighbours of a part.
fn push_sides(text: &mut Text, alloc: Global, cut: &Cut, dims: u8, part: u32) -> Result<(), Memory>
    requires part { part < part_count cut.now }
    requires dims { dims ≡ cut.now.shape.dims }
    requires most { dims ≤ 3 }
    ensures { OnOk result (text.new ≡ text.old ++ sides_text cut.now part) }
{
    text.push_slice(b" low")?;
    push_side(text, alloc, cut, dims, part, Side::Low)?;
    text.push_slice(b" high")?;
    push_side(text, alloc, cut, dims, part, Side::High)?;
    text.push_slice(b"\n")
}

/// Adds a part.
fn push_part(text: &mut Text, alloc: Global, cut: &Cut, dims: u8, part: u32) -> Result<(), Memory>
    requires part { part < part_count cut.now }
    requires dims { dims ≡ cut.now.shape.dims }
    requires most { dims ≤ 3 }
    ensures { OnOk result (text.new ≡ text.old ++ part_line cut.now part) }
{
    push_place(text, alloc, cut, dims, part)?;
    push_sides(text, alloc, cut, dims, part)
}

/// Adds all parts.
fn push_parts(text: &mut Text, alloc: Global, cut: &Cut, dims: u8) -> Result<(), Memory>
    requires dims { dims ≡ cut.now.shape.dims }
    requires most { dims ≤ 3 }
    ensures { OnOk result (text.new ≡ text.old ++ parts_text cut.now) }
{
    'parts: for part in 0..cut.count() {
        push_part(text, alloc, cut, dims, part)?;
    }
    Ok(())
}

/// The grid, cut as the job says.
fn cut_of(alloc: Global, job: &Job) -> Result<Cut, Memory>
    requires shape { IsShape job.now.shape }
    requires cut { cut_fault (parts_of job.now.shape job.now.cut) ≡ None }
    ensures { IfOk result (λ cut. cut ≡ parts_of job.now.shape job.now.cut) }
{
    match cut(alloc, &job.shape, &job.cut) {
        Ok(cut) => Ok(cut),
        Err(CutFault::Memory) => Err(Memory),
        Err(_) => unreachable!(),
    }
}

/// The parts of a job's grid as text, a line for each: its number, and with one number for each direction where its own points begin, how
/// many they are, and its neighbours at the low and at the high side, with a dash where it has none. It asks for a job whose cut `cut`
/// of cx_cut accepts, as that of each job from `make_job` is. It fails where memory runs out.
pub fn parts_text(alloc: Global, job: &Job) -> Result<Text, Memory>
    requires shape { IsShape job.now.shape }
    requires cut { cut_fault (parts_of job.now.shape job.now.cut) ≡ None }
    ensures { IfOk result (λ text. text ≡ parts_text (parts_of job.now.shape job.now.cut)) }
{
    let cut = cut_of(alloc, job)?;
    let mut text = Text::from_slice(alloc, b"")?;
    push_parts(&mut text, alloc, &cut, job.shape.dims)?;
    Ok(text)
}
