//! The rows of a box, and the places of a row that a zone holds.
ghost use Rattle.std.specs.Prelude.{◌≡◌, ◌<◌, ◌≤◌, ◌+◌, ◌*◌, ◌%◌, ◌≤ℤ◌, ◌&&◌, length};
ghost use Rattle.std.specs.Int.{int_gap};
ghost use Rattle.cx_grid.specs.Boxes.{IsBox, IsSmall, is_on, extent, point_count};
ghost use Rattle.cx_rule.specs.Runs.{row_count, IsOffset, IsSpan, IsBetween, IsRuns, numbers_on};

use crate::zone::Zone;
use cx_grid::{Box3, Point, count, point_at};

/// Places of a row, from the one on and below the other.
#[derive(Clone, Copy)]
pub(crate) struct Span {
    pub(crate) from: usize,
    pub(crate) to: usize,
}

/// The places of a row that a zone holds: those before its hole, and those behind it.
#[derive(Clone, Copy)]
pub(crate) struct Runs {
    pub(crate) before: Span,
    pub(crate) behind: Span,
}

/// The places from the one on and below the other.
pub(crate) fn places(from: usize, to: usize) -> Span
    ensures from { result.from ≡ from }
    ensures to { result.to ≡ to }
{
    Span { from, to }
}

/// How far the second number is above the first.
fn gap(low: i32, high: i32) -> usize
    requires { low ≤ℤ high }
    ensures { result ≡ int_gap low high }
{
    (high as i64 - low as i64) as usize
}

/// How many points a row of a box has.
pub(crate) fn width(b: &Box3) -> usize
    requires { IsBox b.now }
    ensures { result ≡ extent b.now 0 }
{
    gap(b.low.x, b.high.x)
}

/// How many rows a box has.
pub(crate) fn row_count(b: &Box3) -> usize
    requires ordered { IsBox b.now }
    requires small { IsSmall b.now }
    requires wide { 0 < extent b.now 0 }
    ensures { result ≡ row_count b.now }
{
    count(b) / width(b)
}

/// The place of a row's first point.
pub(crate) fn row_start(b: &Box3, row: usize) -> usize
    requires ordered { IsBox b.now }
    requires small { IsSmall b.now }
    requires wide { 0 < extent b.now 0 }
    requires row { row < row_count b.now }
    ensures value { result ≡ row * extent b.now 0 }
    ensures room { result + extent b.now 0 ≤ point_count b.now }
    ensures first { result % extent b.now 0 ≡ 0 }
{
    row * width(b)
}

/// The first place of a row that has this coordinate or a greater one.
fn offset(b: &Box3, c: i32) -> usize
    requires { IsBox b.now }
    ensures { IsOffset b.now c result }
{
    gap(b.low.x, c.max(b.low.x).min(b.high.x))
}

/// Whether a box holds points of the row that begins at a point, or would if it were long enough.
fn has_row(part: &Box3, low: Point) -> bool
    ensures { result ≡ (is_on part.now.low.y part.now.high.y low.y
        && is_on part.now.low.z part.now.high.z low.z) }
{
    is_on(part.low.y, part.high.y, low.y) && is_on(part.low.z, part.high.z, low.z)
}

/// Whether a number lies from the one up to the other, which is excluded.
fn is_on(low: i32, high: i32, c: i32) -> bool
    ensures { result ≡ is_on low high c }
{
    low <= c && c < high
}

/// The places at which points of another box stand in the row that begins at a point.
fn span_in(part: &Box3, b: &Box3, low: Point) -> Span
    requires ordered { IsBox b.now }
    requires start { low.x ≡ b.now.low.x }
    ensures { IsSpan part.now b.now low result }
{
    if has_row(part, low) {
        let from = offset(b, part.low.x);
        let to = offset(b, part.high.x);
        Span {
            from,
            to: to.max(from),
        }
    } else {
        Span { from: 0, to: 0 }
    }
}

/// The places of the one span without those of the other.
fn between(all: Span, hole: Span) -> Runs
    requires { all.from ≤ all.to }
    ensures { IsBetween all hole result }
{
    let low = hole.from.max(all.from).min(all.to);
    let high = hole.to.max(low).min(all.to);
    Runs {
        before: Span {
            from: all.from,
            to: low,
        },
        behind: Span {
            from: high,
            to: all.to,
        },
    }
}

/// The places at which a zone's points stand in the row from a place on.
pub(crate) fn runs_at(zone: &Zone, b: &Box3, start: usize) -> Runs
    requires ordered { IsBox b.now }
    requires small { IsSmall b.now }
    requires room { start + extent b.now 0 ≤ point_count b.now }
    requires wide { 0 < extent b.now 0 }
    requires first { start % extent b.now 0 ≡ 0 }
    ensures { IsRuns zone.now b.now start result }
{
    let low = point_at(b, start);
    between(span_in(&zone.all, b, low), span_in(&zone.hole, b, low))
}

/// The numbers of a span of the row from a place on.
pub(crate) fn numbers_on(values: &[i64], start: usize, span: Span) -> &[i64]
    requires order { span.from ≤ span.to }
    requires room { start + span.to ≤ length values.now }
    ensures { result.now ≡ numbers_on values.now start span }
{
    &values[start + span.from..start + span.to]
}
