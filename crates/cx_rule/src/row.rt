//! What a rule sees along a row of points.
ghost use Rattle.std.specs.Prelude.{◌≡◌, ◌<◌, ℕ, length};
ghost use Rattle.cx_grid.specs.Boxes.{IsIn};
ghost use Rattle.cx_grid.specs.Windows.{reach_box};
ghost use Rattle.cx_rule.specs.Place.{param_of};
ghost use Rattle.cx_rule.specs.Rows.{row_value, seen_row, reach_at, offset_from, middle, ShowsAlong, CanSeeRow};

use crate::part::Part;
use crate::points::moved;
use crate::run::Run;
use cx_grid::Point;
use cx_plan::Item;
use std::marker::Model;

/// Points along x, with what a rule sees at each of them and their places.
#[derive(Drop)]
pub struct Row<'a> {
    part: &'a Part,
    item: &'a Item,
    from: Point,
    low: Point,
    count: u32,
    iteration: u64,
}

impl<'a> Model for Row<'a> {
    ghost use Rattle.cx_rule.specs.Rows.{RowValue, row_value, CanSeeRow};

    ghost Value = { RowValue };

    ghost view = { λ r. row_value r.part.now r.item.now r.from r.low r.count r.iteration };

    ghost invariant = { λ r. CanSeeRow r.part.now r.item.now r.from r.count };
}

impl<'a> Row<'a> {
    /// An item's row of a run's points.
    pub(crate) fn new(part: &'a Part, item: &'a Item, run: &Run, iteration: u64) -> Self
        requires { CanSeeRow part.now item.now run.now.from run.now.count }
        ensures { result
            ≡ row_value part.now item.now run.now.from run.now.low run.now.count iteration }
    {
        Row {
            part,
            item,
            from: run.from,
            low: run.low,
            count: run.count,
            iteration,
        }
    }

    /// How many points the row has.
    pub fn count(&self) -> usize
        ensures { result ≡ self.now.count }
    {
        self.count as usize
    }

    /// How many directions the grid has.
    pub fn dims(&self) -> u8
        ensures { result ≡ (seen_row self.now).dims }
    {
        self.part.shape().dims
    }

    /// The number of a parameter, which is the same at all points.
    pub fn param(&self, k: usize) -> i64
        requires { k < length ((seen_row self.now).place 0).params }
        ensures { (i : ℕ) → result ≡ param_of ((seen_row self.now).place i) k }
    {
        self.item.params.as_slice()[k]
    }

    /// The numbers that a read shows in the row `y`, `z` of the windows around the points: along x, from the read's reach before the
    /// first point on to its reach behind the last one. `y` and `z` are at most the reach from 0.
    pub fn along(&self, k: usize, y: i32, z: i32) -> &[i64]
        requires read { k < length (seen_row self.now).reaches }
        requires offset { IsIn (reach_box (seen_row self.now).dims (reach_at (seen_row self.now) k))
            (middle y z) }
        ensures { ShowsAlong (seen_row self.now) k y z result.now }
    {
        let _ = self.part.local();
        let read = &self.item.reads.as_slice()[k];
        let start = moved(self.from, least_offset(read.reach, y, z));
        let count = self.count + 2 * read.reach as u32;
        self.part.row(read.var, read.level, start, count)
    }
}

/// The offset of the least x in a row of a window.
fn least_offset(reach: u8, y: i32, z: i32) -> Point
    ensures { result ≡ offset_from reach y z 0 }
{
    Point {
        x: -(reach as i32),
        y,
        z,
    }
}
