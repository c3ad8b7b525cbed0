//! The points of a box, one after another.
ghost use Rattle.std.specs.Prelude.{◌≡◌, ◌∷◌, ◌<ℤ◌, ◌+ℤ◌, pos, IfSome, IfNone};
ghost use Rattle.std.specs.Iterator.{YieldsFirst, item_count};
ghost use Rattle.cx_grid.specs.Boxes.{points_in, IsIn};
ghost use Rattle.cx_grid.specs.Walk.{points_from, IsNext};

use crate::boxes::{Box3, Point, contains};
use std::marker::Model;

/// The points of a box that are left, x fastest.
#[derive(Drop)]
pub struct Rows {
    all: Box3,
    next: Option<Point>,
}

impl Model for Rows {
    ghost use Rattle.std.specs.Prelude.{List};
    ghost use Rattle.cx_grid.specs.declared.boxes.Point.{Point};
    ghost use Rattle.cx_grid.specs.Walk.{points_from, IsNext};

    ghost Value = { List Point };

    ghost view = { λ rows. points_from rows.all rows.next };

    ghost invariant = { λ rows. IsNext rows.all rows.next };
}

impl Rows {
    /// All points of a box.
    pub fn new(b: &Box3) -> Self
        ensures { result ≡ points_in b.now }
    {
        Rows {
            all: *b,
            next: first(b),
        }
    }
}

impl Iterator for Rows {
    type Item = Point;

    ghost next_gives = { YieldsFirst (λ left. left) };

    ghost remaining = { item_count (λ left. left) };

    /// The next point of the box, x fastest.
    fn next(&mut self) -> Option<Point> {
        let p = self.next?;
        self.next = following(&self.all, p);
        Some(p)
    }
}

/// The first point of a box, or none where the box has no points.
fn first(b: &Box3) -> Option<Point>
    ensures next { IsNext b.now result }
    ensures left { points_from b.now result ≡ points_in b.now }
{
    if contains(b, b.low) {
        Some(b.low)
    } else {
        None
    }
}

/// The point after this one, or none after the last.
fn following(b: &Box3, p: Point) -> Option<Point>
    requires { IsIn b.now p }
    ensures next { IsNext b.now result }
    ensures left { points_from b.now (Some p) ≡ p ∷ points_from b.now result }
{
    if let Some(x) = next_below(p.x, b.high.x) {
        return Some(Point { x, ..p });
    }
    if let Some(y) = next_below(p.y, b.high.y) {
        return Some(Point {
            x: b.low.x,
            y,
            z: p.z,
        });
    }
    let z = next_below(p.z, b.high.z)?;
    Some(Point {
        x: b.low.x,
        y: b.low.y,
        z,
    })
}

/// The coordinate after this one, or none where that is the end.
fn next_below(c: i32, end: i32) -> Option<i32>
    requires { c <ℤ end }
    ensures some { IfSome result (λ next. (next ≡ c +ℤ pos 1) × (next <ℤ end)) }
    ensures none { IfNone result (end ≡ c +ℤ pos 1) }
{
    let next = c + 1;
    if next < end { Some(next) } else { None }
}
