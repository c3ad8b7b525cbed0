//! Coordinates near the grid.
ghost use Rattle.std.specs.Prelude.{◌≡◌, ◌+ℤ◌, ◌-ℤ◌};
ghost use Rattle.cx_grid.specs.Boxes.{shifted};
ghost use Rattle.cx_rule.specs.Patches.{IsNear, IsNearPoint};

use cx_grid::Point;

/// A point moved by an offset.
pub(crate) fn moved(p: Point, offset: Point) -> Point
    requires { IsNearPoint (shifted p offset) }
    ensures { result ≡ shifted p offset }
{
    Point {
        x: sum(p.x, offset.x),
        y: sum(p.y, offset.y),
        z: sum(p.z, offset.z),
    }
}

/// A coordinate moved up, which stays near the grid.
pub(crate) fn sum(c: i32, by: i32) -> i32
    requires { IsNear (c +ℤ by) }
    ensures { result ≡ c +ℤ by }
{
    c + by
}

/// A coordinate moved down, which stays near the grid.
pub(crate) fn difference(c: i32, by: i32) -> i32
    requires { IsNear (c -ℤ by) }
    ensures { result ≡ c -ℤ by }
{
    c - by
}
