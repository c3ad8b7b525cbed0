//! Points, boxes of points and the grid: the order of points, which points stand for the same, and which are interior.
#![tactic(auto)]

mod boxes;
mod shapes;
mod walk;

pub use boxes::{Box3, Point, contains, count, index_of, point_at, rows};
pub use shapes::{Shape, Side, clamp, is_boundary, reach_box, whole, wrap};
pub use walk::Rows;
