//! Routines: what each computes at a point, from the values around it, and over the points of a part, whose numbers stand here too.
#![tactic(auto)]

mod buffers;
mod cells;
mod commit;
mod faces;
mod levels;
mod meter;
mod numbers;
mod part;
mod patch;
mod place;
mod places;
mod point_rule;
mod points;
mod routine;
mod row;
mod row_rule;
mod rows;
mod run;
mod runs;
mod spec;
mod staging;
mod sweep;
mod window;
mod windows;
mod zone;

pub use cells::Cells;
pub use meter::Meter;
pub use numbers::{bit, mix, mix_from};
pub use patch::Patch;
pub use place::{Params, Place};
pub use point_rule::{PointRule, RoutineOf};
pub use routine::{Overflow, Routine, apply, object};
pub use row::Row;
pub use row_rule::{RowRule, RowsOf};
pub use spec::{Spec, Want};
pub use window::Window;
pub use zone::Zone;
