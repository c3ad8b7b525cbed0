//! An item over the points of a part that it computes, by the routine's own sweep.
#![tactic(auto)]

mod sweep;

pub use cx_rule::{Patch, Zone};
pub use sweep::{apply_boundary, sweep_item};
