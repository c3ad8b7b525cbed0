//! Where a part stands in a run.
#![tactic(auto)]

mod law;
mod opened;
mod place;
mod skips;

pub use law::{places_fit, places_in_order};
pub use place::Place;
