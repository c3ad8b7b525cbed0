//! Where the parts of a run stand, and which events can happen.
#![tactic(auto)]

mod flags;
mod law;
mod order;
mod pace;
mod standing;
mod standings;
mod works;

pub use law::pace_tells;
pub use pace::Pace;
pub use standing::{Next, Standing, Work};
