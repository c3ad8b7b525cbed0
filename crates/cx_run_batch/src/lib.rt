//! Runs of several jobs that take turns: each has a disk and a wire of its own, and all count on one meter.
#![tactic(auto)]

mod member;
mod running;
mod stage;

pub use member::Member;
pub use running::run_all;
pub use stage::{Stage, UnderWay};
