//! A run of a job as one list of operations with jumps.
#![tactic(auto)]

mod law;
mod op;
mod operations;
mod trees;

pub use law::{all_ways, flat_is_run, operation_needs_met};
pub use op::Op;
pub use operations::flatten;
