//! Tasks that take turns on one value that they share, until every task is over.
#![tactic(auto)]

mod driving;
mod task;

pub use driving::drive;
pub use task::Task;
