//! The keeper of a run's outputs and checkpoints.
#![tactic(auto)]

mod agreement;
mod fault;
mod fits;
mod judge;
mod keep;
mod renew;
mod resume;
mod splitting;
mod start;

pub use fault::BeginFault;
pub use keep::Keep;
