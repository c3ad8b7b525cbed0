//! Whether a job's routines read only points that have been filled.
#![tactic(auto)]

mod called;
mod check_shapes;
mod checking;
mod fault;
mod one_flag_job;
mod one_flag_tree;
mod witness;
mod witnesses;

pub use checking::check;
pub use cx_plan::Flag;
pub use fault::RegionFault;
