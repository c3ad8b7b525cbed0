//! The files of a run that is made from a seed and a size, and the line that sums it up.
#![tactic(auto)]

mod files;
mod line;
mod scalars;

pub use files::{file_name, made_files};
pub use line::summary;
pub use scalars::{live_variable, scalar_named};
