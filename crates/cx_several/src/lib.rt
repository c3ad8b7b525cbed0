//! The top call for several parameter files, whose runs take turns, each on a disk and a wire of its own.
#![tactic(auto)]

mod answers;
mod cells;
mod fault;
mod folders;
mod jobs;
mod members;
mod reply;
mod several;
mod words;

pub use fault::BatchFault;
pub use several::cactus_all;
