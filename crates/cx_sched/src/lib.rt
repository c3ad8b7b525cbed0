//! Schedule files: when the routines of a thorn run, and what they read and write.
#![tactic(auto)]

mod block;
mod lines;
mod node;
mod printer;
mod reference;
mod tree;

pub use node::read_schedule;
pub use printer::print_schedule;
pub use tree::{Block, Node, Ref, ScheduleFile, Spot};
