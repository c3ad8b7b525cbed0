//! The program with the built-in thorns' routines: its words, its devices and its exit code.
#![tactic(auto)]

mod late_wire;
mod program;
mod routines;
mod thorns;

pub use program::{program_words, run_words};
pub use routines::answer;
pub use thorns::{Automata, Fields, Physics};
