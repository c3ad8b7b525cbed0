//! The text of the output file: a section per grid variable, a line per scalar.
#![tactic(auto)]

mod lengths;
mod lines;
mod numbers;
mod rows;

pub use lengths::{line_length, section_length};
pub use lines::{head, scalar_line, section};
pub use numbers::push_count;
pub use rows::push_rows;
