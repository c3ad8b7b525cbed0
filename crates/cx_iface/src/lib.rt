//! Interface files: what a thorn implements, inherits and declares, read from tokens and printed.
#![tactic(auto)]

mod attributes;
mod group;
mod interface;
mod printer;
mod tree;
mod words;

pub use cx_text::CType;
pub use interface::read_interface;
pub use printer::print_interface;
pub use tree::{Access, GType, Group, Interface};
