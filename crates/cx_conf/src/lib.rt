//! Configuration files and thorn lists: what a thorn provides and needs, and where thorns stand.
#![tactic(auto)]

mod configuration;
mod printer;
mod thorn_list;

pub use configuration::{Configuration, read_configuration};
pub use printer::print_configuration;
pub use thorn_list::{ThornList, read_thornlist};
