//! Parameter files: which thorns are active, and how parameters are set. Steer files: how they are set later on.
#![tactic(auto)]

mod base_name;
mod gathered;
mod printer;
mod reader;
mod settings;
mod steer;
mod value;

pub use base_name::base_of;
pub use printer::print_parfile;
pub use reader::read_parfile;
pub use settings::{Setting, Settings};
pub use steer::{SteerLine, read_steer};
