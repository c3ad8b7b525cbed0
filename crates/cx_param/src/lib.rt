//! The param file of a thorn: its parameters, and the values that each may have.
#![tactic(auto)]

mod blocks;
mod declarations;
mod defaults;
mod headings;
mod numbers;
mod params;
mod printer;
mod ranges;

pub use declarations::{PType, ParamDecl, Scope, Steer};
pub use params::read_params;
pub use printer::print_params;
pub use ranges::{Range, Value, allows};
