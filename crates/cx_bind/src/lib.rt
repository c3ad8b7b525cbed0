//! Binding: thorns whose implementations, capabilities, names, types and parameters fit each other.
#![tactic(auto)]

mod active;
mod bound;
mod clashes;
mod copies;
mod extensions;
mod known;
mod name_places;
mod name_ranges;
mod name_set;
mod names;
mod needs;
mod parameters;
mod places;
mod providers;
mod selection;
mod shared;
mod table;
mod thorns;
mod unsupported;
mod uses;
mod variables;

pub use bound::{Bound, bind};
pub use name_places::NamePlaces;
pub use names::full_name;
pub use needs::shared_by;
pub use selection::select;
pub use thorns::{BindFault, Param, Thorn};
pub use unsupported::is_grid;
pub use variables::{owner_by, with_copy};
