//! Which blocks of schedules count, where they stand, and in which order.
#![tactic(auto)]

mod bins;
mod counted;
mod fault;
mod groups;
mod keys;
mod members;
mod name_numbers;
mod names;
mod nesting;
mod pairs;
mod place_orders;
mod placement;

pub use bins::{BINS, bin_name, check_bins};
pub use counted::{Counted, Entry, Line, Uncounted, push_nodes};
pub use fault::{EntryFault, PlaceFault};
pub use keys::entry_name;
pub use names::{check_names, join_names};
pub use placement::{Placed, place_entries};
