//! The records of the output file, read back.
#![tactic(auto)]

mod entry;
mod laws;
mod reading;
mod record;
mod splitting;
mod values;
mod words;

pub use entry::{Entry, read_all};
pub use laws::{printed, split_is_exact};
pub use reading::{head_at, line_at, read_output};
pub use record::Record;
pub use splitting::split;
pub use values::grid_at;
pub use words::{Stop, number_at, skip_text, strip_text};
