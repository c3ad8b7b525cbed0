//! The core: the parts of a run and its writer, event by event.
#![tactic(auto)]

mod answers;
mod laws;
mod machine;
mod moving;
mod operations;
mod starting;
mod step;
mod writing;

pub use answers::{CoreFault, Event, Outcome};
pub use laws::{core_stands, cores_gather};
pub use machine::Core;
