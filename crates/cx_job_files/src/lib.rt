//! What the files of a configuration say: from a shelf to thorns, settings and schedules.
#![tactic(auto)]

mod configuring;
mod failing_shelf;
mod fault;
mod folder;
mod reading;
mod shelf;

pub use configuring::{Configured, configure};
pub use failing_shelf::FailingShelf;
pub use fault::ConfigFault;
pub use folder::FolderShelf;
pub use reading::{ThornFiles, steer_lines};
pub use shelf::{MemoryShelf, Shelf, ShelfFault};
