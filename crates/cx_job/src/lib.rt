//! Jobs from the files of a configuration.
#![tactic(auto)]

mod caps;
mod cells;
mod counting;
mod fault;
mod groups;
mod job;
mod keys;
mod limits;
mod lines;
mod making;
mod outputs;
mod stages;
mod weights;

pub use cells::local_cells;
pub use cx_job_files::{FolderShelf, MemoryShelf, Shelf, ShelfFault};
pub use fault::JobFault;
pub use lines::direction_letter;
pub use making::make_job;
