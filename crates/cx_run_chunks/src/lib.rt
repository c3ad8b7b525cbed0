//! The two commands on chunk files: a job's output cut into a file for each part, and put together again.
#![tactic(auto)]

mod chunking;
mod fault;
mod files;
mod laws;
mod outputs;
mod parts;
mod pieces;
mod recombining;
mod summary;
mod writing;

pub use chunking::chunk;
pub use fault::ChunksFault;
pub use laws::files_are_exact;
pub use recombining::recombine;
pub use summary::{Chunked, Recombined};
