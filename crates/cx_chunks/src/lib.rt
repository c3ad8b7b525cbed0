//! Output in chunks, a file for each part of a cut, and its recombination.
#![tactic(auto)]

mod checks;
mod combining;
mod cutting;
mod fault;
mod finding;
mod larger;
mod laws;
mod own_box;
mod piece;
mod place;
mod reading;
mod rising;
mod rows;
mod section;
mod small;
mod values;

pub use combining::combine;
pub use cutting::{cut_records, empty_texts, push_record};
pub use fault::ChunkFault;
pub use laws::chunks_are_whole;
pub use piece::Piece;
pub use reading::read_chunk;
pub use rising::iterations;
pub use values::Values;
