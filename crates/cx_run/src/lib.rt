//! The top call: from the words of the command line to what is printed, the files of a run and the status.
#![tactic(auto)]

mod call;
mod chunk_texts;
mod cut_texts;
mod fault_words;
mod reply;
mod sink;
mod stdout;
mod texts;
mod words;

pub use call::cactus;
pub use cut_texts::parts_text;
pub use cx_job::{FolderShelf, MemoryShelf, Shelf, ShelfFault};
pub use reply::{Answer, answer_for, answer_to_outcome};
pub use sink::{MemorySink, Sink, SinkFault};
pub use stdout::StdoutSink;
pub use texts::{describe, key_lines, schedule_text};
pub use words::Command;
