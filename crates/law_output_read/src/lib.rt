//! The outputs of a job's run, read back.
#![tactic(auto)]

mod reread;

pub use reread::{output_spells, reread_output};
