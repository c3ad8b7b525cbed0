//! What a checkpoint holds.

use cx_text::{List, Text};

/// The state of a run at a checkpoint place, with all that a start needs to go on from there.
#[derive(Debug, Drop)]
pub struct Checkpoint {
    /// The version of its format: 1 of a run with one output file, 2 of one with an output file for each output variable.
    pub version: u8,
    /// The iteration at whose checkpoint place it was taken.
    pub iteration: u64,
    /// What its job must have in common with one that goes on from it.
    pub key: Text,
    /// The names of the output files, `.asc` included; none in version 1.
    pub names: List<Text>,
    /// The lengths of the output files in bytes; in version 2 one for each name.
    pub lengths: List<u64>,
    /// The scalars' values.
    pub scalars: List<i64>,
    /// The levels of the grid variables, the current one first.
    pub levels: List<List<i64>>,
}
