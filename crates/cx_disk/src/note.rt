//! What a disk in memory notes of each change.

use cx_text::Text;

/// What happened to a file.
#[derive(Debug, Drop)]
pub enum Change {
    /// These bytes were written at this offset.
    Wrote { at: u64, bytes: Text },
    /// It was cut to this length.
    Cut { to: u64 },
    /// It was synced.
    Synced,
    /// A write of these bytes at this offset was stopped, and a read shows nothing of it.
    StoppedWrite { at: u64, bytes: Text },
    /// A cut to this length was stopped, and a read shows nothing of it.
    StoppedCut { to: u64 },
}

/// What happened to one file.
#[derive(Debug, Drop)]
pub struct Note {
    /// The file's number.
    pub file: u32,
    /// What happened to it.
    pub change: Change,
}
