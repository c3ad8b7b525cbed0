//! What is outstanding of a file.

/// What is outstanding of a file that a run writes. An error of writing back goes to whoever had the file open when it
/// came, and is told once.
#[derive(Clone, Copy, Debug, PartialEq, Eq)]
pub enum Care {
    /// Nothing: each change of it was followed by a sync that is worth trusting.
    Whole,
    /// Changes, since which it is open. A sync that answers Ok settles them.
    Pending,
    /// Changes of which an error may have been told already: its sync failed, or it was opened anew. No sync settles
    /// them.
    Doubtful,
}
