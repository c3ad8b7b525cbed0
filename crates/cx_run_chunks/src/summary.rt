//! What a command has done.

/// Output was cut into chunks.
#[derive(Clone, Copy, Debug, PartialEq, Eq)]
pub struct Chunked {
    /// How many chunks there are: one for each part.
    pub parts: u32,
    /// How many records the output files hold.
    pub records: u64,
}

/// Chunks were put together again.
#[derive(Clone, Copy, Debug, PartialEq, Eq)]
pub struct Recombined {
    /// How many records the whole output has.
    pub records: u64,
    /// How many bytes it has.
    pub bytes: u64,
}
