//! Why output isn't cut into chunks, or chunks aren't combined.

ghost use Rattle.std.specs.Prelude.{◌≡◌};
ghost use Rattle.cx_chunks.specs.declared.fault.ChunkFault.TheVariants as faults;

use cx_text::{Memory, OrDash, Text};
use thiserror::Error;

/// Why output isn't cut into chunks, or chunks aren't combined. A chunk has its part's number; texts are full names unless
/// said otherwise.
#[derive(Debug, Drop, Error)]
pub enum ChunkFault {
    /// The output file of this name isn't made of its variable's records in rising iterations.
    #[error("NotOutput {}", OrDash(.0))]
    NotOutput(Text),
    /// The bytes of all files together, and the most that there may be.
    #[error("TooLong {0} {1}")]
    TooLong(u64, u64),
    /// This chunk isn't made of pieces.
    #[error("Bad {0}")]
    Bad(u32),
    /// This chunk has a piece of this name and iteration that isn't one of its own.
    #[error("Stranger {} {} {}", .0, OrDash(.1), .2)]
    Stranger(u32, Text, u64),
    /// This chunk has two pieces of this variable and iteration.
    #[error("Double {} {} {}", .0, OrDash(.1), .2)]
    Double(u32, Text, u64),
    /// This chunk has no piece of this variable and iteration, and another one has.
    #[error("Missing {} {} {}", .0, OrDash(.1), .2)]
    Missing(u32, Text, u64),
    /// Out of memory.
    #[error("Memory")]
    Memory,
}

impl From<Memory> for ChunkFault {
    ghost from_gives = { λ _ e. e ≡ faults.Memory };

    fn from(_: Memory) -> Self {
        ChunkFault::Memory
    }
}
