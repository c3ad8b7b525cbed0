//! Why names stand for nothing.

ghost use Rattle.std.specs.Prelude.{◌≡◌};
ghost use Rattle.cx_scope.specs.declared.fault.ScopeFault.TheVariants as faults;

use cx_text::{Memory, OrDash, Text};
use std::alloc::{AllocError, AllocFailed};
use thiserror::Error;

/// Why a name stands for nothing. The texts are names as they were written, with `owner::` and `[copy]`.
#[derive(Debug, Drop, Error)]
pub enum ScopeFault {
    /// No active thorn has the name.
    #[error("NotFound {}", OrDash(.0))]
    NotFound(Text),
    /// A thorn has the name, and the one that asks doesn't see it.
    #[error("Hidden {}", OrDash(.0))]
    Hidden(Text),
    /// The variable has no storage.
    #[error("NoStorage {}", OrDash(.0))]
    NoStorage(Text),
    /// The variable has storage for fewer levels.
    #[error("NoLevel {}", OrDash(.0))]
    NoLevel(Text),
    /// A test names something else than one scalar.
    #[error("NotScalar {}", OrDash(.0))]
    NotScalar(Text),
    /// A scalar is to be synchronised.
    #[error("NotGrid {}", OrDash(.0))]
    NotGrid(Text),
    /// Out of memory.
    #[error("Memory")]
    Memory,
}

impl From<Memory> for ScopeFault {
    ghost from_gives = { λ _ e. e ≡ faults.Memory };

    fn from(_: Memory) -> Self {
        ScopeFault::Memory
    }
}

impl From<AllocError> for ScopeFault {
    ghost from_gives = { λ _ e. e ≡ faults.Memory };

    fn from(_: AllocError) -> Self {
        ScopeFault::Memory
    }
}

impl<T: Drop> From<AllocFailed<T>> for ScopeFault {
    ghost from_gives = { λ _ e. e ≡ faults.Memory };

    fn from(_: AllocFailed<T>) -> Self {
        ScopeFault::Memory
    }
}
