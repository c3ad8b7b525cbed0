//! Why a list of tokens could not be read.

ghost use Rattle.std.specs.Prelude.{◌≡◌};
ghost use Rattle.cx_text.specs.declared.stop.Stop.TheVariants as stops;

use crate::Memory;
use std::alloc::{AllocError, AllocFailed};
use thiserror::Error;

/// What can be wrong with a token that may stand where it stands.
#[derive(Clone, Copy, Debug, Drop, Error, PartialEq, Eq)]
pub enum Mark {
    #[error("Repeated")]
    Repeated,
    #[error("BadNumber")]
    BadNumber,
    #[error("Limit")]
    Limit,
}

/// What is wrong with a token.
#[derive(Clone, Copy, Debug, Drop, Error, PartialEq, Eq)]
pub enum Why {
    #[error("Unexpected")]
    Unexpected,
    #[error(transparent)]
    Marked(Mark),
}

/// Why a reader stopped. At a fault it stands at the faulty token.
#[derive(Clone, Copy, Debug, Drop, Error, PartialEq, Eq)]
pub enum Stop {
    #[error("Memory")]
    Memory,
    #[error(transparent)]
    Fault(Why),
}

impl From<Memory> for Stop {
    ghost from_gives = { λ _ e. e ≡ stops.Memory };

    fn from(_: Memory) -> Self {
        Stop::Memory
    }
}

impl From<AllocError> for Stop {
    ghost from_gives = { λ _ e. e ≡ stops.Memory };

    fn from(_: AllocError) -> Self {
        Stop::Memory
    }
}

impl<T: Drop> From<AllocFailed<T>> for Stop {
    ghost from_gives = { λ _ e. e ≡ stops.Memory };

    fn from(_: AllocFailed<T>) -> Self {
        Stop::Memory
    }
}
