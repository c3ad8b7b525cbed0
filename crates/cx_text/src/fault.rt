ghost use Rattle.std.specs.Prelude.{◌≡◌};
ghost use Rattle.cx_text.specs.declared.fault.TextFault.TheVariants as faults;

use crate::Memory;
use std::alloc::{AllocError, AllocFailed};
use thiserror::Error;

/// Why a text has no tokens. Each number is a line, counted from 1.
#[derive(Clone, Copy, Debug, Drop, Error, PartialEq, Eq)]
pub enum TextFault {
    /// A byte that may not stand where it stands.
    #[error("BadByte {0}")]
    BadByte(u32),
    /// The line of an opening quote that nothing closes.
    #[error("OpenQuote {0}")]
    OpenQuote(u32),
    /// More than 1,048,576 bytes.
    #[error("TooLong")]
    TooLong,
    /// Want of memory.
    #[error("Memory")]
    Memory,
}

/// Why tokens spell no tree: the first fault. Each number is its line, counted from 1.
#[derive(Clone, Copy, Debug, Drop, Error, PartialEq, Eq)]
pub enum CclFault {
    /// A token with which nothing goes on, or a text that ends too early.
    #[error("Unexpected {0}")]
    Unexpected(u32),
    /// A word that may stand once and stands again.
    #[error("Repeated {0}")]
    Repeated(u32),
    /// A number outside its range.
    #[error("BadNumber {0}")]
    BadNumber(u32),
    /// The first token of what passes a limit.
    #[error("Limit {0}")]
    Limit(u32),
    /// Want of memory.
    #[error("Memory")]
    Memory,
}

impl From<Memory> for TextFault {
    ghost from_gives = { λ _ e. e ≡ faults.Memory };

    fn from(_: Memory) -> Self {
        TextFault::Memory
    }
}

impl From<AllocError> for TextFault {
    ghost from_gives = { λ _ e. e ≡ faults.Memory };

    fn from(_: AllocError) -> Self {
        TextFault::Memory
    }
}

impl<T: Drop> From<AllocFailed<T>> for TextFault {
    ghost from_gives = { λ _ e. e ≡ faults.Memory };

    fn from(_: AllocFailed<T>) -> Self {
        TextFault::Memory
    }
}
