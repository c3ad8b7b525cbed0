//! Why parameters can't have values.

ghost use Rattle.std.specs.Prelude.{◌≡◌};
ghost use Rattle.cx_values.specs.declared.fault.ValueFault.TheVariants as faults;

use cx_text::{Memory, OrDash, Text};
use std::alloc::{AllocError, AllocFailed};
use thiserror::Error;

/// Why parameters can't have values. The numbers are lines of the parameter file, or of the steer file.
#[derive(Debug, Drop, Error)]
pub enum ValueFault {
    /// The default of the parameter of this full name is no value, or lies outside the ranges of its own declaration.
    #[error("BadDefault {}", OrDash(.0))]
    BadDefault(Text),
    /// A setting names no parameter.
    #[error("UnknownParam {0}")]
    UnknownParam(u32),
    /// A setting names an array without an index, another parameter with one, or no element of an array.
    #[error("Index {0}")]
    Index(u32),
    /// A setting's text spells no value of the parameter's type.
    #[error("BadSpelling {0}")]
    BadSpelling(u32),
    /// A setting's value lies in no range of the parameter.
    #[error("OutOfRange {0}")]
    OutOfRange(u32),
    /// A setting sets an element that an earlier one sets.
    #[error("Twice {0}")]
    Twice(u32),
    /// A line of the steer file names a parameter that may not change, or not at that iteration.
    #[error("NotSteerable {0}")]
    NotSteerable(u32),
    /// A line of the steer file has an iteration below that of the line before.
    #[error("SteerOrder {0}")]
    SteerOrder(u32),
    /// Out of memory.
    #[error("Memory")]
    Memory,
}

impl From<Memory> for ValueFault {
    ghost from_gives = { λ _ e. e ≡ faults.Memory };

    fn from(_: Memory) -> Self {
        ValueFault::Memory
    }
}

impl From<AllocError> for ValueFault {
    ghost from_gives = { λ _ e. e ≡ faults.Memory };

    fn from(_: AllocError) -> Self {
        ValueFault::Memory
    }
}

impl<T: Drop> From<AllocFailed<T>> for ValueFault {
    ghost from_gives = { λ _ e. e ≡ faults.Memory };

    fn from(_: AllocFailed<T>) -> Self {
        ValueFault::Memory
    }
}
