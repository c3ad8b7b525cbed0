use std::alloc::{AllocError, AllocFailed};
use thiserror::Error;

/// Want of memory: the one answer of a call that needs no cause.
#[derive(Clone, Copy, Debug, Drop, Error, PartialEq, Eq)]
#[error("Memory")]
pub struct Memory;

impl From<AllocError> for Memory {
    fn from(_: AllocError) -> Self {
        Memory
    }
}

impl<T: Drop> From<AllocFailed<T>> for Memory {
    fn from(_: AllocFailed<T>) -> Self {
        Memory
    }
}
