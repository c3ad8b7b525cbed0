//! Why entries can't be placed.

ghost use Rattle.std.specs.Prelude.{◌≡◌};
ghost use Rattle.cx_order_entries.specs.declared.fault.EntryFault.TheVariants as entry_faults;
ghost use Rattle.cx_order_entries.specs.declared.fault.PlaceFault.TheVariants as place_faults;

use cx_text::{List, Listed, Memory, OrDash, Text};
use std::alloc::{AllocError, AllocFailed};
use thiserror::Error;

/// Why entries aren't as they must be.
#[derive(Debug, Drop, Error)]
pub enum EntryFault {
    /// A block stands in a bin that isn't there.
    #[error("UnknownBin {}", OrDash(.0))]
    UnknownBin(Text),
    /// Two entries of one bin or group have one name: the bin's or group's, `/` and theirs.
    #[error("TwoNames {}", OrDash(.0))]
    TwoNames(Text),
    /// Out of memory.
    #[error("Memory")]
    Memory,
}

/// Why entries have no places or no order.
#[derive(Debug, Drop, Error)]
pub enum PlaceFault {
    /// Groups, each of which contains the next, and the last the first.
    #[error("GroupCycle {}", Listed(.0))]
    GroupCycle(List<Text>),
    /// Entries of one bin or group, each of which must come before the next, and the last before the first.
    #[error("Cycle {}", Listed(.0))]
    Cycle(List<Text>),
    /// Out of memory.
    #[error("Memory")]
    Memory,
}

impl From<Memory> for EntryFault {
    ghost from_gives = { λ _ e. e ≡ entry_faults.Memory };

    fn from(_: Memory) -> Self {
        EntryFault::Memory
    }
}

impl From<AllocError> for EntryFault {
    ghost from_gives = { λ _ e. e ≡ entry_faults.Memory };

    fn from(_: AllocError) -> Self {
        EntryFault::Memory
    }
}

impl<T: Drop> From<AllocFailed<T>> for EntryFault {
    ghost from_gives = { λ _ e. e ≡ entry_faults.Memory };

    fn from(_: AllocFailed<T>) -> Self {
        EntryFault::Memory
    }
}

impl From<Memory> for PlaceFault {
    ghost from_gives = { λ _ e. e ≡ place_faults.Memory };

    fn from(_: Memory) -> Self {
        PlaceFault::Memory
    }
}

impl From<AllocError> for PlaceFault {
    ghost from_gives = { λ _ e. e ≡ place_faults.Memory };

    fn from(_: AllocError) -> Self {
        PlaceFault::Memory
    }
}

impl<T: Drop> From<AllocFailed<T>> for PlaceFault {
    ghost from_gives = { λ _ e. e ≡ place_faults.Memory };

    fn from(_: AllocFailed<T>) -> Self {
        PlaceFault::Memory
    }
}
