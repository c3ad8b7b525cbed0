//! Why a schedule has no plan.

ghost use Rattle.std.specs.Prelude.{◌≡◌};
ghost use Rattle.cx_order.specs.declared.fault.OrderFault.TheVariants as faults;
ghost use Rattle.cx_order.specs.Faults.{from_entry, from_place};

use cx_expr::ExprFault;
use cx_order_entries::{EntryFault, PlaceFault};
use cx_scope::ScopeFault;
use cx_text::{List, Listed, Memory, OrDash, Text};
use std::alloc::{AllocError, AllocFailed};
use thiserror::Error;

/// Why a schedule has no plan.
#[derive(Debug, Drop, Error)]
pub enum OrderFault {
    /// An `if` of this thorn has no value.
    #[error("{} {}", OrDash(.0), .1)]
    Expr(Text, ExprFault),
    /// A block stands in a bin that isn't there.
    #[error("UnknownBin {}", OrDash(.0))]
    UnknownBin(Text),
    /// Two entries of one bin or group have one name: the bin's or group's, `/` and theirs.
    #[error("TwoNames {}", OrDash(.0))]
    TwoNames(Text),
    /// Groups, each of which contains the next, and the last the first.
    #[error("GroupCycle {}", Listed(.0))]
    GroupCycle(List<Text>),
    /// Entries of one bin or group, each of which must come before the next, and the last before the first.
    #[error("Cycle {}", Listed(.0))]
    Cycle(List<Text>),
    /// A name of a STORAGE line of this thorn, or of the entry of this path.
    #[error("{} {}", OrDash(.0), .1)]
    Scope(Text, ScopeFault),
    /// More of these than may be.
    #[error("Limit {} {}", OrDash(.0), .1)]
    Limit(Text, u64),
    /// Out of memory.
    #[error("Memory")]
    Memory,
}

impl From<Memory> for OrderFault {
    ghost from_gives = { λ _ e. e ≡ faults.Memory };

    fn from(_: Memory) -> Self {
        OrderFault::Memory
    }
}

impl From<AllocError> for OrderFault {
    ghost from_gives = { λ _ e. e ≡ faults.Memory };

    fn from(_: AllocError) -> Self {
        OrderFault::Memory
    }
}

impl<T: Drop> From<AllocFailed<T>> for OrderFault {
    ghost from_gives = { λ _ e. e ≡ faults.Memory };

    fn from(_: AllocFailed<T>) -> Self {
        OrderFault::Memory
    }
}

impl From<EntryFault> for OrderFault {
    ghost from_gives = { λ fault e. e ≡ from_entry fault };

    /// An entry's fault as the schedule's of the same name.
    fn from(fault: EntryFault) -> Self {
        match fault {
            EntryFault::UnknownBin(name) => OrderFault::UnknownBin(name),
            EntryFault::TwoNames(name) => OrderFault::TwoNames(name),
            EntryFault::Memory => OrderFault::Memory,
        }
    }
}

impl From<PlaceFault> for OrderFault {
    ghost from_gives = { λ fault e. e ≡ from_place fault };

    /// A fault of placing entries as the schedule's of the same name.
    fn from(fault: PlaceFault) -> Self {
        match fault {
            PlaceFault::GroupCycle(names) => OrderFault::GroupCycle(names),
            PlaceFault::Cycle(names) => OrderFault::Cycle(names),
            PlaceFault::Memory => OrderFault::Memory,
        }
    }
}
