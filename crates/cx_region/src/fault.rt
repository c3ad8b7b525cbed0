//! Why a job isn't run.

ghost use Rattle.std.specs.Prelude.{◌≡◌};
ghost use Rattle.cx_region.specs.declared.fault.RegionFault.TheVariants as faults;

use cx_plan::Flag;
use cx_text::{Memory, OrDash, Text};
use std::alloc::{AllocError, AllocFailed};
use thiserror::Error;

/// Why a job isn't run.
#[derive(Debug, Drop, Error)]
pub enum RegionFault {
    /// The item of this path has no shape of the table. The second text is the full name of its first write, or is
    /// empty where it writes nothing.
    #[error("Shape {} {}", OrDash(.0), OrDash(.1))]
    Shape(Text, Text),
    /// A need that isn't met on some path.
    #[error("Unset {} {} {} {} {}", OrDash(.path), OrDash(.item), OrDash(.var), .level, .flag)]
    Unset {
        /// The letters of the path: `i` where an iteration begins, `y` and `n` for an IF or a CHECKPOINT bin that is
        /// taken or isn't, `w` and `x` for a WHILE's turn and its end.
        path: Text,
        /// The path of the item, or `output`.
        item: Text,
        /// The full name of the variable.
        var: Text,
        level: u8,
        flag: Flag,
    },
    /// Out of memory.
    #[error("Memory")]
    Memory,
}

impl From<Memory> for RegionFault {
    ghost from_gives = { λ _ e. e ≡ faults.Memory };

    fn from(_: Memory) -> Self {
        RegionFault::Memory
    }
}

impl From<AllocError> for RegionFault {
    ghost from_gives = { λ _ e. e ≡ faults.Memory };

    fn from(_: AllocError) -> Self {
        RegionFault::Memory
    }
}

impl<T: Drop> From<AllocFailed<T>> for RegionFault {
    ghost from_gives = { λ _ e. e ≡ faults.Memory };

    fn from(_: AllocFailed<T>) -> Self {
        RegionFault::Memory
    }
}
