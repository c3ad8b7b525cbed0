//! Why items aren't matched with routines.

ghost use Rattle.std.specs.Prelude.{◌≡◌};
ghost use Rattle.cx_job_items.specs.declared.fault.MatchFault.TheVariants as faults;

use cx_text::{Memory, OrDash, Text};
use thiserror::Error;

/// Why an item isn't matched with a routine.
#[derive(Debug, Drop, Error)]
pub enum MatchFault {
    /// No object is handed in for the item of this path.
    #[error("UnknownRoutine {}", OrDash(.0))]
    UnknownRoutine(Text),
    /// The object of the item of this path doesn't read and write what the schedule says: its path, what is declared, and
    /// what the object offers.
    #[error("RoutineMismatch {} {} {}", OrDash(.0), OrDash(.1), OrDash(.2))]
    RoutineMismatch(Text, Text, Text),
    /// Out of memory.
    #[error("Memory")]
    Memory,
}

impl From<Memory> for MatchFault {
    ghost from_gives = { λ _ e. e ≡ faults.Memory };

    fn from(_: Memory) -> Self {
        MatchFault::Memory
    }
}
