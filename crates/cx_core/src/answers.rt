//! What a core answers.
ghost use Rattle.std.specs.Prelude.{◌≡◌};
ghost use Rattle.cx_core.specs.declared.answers.CoreFault.TheVariants as faults;

use cx_plan::VarId;
use cx_text::{Memory, Text};
use thiserror::Error;

/// What a step did.
#[derive(Clone, Copy, Debug)]
pub enum Event {
    /// The next operation of a part.
    Part(u32),
    /// The text of a variable in an iteration comes next in its output; `piece` lends its numbers.
    Section { var: VarId, iteration: u64 },
    /// The checkpoint of an iteration comes next; `state` lends it.
    Save(u64),
    /// The run is over; `outcome` says how it ended.
    End,
}

/// Why a step didn't do its event. The core isn't used again then.
#[derive(Clone, Copy, Debug, Error, PartialEq, Eq)]
pub enum CoreFault {
    /// The wire failed.
    #[error("Wire")]
    Wire,
    /// Out of memory.
    #[error("Memory")]
    Memory,
}

impl From<Memory> for CoreFault {
    ghost from_gives = { λ _ e. e ≡ faults.Memory };

    fn from(_: Memory) -> Self {
        CoreFault::Memory
    }
}

/// How a run has ended, or that it hasn't.
#[derive(Debug, Drop)]
pub enum Outcome {
    /// It goes on.
    Going,
    /// All iterations were done.
    Done,
    /// A number left its type in this iteration, in the item of this path.
    Overflow(u64, Text),
    /// A WHILE of this path took its last turn in this iteration, and its scalar wasn't 0.
    WhileLimit(u64, Text),
    /// An output would have passed its limit in this iteration.
    OutputLimit(u64),
}
