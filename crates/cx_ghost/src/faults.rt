ghost use Rattle.std.specs.Prelude.{◌≡◌};
ghost use Rattle.cx_ghost.specs.Faults.{post_fault};
ghost use Rattle.cx_ghost.specs.declared.faults.PostFault.TheVariants as posts;
ghost use Rattle.cx_ghost.specs.declared.faults.TakeFault.TheVariants as takes;

use cx_text::Memory;
use cx_wire::WireFault;
use thiserror::Error;

/// Why a part posted less than it was to.
#[derive(Clone, Copy, Debug, Error, PartialEq, Eq)]
pub enum PostFault {
    /// The wire failed.
    #[error("Wire")]
    Wire,
    /// Out of memory.
    #[error("Memory")]
    Memory,
}

impl From<Memory> for PostFault {
    ghost from_gives = { λ _ e. e ≡ posts.Memory };

    fn from(_: Memory) -> Self {
        PostFault::Memory
    }
}

impl From<WireFault> for PostFault {
    ghost from_gives = { λ f e. e ≡ post_fault f };

    /// A wire's fault as the posting's of the same meaning.
    fn from(fault: WireFault) -> Self {
        match fault {
            WireFault::Failed => PostFault::Wire,
            WireFault::Memory => PostFault::Memory,
        }
    }
}

/// Why a part didn't take what it needs.
#[derive(Clone, Copy, Debug, Error, PartialEq, Eq)]
pub enum TakeFault {
    /// A message that is needed isn't there: from which part, and to which.
    #[error("NotYet {0} {1}")]
    NotYet(u32, u32),
    /// The wire failed.
    #[error("Wire")]
    Wire,
}

impl From<WireFault> for TakeFault {
    ghost from_gives = { λ _ e. e ≡ takes.Wire };

    /// A wire's fault as one of the wire itself: to receive takes no memory.
    fn from(_: WireFault) -> Self {
        TakeFault::Wire
    }
}
