//! Why a run didn't begin.

use cx_disk::DiskFault;
use cx_text::{Memory, Text};
use std::alloc::{AllocError, AllocFailed};
use thiserror::Error;

/// Why a run didn't begin.
#[derive(Debug, Drop, Error)]
pub enum BeginFault {
    /// The disk failed.
    #[error("Disk")]
    Disk,
    /// A checkpoint was asked for, and no slot is open.
    #[error("NoCheckpoint")]
    NoCheckpoint,
    /// The newest slot is of another job: the first lines in which the two keys differ, both without steer lines of iterations
    /// after the slot's, the kept one first. A key that has ended there has an empty one.
    #[error("OtherJob\n{0}\n{1}")]
    OtherJob(Text, Text),
    /// The newest slot, this one, spells no checkpoint, or one that doesn't fit the job.
    #[error("Damaged {0}")]
    Damaged(u32),
    /// An output file is shorter than recorded: its length, and the recorded one.
    #[error("OutputShort {0} {1}")]
    OutputShort(u64, u64),
    /// The old output is longer than what is split: its recorded length, and the greatest one that is.
    #[error("OldTooLong {0} {1}")]
    OldTooLong(u64, u64),
    /// There was no memory left.
    #[error("Memory")]
    Memory,
}

impl From<Memory> for BeginFault {
    ghost use Rattle.std.specs.Prelude.{◌≡◌};
    ghost use Rattle.cx_keep.specs.declared.fault.BeginFault.TheVariants as fault;

    ghost from_gives = { λ _ e. e ≡ fault.Memory };

    fn from(_: Memory) -> Self {
        BeginFault::Memory
    }
}

impl From<AllocError> for BeginFault {
    ghost use Rattle.std.specs.Prelude.{◌≡◌};
    ghost use Rattle.cx_keep.specs.declared.fault.BeginFault.TheVariants as fault;

    ghost from_gives = { λ _ e. e ≡ fault.Memory };

    fn from(_: AllocError) -> Self {
        BeginFault::Memory
    }
}

impl<T: Drop> From<AllocFailed<T>> for BeginFault {
    ghost use Rattle.std.specs.Prelude.{◌≡◌};
    ghost use Rattle.cx_keep.specs.declared.fault.BeginFault.TheVariants as fault;

    ghost from_gives = { λ _ e. e ≡ fault.Memory };

    fn from(_: AllocFailed<T>) -> Self {
        BeginFault::Memory
    }
}

impl From<DiskFault> for BeginFault {
    ghost use Rattle.std.specs.Prelude.{◌≡◌};
    ghost use Rattle.cx_keep.specs.Faults.{begin_fault_of};

    ghost from_gives = { λ fault e. e ≡ begin_fault_of fault };

    fn from(fault: DiskFault) -> Self {
        match fault {
            DiskFault::Failed => BeginFault::Disk,
            DiskFault::Memory => BeginFault::Memory,
        }
    }
}
