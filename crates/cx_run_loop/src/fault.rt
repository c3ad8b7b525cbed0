//! Why a run of a job stopped before its end.
ghost use Rattle.std.specs.Prelude.{◌≡◌};
ghost use Rattle.cx_run_loop.specs.Faults.{of_begin, of_core, of_disk};
ghost use Rattle.cx_run_loop.specs.declared.fault.DriveFault.TheVariants as faults;

use cx_core::CoreFault;
use cx_disk::DiskFault;
use cx_keep::BeginFault;
use cx_text::Memory;
use thiserror::Error;

/// Why a run stopped before its end.
#[derive(Debug, Drop, Error)]
pub enum DriveFault {
    /// The disk's files refuse the start: `NoCheckpoint`, `Damaged`, `OtherJob`, `OutputShort` or `OldTooLong`. Nothing has
    /// changed.
    #[error(transparent)]
    Recovery(BeginFault),
    /// The disk failed.
    #[error("Disk")]
    Disk,
    /// The wire failed.
    #[error("Wire")]
    Wire,
    /// There was no memory left.
    #[error("Memory")]
    Memory,
}

impl From<BeginFault> for DriveFault {
    ghost from_gives = { λ f e. e ≡ of_begin f };

    fn from(fault: BeginFault) -> Self {
        match fault {
            BeginFault::Disk => DriveFault::Disk,
            BeginFault::Memory => DriveFault::Memory,
            BeginFault::NoCheckpoint => DriveFault::Recovery(BeginFault::NoCheckpoint),
            BeginFault::OtherJob(kept, now) => {
                DriveFault::Recovery(BeginFault::OtherJob(kept, now))
            }
            BeginFault::Damaged(slot) => DriveFault::Recovery(BeginFault::Damaged(slot)),
            BeginFault::OutputShort(length, recorded) => {
                DriveFault::Recovery(BeginFault::OutputShort(length, recorded))
            }
            BeginFault::OldTooLong(length, most) => {
                DriveFault::Recovery(BeginFault::OldTooLong(length, most))
            }
        }
    }
}

impl From<DiskFault> for DriveFault {
    ghost from_gives = { λ f e. e ≡ of_disk f };

    fn from(fault: DiskFault) -> Self {
        match fault {
            DiskFault::Failed => DriveFault::Disk,
            DiskFault::Memory => DriveFault::Memory,
        }
    }
}

impl From<CoreFault> for DriveFault {
    ghost from_gives = { λ f e. e ≡ of_core f };

    fn from(fault: CoreFault) -> Self {
        match fault {
            CoreFault::Wire => DriveFault::Wire,
            CoreFault::Memory => DriveFault::Memory,
        }
    }
}

impl From<Memory> for DriveFault {
    ghost from_gives = { λ _ e. e ≡ faults.Memory };

    fn from(_: Memory) -> Self {
        DriveFault::Memory
    }
}
