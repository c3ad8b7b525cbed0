//! Why a command wasn't done.

use cx_chunks::ChunkFault;
use cx_disk::DiskFault;
use cx_text::Memory;
use thiserror::Error;

/// Why a command wasn't done.
#[derive(Debug, Drop, Error)]
pub enum ChunksFault {
    /// The disk failed.
    #[error("Disk")]
    Disk,
    /// The files aren't such as the command asks for, or there was no memory left.
    #[error("{0}")]
    Chunks(ChunkFault),
}

impl From<ChunkFault> for ChunksFault {
    ghost use Rattle.std.specs.Prelude.{◌≡◌};
    ghost use Rattle.cx_run_chunks.specs.declared.fault.ChunksFault.TheVariants as chunks;

    ghost from_gives = { λ fault e. e ≡ chunks.Chunks fault };

    fn from(fault: ChunkFault) -> Self {
        ChunksFault::Chunks(fault)
    }
}

impl From<Memory> for ChunksFault {
    ghost use Rattle.std.specs.Prelude.{◌≡◌};
    ghost use Rattle.cx_chunks.specs.declared.fault.ChunkFault.TheVariants as chunk;
    ghost use Rattle.cx_run_chunks.specs.declared.fault.ChunksFault.TheVariants as chunks;

    ghost from_gives = { λ _ e. e ≡ chunks.Chunks chunk.Memory };

    fn from(_: Memory) -> Self {
        ChunksFault::Chunks(ChunkFault::Memory)
    }
}

impl From<DiskFault> for ChunksFault {
    ghost use Rattle.std.specs.Prelude.{◌≡◌};
    ghost use Rattle.cx_run_chunks.specs.Faults.{chunks_fault_of};

    ghost from_gives = { λ fault e. e ≡ chunks_fault_of fault };

    fn from(fault: DiskFault) -> Self {
        match fault {
            DiskFault::Failed => ChunksFault::Disk,
            DiskFault::Memory => ChunksFault::Chunks(ChunkFault::Memory),
        }
    }
}
