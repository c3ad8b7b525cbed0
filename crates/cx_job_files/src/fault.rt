//! Why the files of a configuration say nothing.

ghost use Rattle.std.specs.Prelude.{◌≡◌, ◌↔◌, IsTrue};
ghost use Rattle.cx_bind.specs.declared.thorns.BindFault.TheVariants as binds;
ghost use Rattle.cx_job_files.specs.Stages.{IsOf};
ghost use Rattle.cx_job_files.specs.declared.fault.ConfigFault.TheVariants as faults;

use cx_bind::BindFault;
use cx_text::{CclFault, Memory, OrDash, Text, TextFault};
use std::alloc::{AllocError, AllocFailed};
use thiserror::Error;

/// Why the files of a configuration say nothing.
#[derive(Debug, Drop, Error)]
pub enum ConfigFault {
    /// The shelf failed.
    #[error("Shelf")]
    Shelf,
    /// A file isn't there.
    #[error("NoFile {}", OrDash(.0))]
    NoFile(Text),
    /// A file's bytes aren't tokens.
    #[error("{} {}", OrDash(.0), .1)]
    Text(Text, TextFault),
    /// A file's tokens aren't what it should hold.
    #[error("{} {}", OrDash(.0), .1)]
    Ccl(Text, CclFault),
    /// An active thorn doesn't stand in the list of thorns just once.
    #[error(transparent)]
    Bind(BindFault),
    /// Out of memory.
    #[error("Memory")]
    Memory,
}

impl From<Memory> for ConfigFault {
    ghost from_gives = { λ _ e. e ≡ faults.Memory };

    fn from(_: Memory) -> Self {
        ConfigFault::Memory
    }
}

impl From<AllocError> for ConfigFault {
    ghost from_gives = { λ _ e. e ≡ faults.Memory };

    fn from(_: AllocError) -> Self {
        ConfigFault::Memory
    }
}

impl<T: Drop> From<AllocFailed<T>> for ConfigFault {
    ghost from_gives = { λ _ e. e ≡ faults.Memory };

    fn from(_: AllocFailed<T>) -> Self {
        ConfigFault::Memory
    }
}

/// Whether binding failed because memory ran out.
fn is_memory(fault: &BindFault) -> bool
    ensures { IsTrue result ↔ (fault.now ≡ binds.Memory) }
{
    matches!(fault, BindFault::Memory)
}

impl From<BindFault> for ConfigFault {
    ghost from_gives = { λ fault e. IsOf binds.Memory faults.Memory faults.Bind fault e };

    /// A binding fault as a configuration's; out of memory stays out of memory.
    fn from(fault: BindFault) -> Self {
        if is_memory(&fault) {
            ConfigFault::Memory
        } else {
            ConfigFault::Bind(fault)
        }
    }
}
