//! Why files make no job.

ghost use Rattle.std.specs.Prelude.{◌≡◌, ◌↔◌, IsTrue};
ghost use Rattle.cx_bind.specs.declared.thorns.BindFault.TheVariants as binds;
ghost use Rattle.cx_values.specs.declared.fault.ValueFault.TheVariants as values;
ghost use Rattle.cx_order.specs.declared.fault.OrderFault.TheVariants as orders;
ghost use Rattle.cx_region.specs.declared.fault.RegionFault.TheVariants as regions;
ghost use Rattle.cx_cut.specs.declared.faults.CutFault.TheVariants as cuts;
ghost use Rattle.cx_job_files.specs.Stages.{IsOf};
ghost use Rattle.cx_job.specs.declared.fault.JobFault.TheVariants as faults;

use cx_bind::BindFault;
use cx_cut::CutFault;
use cx_job_files::ConfigFault;
use cx_job_items::MatchFault;
use cx_order::OrderFault;
use cx_region::RegionFault;
use cx_text::{CclFault, Memory, OrDash, Text, TextFault};
use cx_values::ValueFault;
use std::alloc::{AllocError, AllocFailed};
use thiserror::Error;

/// Why files make no job.
#[derive(Debug, Drop, Error)]
pub enum JobFault {
    /// The shelf failed.
    #[error("Shelf")]
    Shelf,
    /// A file isn't there.
    #[error("NoFile {}", OrDash(.0))]
    NoFile(Text),
    /// A file's bytes aren't tokens.
    #[error("{} {}", OrDash(.0), .1)]
    Text(Text, TextFault),
    /// A file's tokens aren't what it should hold.
    #[error("{} {}", OrDash(.0), .1)]
    Ccl(Text, CclFault),
    #[error(transparent)]
    Bind(BindFault),
    #[error(transparent)]
    Value(ValueFault),
    /// A line of the steer file can't steer: the file's name, and why.
    #[error("{} {}", OrDash(.0), .1)]
    Steer(Text, ValueFault),
    #[error(transparent)]
    Order(OrderFault),
    /// No object is handed in for the item of this path.
    #[error("UnknownRoutine {}", OrDash(.0))]
    UnknownRoutine(Text),
    /// The object of the item of this path doesn't read and write what the schedule says: its path, what is declared, and
    /// what the object offers.
    #[error("RoutineMismatch {} {} {}", OrDash(.0), OrDash(.1), OrDash(.2))]
    RoutineMismatch(Text, Text, Text),
    /// More of these than may be.
    #[error("Limit {} {}", OrDash(.0), .1)]
    Limit(Text, u64),
    /// The grid can't be cut into parts of the widths that are said.
    #[error(transparent)]
    Cut(CutFault),
    /// The object of the item of this path doesn't sweep the largest part of the grid's cut: its path, the points of that part, its
    /// ghosts among them, and the most points that the object sweeps.
    #[error("TooLarge {} {} {}", OrDash(.0), .1, .2)]
    TooLarge(Text, u64, u64),
    /// A routine might read a point that nobody has filled.
    #[error(transparent)]
    Region(RegionFault),
    /// Out of memory.
    #[error("Memory")]
    Memory,
}

impl From<Memory> for JobFault {
    ghost from_gives = { λ _ e. e ≡ faults.Memory };

    fn from(_: Memory) -> Self {
        JobFault::Memory
    }
}

impl From<AllocError> for JobFault {
    ghost from_gives = { λ _ e. e ≡ faults.Memory };

    fn from(_: AllocError) -> Self {
        JobFault::Memory
    }
}

impl<T: Drop> From<AllocFailed<T>> for JobFault {
    ghost from_gives = { λ _ e. e ≡ faults.Memory };

    fn from(_: AllocFailed<T>) -> Self {
        JobFault::Memory
    }
}

impl From<ConfigFault> for JobFault {
    ghost use Rattle.cx_job.specs.Faults.{config_fault};

    ghost from_gives = { λ fault e. e ≡ config_fault fault };

    /// A configuration's fault as the job's of the same name.
    fn from(fault: ConfigFault) -> Self {
        match fault {
            ConfigFault::Shelf => JobFault::Shelf,
            ConfigFault::NoFile(name) => JobFault::NoFile(name),
            ConfigFault::Text(name, fault) => JobFault::Text(name, fault),
            ConfigFault::Ccl(name, fault) => JobFault::Ccl(name, fault),
            ConfigFault::Bind(fault) => JobFault::Bind(fault),
            ConfigFault::Memory => JobFault::Memory,
        }
    }
}

impl From<MatchFault> for JobFault {
    ghost use Rattle.cx_job.specs.Faults.{match_fault};

    ghost from_gives = { λ fault e. e ≡ match_fault fault };

    /// A matching fault as the job's of the same name.
    fn from(fault: MatchFault) -> Self {
        match fault {
            MatchFault::UnknownRoutine(path) => JobFault::UnknownRoutine(path),
            MatchFault::RoutineMismatch(path, declared, offered) => {
                JobFault::RoutineMismatch(path, declared, offered)
            }
            MatchFault::Memory => JobFault::Memory,
        }
    }
}

/// Whether binding failed because memory ran out.
fn is_bind_memory(fault: &BindFault) -> bool
    ensures { IsTrue result ↔ (fault.now ≡ binds.Memory) }
{
    matches!(fault, BindFault::Memory)
}

impl From<BindFault> for JobFault {
    ghost from_gives = { λ fault e. IsOf binds.Memory faults.Memory faults.Bind fault e };

    /// A binding fault as a job's; out of memory stays out of memory.
    fn from(fault: BindFault) -> Self {
        if is_bind_memory(&fault) {
            JobFault::Memory
        } else {
            JobFault::Bind(fault)
        }
    }
}

/// Whether values couldn't be assigned because memory ran out.
fn is_value_memory(fault: &ValueFault) -> bool
    ensures { IsTrue result ↔ (fault.now ≡ values.Memory) }
{
    matches!(fault, ValueFault::Memory)
}

impl From<ValueFault> for JobFault {
    ghost from_gives = { λ fault e. IsOf values.Memory faults.Memory faults.Value fault e };

    /// A fault of values as a job's; out of memory stays out of memory.
    fn from(fault: ValueFault) -> Self {
        if is_value_memory(&fault) {
            JobFault::Memory
        } else {
            JobFault::Value(fault)
        }
    }
}

/// Whether ordering failed because memory ran out.
fn is_order_memory(fault: &OrderFault) -> bool
    ensures { IsTrue result ↔ (fault.now ≡ orders.Memory) }
{
    matches!(fault, OrderFault::Memory)
}

impl From<OrderFault> for JobFault {
    ghost from_gives = { λ fault e. IsOf orders.Memory faults.Memory faults.Order fault e };

    /// A fault of ordering as a job's; out of memory stays out of memory.
    fn from(fault: OrderFault) -> Self {
        if is_order_memory(&fault) {
            JobFault::Memory
        } else {
            JobFault::Order(fault)
        }
    }
}

/// Whether the check of regions failed because memory ran out.
fn is_region_memory(fault: &RegionFault) -> bool
    ensures { IsTrue result ↔ (fault.now ≡ regions.Memory) }
{
    matches!(fault, RegionFault::Memory)
}

impl From<RegionFault> for JobFault {
    ghost from_gives = { λ fault e. IsOf regions.Memory faults.Memory faults.Region fault e };

    /// A fault of regions as a job's; out of memory stays out of memory.
    fn from(fault: RegionFault) -> Self {
        if is_region_memory(&fault) {
            JobFault::Memory
        } else {
            JobFault::Region(fault)
        }
    }
}

/// Whether the grid couldn't be cut because memory ran out.
fn is_cut_memory(fault: &CutFault) -> bool
    ensures { IsTrue result ↔ (fault.now ≡ cuts.Memory) }
{
    matches!(fault, CutFault::Memory)
}

impl From<CutFault> for JobFault {
    ghost from_gives = { λ fault e. IsOf cuts.Memory faults.Memory faults.Cut fault e };

    /// A fault of the cut as a job's; out of memory stays out of memory.
    fn from(fault: CutFault) -> Self {
        if is_cut_memory(&fault) {
            JobFault::Memory
        } else {
            JobFault::Cut(fault)
        }
    }
}
