//! Thorns, their parameters, and why they can't be bound.

ghost use Rattle.std.specs.Prelude.{◌≡◌};
ghost use Rattle.cx_bind.specs.declared.thorns.BindFault.TheVariants as faults;

use cx_conf::Configuration;
use cx_iface::Interface;
use cx_param::{ParamDecl, Range};
use cx_text::{List, Memory, OrDash, Text};
use std::alloc::{AllocError, AllocFailed};
use thiserror::Error;

/// An active thorn, with what its files say.
#[derive(Debug, Drop)]
pub struct Thorn {
    /// Where it stands in the list of thorns.
    pub arrangement: Text,
    pub name: Text,
    pub interface: Interface,
    /// The declarations, uses and extensions of its param file.
    pub params: List<ParamDecl>,
    pub conf: Configuration,
}

/// A parameter.
#[derive(Debug, Drop)]
pub struct Param {
    /// Its full name, as `implementation::name`, or `thorn::name` of a private one.
    pub full: Text,
    /// The number of its thorn. A built-in one has the number of thorns.
    pub thorn: u32,
    pub decl: ParamDecl,
    /// Its declaration's ranges, and then those of all extensions.
    pub ranges: List<Range>,
}

/// Why thorns can't be selected or bound.
#[derive(Debug, Drop, Error)]
pub enum BindFault {
    /// An active thorn isn't listed.
    #[error("UnknownThorn {}", OrDash(.0))]
    UnknownThorn(Text),
    /// An active thorn is listed more than once.
    #[error("TwoThorns {}", OrDash(.0))]
    TwoThorns(Text),
    /// An implementation that two thorns provide, and these.
    #[error("TwoProviders {} {} {}", OrDash(.0), OrDash(.1), OrDash(.2))]
    TwoProviders(Text, Text, Text),
    /// A thorn inherits or shares an implementation that isn't active.
    #[error("MissingImplementation {} {}", OrDash(.0), OrDash(.1))]
    MissingImplementation(Text, Text),
    /// A thorn requires a capability that isn't active.
    #[error("MissingCapability {} {}", OrDash(.0), OrDash(.1))]
    MissingCapability(Text, Text),
    /// A thorn requires a thorn that isn't active.
    #[error("MissingThorn {} {}", OrDash(.0), OrDash(.1))]
    MissingThorn(Text, Text),
    /// A thorn uses or extends a parameter of an implementation that no thorn can use, or that isn't there.
    #[error("NoParameter {} {} {}", OrDash(.0), OrDash(.1), OrDash(.2))]
    NoParameter(Text, Text, Text),
    /// A thorn uses or extends a parameter by another type than the declared one.
    #[error("WrongType {} {}", OrDash(.0), OrDash(.1))]
    WrongType(Text, Text),
    /// Two variables have this full name.
    #[error("TwoVariables {}", OrDash(.0))]
    TwoVariables(Text),
    /// Two parameters have this full name, or its global parameter has the name of another global one.
    #[error("TwoParameters {}", OrDash(.0))]
    TwoParameters(Text),
    /// A thorn's group or parameter is of a kind that is read, and that no run serves.
    #[error("Unsupported {} {}", OrDash(.0), OrDash(.1))]
    Unsupported(Text, Text),
    /// Two groups of grid functions, by their full names, differ in their number of directions.
    #[error("TwoDims {} {}", OrDash(.0), OrDash(.1))]
    TwoDims(Text, Text),
    /// There are more of these than may be.
    #[error("Limit {} {}", OrDash(.0), .1)]
    Limit(Text, u64),
    /// Out of memory.
    #[error("Memory")]
    Memory,
}

impl From<Memory> for BindFault {
    ghost from_gives = { λ _ e. e ≡ faults.Memory };

    fn from(_: Memory) -> Self {
        BindFault::Memory
    }
}

impl From<AllocError> for BindFault {
    ghost from_gives = { λ _ e. e ≡ faults.Memory };

    fn from(_: AllocError) -> Self {
        BindFault::Memory
    }
}

impl<T: Drop> From<AllocFailed<T>> for BindFault {
    ghost from_gives = { λ _ e. e ≡ faults.Memory };

    fn from(_: AllocFailed<T>) -> Self {
        BindFault::Memory
    }
}
