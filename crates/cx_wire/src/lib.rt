//! Messages between parts: a wire has one queue for each ordered pair of them. Beside the wire in memory stand three for tests:
//! one that fails at some calls, one that alters a value, and one that notes what is sent.
#![tactic(auto)]

mod altering_wire;
mod failing_wire;
mod mail;
mod memory_wire;
mod noting_wire;
mod queue;
mod sum;
mod wire;

pub use altering_wire::AlteringWire;
pub use failing_wire::FailingWire;
pub use mail::{Head, Mail};
pub use memory_wire::MemoryWire;
pub use noting_wire::NotingWire;
pub use wire::{Wire, WireFault};
