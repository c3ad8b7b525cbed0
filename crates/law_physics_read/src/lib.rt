//! Laws of physics over bytes: what the records of an output say that was read back.
#![tactic(auto)]

mod reading;

pub use reading::{reread_gas, reread_heat};
