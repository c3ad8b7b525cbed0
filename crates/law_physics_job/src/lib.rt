//! Laws of physics from files on: what the thorns that conserve keep in each job that their files, as they are shipped,
//! make.
#![tactic(auto)]

mod bytes;
mod gas;
mod heat;
mod program;
mod texts;

pub use bytes::{reread_shipped_gas, reread_shipped_heat};
pub use gas::shipped_gas_stays;
pub use heat::shipped_heat_stays;
pub use program::program_hands_in;
pub use texts::{
    gas_interface, gas_params, gas_schedule, heat_interface, heat_params, heat_schedule,
};
