//! The values of parameters: by their settings, else by their defaults; and what steer files make of them.
#![tactic(auto)]

mod assignment;
mod fault;
mod given;
mod lookups;
mod naming;
mod numbers;
mod settings;
mod slots;
mod special;
mod spelling;
mod steering;
mod tables;
mod uses;
mod values;

pub use assignment::assign;
pub use fault::ValueFault;
pub use lookups::ThornView;
pub use numbers::{
    checkpoint_every, holds_at, is_on_at, itlast, natural_at, natural_within, number_at,
    number_within, on_end, within,
};
pub use spelling::number_by;
pub use steering::{SteerStep, steer};
pub use tables::{AllGiven, Slots, Uses};
pub use values::{Given, Held, Slot, Use, Values};
