//! A run of a job: a source of turns drives the core, and the keeper keeps what it hands out.
#![tactic(auto)]

mod driving;
mod event;
mod fault;
mod laws;
mod numbers;
mod picking;
mod recutting;
mod steps;
mod turn;
mod turns;

pub use driving::{begin_cores, drive, is_cut_anew, next_after};
pub use fault::DriveFault;
pub use laws::{cores_wait, drive_laws};
pub use recutting::copy_cuts;
pub use steps::Run;
pub use turn::Advance;
