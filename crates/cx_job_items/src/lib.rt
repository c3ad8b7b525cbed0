//! The items of a plan, matched with the routines that are handed in, and their steers.
#![tactic(auto)]

mod fault;
mod lookup;
mod matching;
mod mismatch;
mod refs;
mod starred;
mod steering;

pub use fault::MatchFault;
pub use matching::{Offer, Routines};
pub use starred::is_starred;
pub use steering::{param_of, steers_of};
