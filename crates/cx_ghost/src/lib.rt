//! The exchange of ghost zones: one direction of it by one part, what it posts and what it takes, and what all rounds together give.
#![tactic(auto)]

mod faults;
mod laws;
mod partner;
mod posting;
mod taking;

pub use faults::{PostFault, TakeFault};
pub use laws::rounds;
pub use posting::post;
pub use taking::take;
