//! Parts that each do one list of operations, exchange messages through queues and hand pieces to a writer: whatever order
//! their events come in, each part stands in the one undivided run. `docs/NETWORK.md` explains why, with a drawing.
#![tactic(auto)]

mod network;
mod together;

pub use network::{Network, every_order};
pub use together::parts_gather;
