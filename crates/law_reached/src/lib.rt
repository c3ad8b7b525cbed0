//! What holds in each state that a run in parts reaches: that it goes on until it is over, and, where its wires tell what they
//! carry, that its works, its end and its totals are the undivided run's. It has no code; its clauses are the laws.
#![tactic(auto)]

mod going;
mod told;

pub use going::{each_event_keeps_way, each_state_goes_on};
pub use told::{
    book_is_lengths, done_matches, end_is_the_runs, one_way, taken_adds_up, works_in_order,
};
