//! The least order of numbers, some of which must stand before others, or a cycle of them.
#![tactic(auto)]

mod candidates;
mod cycle;
mod graph;
mod least;
mod links;
mod marks;
mod outcome;

pub use least::least_order;
pub use links::Links;
pub use outcome::Sorted;
