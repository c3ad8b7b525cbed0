//! Reductions: the sum, the least or the greatest number of a variable over the whole grid, or how many aren't 0, from the numbers of
//! its parts.
#![tactic(auto)]

mod joining;
mod walk;

pub use joining::{Partial, finish, join};
pub use walk::partial;
