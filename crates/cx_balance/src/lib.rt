//! The cut of a grid by the weight of its points: parts that weigh about as much as each other.
#![tactic(auto)]

mod choosing;
mod cutting;
mod laws;
mod weighing;

pub use choosing::choose;
pub use cutting::cut_by_weight;
pub use laws::{checkpoints_weigh, chosen_cuts, share_ends};
pub use weighing::planes;
