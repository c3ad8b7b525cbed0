//! Which of the events that can happen next does: the turns of the parts.
#![tactic(auto)]

mod seeded;
mod turns;

pub use seeded::SeededTurns;
pub use turns::Turns;
