//! Between the parts of a run and whole lists: the writer's buffers, in which the parts' pieces make a whole level or a checkpoint,
//! and parts that are filled from a checkpoint.
#![tactic(auto)]

mod boards;
mod gathering;
mod rows;
mod scattering;
mod sizes;

pub use boards::Boards;
pub use gathering::Gathering;
pub use scattering::scatter;
