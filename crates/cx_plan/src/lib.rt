//! Plain data that the layers share: the variables, what an item of a schedule does, and where, bins, plans and jobs.
#![tactic(auto)]

mod bin;
mod due;
mod flag;
mod item;
mod job;
mod names;
mod steered;
mod tree;
mod variable;

pub use bin::Bin;
pub use due::{is_due, is_due_by, is_written};
pub use flag::Flag;
pub use item::{Item, ItemKind, Region, Touch};
pub use job::{Cuts, Job, Recover};
pub use names::{level_text, region_text};
pub use steered::Steered;
pub use tree::{Schedule, Tree};
pub use variable::{VarId, VarInfo};
