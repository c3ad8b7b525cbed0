//! The flags of a job's levels: what each step needs and leaves, and which are set on all paths.
#![tactic(auto)]

mod all_paths_job;
mod all_paths_step;
mod all_paths_tree;
mod flag_table;
mod flags;
mod left_by_loop;
mod shapes;
mod trees;
mod unmet;
mod variables;

pub use all_paths_job::walk_job;
pub use all_paths_step::{Stop, write_item};
pub use flag_table::FlagTable;
pub use flags::LevelFlags;
pub use shapes::has_shape;
pub use trees::tree_of;
pub use unmet::{Unmet, unmet_of_item, unmet_of_output, unmet_of_sync, unmet_of_test};
pub use variables::full_name;
