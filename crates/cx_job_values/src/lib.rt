//! The grid of a configuration, how it is cut, and the numbers of its run, by the values of parameters.
#![tactic(auto)]

mod built_in;
mod cuts;
mod direction;
mod grids;
mod run_numbers;
mod stored;

pub use built_in::text_copy;
pub use cuts::cuts_of;
pub use direction::Direction;
pub use grids::shape_of;
pub use run_numbers::{
    balance, checkpoint_dir, keep, lead, out_dir, out_every, recover_of, steer_file, weight_factor,
    weight_name, while_limit,
};
pub use stored::{grid_levels, owned_cells, point_count, stored_infos, stored_levels};
