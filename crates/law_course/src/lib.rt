//! A run as the keeper of its outputs and checkpoints sees it: a text for each output's file, and checkpoints, each at lengths of
//! them. It has no code; its clauses are the laws.
#![tactic(auto)]

mod beginning;
mod course;
mod starts;
mod works;

pub use beginning::{course_goes_on, fitting_can_begin};
pub use course::{
    course_fits, course_rises, course_splits, has_places, states_pack_again, states_unpack,
};
pub use starts::{empty_is_trail, former_is_trail, one_course, one_course_to, trails_begin};
pub use works::works_follow;
