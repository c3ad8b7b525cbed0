//! Commands over objects in memory: what a test of the whole program hands in, and what comes of it.
#![tactic(auto)]

mod calls;
mod carriers;
mod routines;
pub mod samples;

pub use calls::{
    FIRST_OUTPUT, Outcome, SECOND_OUTPUT, answer_on, answer_over, answer_to, push_files, shelf,
    shelf_with, sink, status_over, texts,
};
pub use carriers::{altering, failing, noting, wire};
