//! Which variables and groups a thorn sees, and what names mean to it.
#![tactic(auto)]

mod edges;
mod fault;
mod groups;
mod names;
mod reach;
mod scope;
mod sought;
mod stored;
mod tables;

pub use fault::ScopeFault;
pub use scope::{Scope, group_of, resolve};
pub use stored::ref_text;
