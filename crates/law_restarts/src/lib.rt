//! The laws of restarts: a run that is stopped at any moment, and started again any number of times, ends as the
//! undivided run, also where parameter files differ in how and where it is done. The clauses are the laws;
//! `run_through_stops` makes such runs over objects in memory.
#![tactic(auto)]

mod chains;
mod restarts;
mod stops;

pub use chains::{full_names_chain, one_run, thorns_see_the_same};
pub use restarts::{Restarts, restarts_end_alike};
pub use stops::{Stop, empty_disk, run_through_stops};
