//! Laws of physics: what the thorns that conserve keep, in each turn and in the output of a whole run. There is no
//! code; the clauses are the laws.
#![tactic(auto)]

mod gas;
mod heat;

pub use gas::{gas_stays, particles_are_kept};
pub use heat::{flows_are_opposite, heat_is_kept, heat_stays};
