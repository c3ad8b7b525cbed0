//! The thorns of automata: `ElemCA`, a row of cells under one of Wolfram's rules, and `Life2D`, a sheet of cells under a
//! rule of births and survivals.
#![tactic(auto)]

mod alive;
mod ca_init;
mod ca_step;
mod count;
mod lanes;
mod life_init;
mod life_step;
mod pairs;
mod sheet_row;
mod zero;

pub use ca_init::{CaInit, CaInitRule};
pub use ca_step::{CaStep, CaStepRule};
pub use count::{CaCount, CaCountRule, LifeCount, LifeCountRule};
pub use life_init::{LifeInit, LifeInitRule};
pub use life_step::{LifeStep, LifeStepRule};
pub use zero::{CaZero, CaZeroRule, LifeZero, LifeZeroRule};
