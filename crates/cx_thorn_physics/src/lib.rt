//! Thorns of physics that conserve: `HeatFlux`, heat whose sum never changes, and `LatticeGas`, particles whose number
//! and momenta never change.
#![tactic(auto)]

mod exact;
mod flow;
mod flux_around;
mod gas_init;
mod gas_measure;
mod gas_step;
mod gas_sums;
mod heat_init;
mod heat_step;
mod heat_sum;
mod rows_around;
mod zero;

pub use flow::Spot;
pub use gas_init::{GasInit, GasInitRule};
pub use gas_measure::{GasMeasure, GasMeasureRule};
pub use gas_step::{GasStep, GasStepRule};
pub use gas_sums::{
    GasParticles, GasParticlesRule, GasTotalX, GasTotalXRule, GasTotalY, GasTotalYRule,
};
pub use heat_init::{HeatInit, HeatInitRule};
pub use heat_step::{HeatStep, HeatStepRule};
pub use heat_sum::{HeatSum, HeatSumRule};
pub use zero::{GasZero, GasZeroRule, HeatZero, HeatZeroRule};
