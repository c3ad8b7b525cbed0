//! The thorns of fields of whole numbers: `WaveInt`, a wave, `DiffInt`, heat that spreads, and `Control`, a count of turns.
#![tactic(auto)]

mod around;
mod around_row;
mod control;
mod diff;
mod edges;
mod exact;
mod near;
mod plain;
mod rows_around;
mod star;
mod start;
mod sums;
mod wave_init;
mod wave_step;

pub use control::{ControlSet, ControlSetRule, ControlSpin, ControlSpinRule};
pub use diff::{DiffInit, DiffInitRule, DiffStep, DiffStepRule};
pub use edges::{
    DiffFlat, DiffFlatRule, DiffScalar, DiffScalarRule, WaveCopy, WaveCopyRule, WaveFlat,
    WaveFlatRule, WaveScalar, WaveScalarRule,
};
pub use sums::{DiffSum, DiffSumRule, WaveSum, WaveSumRule};
pub use wave_init::{WaveInit, WaveInit1, WaveInit1Rule, WaveInitRule};
pub use wave_step::{WaveStep, WaveStepRule};
