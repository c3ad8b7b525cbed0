//! The routines of the built-in thorns, each in a box of its own.

use cx_text::Memory;
use cx_thorn_ca::{CaCount, CaInit, CaStep, CaZero, LifeCount, LifeInit, LifeStep, LifeZero};
use cx_thorn_pde::{
    ControlSet, ControlSpin, DiffFlat, DiffInit, DiffScalar, DiffStep, DiffSum, WaveCopy, WaveFlat,
    WaveInit, WaveInit1, WaveScalar, WaveStep, WaveSum,
};
use cx_thorn_physics::{
    GasInit, GasMeasure, GasParticles, GasStep, GasTotalX, GasTotalY, GasZero, HeatInit, HeatStep,
    HeatSum, HeatZero,
};
use std::alloc::Global;

/// The routines of `ElemCA` and `Life2D`.
#[derive(Drop)]
pub struct Automata {
    pub ca_init: Box<CaInit>,
    pub ca_step: Box<CaStep>,
    pub ca_zero: Box<CaZero>,
    pub ca_count: Box<CaCount>,
    pub life_init: Box<LifeInit>,
    pub life_step: Box<LifeStep>,
    pub life_zero: Box<LifeZero>,
    pub life_count: Box<LifeCount>,
}

impl Automata {
    /// All of them, new.
    pub fn new(alloc: Global) -> Result<Self, Memory> {
        Ok(Automata {
            ca_init: Box::new(alloc, CaInit::new(alloc)?)?,
            ca_step: Box::new(alloc, CaStep::new(alloc)?)?,
            ca_zero: Box::new(alloc, CaZero::new(alloc)?)?,
            ca_count: Box::new(alloc, CaCount::new(alloc)?)?,
            life_init: Box::new(alloc, LifeInit::new(alloc)?)?,
            life_step: Box::new(alloc, LifeStep::new(alloc)?)?,
            life_zero: Box::new(alloc, LifeZero::new(alloc)?)?,
            life_count: Box::new(alloc, LifeCount::new(alloc)?)?,
        })
    }
}

/// The routines of `WaveInt`, `DiffInt` and `Control`.
#[derive(Drop)]
pub struct Fields {
    pub wave_init: Box<WaveInit>,
    pub wave_init1: Box<WaveInit1>,
    pub wave_step: Box<WaveStep>,
    pub wave_copy: Box<WaveCopy>,
    pub wave_flat: Box<WaveFlat>,
    pub wave_scalar: Box<WaveScalar>,
    pub wave_sum: Box<WaveSum>,
    pub diff_init: Box<DiffInit>,
    pub diff_step: Box<DiffStep>,
    pub diff_flat: Box<DiffFlat>,
    pub diff_scalar: Box<DiffScalar>,
    pub diff_sum: Box<DiffSum>,
    pub control_set: Box<ControlSet>,
    pub control_spin: Box<ControlSpin>,
}

impl Fields {
    /// All of them, new.
    pub fn new(alloc: Global) -> Result<Self, Memory> {
        Ok(Fields {
            wave_init: Box::new(alloc, WaveInit::new(alloc)?)?,
            wave_init1: Box::new(alloc, WaveInit1::new(alloc)?)?,
            wave_step: Box::new(alloc, WaveStep::new(alloc)?)?,
            wave_copy: Box::new(alloc, WaveCopy::new(alloc)?)?,
            wave_flat: Box::new(alloc, WaveFlat::new(alloc)?)?,
            wave_scalar: Box::new(alloc, WaveScalar::new(alloc)?)?,
            wave_sum: Box::new(alloc, WaveSum::new(alloc)?)?,
            diff_init: Box::new(alloc, DiffInit::new(alloc)?)?,
            diff_step: Box::new(alloc, DiffStep::new(alloc)?)?,
            diff_flat: Box::new(alloc, DiffFlat::new(alloc)?)?,
            diff_scalar: Box::new(alloc, DiffScalar::new(alloc)?)?,
            diff_sum: Box::new(alloc, DiffSum::new(alloc)?)?,
            control_set: Box::new(alloc, ControlSet::new(alloc)?)?,
            control_spin: Box::new(alloc, ControlSpin::new(alloc)?)?,
        })
    }
}

/// The routines of `HeatFlux` and `LatticeGas`.
#[derive(Drop)]
pub struct Physics {
    pub heat_init: Box<HeatInit>,
    pub heat_step: Box<HeatStep>,
    pub heat_zero: Box<HeatZero>,
    pub heat_sum: Box<HeatSum>,
    pub gas_init: Box<GasInit>,
    pub gas_step: Box<GasStep>,
    pub gas_zero: Box<GasZero>,
    pub gas_measure: Box<GasMeasure>,
    pub gas_particles: Box<GasParticles>,
    pub gas_total_x: Box<GasTotalX>,
    pub gas_total_y: Box<GasTotalY>,
}

impl Physics {
    /// All of them, new.
    pub fn new(alloc: Global) -> Result<Self, Memory> {
        Ok(Physics {
            heat_init: Box::new(alloc, HeatInit::new(alloc)?)?,
            heat_step: Box::new(alloc, HeatStep::new(alloc)?)?,
            heat_zero: Box::new(alloc, HeatZero::new(alloc)?)?,
            heat_sum: Box::new(alloc, HeatSum::new(alloc)?)?,
            gas_init: Box::new(alloc, GasInit::new(alloc)?)?,
            gas_step: Box::new(alloc, GasStep::new(alloc)?)?,
            gas_zero: Box::new(alloc, GasZero::new(alloc)?)?,
            gas_measure: Box::new(alloc, GasMeasure::new(alloc)?)?,
            gas_particles: Box::new(alloc, GasParticles::new(alloc)?)?,
            gas_total_x: Box::new(alloc, GasTotalX::new(alloc)?)?,
            gas_total_y: Box::new(alloc, GasTotalY::new(alloc)?)?,
        })
    }
}
