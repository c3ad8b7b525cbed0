//! The sums of a gas.
ghost use Rattle.std.specs.Prelude.{◌≡◌};
ghost use Rattle.cx_thorn_physics.specs.Gas.{gas_particles_spec, gas_total_x_spec, gas_total_y_spec, gas_sum_rule};

use cx_plan::{ItemKind, Region};
use cx_rule::{Cells, Overflow, Place, PointRule, RoutineOf, Spec, Window};
use cx_text::Memory;
use std::alloc::Global;

/// The routine `gas_particles`: `gas::particles` becomes the sum of `gas::number`. Its rule gives what a point
/// adds: the number there.
pub type GasParticles = RoutineOf<GasParticlesRule>;

/// The rule of `gas_particles`.
#[derive(Debug, Drop)]
pub struct GasParticlesRule;

impl PointRule for GasParticlesRule {
    ghost said = { gas_particles_spec };

    ghost law = { gas_sum_rule };

    fn new() -> Self {
        GasParticlesRule
    }

    /// Reads the number of particles everywhere, and writes the sum.
    fn describe(alloc: Global) -> Result<Spec, Memory> {
        let mut spec = Spec::new(alloc, b"LatticeGas", b"gas_particles", ItemKind::Sum)?;
        spec.add_read(alloc, b"gas::number", Region::Everywhere, 0)?;
        spec.add_write(alloc, b"gas::particles", Region::Everywhere)?;
        Ok(spec)
    }

    /// What a point adds to the sum: the number of particles there.
    fn numbers(&self, w: &Window, _at: &Place, out: &mut Cells) -> Result<(), Overflow> {
        out.set_only(w.here(0));
        Ok(())
    }
}

/// The routine `gas_total_x`: `gas::total_x` becomes the sum of `gas::momentum_x`. Its rule gives what a point
/// adds: the number there.
pub type GasTotalX = RoutineOf<GasTotalXRule>;

/// The rule of `gas_total_x`.
#[derive(Debug, Drop)]
pub struct GasTotalXRule;

impl PointRule for GasTotalXRule {
    ghost said = { gas_total_x_spec };

    ghost law = { gas_sum_rule };

    fn new() -> Self {
        GasTotalXRule
    }

    /// Reads the momentum along x everywhere, and writes the sum.
    fn describe(alloc: Global) -> Result<Spec, Memory> {
        let mut spec = Spec::new(alloc, b"LatticeGas", b"gas_total_x", ItemKind::Sum)?;
        spec.add_read(alloc, b"gas::momentum_x", Region::Everywhere, 0)?;
        spec.add_write(alloc, b"gas::total_x", Region::Everywhere)?;
        Ok(spec)
    }

    /// What a point adds to the sum: the momentum along x there.
    fn numbers(&self, w: &Window, _at: &Place, out: &mut Cells) -> Result<(), Overflow> {
        out.set_only(w.here(0));
        Ok(())
    }
}

/// The routine `gas_total_y`: `gas::total_y` becomes the sum of `gas::momentum_y`. Its rule gives what a point
/// adds: the number there.
pub type GasTotalY = RoutineOf<GasTotalYRule>;

/// The rule of `gas_total_y`.
#[derive(Debug, Drop)]
pub struct GasTotalYRule;

impl PointRule for GasTotalYRule {
    ghost said = { gas_total_y_spec };

    ghost law = { gas_sum_rule };

    fn new() -> Self {
        GasTotalYRule
    }

    /// Reads the momentum along y everywhere, and writes the sum.
    fn describe(alloc: Global) -> Result<Spec, Memory> {
        let mut spec = Spec::new(alloc, b"LatticeGas", b"gas_total_y", ItemKind::Sum)?;
        spec.add_read(alloc, b"gas::momentum_y", Region::Everywhere, 0)?;
        spec.add_write(alloc, b"gas::total_y", Region::Everywhere)?;
        Ok(spec)
    }

    /// What a point adds to the sum: the momentum along y there.
    fn numbers(&self, w: &Window, _at: &Place, out: &mut Cells) -> Result<(), Overflow> {
        out.set_only(w.here(0));
        Ok(())
    }
}
