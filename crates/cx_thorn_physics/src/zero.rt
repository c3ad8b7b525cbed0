//! The edges of the heat and of the gas, which hold nothing.
ghost use Rattle.std.specs.Prelude.{◌≡◌};
ghost use Rattle.cx_thorn_physics.specs.Flux.{heatflux_zero_spec, heatflux_zero_rule};
ghost use Rattle.cx_thorn_physics.specs.Gas.{gas_zero_spec, gas_zero_rule};

use cx_plan::{ItemKind, Region};
use cx_rule::{Cells, Overflow, Place, PointRule, Row, RowRule, RowsOf, Spec, Window};
use cx_text::Memory;
use std::alloc::Global;

/// The routine `heatflux_zero`, which sets `heatflux::u` to 0 in the boundary.
pub type HeatZero = RowsOf<HeatZeroRule>;

/// The rule of `heatflux_zero`.
#[derive(Debug, Drop)]
pub struct HeatZeroRule;

impl PointRule for HeatZeroRule {
    ghost said = { heatflux_zero_spec };

    ghost law = { heatflux_zero_rule };

    fn new() -> Self {
        HeatZeroRule
    }

    /// Writes the heat in the boundary.
    fn describe(alloc: Global) -> Result<Spec, Memory> {
        let mut spec = Spec::new(alloc, b"HeatFlux", b"heatflux_zero", ItemKind::Cell)?;
        spec.add_write(alloc, b"heatflux::u", Region::Boundary)?;
        Ok(spec)
    }

    /// No heat.
    fn numbers(&self, _w: &Window, _at: &Place, out: &mut Cells) -> Result<(), Overflow> {
        out.set_only(0);
        Ok(())
    }
}

impl RowRule for HeatZeroRule {
    /// Sets a row to 0.
    fn row(&self, _row: &Row, out: &mut [i64]) -> Result<(), Overflow> {
        out.fill(0);
        Ok(())
    }
}

/// The routine `gas_zero`, which sets `gas::cell` to 0 in the boundary: particles that go there leave the sheet.
pub type GasZero = RowsOf<GasZeroRule>;

/// The rule of `gas_zero`.
#[derive(Debug, Drop)]
pub struct GasZeroRule;

impl PointRule for GasZeroRule {
    ghost said = { gas_zero_spec };

    ghost law = { gas_zero_rule };

    fn new() -> Self {
        GasZeroRule
    }

    /// Writes the cells in the boundary.
    fn describe(alloc: Global) -> Result<Spec, Memory> {
        let mut spec = Spec::new(alloc, b"LatticeGas", b"gas_zero", ItemKind::Cell)?;
        spec.add_write(alloc, b"gas::cell", Region::Boundary)?;
        Ok(spec)
    }

    /// No particles.
    fn numbers(&self, _w: &Window, _at: &Place, out: &mut Cells) -> Result<(), Overflow> {
        out.set_only(0);
        Ok(())
    }
}

impl RowRule for GasZeroRule {
    /// Sets a row of cells to 0.
    fn row(&self, _row: &Row, out: &mut [i64]) -> Result<(), Overflow> {
        out.fill(0);
        Ok(())
    }
}
