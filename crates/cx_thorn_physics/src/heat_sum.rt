//! The sum of the heat.
ghost use Rattle.std.specs.Prelude.{◌≡◌};
ghost use Rattle.cx_thorn_physics.specs.Flux.{heatflux_sum_spec, heatflux_sum_rule};

use cx_plan::{ItemKind, Region};
use cx_rule::{Cells, Overflow, Place, PointRule, RoutineOf, Spec, Window};
use cx_text::Memory;
use std::alloc::Global;

/// The routine `heatflux_sum`: `heatflux::total` becomes the sum of `heatflux::u`. Its rule gives what a point adds:
/// the value.
pub type HeatSum = RoutineOf<HeatSumRule>;

/// The rule of `heatflux_sum`.
#[derive(Debug, Drop)]
pub struct HeatSumRule;

impl PointRule for HeatSumRule {
    ghost said = { heatflux_sum_spec };

    ghost law = { heatflux_sum_rule };

    fn new() -> Self {
        HeatSumRule
    }

    /// Reads the heat everywhere, and writes its total.
    fn describe(alloc: Global) -> Result<Spec, Memory> {
        let mut spec = Spec::new(alloc, b"HeatFlux", b"heatflux_sum", ItemKind::Sum)?;
        spec.add_read(alloc, b"heatflux::u", Region::Everywhere, 0)?;
        spec.add_write(alloc, b"heatflux::total", Region::Everywhere)?;
        Ok(spec)
    }

    /// What a point adds to the total: the heat there.
    fn numbers(&self, w: &Window, _at: &Place, out: &mut Cells) -> Result<(), Overflow> {
        out.set_only(w.here(0));
        Ok(())
    }
}
