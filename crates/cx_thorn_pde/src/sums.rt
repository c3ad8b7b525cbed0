//! The sums of waves and heat.
ghost use Rattle.std.specs.Prelude.{◌≡◌};
ghost use Rattle.cx_thorn_pde.specs.Wave.{wave_sum_spec, wave_sum_rule};
ghost use Rattle.cx_thorn_pde.specs.Heat.{diff_sum_spec, diff_sum_rule};

use cx_plan::{ItemKind, Region};
use cx_rule::{Cells, Overflow, Place, PointRule, RoutineOf, Spec, Window};
use cx_text::Memory;
use std::alloc::Global;

/// The routine `wave_sum`: `wave::total` becomes the sum of `wave::phi`. Its rule gives what a point adds: the value.
pub type WaveSum = RoutineOf<WaveSumRule>;

/// The rule of `wave_sum`.
#[derive(Debug, Drop)]
pub struct WaveSumRule;

impl PointRule for WaveSumRule {
    ghost said = { wave_sum_spec };

    ghost law = { wave_sum_rule };

    fn new() -> Self {
        WaveSumRule
    }

    /// Reads the wave everywhere, and writes its total.
    fn describe(alloc: Global) -> Result<Spec, Memory> {
        let mut spec = Spec::new(alloc, b"WaveInt", b"wave_sum", ItemKind::Sum)?;
        spec.add_read(alloc, b"wave::phi", Region::Everywhere, 0)?;
        spec.add_write(alloc, b"wave::total", Region::Everywhere)?;
        Ok(spec)
    }

    /// What a point adds to the total: the wave there.
    fn numbers(&self, w: &Window, _at: &Place, out: &mut Cells) -> Result<(), Overflow> {
        out.set_only(w.here(0));
        Ok(())
    }
}

/// The routine `diff_sum`: `diff::total` becomes the sum of `diff::u`. Its rule gives what a point adds: the value.
pub type DiffSum = RoutineOf<DiffSumRule>;

/// The rule of `diff_sum`.
#[derive(Debug, Drop)]
pub struct DiffSumRule;

impl PointRule for DiffSumRule {
    ghost said = { diff_sum_spec };

    ghost law = { diff_sum_rule };

    fn new() -> Self {
        DiffSumRule
    }

    /// Reads the heat everywhere, and writes its total.
    fn describe(alloc: Global) -> Result<Spec, Memory> {
        let mut spec = Spec::new(alloc, b"DiffInt", b"diff_sum", ItemKind::Sum)?;
        spec.add_read(alloc, b"diff::u", Region::Everywhere, 0)?;
        spec.add_write(alloc, b"diff::total", Region::Everywhere)?;
        Ok(spec)
    }

    /// What a point adds to the total: the heat there.
    fn numbers(&self, w: &Window, _at: &Place, out: &mut Cells) -> Result<(), Overflow> {
        out.set_only(w.here(0));
        Ok(())
    }
}
