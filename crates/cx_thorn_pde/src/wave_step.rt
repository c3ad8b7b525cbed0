//! One step of a wave.
ghost use Rattle.std.specs.Prelude.{◌≡◌, ◌≤◌, ◌≤ℤ◌, ◌∷◌, [], ◌^◌, ◌+ℤ◌, ◌-ℤ◌, ◌*ℤ◌, pos, negsuc};
ghost use Rattle.cx_rule.specs.Seen.{value_of};
ghost use Rattle.cx_rule.specs.Single.{here};
ghost use Rattle.cx_thorn_pde.specs.Around.{lap};
ghost use Rattle.cx_thorn_pde.specs.Exact.{in_64_bits, scaled};
ghost use Rattle.cx_thorn_pde.specs.Wave.{wave_step_spec, wave_step_rule, next_wave};

use crate::around::lap;
use crate::around_row::rows_around;
use crate::exact::plus_scaled;
use cx_plan::{ItemKind, Region};
use cx_rule::{Cells, Overflow, Place, PointRule, Row, RowRule, RowsOf, Spec, Window};
use cx_text::Memory;
use std::alloc::Global;

/// The routine `wave_step`: each point of the interior becomes twice its last value, minus the one before it, and
/// `wave::factor` 256ths of its bend, rounded down.
pub type WaveStep = RowsOf<WaveStepRule>;

/// The rule of `wave_step`.
#[derive(Debug, Drop)]
pub struct WaveStepRule;

impl PointRule for WaveStepRule {
    ghost said = { wave_step_spec };

    ghost law = { wave_step_rule };

    fn new() -> Self {
        WaveStepRule
    }

    /// Reads the last two levels of the wave, and writes the next one in the interior.
    fn describe(alloc: Global) -> Result<Spec, Memory> {
        let mut spec = Spec::new(alloc, b"WaveInt", b"wave_step", ItemKind::Cell)?;
        spec.add_read(alloc, b"wave::phi_p", Region::Everywhere, 1)?;
        spec.add_read(alloc, b"wave::phi_p_p", Region::Interior, 0)?;
        spec.add_write(alloc, b"wave::phi", Region::Interior)?;
        spec.add_param(alloc, b"wave::factor")?;
        Ok(spec)
    }

    /// Twice the last number less the one before, and a factor, in 256ths, times its bend.
    fn numbers(&self, w: &Window, at: &Place, out: &mut Cells) -> Result<(), Overflow> {
        out.set_if(next(w, at.shape.dims, at.param(0)))
    }
}

impl RowRule for WaveStepRule {
    /// Computes a row of the next level.
    fn row(&self, row: &Row, out: &mut [i64]) -> Result<(), Overflow> {
        let around = rows_around(row, row.along(1, 0, 0));
        around.next_row(row.param(0), out)
    }
}

/// The next value at the point, if it has 64 bits.
fn next(w: &Window, dims: u8, factor: i64) -> Option<i64>
    requires directions { w.now.seen.dims ≡ dims }
    requires some { 1 ≤ dims }
    requires most { dims ≤ 3 }
    requires reads { w.now.seen.reaches ≡ 1 ∷ 0 ∷ [] }
    ensures { result ≡ in_64_bits (next_wave w.now.seen factor) }
{
    let bend = lap(w, dims);
    stepped(w.here(0), w.here(1), factor, bend)
}

/// Twice the last number, minus the one before it, and a factor, in 256ths, times the bend; none where this leaves 64 bits.
pub(crate) fn stepped(last: i64, before: i64, factor: i64, bend: i128) -> Option<i64>
    ensures { result ≡ in_64_bits (pos 2 *ℤ last -ℤ before +ℤ scaled factor bend) }
{
    plus_scaled(twice_minus(last, before), factor, bend)
}

/// Twice the last number less the one before, exactly.
fn twice_minus(last: i64, before: i64) -> i128
    ensures value { result ≡ pos 2 *ℤ last -ℤ before }
    ensures low { negsuc (2 ^ 66) ≤ℤ result }
    ensures high { result ≤ℤ pos (2 ^ 66) }
{
    2 * last as i128 - before as i128
}
