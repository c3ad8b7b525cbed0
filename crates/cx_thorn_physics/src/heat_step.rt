//! How heat flows.
ghost use Rattle.std.specs.Prelude.{◌≡◌, ◌≤◌, ◌<◌, ◌≤ℤ◌, ◌+◌, ◌^◌, ◌+ℤ◌, ◌∷◌, [], pos, negsuc, length, OnOk, OnErr};
ghost use Rattle.cx_rule.specs.Seen.{value_of};
ghost use Rattle.cx_rule.specs.Single.{here};
ghost use Rattle.cx_thorn_physics.specs.Exact.{in_64_bits};
ghost use Rattle.cx_thorn_physics.specs.Flux.{heatflux_step_spec, heatflux_step_rule, gains};
ghost use Rattle.cx_thorn_physics.specs.Rows.{AreGiven, HasPlaces, LacksIn, heat_at};

use crate::exact::in_64_bits;
use crate::flux_around::gains;
use crate::rows_around::{RowsAround, rows_around};
use cx_plan::{ItemKind, Region};
use cx_rule::{Cells, Overflow, Place, PointRule, Row, RowRule, RowsOf, Spec, Window};
use cx_text::Memory;
use std::alloc::Global;

/// The routine `heatflux_step`: each point of the interior gains what flows in from its neighbours, and loses what flows
/// out to them. Between two points flow `heatflux::factor` 256ths of their difference, rounded toward 0, and nothing
/// where `heatflux::mask` is 0 at one of them.
pub type HeatStep = RowsOf<HeatStepRule>;

/// The rule of `heatflux_step`.
#[derive(Debug, Drop)]
pub struct HeatStepRule;

impl PointRule for HeatStepRule {
    ghost said = { heatflux_step_spec };

    ghost law = { heatflux_step_rule };

    fn new() -> Self {
        HeatStepRule
    }

    /// Reads heat and mask of a point and its neighbours, and writes the heat in the interior; it takes the factor.
    fn describe(alloc: Global) -> Result<Spec, Memory> {
        let mut spec = Spec::new(alloc, b"HeatFlux", b"heatflux_step", ItemKind::Cell)?;
        spec.add_read(alloc, b"heatflux::u", Region::Everywhere, 1)?;
        spec.add_read(alloc, b"heatflux::mask", Region::Everywhere, 1)?;
        spec.add_write(alloc, b"heatflux::u", Region::Interior)?;
        spec.add_param(alloc, b"heatflux::factor")?;
        Ok(spec)
    }

    /// The heat at the point and what it gains; an overflow if that has more than 64 bits.
    fn numbers(&self, w: &Window, at: &Place, out: &mut Cells) -> Result<(), Overflow> {
        out.set_if(next(w, at.shape.dims, at.param(0)))
    }
}

impl RowRule for HeatStepRule {
    /// Computes a row of next heats.
    fn row(&self, row: &Row, out: &mut [i64]) -> Result<(), Overflow> {
        let heat = rows_around(row, 0);
        let mask = rows_around(row, 1);
        next_row(row.param(0), &heat, &mask, out)
    }
}

/// The heats along a row with what they gain.
///
/// # Errors
///
/// `Overflow` exactly where one of these numbers leaves 64 bits.
fn next_row(
    factor: i64,
    heat: &RowsAround,
    mask: &RowsAround,
    out: &mut [i64],
) -> Result<(), Overflow>
    requires heat { HasPlaces heat.now (length out.old) }
    requires mask { HasPlaces mask.now (length out.old) }
    ensures numbers { OnOk result (AreGiven (heat_at factor heat.now mask.now) out.new
        (length out.old)) }
    ensures overflow { OnErr result (LacksIn (heat_at factor heat.now mask.now) (length out.old)) }
    ensures room { length out.new ≡ length out.old }
{
    'places: for i in 0..out.len() {
        match heat.heat_at(mask, factor, i) {
            Some(number) => out[i] = number,
            None => return Err(Overflow),
        }
    }
    Ok(())
}

/// The next heat at the point, if it has 64 bits.
fn next(w: &Window, dims: u8, factor: i64) -> Option<i64>
    requires directions { w.now.seen.dims ≡ dims }
    requires some { 1 ≤ dims }
    requires most { dims ≤ 3 }
    requires reads { w.now.seen.reaches ≡ 1 ∷ 1 ∷ [] }
    ensures { result ≡ in_64_bits (value_of w.now.seen 0 here +ℤ gains w.now.seen factor) }
{
    let gains = gains(w, dims, factor);
    in_64_bits(plus(w.here(0), gains))
}

/// A heat and what it gains, exactly.
#[inline(always)]
pub(crate) fn plus(heat: i64, gains: i128) -> i128
    requires low { negsuc (2 ^ 123) ≤ℤ gains }
    requires high { gains ≤ℤ pos (2 ^ 123) }
    ensures { result ≡ heat +ℤ gains }
{
    heat as i128 + gains
}
