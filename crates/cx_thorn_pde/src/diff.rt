//! How heat starts and spreads.
ghost use Rattle.std.specs.Prelude.{◌≡◌, ◌<◌, length, drop};
ghost use Rattle.cx_thorn_pde.specs.Heat.{diff_init_spec, diff_init_rule, diff_step_spec, diff_step_rule};

use crate::around::lap;
use crate::around_row::rows_around;
use crate::exact::plus_scaled;
use crate::start::start_at;
use cx_plan::{ItemKind, Region};
use cx_rule::{Cells, Overflow, Place, PointRule, RoutineOf, Row, RowRule, RowsOf, Spec, Window};
use cx_text::Memory;
use std::alloc::Global;

/// The routine `diff_init`: `diff::u` becomes the start, by `diff::pattern`, `diff::amount`, `diff::start` and
/// `diff::seed`.
pub type DiffInit = RoutineOf<DiffInitRule>;

/// The rule of `diff_init`.
#[derive(Debug, Drop)]
pub struct DiffInitRule;

impl PointRule for DiffInitRule {
    ghost said = { diff_init_spec };

    ghost law = { diff_init_rule };

    fn new() -> Self {
        DiffInitRule
    }

    /// Writes the heat everywhere, and takes the pattern that it starts with.
    fn describe(alloc: Global) -> Result<Spec, Memory> {
        let mut spec = Spec::new(alloc, b"DiffInt", b"diff_init", ItemKind::Cell)?;
        spec.add_write(alloc, b"diff::u", Region::Everywhere)?;
        spec.add_param(alloc, b"diff::pattern")?;
        spec.add_param(alloc, b"diff::amount")?;
        spec.add_param(alloc, b"diff::start")?;
        spec.add_param(alloc, b"diff::seed")?;
        Ok(spec)
    }

    /// The heat that the pattern gives the point.
    fn numbers(&self, _w: &Window, at: &Place, out: &mut Cells) -> Result<(), Overflow> {
        out.set_if(start_at(at))
    }
}

/// The routine `diff_step`: each point of the interior becomes its value and `diff::factor` 256ths of its bend, rounded
/// down.
pub type DiffStep = RowsOf<DiffStepRule>;

/// The rule of `diff_step`.
#[derive(Debug, Drop)]
pub struct DiffStepRule;

impl PointRule for DiffStepRule {
    ghost said = { diff_step_spec };

    ghost law = { diff_step_rule };

    fn new() -> Self {
        DiffStepRule
    }

    /// Reads the heat of a point and its neighbours, and writes it in the interior.
    fn describe(alloc: Global) -> Result<Spec, Memory> {
        let mut spec = Spec::new(alloc, b"DiffInt", b"diff_step", ItemKind::Cell)?;
        spec.add_read(alloc, b"diff::u", Region::Everywhere, 1)?;
        spec.add_write(alloc, b"diff::u", Region::Interior)?;
        spec.add_param(alloc, b"diff::factor")?;
        Ok(spec)
    }

    /// The heat at the point, and a factor, in 256ths, times its bend.
    fn numbers(&self, w: &Window, at: &Place, out: &mut Cells) -> Result<(), Overflow> {
        let bend = lap(w, at.shape.dims);
        out.set_if(plus_scaled(w.here(0) as i128, at.param(0), bend))
    }
}

impl RowRule for DiffStepRule {
    /// Computes a row of next heats. The heat itself takes the place of the one before.
    fn row(&self, row: &Row, out: &mut [i64]) -> Result<(), Overflow> {
        // Twice a value minus itself is the value.
        let before = inner(row.along(0, 0, 0));
        let around = rows_around(row, before);
        around.next_row(row.param(0), out)
    }
}

/// A row without its first number.
fn inner(row: &[i64]) -> &[i64]
    requires { 0 < length row.now }
    ensures { result.now ≡ drop 1 row.now }
{
    &row[1..]
}
