//! The edge of the row and of the sheet.
ghost use Rattle.std.specs.Prelude.{◌≡◌, length, pos};
ghost use Rattle.cx_thorn_ca.specs.Automaton.{ca_zero_spec, ca_zero_rule};
ghost use Rattle.cx_thorn_ca.specs.Life.{life_zero_spec, life_zero_rule};
ghost use Rattle.cx_thorn_ca.specs.Rows.{AreBy};

use cx_plan::{ItemKind, Region};
use cx_rule::{Cells, Overflow, Place, PointRule, Row, RowRule, RowsOf, Spec, Window};
use cx_text::Memory;
use std::alloc::Global;

/// The routine `ca_zero`, which sets each boundary cell of the row to 0.
pub type CaZero = RowsOf<CaZeroRule>;

/// The rule of `ca_zero`.
#[derive(Debug, Drop)]
pub struct CaZeroRule;

impl PointRule for CaZeroRule {
    ghost said = { ca_zero_spec };

    ghost law = { ca_zero_rule };

    fn new() -> Self {
        CaZeroRule
    }

    /// Writes the cells of the row in the boundary.
    fn describe(alloc: Global) -> Result<Spec, Memory> {
        let mut spec = Spec::new(alloc, b"ElemCA", b"ca_zero", ItemKind::Cell)?;
        spec.add_write(alloc, b"ca::cell", Region::Boundary)?;
        Ok(spec)
    }

    /// The cell is dead.
    fn numbers(&self, _w: &Window, _at: &Place, out: &mut Cells) -> Result<(), Overflow> {
        out.set_only(0);
        Ok(())
    }
}

impl RowRule for CaZeroRule {
    /// Sets a row of cells to 0.
    fn row(&self, _row: &Row, out: &mut [i64]) -> Result<(), Overflow> {
        put_zeros(out);
        Ok(())
    }
}

/// The routine `life_zero`, which sets each boundary cell of the sheet to 0.
pub type LifeZero = RowsOf<LifeZeroRule>;

/// The rule of `life_zero`.
#[derive(Debug, Drop)]
pub struct LifeZeroRule;

impl PointRule for LifeZeroRule {
    ghost said = { life_zero_spec };

    ghost law = { life_zero_rule };

    fn new() -> Self {
        LifeZeroRule
    }

    /// Writes the cells of the sheet in the boundary.
    fn describe(alloc: Global) -> Result<Spec, Memory> {
        let mut spec = Spec::new(alloc, b"Life2D", b"life_zero", ItemKind::Cell)?;
        spec.add_write(alloc, b"life::cell", Region::Boundary)?;
        Ok(spec)
    }

    /// The cell is dead.
    fn numbers(&self, _w: &Window, _at: &Place, out: &mut Cells) -> Result<(), Overflow> {
        out.set_only(0);
        Ok(())
    }
}

impl RowRule for LifeZeroRule {
    /// Sets a row of cells to 0.
    fn row(&self, _row: &Row, out: &mut [i64]) -> Result<(), Overflow> {
        put_zeros(out);
        Ok(())
    }
}

/// Makes each cell of a row 0.
fn put_zeros(cells: &mut [i64])
    ensures cells { AreBy (λ _. pos 0) cells.new (length cells.old) }
    ensures room { length cells.new ≡ length cells.old }
{
    cells.fill(0);
}
