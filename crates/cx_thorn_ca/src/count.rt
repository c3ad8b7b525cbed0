//! The counts of living cells.
ghost use Rattle.std.specs.Prelude.{◌≡◌};
ghost use Rattle.cx_thorn_ca.specs.Automaton.{ca_count_spec, ca_count_rule};
ghost use Rattle.cx_thorn_ca.specs.Life.{life_count_spec, life_count_rule};

use cx_plan::{ItemKind, Region};
use cx_rule::{Cells, Overflow, Place, PointRule, RoutineOf, Spec, Window};
use cx_text::Memory;
use std::alloc::Global;

/// The routine `ca_count`: `ca::live` becomes the sum of the row's cells. Its rule gives what a cell adds: the cell.
pub type CaCount = RoutineOf<CaCountRule>;

/// The rule of `ca_count`.
#[derive(Debug, Drop)]
pub struct CaCountRule;

impl PointRule for CaCountRule {
    ghost said = { ca_count_spec };

    ghost law = { ca_count_rule };

    fn new() -> Self {
        CaCountRule
    }

    /// Reads the cells of the row, and writes the number of living ones as their sum.
    fn describe(alloc: Global) -> Result<Spec, Memory> {
        let mut spec = Spec::new(alloc, b"ElemCA", b"ca_count", ItemKind::Sum)?;
        spec.add_read(alloc, b"ca::cell", Region::Everywhere, 0)?;
        spec.add_write(alloc, b"ca::live", Region::Everywhere)?;
        Ok(spec)
    }

    /// What a cell adds to the sum: itself.
    fn numbers(&self, w: &Window, _at: &Place, out: &mut Cells) -> Result<(), Overflow> {
        out.set_only(w.here(0));
        Ok(())
    }
}

/// The routine `life_count`: `life::live` becomes the number of the sheet's cells that aren't 0. Its rule gives what is
/// looked at: the cell.
pub type LifeCount = RoutineOf<LifeCountRule>;

/// The rule of `life_count`.
#[derive(Debug, Drop)]
pub struct LifeCountRule;

impl PointRule for LifeCountRule {
    ghost said = { life_count_spec };

    ghost law = { life_count_rule };

    fn new() -> Self {
        LifeCountRule
    }

    /// Reads the cells of the sheet, and writes the number of living ones as their count.
    fn describe(alloc: Global) -> Result<Spec, Memory> {
        let mut spec = Spec::new(alloc, b"Life2D", b"life_count", ItemKind::Count)?;
        spec.add_read(alloc, b"life::cell", Region::Everywhere, 0)?;
        spec.add_write(alloc, b"life::live", Region::Everywhere)?;
        Ok(spec)
    }

    /// The cell, which counts if it isn't 0.
    fn numbers(&self, w: &Window, _at: &Place, out: &mut Cells) -> Result<(), Overflow> {
        out.set_only(w.here(0));
        Ok(())
    }
}
