//! The first row of cells.
ghost use Rattle.std.specs.Prelude.{◌≡◌, ◌<◌, ◌^◌, pos};
ghost use Rattle.cx_thorn_ca.specs.Automaton.{ca_init_spec, ca_init_rule, first_cell};

use cx_plan::{ItemKind, Region};
use cx_rule::{Cells, Overflow, Place, PointRule, RoutineOf, Spec, Window, mix};
use cx_text::Memory;
use std::alloc::Global;

/// The routine `ca_init`, which sets each cell of the first row: at random by `ca::seed`, or, where that is below 0, to 1
/// at the place `ca::start` in global order and to 0 elsewhere.
pub type CaInit = RoutineOf<CaInitRule>;

/// The rule of `ca_init`.
#[derive(Debug, Drop)]
pub struct CaInitRule;

impl PointRule for CaInitRule {
    ghost said = { ca_init_spec };

    ghost law = { ca_init_rule };

    fn new() -> Self {
        CaInitRule
    }

    /// Writes the cells everywhere, and takes the seed and the place of a single living cell.
    fn describe(alloc: Global) -> Result<Spec, Memory> {
        let mut spec = Spec::new(alloc, b"ElemCA", b"ca_init", ItemKind::Cell)?;
        spec.add_write(alloc, b"ca::cell", Region::Everywhere)?;
        spec.add_param(alloc, b"ca::seed")?;
        spec.add_param(alloc, b"ca::start")?;
        Ok(spec)
    }

    /// The first state of the cell.
    fn numbers(&self, _w: &Window, at: &Place, out: &mut Cells) -> Result<(), Overflow> {
        out.set_only(first_cell(at.param(0), at.param(1), at.index()));
        Ok(())
    }
}

/// The first cell at a place: 0 or 1.
fn first_cell(seed: i64, start: i64, index: usize) -> i64
    requires { index < 2 ^ 24 }
    ensures { result ≡ pos (first_cell seed start index) }
{
    if seed >= 0 {
        (mix(seed as u64, index as u64) % 2) as i64
    } else if start == index as i64 {
        1
    } else {
        0
    }
}
