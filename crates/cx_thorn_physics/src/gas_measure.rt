//! What is measured of a gas at each point.
ghost use Rattle.std.specs.Prelude.{◌≡◌, ◌≤◌, ◌∷◌, [], length};
ghost use Rattle.cx_thorn_physics.specs.Gas.{gas_measure_spec, gas_measure_rule, number_of, momentum_x_of, momentum_y_of};

use cx_plan::{ItemKind, Region};
use cx_rule::{Cells, Overflow, Place, PointRule, RoutineOf, Spec, Window, bit};
use cx_text::Memory;
use std::alloc::Global;

/// The routine `gas_measure`: `gas::number` becomes the number of a cell's particles, `gas::momentum_x` and
/// `gas::momentum_y` their momenta.
pub type GasMeasure = RoutineOf<GasMeasureRule>;

/// The rule of `gas_measure`.
#[derive(Debug, Drop)]
pub struct GasMeasureRule;

impl PointRule for GasMeasureRule {
    ghost said = { gas_measure_spec };

    ghost law = { gas_measure_rule };

    fn new() -> Self {
        GasMeasureRule
    }

    /// Reads the cells everywhere, and writes the three numbers of each.
    fn describe(alloc: Global) -> Result<Spec, Memory> {
        let mut spec = Spec::new(alloc, b"LatticeGas", b"gas_measure", ItemKind::Cell)?;
        spec.add_read(alloc, b"gas::cell", Region::Everywhere, 0)?;
        spec.add_write(alloc, b"gas::number", Region::Everywhere)?;
        spec.add_write(alloc, b"gas::momentum_x", Region::Everywhere)?;
        spec.add_write(alloc, b"gas::momentum_y", Region::Everywhere)?;
        Ok(spec)
    }

    /// The number of the cell's particles, and their momenta.
    fn numbers(&self, w: &Window, _at: &Place, out: &mut Cells) -> Result<(), Overflow> {
        let cell = w.here(0);
        set_three(out, number(cell), momentum_x(cell), momentum_y(cell));
        Ok(())
    }
}

/// How many particles a cell has.
fn number(cell: i64) -> i64
    ensures { result ≡ number_of cell }
{
    bit(cell, 0) + bit(cell, 1) + bit(cell, 2) + bit(cell, 3)
}

/// How many more particles go east than west.
fn momentum_x(cell: i64) -> i64
    ensures { result ≡ momentum_x_of cell }
{
    bit(cell, 0) - bit(cell, 2)
}

/// How many more particles go north than south.
fn momentum_y(cell: i64) -> i64
    ensures { result ≡ momentum_y_of cell }
{
    bit(cell, 1) - bit(cell, 3)
}

/// Sets the numbers of the three writes that there are.
#[tactic(auto, using(crate::proofs::Cells::only_three))]
fn set_three(out: &mut Cells, first: i64, second: i64, third: i64)
    requires { length out.old ≡ 3 }
    ensures { out.new ≡ first ∷ second ∷ third ∷ [] }
{
    out.set(0, first);
    out.set(1, second);
    out.set(2, third);
}
