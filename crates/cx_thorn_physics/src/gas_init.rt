//! How a gas starts.
ghost use Rattle.std.specs.Prelude.{◌≡◌, ◌≤ℤ◌, ◌<◌, ◌&&◌, ◌%◌, ◌+ℤ◌, ◌-ℤ◌, ◌*ℤ◌, pos, unsigned_abs};
ghost use Rattle.cx_rule.specs.Numbers.{mix_from};
ghost use Rattle.cx_thorn_physics.specs.Gas.{gas_init_spec, gas_init_rule, in_middle, in_block};
ghost use Rattle.cx_grid.specs.Boxes.{IsIn};
ghost use Rattle.cx_grid.specs.Grid.{IsShape, whole};

use cx_plan::{ItemKind, Region};
use cx_rule::{Cells, Overflow, Place, PointRule, RoutineOf, Spec, Window, mix_from};
use cx_text::Memory;
use std::alloc::Global;

/// The routine `gas_init`: the cells of a block in the middle of the sheet, `gas::size` points wide, become any of the
/// sixteen by `gas::seed`, all others 0.
pub type GasInit = RoutineOf<GasInitRule>;

/// The rule of `gas_init`.
#[derive(Debug, Drop)]
pub struct GasInitRule;

impl PointRule for GasInitRule {
    ghost said = { gas_init_spec };

    ghost law = { gas_init_rule };

    fn new() -> Self {
        GasInitRule
    }

    /// Writes the cells everywhere, and takes the block's size and the seed.
    fn describe(alloc: Global) -> Result<Spec, Memory> {
        let mut spec = Spec::new(alloc, b"LatticeGas", b"gas_init", ItemKind::Cell)?;
        spec.add_write(alloc, b"gas::cell", Region::Everywhere)?;
        spec.add_param(alloc, b"gas::size")?;
        spec.add_param(alloc, b"gas::seed")?;
        Ok(spec)
    }

    /// The first particles of the cell.
    fn numbers(&self, _w: &Window, at: &Place, out: &mut Cells) -> Result<(), Overflow> {
        if in_block(at, at.param(0)) {
            out.set_only(sixteenth(at.param(1), at.index()));
        } else {
            out.set_only(0);
        }
        Ok(())
    }
}

/// Whether a point lies in a block in the middle of the grid.
fn in_block(at: &Place, size: i64) -> bool
    requires shape { IsShape at.now.shape }
    requires point { IsIn (whole at.now.shape) at.now.at }
    ensures { result ≡ in_block at.now size }
{
    let x = in_middle(at.shape.n.x, size, at.at.x);
    let y = in_middle(at.shape.n.y, size, at.at.y);
    both(x, y)
}

/// Whether both hold.
fn both(x: bool, y: bool) -> bool
    ensures { result ≡ (x && y) }
{
    x && y
}

/// Whether a coordinate lies within so many points around the middle of so many.
fn in_middle(n: i32, size: i64, c: i32) -> bool
    requires n { (pos 0 ≤ℤ n) × (n ≤ℤ pos 16777216) }
    requires c { (pos 0 ≤ℤ c) × (c ≤ℤ pos 16777216) }
    ensures { result ≡ in_middle n size c }
{
    distance(n, c) < size
}

/// How far a coordinate lies from the middle of so many, twice.
fn distance(n: i32, c: i32) -> i64
    requires n { (pos 0 ≤ℤ n) × (n ≤ℤ pos 16777216) }
    requires c { (pos 0 ≤ℤ c) × (c ≤ℤ pos 16777216) }
    ensures { result ≡ pos (unsigned_abs (pos 2 *ℤ c +ℤ pos 1 -ℤ n)) }
{
    size_of(from_middle(n, c))
}

/// A coordinate from the middle of so many, twice.
fn from_middle(n: i32, c: i32) -> i32
    requires n { (pos 0 ≤ℤ n) × (n ≤ℤ pos 16777216) }
    requires c { (pos 0 ≤ℤ c) × (c ≤ℤ pos 16777216) }
    ensures value { result ≡ pos 2 *ℤ c +ℤ pos 1 -ℤ n }
{
    2 * c + 1 - n
}

/// A number without its sign.
fn size_of(number: i32) -> i64
    ensures { result ≡ pos (unsigned_abs number) }
{
    number.unsigned_abs() as i64
}

/// One of sixteen numbers by the seed.
fn sixteenth(seed: i64, index: usize) -> i64
    ensures { result ≡ pos (mix_from seed index % 16) }
{
    (mix_from(seed, index) % 16) as i64
}
