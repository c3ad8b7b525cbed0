//! How particles move on.
ghost use Rattle.std.specs.Prelude.{◌≡◌, ◌≤◌, ◌<◌, ◌+◌, ◌∷◌, [], pos, negsuc, length};
ghost use Rattle.cx_rule.specs.Numbers.{bit_of};
ghost use Rattle.cx_rule.specs.Rows.{seen_row, FitsRow, GivesRow};
ghost use Rattle.cx_rule.specs.Seen.{value_of};
ghost use Rattle.cx_thorn_physics.specs.Gas.{gas_step_spec, gas_step_rule, arriving, beside_y, cell_of, turned, east, north, west, south};
ghost use Rattle.cx_thorn_physics.specs.Rows.{AreBy, cell_amid, gas_at};

use cx_grid::Point;
use cx_plan::{ItemKind, Region};
use cx_rule::{Cells, Overflow, Place, PointRule, Row, RowRule, RowsOf, Spec, Window};
use cx_text::Memory;
use std::alloc::Global;

/// The routine `gas_step`: the particles that come to a point of the interior are those that its neighbours had on
/// their way there, and two that meet head-on, alone, turn by a quarter.
pub type GasStep = RowsOf<GasStepRule>;

/// The rule of `gas_step`.
#[derive(Debug, Drop)]
pub struct GasStepRule;

impl PointRule for GasStepRule {
    ghost said = { gas_step_spec };

    ghost law = { gas_step_rule };

    fn new() -> Self {
        GasStepRule
    }

    /// Reads the cells around a point, and writes the cell in the interior.
    fn describe(alloc: Global) -> Result<Spec, Memory> {
        let mut spec = Spec::new(alloc, b"LatticeGas", b"gas_step", ItemKind::Cell)?;
        spec.add_read(alloc, b"gas::cell", Region::Everywhere, 1)?;
        spec.add_write(alloc, b"gas::cell", Region::Interior)?;
        Ok(spec)
    }

    /// The particles that come to the point, turned where two meet.
    fn numbers(&self, w: &Window, at: &Place, out: &mut Cells) -> Result<(), Overflow> {
        out.set_only(turned(arriving(w, at.shape.dims)));
        Ok(())
    }
}

impl RowRule for GasStepRule {
    /// Computes a row of next cells, also on a grid with one direction.
    fn row(&self, row: &Row, out: &mut [i64]) -> Result<(), Overflow> {
        if row.dims() < 2 {
            put_alone(row, out);
        } else {
            put_amid(row, out);
        }
        Ok(())
    }
}

/// The next cells along a row that has no neighbours: particles along y stay in it.
fn put_alone(row: &Row, out: &mut [i64])
    requires fits { FitsRow gas_step_spec (seen_row row.now) }
    requires line { (seen_row row.now).dims < 2 }
    requires count { length out.old ≡ row.now.count }
    ensures numbers { GivesRow gas_step_rule (seen_row row.now) out.new }
    ensures room { length out.new ≡ length out.old }
{
    let cells = row.along(0, 0, 0);
    next_row(cells, cells, cells, out);
}

/// The next cells along a row that has neighbours below and above.
fn put_amid(row: &Row, out: &mut [i64])
    requires fits { FitsRow gas_step_spec (seen_row row.now) }
    requires sheet { 2 ≤ (seen_row row.now).dims }
    requires count { length out.old ≡ row.now.count }
    ensures numbers { GivesRow gas_step_rule (seen_row row.now) out.new }
    ensures room { length out.new ≡ length out.old }
{
    let below = row.along(0, -1, 0);
    let above = row.along(0, 1, 0);
    next_row(below, row.along(0, 0, 0), above, out);
}

/// The next cells of a row between those below and above it, each of which begins one cell before them.
fn next_row(below: &[i64], cells: &[i64], above: &[i64], next_cells: &mut [i64])
    requires below { length below.now ≡ length next_cells.old + 2 }
    requires cells { length cells.now ≡ length next_cells.old + 2 }
    requires above { length above.now ≡ length next_cells.old + 2 }
    ensures cells { AreBy (gas_at below.now cells.now above.now) next_cells.new
        (length next_cells.old) }
    ensures room { length next_cells.new ≡ length next_cells.old }
{
    'cells: for i in 0..next_cells.len() {
        next_cells[i] = cell_amid(cells[i], below[i + 1], cells[i + 2], above[i + 1]);
    }
}

/// The cell to which four neighbours send their particles.
#[inline(always)]
fn cell_amid(left: i64, below: i64, right: i64, above: i64) -> i64
    ensures { result ≡ cell_amid left below right above }
{
    turned(met(left, below, right, above))
}

/// The particles that come to a point, each from the neighbour behind it.
fn arriving(w: &Window, dims: u8) -> u64
    requires directions { w.now.seen.dims ≡ dims }
    requires some { 1 ≤ dims }
    requires reads { w.now.seen.reaches ≡ 1 ∷ [] }
    ensures value { result ≡ arriving w.now.seen }
    ensures few { result < 16 }
{
    let left = w.value(0, Point { x: -1, y: 0, z: 0 });
    let right = w.value(0, Point { x: 1, y: 0, z: 0 });
    met(left, below(w, dims), right, above(w, dims))
}

/// The cell below a point, or the point's own on a grid without that direction.
fn below(w: &Window, dims: u8) -> i64
    requires directions { w.now.seen.dims ≡ dims }
    requires reads { w.now.seen.reaches ≡ 1 ∷ [] }
    ensures { result ≡ value_of w.now.seen 0 (beside_y w.now.seen (negsuc 0)) }
{
    if dims < 2 {
        w.here(0)
    } else {
        w.value(0, Point { x: 0, y: -1, z: 0 })
    }
}

/// The cell above a point, or the point's own on a grid without that direction.
fn above(w: &Window, dims: u8) -> i64
    requires directions { w.now.seen.dims ≡ dims }
    requires reads { w.now.seen.reaches ≡ 1 ∷ [] }
    ensures { result ≡ value_of w.now.seen 0 (beside_y w.now.seen (pos 1)) }
{
    if dims < 2 {
        w.here(0)
    } else {
        w.value(0, Point { x: 0, y: 1, z: 0 })
    }
}

/// The particles that go east in the first cell, north in the second, west in the third and south in the last.
#[inline(always)]
fn met(left: i64, below: i64, right: i64, above: i64) -> u64
    ensures value { result ≡ cell_of (east left) (north below) (west right) (south above) }
    ensures few { result < 16 }
{
    particle(left, 0) + 2 * particle(below, 1) + 4 * particle(right, 2) + 8 * particle(above, 3)
}

/// A bit of a cell.
#[inline(always)]
fn particle(cell: i64, way: u32) -> u64
    requires { way < 4 }
    ensures value { result ≡ bit_of cell way }
    ensures few { result < 2 }
{
    (cell.cast_unsigned() >> way) % 2
}

/// A cell in which two particles that meet head-on, alone, have turned by a quarter.
#[inline(always)]
fn turned(cell: u64) -> i64
    requires { cell < 16 }
    ensures { result ≡ pos (turned cell) }
{
    match cell {
        5 => 10,
        10 => 5,
        _ => cell as i64,
    }
}
