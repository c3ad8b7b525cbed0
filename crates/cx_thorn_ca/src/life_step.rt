//! One step of the sheet.
ghost use Rattle.std.specs.Prelude.{◌≡◌, ◌≤◌, ◌<◌, ◌≤ℤ◌, ◌+◌, ◌∷◌, [], length, negsuc, pos};
ghost use Rattle.cx_rule.specs.Rows.{seen_row, FitsRow, GivesRow};
ghost use Rattle.cx_thorn_ca.specs.Life.{life_step_spec, life_step_rule, counts_of, living, neighbours, row_of_three};
ghost use Rattle.cx_thorn_ca.specs.Rows.{AreBy, beside_at, next_alone};

use crate::alive::{alive, alive_cell};
use crate::sheet_row::next_amid;
use cx_plan::{ItemKind, Region};
use cx_rule::{Cells, Overflow, Place, PointRule, Row, RowRule, RowsOf, Spec, Window, bit};
use cx_text::Memory;
use std::alloc::Global;

/// The routine `life_step`: each cell of the interior becomes the bit of `life::survive`, where it isn't 0, or else of
/// `life::born`, whose number is how many neighbours in x and y aren't 0. With one direction only those in x count, and a
/// third direction isn't looked at.
pub type LifeStep = RowsOf<LifeStepRule>;

/// The rule of `life_step`.
#[derive(Debug, Drop)]
pub struct LifeStepRule;

impl PointRule for LifeStepRule {
    ghost said = { life_step_spec };

    ghost law = { life_step_rule };

    fn new() -> Self {
        LifeStepRule
    }

    /// Reads a cell and its neighbours, and writes the cell in the interior; it takes the rules of life.
    fn describe(alloc: Global) -> Result<Spec, Memory> {
        let mut spec = Spec::new(alloc, b"Life2D", b"life_step", ItemKind::Cell)?;
        spec.add_read(alloc, b"life::cell", Region::Everywhere, 1)?;
        spec.add_write(alloc, b"life::cell", Region::Interior)?;
        spec.add_param(alloc, b"life::survive")?;
        spec.add_param(alloc, b"life::born")?;
        Ok(spec)
    }

    /// 1 if the number of living neighbours is one at which the cell survives or is born, else 0.
    fn numbers(&self, w: &Window, at: &Place, out: &mut Cells) -> Result<(), Overflow> {
        let counts = counts(w.here(0), at.param(0), at.param(1));
        out.set_only(bit(counts, living(w, at.shape.dims)));
        Ok(())
    }
}

impl RowRule for LifeStepRule {
    /// Computes a row of next cells, also on a grid with one direction.
    fn row(&self, row: &Row, out: &mut [i64]) -> Result<(), Overflow> {
        if row.dims() < 2 {
            put_alone(row, out);
        } else {
            put_amid(row, out);
        }
        Ok(())
    }
}

/// The next cells along a row that has no neighbours.
fn put_alone(row: &Row, out: &mut [i64])
    requires fits { FitsRow life_step_spec (seen_row row.now) }
    requires line { (seen_row row.now).dims < 2 }
    requires count { length out.old ≡ row.now.count }
    ensures numbers { GivesRow life_step_rule (seen_row row.now) out.new }
    ensures room { length out.new ≡ length out.old }
{
    next_alone(row.param(0), row.param(1), row.along(0, 0, 0), out);
}

/// The next cells along a row that has neighbours below and above.
fn put_amid(row: &Row, out: &mut [i64])
    requires fits { FitsRow life_step_spec (seen_row row.now) }
    requires sheet { 2 ≤ (seen_row row.now).dims }
    requires count { length out.old ≡ row.now.count }
    ensures numbers { GivesRow life_step_rule (seen_row row.now) out.new }
    ensures room { length out.new ≡ length out.old }
{
    let below = row.along(0, -1, 0);
    let above = row.along(0, 1, 0);
    next_amid(
        row.param(0),
        row.param(1),
        below,
        row.along(0, 0, 0),
        above,
        out,
    );
}

/// The next cells of a row without neighbours, which begins one cell before them.
fn next_alone(survive: i64, born: i64, cells: &[i64], next_cells: &mut [i64])
    requires { length cells.now ≡ length next_cells.old + 2 }
    ensures cells { AreBy (next_alone survive born cells.now) next_cells.new
        (length next_cells.old) }
    ensures room { length next_cells.new ≡ length next_cells.old }
{
    'cells: for i in 0..next_cells.len() {
        next_cells[i] = bit(counts(cells[i + 1], survive, born), beside(cells, i));
    }
}

/// How many neighbours in the row aren't 0.
pub(crate) fn beside(cells: &[i64], i: usize) -> u32
    requires { i + 2 < length cells.now }
    ensures value { result ≡ beside_at cells.now i }
    ensures few { result ≤ 2 }
{
    alive_cell(cells[i]) + alive_cell(cells[i + 2])
}

/// The number whose bits tell the next cell.
fn counts(cell: i64, survive: i64, born: i64) -> i64
    ensures { result ≡ counts_of cell survive born }
{
    if cell == 0 { born } else { survive }
}

/// How many neighbours aren't 0.
fn living(w: &Window, dims: u8) -> u32
    requires directions { w.now.seen.dims ≡ dims }
    requires some { 1 ≤ dims }
    requires reads { w.now.seen.reaches ≡ 1 ∷ [] }
    ensures value { result ≡ living w.now.seen (neighbours dims) }
    ensures few { result ≤ 8 }
{
    let beside = alive(w, -1, 0) + alive(w, 1, 0);
    if dims < 2 {
        return beside;
    }
    beside + living_in_row(w, -1) + living_in_row(w, 1)
}

/// How many of three cells in a row above or below aren't 0.
fn living_in_row(w: &Window, y: i32) -> u32
    requires directions { 2 ≤ w.now.seen.dims }
    requires reads { w.now.seen.reaches ≡ 1 ∷ [] }
    requires low { negsuc 0 ≤ℤ y }
    requires high { y ≤ℤ pos 1 }
    ensures value { result ≡ living w.now.seen (row_of_three y) }
    ensures few { result ≤ 3 }
{
    alive(w, -1, y) + alive(w, 0, y) + alive(w, 1, y)
}
