//! One step of the row.
ghost use Rattle.std.specs.Prelude.{◌≡◌, ◌+◌, length};
ghost use Rattle.cx_thorn_ca.specs.Automaton.{ca_step_spec, ca_step_rule};
ghost use Rattle.cx_thorn_ca.specs.Rows.{AreBy, next_cell, next_at};

use crate::alive::{alive, alive_cell};
use crate::pairs::{put_blocks, put_pair_bits};
use cx_plan::{ItemKind, Region};
use cx_rule::{Cells, Overflow, Place, PointRule, Row, RowRule, RowsOf, Spec, Window, bit};
use cx_text::Memory;
use std::alloc::Global;

/// The routine `ca_step`: each cell of the interior becomes a bit of `ca::rule`, chosen by the cell and its two neighbours.
pub type CaStep = RowsOf<CaStepRule>;

/// The rule of `ca_step`.
#[derive(Debug, Drop)]
pub struct CaStepRule;

impl PointRule for CaStepRule {
    ghost said = { ca_step_spec };

    ghost law = { ca_step_rule };

    fn new() -> Self {
        CaStepRule
    }

    /// Reads a cell and its neighbours, and writes the cell in the interior; it takes the rule's number.
    fn describe(alloc: Global) -> Result<Spec, Memory> {
        let mut spec = Spec::new(alloc, b"ElemCA", b"ca_step", ItemKind::Cell)?;
        spec.add_read(alloc, b"ca::cell", Region::Everywhere, 1)?;
        spec.add_write(alloc, b"ca::cell", Region::Interior)?;
        spec.add_param(alloc, b"ca::rule")?;
        Ok(spec)
    }

    /// The bit of the rule's number for the three cells around the point.
    fn numbers(&self, w: &Window, at: &Place, out: &mut Cells) -> Result<(), Overflow> {
        let left = alive(w, -1, 0);
        let middle = alive(w, 0, 0);
        let right = alive(w, 1, 0);
        out.set_only(bit(at.param(0), 4 * left + 2 * middle + right));
        Ok(())
    }
}

impl RowRule for CaStepRule {
    /// Computes a row of next cells.
    fn row(&self, row: &Row, out: &mut [i64]) -> Result<(), Overflow> {
        next_row(row.param(0), row.along(0, 0, 0), out);
        Ok(())
    }
}

/// The next cells of a row that begins one cell before them.
fn next_row(rule: i64, cells: &[i64], next_cells: &mut [i64])
    requires { length cells.now ≡ length next_cells.old + 2 }
    ensures cells { AreBy (next_at rule cells.now) next_cells.new (length next_cells.old) }
    ensures room { length next_cells.new ≡ length next_cells.old }
{
    let mut table = [0; 32];
    put_pair_bits(rule, &mut table);
    let done = put_blocks(&table, cells, next_cells);
    put_rest(rule, cells, next_cells, done);
}

/// The next cells of such a row from a place on.
fn put_rest(rule: i64, cells: &[i64], next_cells: &mut [i64], from: usize)
    requires cells { length cells.now ≡ length next_cells.old + 2 }
    requires before { AreBy (next_at rule cells.now) next_cells.old from }
    ensures cells { AreBy (next_at rule cells.now) next_cells.new (length next_cells.old) }
    ensures room { length next_cells.new ≡ length next_cells.old }
{
    'cells: for i in from..next_cells.len() {
        next_cells[i] = next_cell(rule, cells[i], cells[i + 1], cells[i + 2]);
    }
}

/// The next cell between two neighbours.
fn next_cell(rule: i64, left: i64, middle: i64, right: i64) -> i64
    ensures { result ≡ next_cell rule left middle right }
{
    let pattern = 4 * alive_cell(left) + 2 * alive_cell(middle) + alive_cell(right);
    bit(rule, pattern)
}
