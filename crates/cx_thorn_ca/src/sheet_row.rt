//! The next cells along a row of a sheet.
ghost use Rattle.std.specs.Prelude.{◌≡◌, ◌≤◌, ◌<◌, ◌+◌, length};
ghost use Rattle.cx_thorn_ca.specs.Lanes.{HasLanes};
ghost use Rattle.cx_thorn_ca.specs.Rows.{AreBy, life_bit, three_at, living_at, count_at, counted_at, next_amid};

use crate::alive::alive_cell;
use crate::lanes::{living, next_lane, plus, put_block, sixteenfold};
use crate::life_step::beside;
use cx_rule::bit;
use std::simd::prelude::*;

/// The next cells of a row between those below and above it, each of which begins one cell before them.
pub(crate) fn next_amid(
    survive: i64,
    born: i64,
    below: &[i64],
    cells: &[i64],
    above: &[i64],
    next_cells: &mut [i64],
)
    requires below { length below.now ≡ length next_cells.old + 2 }
    requires cells { length cells.now ≡ length next_cells.old + 2 }
    requires above { length above.now ≡ length next_cells.old + 2 }
    ensures cells { AreBy (next_amid survive born below.now cells.now above.now) next_cells.new
        (length next_cells.old) }
    ensures room { length next_cells.new ≡ length next_cells.old }
{
    let mut table = [0; 25];
    put_life_bits(survive, born, &mut table);
    let done = put_blocks(&table, below, cells, above, next_cells);
    put_rest(&table, below, cells, above, next_cells, done);
}

/// Puts the bits of two numbers into a table: those of `born` from place 0 on, and those of `survive` from place 16 on.
fn put_life_bits(survive: i64, born: i64, table: &mut [i64])
    requires { length table.old ≤ 32 }
    ensures bits { AreBy (life_bit survive born) table.new (length table.old) }
    ensures room { length table.new ≡ length table.old }
{
    'bits: for k in 0..table.len() {
        table[k] = life_bit(survive, born, k);
    }
}

/// The bit of `born` with this number, or from 16 on that of `survive` with the number above 16.
fn life_bit(survive: i64, born: i64, k: usize) -> i64
    requires { k < 32 }
    ensures { result ≡ life_bit survive born k }
{
    if k < 16 {
        bit(born, k as u32)
    } else {
        bit(survive, k as u32 - 16)
    }
}

/// Puts the numbers of a table at the counts along a row into the next one, in whole blocks; answers how many.
fn put_blocks(
    table: &[i64],
    below: &[i64],
    cells: &[i64],
    above: &[i64],
    next_cells: &mut [i64],
) -> usize
    requires table { 25 ≤ length table.now }
    requires below { length below.now ≡ length next_cells.old + 2 }
    requires cells { length cells.now ≡ length next_cells.old + 2 }
    requires above { length above.now ≡ length next_cells.old + 2 }
    ensures cells { AreBy (counted_at table.now below.now cells.now above.now) next_cells.new
        result }
    ensures room { length next_cells.new ≡ length next_cells.old }
{
    let mut i = 0;
    'fourteens: while i + 14 <= next_cells.len() {
        let counts = count_lanes(below, cells, above, i).to_array();
        put_block(table, &counts, next_cells, i);
        i += 14;
    }
    i
}

/// Puts the numbers of a table at the counts along a row into the next one, from a place on.
fn put_rest(
    table: &[i64],
    below: &[i64],
    cells: &[i64],
    above: &[i64],
    next_cells: &mut [i64],
    from: usize,
)
    requires table { 25 ≤ length table.now }
    requires below { length below.now ≡ length next_cells.old + 2 }
    requires cells { length cells.now ≡ length next_cells.old + 2 }
    requires above { length above.now ≡ length next_cells.old + 2 }
    requires before { AreBy (counted_at table.now below.now cells.now above.now) next_cells.old
        from }
    ensures cells { AreBy (counted_at table.now below.now cells.now above.now) next_cells.new
        (length next_cells.old) }
    ensures room { length next_cells.new ≡ length next_cells.old }
{
    'cells: for i in from..next_cells.len() {
        next_cells[i] = table[count(below, cells, above, i)];
    }
}

/// How many neighbours of fourteen cells aren't 0, and 16 more where the cell itself isn't 0.
#[inline(always)]
fn count_lanes(below: &[i64], cells: &[i64], above: &[i64], i: usize) -> u8x16
    requires below { i + 16 ≤ length below.now }
    requires cells { i + 16 ≤ length cells.now }
    requires above { i + 16 ≤ length above.now }
    ensures { HasLanes result 14 (λ k. count_at below.now cells.now above.now (i + k)) }
{
    let here = living(cells, i);
    let around = plus(living(below, i), living(above, i));
    let column = plus(around, here);
    let middle = next_lane(plus(around, sixteenfold(here)));
    let right = next_lane(next_lane(column));
    plus(plus(column, middle), right)
}

/// How many neighbours of a cell aren't 0, and 16 more where the cell itself isn't 0.
fn count(below: &[i64], cells: &[i64], above: &[i64], i: usize) -> usize
    requires below { i + 2 < length below.now }
    requires cells { i + 2 < length cells.now }
    requires above { i + 2 < length above.now }
    ensures value { result ≡ count_at below.now cells.now above.now i }
    ensures few { result < 25 }
{
    let living = living_at(below, cells, above, i);
    (living + 16 * alive_cell(cells[i + 1])) as usize
}

/// How many neighbours of a cell aren't 0.
fn living_at(below: &[i64], cells: &[i64], above: &[i64], i: usize) -> u32
    requires below { i + 2 < length below.now }
    requires cells { i + 2 < length cells.now }
    requires above { i + 2 < length above.now }
    ensures value { result ≡ living_at below.now cells.now above.now i }
    ensures few { result ≤ 8 }
{
    beside(cells, i) + three(below, i) + three(above, i)
}

/// How many of three cells in a row aren't 0.
fn three(cells: &[i64], i: usize) -> u32
    requires { i + 2 < length cells.now }
    ensures value { result ≡ three_at cells.now i }
    ensures few { result ≤ 3 }
{
    alive_cell(cells[i]) + alive_cell(cells[i + 1]) + alive_cell(cells[i + 2])
}
