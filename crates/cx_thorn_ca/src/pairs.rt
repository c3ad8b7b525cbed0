//! The next cells of a row of cells, two at a time.
ghost use Rattle.std.specs.Prelude.{◌≡◌, ◌≤◌, ◌<◌, ◌+◌, ◌*◌, ℕ, ℤ, length};
ghost use Rattle.cx_thorn_ca.specs.Rows.{cell_at, AreBy, next_at, three_of, turned, pair_bit, four_at};

use crate::lanes::living_bits;
use cx_rule::bit;

/// Puts into a table what follows the two middle ones of four cells, at twice the number whose bits are these four, the first one's
/// as the lowest, and behind it.
pub(crate) fn put_pair_bits(rule: i64, table: &mut [i64])
    requires { length table.old ≤ 32 }
    ensures bits { AreBy (pair_bit rule) table.new (length table.old) }
    ensures room { length table.new ≡ length table.old }
{
    'bits: for k in 0..table.len() {
        table[k] = pair_bit(rule, k);
    }
}

/// The cell that the table has at a place.
fn pair_bit(rule: i64, k: usize) -> i64
    requires { k < 32 }
    ensures { result ≡ pair_bit rule k }
{
    bit(rule, turned(three_of(k as u32)))
}

/// The three cells that tell the one at a place of the table, as bits.
fn three_of(k: u32) -> u32
    requires { k < 32 }
    ensures value { result ≡ three_of k }
    ensures few { result < 8 }
{
    if k % 2 == 0 { k / 2 % 8 } else { k / 4 }
}

/// Three bits, the last one first.
fn turned(three: u32) -> u32
    requires { three < 8 }
    ensures value { result ≡ turned three }
    ensures few { result < 8 }
{
    4 * (three % 2) + 2 * (three / 2 % 2) + three / 4
}

/// Puts the next cells into a row in whole blocks, and answers how many.
pub(crate) fn put_blocks(table: &[i64], cells: &[i64], next_cells: &mut [i64]) -> usize
    requires table { length table.now ≡ 32 }
    requires cells { length cells.now ≡ length next_cells.old + 2 }
    ensures cells { (rule : ℤ) → AreBy (pair_bit rule) table.now 32
        → AreBy (next_at rule cells.now) next_cells.new result }
    ensures room { length next_cells.new ≡ length next_cells.old }
{
    let mut i = 0;
    'fourteens: while i + 14 <= next_cells.len() {
        let bits = living_bits(cells, i);
        put_pairs(table, bits, next_cells, i);
        i += 14;
    }
    i
}

/// Puts seven pairs of a table into a row from a place on, each by four bits of a number.
#[inline(always)]
fn put_pairs(table: &[i64], bits: u64, next_cells: &mut [i64], i: usize)
    requires table { length table.now ≡ 32 }
    requires room { i + 14 ≤ length next_cells.old }
    ensures cells { (f : ℕ → ℤ) → AreBy f next_cells.old i
        → ((k : ℕ) → k < 7 → (cell_at table.now (2 * four_at bits k) ≡ f (i + 2 * k))
        × (cell_at table.now (2 * four_at bits k + 1) ≡ f (i + 2 * k + 1)))
        → AreBy f next_cells.new (i + 14) }
    ensures room { length next_cells.new ≡ length next_cells.old }
{
    'pairs: for k in 0..7_usize {
        let four = ((bits >> (2 * k)) % 16) as usize;
        let first = table[2 * four];
        let second = table[2 * four + 1];
        next_cells[i + 2 * k] = first;
        next_cells[i + 2 * k + 1] = second;
    }
}
