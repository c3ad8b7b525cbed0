//! Cells of a row sixteen at a time.
ghost use Rattle.std.specs.Prelude.{◌≡◌, ◌≤◌, ◌<◌, ◌+◌, ◌*◌, ◌%◌, ℕ, ℤ, length};
ghost use Rattle.cx_thorn_ca.specs.Automaton.{alive_of};
ghost use Rattle.cx_thorn_ca.specs.Lanes.{lane, HasLanes, HasBits};
ghost use Rattle.cx_thorn_ca.specs.Rows.{cell_at, AreBy};

use std::simd::prelude::*;

/// 1 for each of sixteen cells that isn't 0, from a place on.
#[inline(always)]
fn living_lanes(cells: &[i64], i: usize) -> u64x16
    requires { i + 16 ≤ length cells.now }
    ensures { HasLanes result 16 (λ k. alive_of (cell_at cells.now (i + k))) }
{
    let sixteen = i64x16::from_array([
        cells[i],
        cells[i + 1],
        cells[i + 2],
        cells[i + 3],
        cells[i + 4],
        cells[i + 5],
        cells[i + 6],
        cells[i + 7],
        cells[i + 8],
        cells[i + 9],
        cells[i + 10],
        cells[i + 11],
        cells[i + 12],
        cells[i + 13],
        cells[i + 14],
        cells[i + 15],
    ]);
    sixteen
        .simd_eq(i64x16::splat(0))
        .select(u64x16::splat(0), u64x16::splat(1))
}

/// 1 for each of sixteen cells that isn't 0, from a place on, in lanes of one byte.
#[inline(always)]
pub(crate) fn living(cells: &[i64], i: usize) -> u8x16
    requires { i + 16 ≤ length cells.now }
    ensures { HasLanes result 16 (λ k. alive_of (cell_at cells.now (i + k))) }
{
    living_lanes(cells, i).cast::<u8>()
}

/// A bit for each of sixteen cells, from a place on: 1 if the cell isn't 0. The first cell's is the lowest.
#[inline(always)]
pub(crate) fn living_bits(cells: &[i64], i: usize) -> u64
    requires { i + 16 ≤ length cells.now }
    ensures { HasBits result 16 (λ k. alive_of (cell_at cells.now (i + k))) }
{
    living(cells, i).simd_eq(u8x16::splat(1)).to_bitmask()
}

/// Lane by lane the sum.
#[inline(always)]
pub(crate) fn plus(a: u8x16, b: u8x16) -> u8x16
    requires a { length a ≡ 16 }
    requires b { length b ≡ 16 }
    ensures { HasLanes result 16 (λ k. (lane a k + lane b k) % 256) }
{
    a + b
}

/// Each lane's number from the next lane.
#[inline(always)]
pub(crate) fn next_lane(v: u8x16) -> u8x16
    requires { length v ≡ 16 }
    ensures { HasLanes result 15 (λ k. lane v (k + 1)) }
{
    v.rotate_elements_left::<1>()
}

/// Lane by lane the number sixteen times.
#[inline(always)]
pub(crate) fn sixteenfold(v: u8x16) -> u8x16
    requires { length v ≡ 16 }
    ensures { HasLanes result 16 (λ k. lane v k * 16 % 256) }
{
    v * u8x16::splat(16)
}

/// Puts the numbers of a table at fourteen indices into a row from a place on.
#[inline(always)]
pub(crate) fn put_block(table: &[i64], indices: &[u8], next_cells: &mut [i64], i: usize)
    requires indices { 14 ≤ length indices.now }
    requires few { (k : ℕ) → k < 14 → lane indices.now k < length table.now }
    requires room { i + 14 ≤ length next_cells.old }
    ensures cells { (f : ℕ → ℤ) → AreBy f next_cells.old i
        → ((k : ℕ) → k < 14 → cell_at table.now (lane indices.now k) ≡ f (i + k))
        → AreBy f next_cells.new (i + 14) }
    ensures room { length next_cells.new ≡ length next_cells.old }
{
    'cells: for k in 0..14_usize {
        next_cells[i + k] = table[indices[k] as usize];
    }
}
