//! Whether a cell is alive.
ghost use Rattle.std.specs.Prelude.{◌≡◌, ◌≤◌, ◌≤ℤ◌, ◌∷◌, [], ◌⊎◌, negsuc, pos};
ghost use Rattle.cx_rule.specs.Seen.{value_of};
ghost use Rattle.cx_thorn_ca.specs.Automaton.{alive_of, off};

use cx_grid::Point;
use cx_rule::Window;

/// 1 where the cell at this offset isn't 0, else 0.
pub(crate) fn alive(w: &Window, x: i32, y: i32) -> u32
    requires directions { 1 ≤ w.now.seen.dims }
    requires sheet { (y ≡ pos 0) ⊎ (2 ≤ w.now.seen.dims) }
    requires reads { w.now.seen.reaches ≡ 1 ∷ [] }
    requires low { (negsuc 0 ≤ℤ x) × (negsuc 0 ≤ℤ y) }
    requires high { (x ≤ℤ pos 1) × (y ≤ℤ pos 1) }
    ensures value { result ≡ alive_of (value_of w.now.seen 0 (off x y)) }
    ensures bit { result ≤ 1 }
{
    alive_cell(w.value(0, Point { x, y, z: 0 }))
}

/// 1 for a cell that isn't 0, else 0.
pub(crate) fn alive_cell(cell: i64) -> u32
    ensures value { result ≡ alive_of cell }
    ensures bit { result ≤ 1 }
{
    if cell == 0 { 0 } else { 1 }
}
