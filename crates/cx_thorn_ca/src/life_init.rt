//! The first sheet of cells.
ghost use Rattle.std.specs.Prelude.{◌≡◌, ◌&&◌, ◌||◌, pos, false};
ghost use Rattle.cx_rule.specs.Place.{is_place};
ghost use Rattle.cx_thorn_ca.specs.Life.{life_init_spec, life_init_rule, first_life, is_among, glider};

use cx_grid::Point;
use cx_plan::{ItemKind, Region};
use cx_rule::{Cells, Overflow, Place, PointRule, RoutineOf, Spec, Window, mix_from};
use cx_text::Memory;
use std::alloc::Global;

/// The routine `life_init`, which sets each cell of the first sheet: for `life::pattern` 0 to 1 in the glider's five cells
/// by x and y and to 0 elsewhere, for every other number at random by `life::seed`.
pub type LifeInit = RoutineOf<LifeInitRule>;

/// The rule of `life_init`.
#[derive(Debug, Drop)]
pub struct LifeInitRule;

impl PointRule for LifeInitRule {
    ghost said = { life_init_spec };

    ghost law = { life_init_rule };

    fn new() -> Self {
        LifeInitRule
    }

    /// Writes the cells everywhere, and takes the pattern and the seed.
    fn describe(alloc: Global) -> Result<Spec, Memory> {
        let mut spec = Spec::new(alloc, b"Life2D", b"life_init", ItemKind::Cell)?;
        spec.add_write(alloc, b"life::cell", Region::Everywhere)?;
        spec.add_param(alloc, b"life::pattern")?;
        spec.add_param(alloc, b"life::seed")?;
        Ok(spec)
    }

    /// The first state of the cell.
    fn numbers(&self, _w: &Window, at: &Place, out: &mut Cells) -> Result<(), Overflow> {
        out.set_only(first_life(at.param(0), at.param(1), at.at, at.index()));
        Ok(())
    }
}

/// The first cell at a point: 0 or 1.
fn first_life(pattern: i64, seed: i64, p: Point, index: usize) -> i64
    ensures { result ≡ pos (first_life pattern seed p index) }
{
    if pattern != 0 {
        (mix_from(seed, index) % 2) as i64
    } else if in_glider(p) {
        1
    } else {
        0
    }
}

/// Whether a point lies in the glider.
fn in_glider(p: Point) -> bool
    ensures { result ≡ is_among glider p }
{
    let head = is_cell(p, 1, 0);
    let side = is_cell(p, 2, 1);
    let left = is_cell(p, 0, 2);
    let middle = is_cell(p, 1, 2);
    let right = is_cell(p, 2, 2);
    any_of(head, side, left, middle, right)
}

/// Whether a point has these coordinates x and y.
fn is_cell(p: Point, x: u8, y: u8) -> bool
    ensures { result ≡ (is_place p.x x && is_place p.y y) }
{
    p.x == x as i32 && p.y == y as i32
}

/// Whether one of five holds.
fn any_of(a: bool, b: bool, c: bool, d: bool, e: bool) -> bool
    ensures { result ≡ (a || (b || (c || (d || (e || false))))) }
{
    a || b || c || d || e
}
