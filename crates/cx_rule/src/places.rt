//! The place that a rule is given.
ghost use Rattle.std.specs.Prelude.{◌≡◌, ◌≤◌, length};
ghost use Rattle.cx_grid.specs.Boxes.{IsIn};
ghost use Rattle.cx_grid.specs.Grid.{whole};
ghost use Rattle.cx_rule.specs.Sweeps.{place_at};
ghost use Rattle.cx_rule.specs.Patches.{setup_in};
ghost use Rattle.cx_rule.specs.Staging.{placed_at};

use crate::Place;
use crate::part::Part;
use cx_grid::{Point, wrap};
use cx_plan::{Item, ItemKind};

impl Part {
    /// The place that an item's rule is given at a local point.
    pub(crate) fn place(&self, item: &Item, p: Point, iteration: u64) -> Place
        requires params { length item.now.params ≤ 32 }
        requires point { IsIn self.now.local p }
        ensures value { result
            ≡ place_at (setup_in self.now) item.now iteration (placed_at item.now.kind p) }
        ensures inside { IsIn (whole self.now.shape) result.at }
    {
        let shape = self.shape();
        let at = wrap(shape, placed(item.kind, p));
        Place::new(at, shape, iteration, &item.params)
    }
}

/// The point whose place a rule is given.
fn placed(kind: ItemKind, p: Point) -> Point
    ensures { result ≡ placed_at kind p }
{
    match kind {
        ItemKind::Scalar => Point { x: 0, y: 0, z: 0 },
        _ => p,
    }
}
