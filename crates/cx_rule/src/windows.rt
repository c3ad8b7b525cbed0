//! What a rule sees of a part.
ghost use Rattle.std.specs.Prelude.{◌≡◌, ◌+ℤ◌, ◌+◌, ◌++◌, ◌∷◌, [], ◌≤◌, length};
ghost use Rattle.cx_grid.specs.Boxes.{IsIn, shifted};
ghost use Rattle.cx_grid.specs.Windows.{reach_box};
ghost use Rattle.cx_rule.specs.Seen.{HasRoom, volumes};
ghost use Rattle.cx_rule.specs.Sweeps.{seen_at, values_around};
ghost use Rattle.cx_rule.specs.Patches.{setup_in, values_in, value_count};
ghost use Rattle.cx_rule.specs.Staging.{CanRead, CanSee, with_window};

use crate::Window;
use crate::part::Part;
use crate::points::moved;
use cx_grid::{Point, count, point_at, reach_box};
use cx_plan::{Item, Touch};

impl Part {
    /// What a read shows at an offset from a point.
    fn seen(&self, read: &Touch, p: Point, offset: Point) -> i64
        requires read { CanRead self.now p read.now }
        requires offset { IsIn (reach_box self.now.shape.dims read.now.reach) offset }
        ensures { result ≡ values_in self.now read.now.var read.now.level (shifted p offset) }
    {
        if self.is_scalar(read.var) {
            self.scalar(read.var)
        } else {
            self.get(read.var, read.level, moved(p, offset))
        }
    }

    /// Adds a read's window at a point behind the `k` reads that are there.
    fn add_window(&self, k: usize, read: &Touch, p: Point, w: &mut Window)
        requires k { k ≡ length w.old.seen.reaches }
        requires read { CanRead self.now p read.now }
        requires dims { w.old.seen.dims ≡ self.now.shape.dims }
        requires values { length w.old.seen.values ≡ volumes w.old.seen.dims w.old.seen.reaches }
        requires room { HasRoom w.old read.now.reach }
        ensures { w.new ≡ with_window w.old read.now.reach
            (values_around (setup_in self.now) (values_in self.now) p read.now) }
    {
        let offsets = reach_box(self.shape.dims, read.reach);
        w.add_read(read.reach);
        'offsets: for i in 0..count(&offsets) {
            let offset = point_at(&offsets, i);
            w.put(k, offset, self.seen(read, p, offset));
        }
    }

    /// Shows a window what an item's rule sees at a point.
    pub(crate) fn show(&self, item: &Item, p: Point, w: &mut Window)
        requires reads { CanSee self.now item.now p }
        requires room { value_count self.now.shape.dims item.now ≤ w.old.room }
        ensures room { w.new.room ≡ w.old.room }
        ensures seen { w.new.seen ≡ seen_at (setup_in self.now) item.now (values_in self.now) p }
    {
        w.clear(self.shape.dims);
        'reads: for (k, read) in item.reads.as_slice().iter().enumerate() {
            self.add_window(k, read, p, w);
        }
    }
}
