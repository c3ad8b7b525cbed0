//! Numbers that are computed for many points before any of them is set.
ghost use Rattle.std.specs.Prelude.{◌≡◌, ◌<◌, ◌≤◌, ◌+◌, ◌+ℤ◌, ◌≤ℤ◌, pos, [], length, map, slice_index_or, OnOk, OnErr, Some, None};
ghost use Rattle.cx_grid.specs.Boxes.{IsIn};
ghost use Rattle.cx_rule.specs.Meter.{raised};
ghost use Rattle.cx_rule.specs.Routine.{Fits};
ghost use Rattle.cx_rule.specs.Staging.{with_one_staged, with_row_staged, CanStage, Stages, CanCommit, Commits};

use crate::patch::Patch;
use crate::zone::Zone;
use crate::{Cells, Meter, Overflow, Place, PointRule, Routine, Window, apply};
use cx_grid::{Point, index_of};
use cx_plan::Item;

impl Patch {
    /// Stages a number for write `k` at a local point. No number of the part changes.
    pub fn stage(&mut self, k: u32, p: Point, value: i64)
        requires write { k < length self.old.staged }
        requires point { IsIn self.old.local p }
        ensures { self.new ≡ with_one_staged self.old k p value }
    {
        let at = index_of(self.part.local(), p);
        self.staged.set(k as usize, at, value);
    }

    /// Stages numbers for write `k` along x, from a local point on, all at local points. No number of the part changes.
    pub fn stage_row(&mut self, k: u32, low: Point, values: &[i64])
        requires write { k < length self.old.staged }
        requires low { IsIn self.old.local low }
        requires high { (low.x +ℤ pos (length values.now)) ≤ℤ self.old.local.high.x }
        ensures { self.new ≡ with_row_staged self.old k low values.now }
    {
        let at = index_of(self.part.local(), low);
        self.staged.put_row(k as usize, at, values);
    }

    /// Computes an item's rule and stages its numbers at the local point `p`, one for each write. The window is taken at `from`, and
    /// the place is that of the grid point that `p` stands for, or of the point (0, 0, 0) for a Scalar item. The point is counted.
    /// No number of the part changes.
    ///
    /// # Errors
    ///
    /// `Overflow` exactly where the rule gives no numbers. What is staged is then as it was.
    pub fn stage_point(
        &mut self,
        routine: &Box<dyn Routine>,
        item: &Item,
        from: Point,
        p: Point,
        iteration: u64,
        meter: &mut Meter,
    ) -> Result<(), Overflow>
        requires { CanStage (spec_of routine.now) item.now self.old from p }
        ensures staged { Stages self.old (rule routine.now) item.now iteration from p
            self.new result }
        ensures meter { meter.new ≡ raised meter.old 1 }
    {
        let at = index_of(self.part.local(), p);
        let place = self.part.place(item, p, iteration);
        self.part.show(item, from, &mut self.window);
        let count = item.writes.len();
        apply_in(&mut self.cells, count, routine, &self.window, &place, meter)?;
        self.staged
            .set_each(at, cells_at(&self.cells, count), count);
        Ok(())
    }

    /// Computes a rule and stages its numbers at the local point `p`, as `stage_point` does, and counts no point.
    ///
    /// # Errors
    ///
    /// `Overflow` as for `stage_point`.
    pub(crate) fn stage_rule<R: PointRule>(
        &mut self,
        rule: &R,
        item: &Item,
        from: Point,
        p: Point,
        iteration: u64,
    ) -> Result<(), Overflow>
        requires { CanStage R.said item.now self.old from p }
        ensures { Stages self.old R.law item.now iteration from p self.new result }
    {
        let at = index_of(self.part.local(), p);
        let place = self.part.place(item, p, iteration);
        self.part.show(item, from, &mut self.window);
        let count = item.writes.len();
        numbers_in(&mut self.cells, count, rule, &self.window, &place)?;
        self.staged
            .set_each(at, cells_at(&self.cells, count), count);
        Ok(())
    }

    /// Sets what an item writes, at the points of a zone, to the numbers that were staged there since the last commit, or to 0 where
    /// none was, and changes no other number. A Scalar item's scalars are set to what is staged at the zone's first point. Nothing is
    /// staged then.
    ///
    /// # Errors
    ///
    /// `Overflow` exactly where one of those numbers leaves its variable's type. Nothing has changed then.
    pub fn commit(&mut self, item: &Item, zone: &Zone) -> Result<(), Overflow>
        requires { CanCommit self.old item.now zone.now }
        ensures { Commits self.old item.now zone.now self.new result }
    {
        self.part.commit(item, &mut self.staged, zone)?;
        self.staged.clear();
        Ok(())
    }
}

/// Computes a rule at one point, into the numbers for this count of writes.
fn apply_in(
    all: &mut Vec<Cells>,
    count: usize,
    routine: &Box<dyn Routine>,
    w: &Window,
    at: &Place,
    meter: &mut Meter,
) -> Result<(), Overflow>
    requires count { count < length all.old.items }
    requires fits { Fits (spec_of routine.now) w.now.seen at.now
        (slice_index_or all.old.items count []) }
    ensures numbers { OnOk result (rule routine.now w.now.seen at.now
        ≡ Some (slice_index_or all.new.items count [])) }
    ensures overflow { OnErr result (rule routine.now w.now.seen at.now ≡ None) }
    ensures sizes { map length all.new.items ≡ map length all.old.items }
    ensures meter { meter.new ≡ raised meter.old 1 }
{
    let cells = &mut all[count];
    apply(routine, w, at, cells, meter)
}

/// Computes a rule's numbers at one place, into those for this count of writes.
fn numbers_in<R: PointRule>(
    all: &mut Vec<Cells>,
    count: usize,
    rule: &R,
    w: &Window,
    at: &Place,
) -> Result<(), Overflow>
    requires count { count < length all.old.items }
    requires fits { Fits R.said w.now.seen at.now (slice_index_or all.old.items count []) }
    ensures numbers { OnOk result (R.law w.now.seen at.now
        ≡ Some (slice_index_or all.new.items count [])) }
    ensures overflow { OnErr result (R.law w.now.seen at.now ≡ None) }
    ensures sizes { map length all.new.items ≡ map length all.old.items }
{
    let cells = &mut all[count];
    rule.numbers(w, at, cells)
}

/// The numbers for this count of writes.
fn cells_at(all: &[Cells], count: usize) -> &Cells
    requires { count < length all.now }
    ensures { result.now ≡ slice_index_or all.now count [] }
{
    &all[count]
}
