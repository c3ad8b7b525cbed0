//! The faces that parts exchange.
ghost use Rattle.std.specs.Prelude.{◌≡◌, ◌<◌, ◌*◌, ◌+◌, ◌++◌, ◌+ℤ◌, ◌-ℤ◌, ◌≤ℤ◌, ℤ, pos, take, drop, length, IfOk, if◌then◌else◌, ◌==◌, nat_lt};
ghost use Rattle.cx_grid.specs.Boxes.{IsIn, IsBox, IsSmall, along, point_count, numbers_in};
ghost use Rattle.cx_cut.specs.Cuts.{face, halo, slab};
ghost use Rattle.cx_rule.specs.Patches.{IsPatch, IsGridLevel, values_in};
ghost use Rattle.cx_rule.specs.Faces.{face_in, halo_in, AreGrid, box_numbers, Filled};
ghost use Rattle.cx_rule.specs.Filling.{HoldsBox, SetsIfLocal, FilledTo, FilledVars};

use crate::part::Part;
use crate::patch::Patch;
use crate::points::{difference, sum};
use cx_grid::{Box3, Point, Shape, Side, contains, count, rows};
use cx_plan::VarId;
use cx_text::{List, Memory};
use std::alloc::Global;

impl Patch {
    /// The current numbers of these variables at the owned layers at a side of a direction of the grid (0 to 2), one variable after
    /// another, those of a variable x fastest. The variables are different grid variables.
    pub fn copy_face(
        &self,
        alloc: Global,
        vars: &List<VarId>,
        dir: u8,
        side: Side,
    ) -> Result<List<i64>, Memory>
        requires vars { AreGrid self.now vars.now }
        requires dir { dir < self.now.shape.dims }
        ensures { IfOk result (λ values. values
            ≡ box_numbers self.now (face_in self.now dir side) vars.now) }
    {
        let layers = self.part.face(dir, side);
        let values = self.part.copy(alloc, vars.as_slice(), &layers)?;
        Ok(List::new(values))
    }

    /// Sets the current numbers of these variables at the ghosts at a side of a direction of the grid (0 to 2) to the values, which
    /// stand in the order of `copy_face`. Ghosts beyond the end of a grid that isn't periodic there are left out. The variables are
    /// different grid variables.
    pub fn fill_face(&mut self, vars: &List<VarId>, dir: u8, side: Side, values: &List<i64>)
        requires vars { AreGrid self.old vars.now }
        requires dir { dir < self.old.shape.dims }
        requires values { length values.now
            ≡ length vars.now * point_count (halo_in self.old dir side) }
        ensures { Filled self.old self.new vars.now (halo_in self.old dir side) values.now }
    {
        let layers = self.part.halo(dir, side);
        self.part.fill(vars.as_slice(), &layers, values.as_slice());
    }
}

impl Part {
    /// The owned layers at a side of a direction.
    fn face(&self, dir: u8, side: Side) -> Box3
        requires { dir < self.now.shape.dims }
        ensures value { result ≡ face_in self.now dir side }
        ensures ordered { IsBox result }
        ensures small { IsSmall result }
        ensures local { HoldsBox self.now result }
    {
        let (owned, ghosts) = (self.owned(), along(self.shape.ghost_, dir));
        match side {
            Side::Low => {
                let low = along(owned.low, dir);
                slab(owned, &self.local, dir, low, sum(low, ghosts))
            }
            Side::High => {
                let high = along(owned.high, dir);
                slab(owned, &self.local, dir, difference(high, ghosts), high)
            }
        }
    }

    /// The layers of ghosts at a side of a direction.
    fn halo(&self, dir: u8, side: Side) -> Box3
        requires { dir < self.now.shape.dims }
        ensures value { result ≡ halo_in self.now dir side }
        ensures ordered { IsBox result }
        ensures small { IsSmall result }
    {
        let (owned, ghosts) = (self.owned(), along(self.shape.ghost_, dir));
        match side {
            Side::Low => {
                let low = along(owned.low, dir);
                slab(owned, &self.local, dir, difference(low, ghosts), low)
            }
            Side::High => {
                let high = along(owned.high, dir);
                slab(owned, &self.local, dir, high, sum(high, ghosts))
            }
        }
    }

    /// Adds the current numbers of a variable at a box's points, x fastest.
    fn copy_box(&self, v: VarId, b: &Box3, out: &mut Vec<i64>) -> Result<(), Memory>
        requires level { IsGridLevel self.now v 0 }
        requires ordered { IsBox b.now }
        requires small { IsSmall b.now }
        requires local { HoldsBox self.now b.now }
        ensures { IfOk result (λ _. out.new.items
            ≡ out.old.items ++ numbers_in b.now (values_in self.now v 0)) }
    {
        'points: for p in rows(b) {
            out.push(self.get(v, 0, p))?;
        }
        Ok(())
    }

    /// The current numbers of these variables at a box's points, one variable after another.
    fn copy(&self, alloc: Global, vars: &[VarId], b: &Box3) -> Result<Vec<i64>, Memory>
        requires vars { AreGrid self.now vars.now }
        requires ordered { IsBox b.now }
        requires small { IsSmall b.now }
        requires local { HoldsBox self.now b.now }
        ensures { IfOk result (λ out. out.items ≡ box_numbers self.now b.now vars.now) }
    {
        let mut out = Vec::new(alloc);
        'vars: for v in vars {
            self.copy_box(*v, b, &mut out)?;
        }
        Ok(out)
    }

    /// Sets the current numbers of a variable at a box's local points.
    fn fill_box(&mut self, v: VarId, b: &Box3, values: &[i64])
        requires level { IsGridLevel self.old v 0 }
        requires ordered { IsBox b.now }
        requires small { IsSmall b.now }
        requires count { length values.now ≡ point_count b.now }
        ensures { FilledTo self.old self.new v b.now values.now (point_count b.now) }
    {
        let mut at = 0;
        'points: for p in rows(b) {
            self.set_if_local(v, p, values[at]);
            at += 1;
        }
    }

    /// Sets the current number of a variable at a point, if that is a local one.
    fn set_if_local(&mut self, v: VarId, p: Point, value: i64)
        requires { IsGridLevel self.old v 0 }
        ensures value { SetsIfLocal self.old v p value self.new }
        ensures patch { IsPatch self.old }
    {
        if contains(self.local(), p) {
            self.set(v, 0, p, value);
        }
    }

    /// Sets the current numbers of these variables at a box's local points, one variable after another.
    fn fill(&mut self, vars: &[VarId], b: &Box3, values: &[i64])
        requires vars { AreGrid self.old vars.now }
        requires ordered { IsBox b.now }
        requires small { IsSmall b.now }
        requires count { length values.now ≡ length vars.now * point_count b.now }
        ensures { FilledVars self.old self.new vars.now b.now values.now (length vars.now) }
    {
        let n = count(b);
        'vars: for i in 0..vars.len() {
            self.fill_box(vars[i], b, piece(values, i, n, vars.len()));
        }
    }
}

/// The coordinate of a point in a direction.
fn along(p: Point, dir: u8) -> i32
    requires { dir < 3 }
    ensures { result ≡ along p dir }
{
    match dir {
        0 => p.x,
        1 => p.y,
        _ => p.z,
    }
}

/// A slab across a direction between two ends: it spans the local box in the directions before, the owned one in those behind.
fn slab(owned: &Box3, local: &Box3, dir: u8, low: i32, high: i32) -> Box3
    ensures { result ≡ slab owned.now local.now dir low high }
{
    Box3 {
        low: Point {
            x: end(dir, 0, low, local.low.x, owned.low.x),
            y: end(dir, 1, low, local.low.y, owned.low.y),
            z: end(dir, 2, low, local.low.z, owned.low.z),
        },
        high: Point {
            x: end(dir, 0, high, local.high.x, owned.high.x),
            y: end(dir, 1, high, local.high.y, owned.high.y),
            z: end(dir, 2, high, local.high.z, owned.high.z),
        },
    }
}

/// A slab's end in direction `d`.
fn end(dir: u8, d: u8, across: i32, of_local: i32, of_owned: i32) -> i32
    ensures { result ≡ (if d == dir then across
        else (if nat_lt d dir then of_local else of_owned)) }
{
    if d == dir {
        across
    } else if d < dir {
        of_local
    } else {
        of_owned
    }
}

/// The i-th of m pieces of n numbers each.
#[tactic(auto, using(crate::proofs::FillLaws::piece_fits))]
fn piece(values: &[i64], i: usize, n: usize, m: usize) -> &[i64]
    requires below { i < m }
    requires count { length values.now ≡ m * n }
    ensures value { result.now ≡ take n (drop (i * n) values.now) }
    ensures len { length result.now ≡ n }
{
    let start = i * n;
    let end = start + n;
    &values[start..end]
}
