//! A part's numbers, with buffers for those that are computed.
ghost use Rattle.std.specs.Prelude.{◌≡◌, ◌<◌, ◌≤◌, ◌+◌, ◌≤ℤ◌, ◌+ℤ◌, pos, max, length, map, IfOk};
ghost use Rattle.std.specs.List.{range_with_len};
ghost use Rattle.cx_grid.specs.Boxes.{IsIn};
ghost use Rattle.cx_rule.specs.Seen.{volumes};
ghost use Rattle.cx_rule.specs.States.{scalar_of, with_scalar, rotate};
ghost use Rattle.cx_rule.specs.Sweeps.{seen_at, reach_of};
ghost use Rattle.cx_rule.specs.Patches.{new_patch, IsPart, IsPatch, IsGridLevel, IsScalar, number_at, numbers_along, with_number, with_numbers, value_count, setup_in, values_in, capped, write_count};
ghost use Rattle.cx_rule.specs.Staging.{CanSee, with_row};
ghost use Rattle.cx_rule.specs.Zones.{zone_of};
ghost use Rattle.cx_plan.specs.Lists.{greatest};

use crate::buffers::Buffers;
use crate::part::Part;
use crate::zone::{Zone, zone_of};
use crate::{Cells, Window};
use cx_grid::{Box3, Point, Shape, count, reach_box};
use cx_plan::{Item, Region, Touch, VarId, VarInfo};
use cx_text::{List, Memory};
use std::alloc::Global;
use std::marker::Model;

/// The numbers of a part: of each grid variable those at its local points, which are its own ones and the ghosts around them, and
/// of each scalar one. Beside them stand buffers in which an item's numbers are staged before any is set.
#[derive(Debug, Drop)]
pub struct Patch {
    pub(crate) part: Part,
    pub(crate) staged: Buffers,
    pub(crate) window: Window,
    pub(crate) cells: Vec<Cells>,
}

impl Model for Patch {
    ghost use Rattle.cx_rule.specs.Patches.{PatchValue, with_buffers, HasBuffers};

    ghost Value = { PatchValue };

    ghost view = { λ p. with_buffers p.part p.staged p.window.room };

    ghost invariant = { λ p. HasBuffers p.part p.staged p.cells.items };
}

impl Patch {
    /// A part of these variables, all 0, with room for the buffers, the window and the numbers of the largest of these items.
    ///
    /// `owned` is a box of the grid, in each direction at least one point and the ghost width wide. `local` is `owned` widened by the
    /// ghost widths, within the grid where a direction isn't periodic. The grid has interior points.
    pub fn new(
        alloc: Global,
        shape: &Shape,
        owned: &Box3,
        local: &Box3,
        vars: &List<VarInfo>,
        items: &List<Item>,
    ) -> Result<Self, Memory>
        requires { IsPart shape.now owned.now local.now }
        ensures { IfOk result (λ patch. patch
            ≡ new_patch shape.now owned.now local.now vars.now items.now) }
    {
        let writes = most_writes(items.as_slice());
        let values = most_values(shape.dims, items.as_slice());
        Ok(Patch {
            part: Part::new(alloc, shape, owned, local, vars)?,
            staged: Buffers::zeros(alloc, writes as usize, count(local))?,
            window: Window::new(alloc, values)?,
            cells: cells_up_to(alloc, writes)?,
        })
    }

    /// The grid.
    pub fn shape(&self) -> &Shape
        ensures value { result.now ≡ self.now.shape }
        ensures patch { IsPatch self.now }
    {
        self.part.shape()
    }

    /// The box of the points that the part owns.
    pub fn owned(&self) -> &Box3
        ensures value { result.now ≡ self.now.owned }
        ensures patch { IsPatch self.now }
    {
        self.part.owned()
    }

    /// The box of the points that the part holds.
    pub fn local(&self) -> &Box3
        ensures value { result.now ≡ self.now.local }
        ensures patch { IsPatch self.now }
    {
        self.part.local()
    }

    /// The number of a level of a grid variable at a local point. Level 0 is the current one.
    pub fn get(&self, v: VarId, level: u8, p: Point) -> i64
        requires level { IsGridLevel self.now v level }
        requires point { IsIn self.now.local p }
        ensures { result ≡ number_at self.now v level p }
    {
        self.part.get(v, level, p)
    }

    /// Sets the number of a level of a grid variable at a local point.
    pub fn set(&mut self, v: VarId, level: u8, p: Point, value: i64)
        requires level { IsGridLevel self.old v level }
        requires point { IsIn self.old.local p }
        ensures { self.new ≡ with_number self.old v level p value }
    {
        self.part.set(v, level, p, value);
    }

    /// Sets the numbers of a level along x, from a local point on, all at local points.
    pub fn put_row(&mut self, v: VarId, level: u8, low: Point, values: &[i64])
        requires level { IsGridLevel self.old v level }
        requires low { IsIn self.old.local low }
        requires high { (low.x +ℤ pos (length values.now)) ≤ℤ self.old.local.high.x }
        ensures { self.new ≡ with_row self.old v level low values.now }
    {
        self.part.put_row(v, level, low, values);
    }

    /// The number of a scalar.
    pub fn scalar(&self, v: VarId) -> i64
        requires { IsScalar self.now v }
        ensures { result ≡ scalar_of self.now.numbers v }
    {
        self.part.scalar(v)
    }

    /// Sets the number of a scalar.
    pub fn set_scalar(&mut self, v: VarId, value: i64)
        requires { IsScalar self.old v }
        ensures { self.new ≡ with_numbers self.old (with_scalar self.old.numbers v value) }
    {
        self.part.set_scalar(v, value);
    }

    /// Each level of a variable becomes the next older one, and the oldest the current one.
    pub fn rotate(&mut self)
        ensures { self.new ≡ with_numbers self.old (rotate self.old.numbers) }
    {
        self.part.rotate();
    }

    /// The numbers of a level along x: `n` of them from a local point on, all of local points.
    pub fn row(&self, v: VarId, level: u8, low: Point, n: u32) -> &[i64]
        requires level { IsGridLevel self.now v level }
        requires low { IsIn self.now.local low }
        requires high { (low.x +ℤ pos n) ≤ℤ self.now.local.high.x }
        ensures { result.now ≡ numbers_along self.now v level low n }
    {
        self.part.row(v, level, low, n)
    }

    /// Shows a window what an item's rule sees at a point: for each read the numbers of its level around that point, and of a scalar
    /// the same at each offset. All points that are read are local, and the window has room for the values.
    pub fn window(&self, item: &Item, p: Point, w: &mut Window)
        requires reads { CanSee self.now item.now p }
        requires room { value_count self.now.shape.dims item.now ≤ w.old.room }
        ensures room { w.new.room ≡ w.old.room }
        ensures seen { w.new.seen ≡ seen_at (setup_in self.now) item.now (values_in self.now) p }
    {
        self.part.show(item, p, w);
    }

    /// The points that an item which writes this region computes: interior points where they are owned, all others at each local
    /// point.
    pub fn sweep_points(&self, region: Region) -> Zone
        ensures { result ≡ zone_of self.now.shape self.now.owned self.now.local region }
    {
        zone_of(
            self.part.shape(),
            self.part.owned(),
            self.part.local(),
            region,
        )
    }
}

/// How many writes the largest of these items has, at most 2^32 - 1.
#[tactic(auto, using(crate::proofs::BufferLaws::capped_next))]
fn most_writes(items: &[Item]) -> u32
    ensures { result ≡ capped (greatest (map write_count items.now)) }
{
    let mut most = 0;
    'items: for item in items {
        most = larger(most, capped(item.writes.len()));
    }
    most
}

/// The greater of two numbers.
fn larger(a: u32, b: u32) -> u32
    ensures { result ≡ max a b }
{
    if a < b { b } else { a }
}

/// A count, or 2^32 - 1 where it is above.
fn capped(count: usize) -> u32
    ensures { result ≡ capped count }
{
    count.min(u32::MAX as usize) as u32
}

/// How many values the reads of the largest of these items hand over, at most 2^32 - 1.
#[tactic(auto, using(crate::proofs::BufferLaws::capped_next))]
fn most_values(dims: u8, items: &[Item]) -> u32
    ensures { result ≡ capped (greatest (map (value_count dims) items.now)) }
{
    let mut most = 0;
    'items: for item in items {
        most = larger(most, values(dims, item.reads.as_slice()));
    }
    most
}

/// How many values these reads hand over, at most 2^32 - 1.
#[tactic(auto, using(crate::proofs::BufferLaws::capped_values))]
fn values(dims: u8, reads: &[Touch]) -> u32
    ensures { result ≡ capped (volumes dims (map reach_of reads.now)) }
{
    let mut values = 0_u32;
    'reads: for read in reads {
        values = values.saturating_add(count(&reach_box(dims, read.reach)) as u32);
    }
    values
}

/// Room for the numbers of each count of writes, up to this one.
#[tactic(auto, using(crate::proofs::BufferLaws::counts_next))]
fn cells_up_to(alloc: Global, writes: u32) -> Result<Vec<Cells>, Memory>
    ensures { IfOk result (λ cells. map length cells.items ≡ range_with_len 0 (writes + 1)) }
{
    let mut all = Vec::new(alloc);
    all.push(Cells::new(alloc, 0)?)?;
    'counts: for k in 0..writes {
        all.push(Cells::new(alloc, k + 1)?)?;
    }
    Ok(all)
}
