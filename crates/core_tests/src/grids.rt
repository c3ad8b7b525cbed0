//! Grids, cuts and parts whose owned points hold the numbers of their places in the grid.

ghost use Rattle.std.specs.Prelude.{◌≡◌, ◌<◌, [], IfOk};
ghost use Rattle.cx_grid.specs.Boxes.{IsIn};
ghost use Rattle.cx_grid.specs.Grid.{IsShape, IsNearGrid};
ghost use Rattle.cx_cut.specs.Cuts.{IsWhole, part_count};
ghost use Rattle.cx_field.specs.Patches.{with_numbers};
ghost use Rattle.core_tests.specs.Parts.{ring, block, cell_vars, cell, IsPartOf, AreParts};

use cx_cut::Cut;
use cx_field::Patch;
use cx_grid::{Box3, Point, Shape, contains, count, index_of, point_at, whole, wrap};
use cx_plan::{Cuts, VarId, VarInfo};
use cx_text::{CType, List, Text};
use std::alloc::Global;
use std::test::Fail;

/// A ring of eight points with a ghost zone one point wide.
pub(crate) fn ring() -> Shape
    ensures { result ≡ ring }
{
    Shape {
        dims: 1,
        n: Point { x: 8, y: 1, z: 1 },
        ghost_: Point { x: 1, y: 0, z: 0 },
        periodic: [true, false, false],
    }
}

/// A block of 4 by 5 by 6 points with a ghost zone one point wide, periodic in x and z, and open in y.
pub(crate) fn block() -> Shape
    ensures { result ≡ block }
{
    Shape {
        dims: 3,
        n: Point { x: 4, y: 5, z: 6 },
        ghost_: Point { x: 1, y: 1, z: 1 },
        periodic: [true, false, true],
    }
}

/// A cut into parts of these widths.
pub(crate) fn widths(alloc: Global, x: &[u32], y: &[u32], z: &[u32]) -> Result<Cuts, Fail> {
    Ok(Cuts {
        x: List::new(x.to_vec(alloc)?),
        y: List::new(y.to_vec(alloc)?),
        z: List::new(z.to_vec(alloc)?),
    })
}

/// The one variable.
fn variables(alloc: Global) -> Result<List<VarInfo>, Fail>
    ensures { IfOk result (λ vars. vars ≡ cell_vars) }
{
    let mut vars = Vec::new(alloc);
    vars.push(VarInfo {
        full: Text::from_slice(alloc, b"cell")?,
        ctype: CType::Int,
        scalar: false,
        levels: 1,
    })?;
    Ok(List::new(vars))
}

/// Its name.
pub(crate) fn names(alloc: Global) -> Result<List<VarId>, Fail>
    ensures { IfOk result (λ names. names ≡ cell) }
{
    let mut names = Vec::new(alloc);
    names.push(VarId(0))?;
    Ok(List::new(names))
}

/// The number at a point: 10, and the place in the grid of the point that it stands for.
fn number(shape: &Shape, p: Point) -> i64
    requires shape { IsShape shape.now }
    requires near { IsNearGrid shape.now p }
{
    index_of(&whole(shape), wrap(shape, p)) as i64 + 10
}

/// Gives an owned point its number.
fn fill_point(patch: &mut Patch, shape: &Shape, owned: &Box3, p: Point)
    requires shape { IsShape shape.now }
    requires near { IsNearGrid shape.now p }
    requires vars { patch.old.vars ≡ cell_vars }
    requires local { IsIn patch.old.local p }
    ensures { with_numbers patch.new [] ≡ with_numbers patch.old [] }
{
    if contains(owned, p) {
        patch.set(VarId(0), 0, p, number(shape, p));
    }
}

/// Gives the owned points their numbers. The ghosts keep 0.
fn fill(patch: &mut Patch)
    requires { patch.old.vars ≡ cell_vars }
    ensures { with_numbers patch.new [] ≡ with_numbers patch.old [] }
{
    let shape = *patch.shape();
    let owned = *patch.owned();
    let local = *patch.local();
    'points: for i in 0..count(&local) {
        fill_point(patch, &shape, &owned, point_at(&local, i));
    }
}

/// Part k.
fn part(alloc: Global, shape: &Shape, cut: &Cut, k: u32) -> Result<Patch, Fail>
    requires whole { IsWhole cut.now }
    requires shape { shape.now ≡ cut.now.shape }
    requires part { k < part_count cut.now }
    ensures { IfOk result (λ patch. IsPartOf cut.now k patch) }
{
    let vars = variables(alloc)?;
    let items = List::empty(alloc);
    let mut patch = Patch::new(alloc, shape, &cut.part(k), &cut.local(k), &vars, &items)?;
    fill(&mut patch);
    Ok(patch)
}

/// All parts.
pub(crate) fn parts(alloc: Global, shape: &Shape, cut: &Cut) -> Result<Vec<Patch>, Fail>
    requires whole { IsWhole cut.now }
    requires shape { shape.now ≡ cut.now.shape }
    ensures { IfOk result (λ patches. AreParts cut.now (part_count cut.now) patches.items) }
{
    let mut patches = Vec::new(alloc);
    'parts: for k in 0..cut.count() {
        patches.push(part(alloc, shape, cut, k)?)?;
    }
    Ok(patches)
}

/// Adds the numbers of a part at its local points, x fastest.
pub(crate) fn show(patch: &Patch, shown: &mut Vec<i64>) -> Result<(), Fail>
    requires { patch.now.vars ≡ cell_vars }
{
    let local = patch.local();
    'points: for i in 0..count(local) {
        shown.push(patch.get(VarId(0), 0, point_at(local, i)))?;
    }
    Ok(())
}

/// Whether each local point has its number.
pub(crate) fn is_true(patch: &Patch) -> bool
    requires { patch.now.vars ≡ cell_vars }
{
    let (shape, local) = (patch.shape(), patch.local());
    'points: for i in 0..count(local) {
        let p = point_at(local, i);
        if patch.get(VarId(0), 0, p) != number(shape, p) {
            return false;
        }
    }
    true
}
