//! Grids, cuts of them, and parts of one field of three levels.

ghost use Rattle.std.specs.Prelude.{◌≡◌, ◌<◌, ◌≤◌, ◌≤ℤ◌, ◌^◌, true, pos, min, count_by, map, IfOk};
ghost use Rattle.cx_grid.specs.Boxes.{IsIn};
ghost use Rattle.cx_grid.specs.Grid.{IsShape};
ghost use Rattle.cx_plan.specs.Regions.{within_ghosts};
ghost use Rattle.cx_cut.specs.Cuts.{IsWhole};
ghost use Rattle.thorns_tests.specs.Fields.{field_vars, is_mark, level_named, touch_of, item_for, IsSamePart};

use cx_cut::{Cut, cut};
use cx_grid::{Point, Shape, contains, count, index_of, point_at, whole, wrap};
use cx_plan::{Cuts, Item, Touch, VarId, VarInfo};
use cx_rule::{Patch, Spec, Want};
use cx_text::{CType, List, Text};
use std::alloc::Global;
use std::test::Fail;

/// How many points a grid has in each of its directions, 1 at least.
#[derive(Clone, Copy, Debug, PartialEq, Eq)]
pub(crate) enum Grid {
    /// Open in x.
    Line(u8),
    /// Periodic in x.
    Ring(u8),
    /// Open in x and y.
    Sheet(u8, u8),
    /// Periodic in x and open in y.
    Tube(u8, u8),
    /// Open in x, y and z, and three points high.
    Block(u8, u8),
    /// Open in x, y and z, and five points high.
    Tower(u8, u8),
}

/// The points of a direction.
fn side(points: u8) -> i32
    ensures some { pos 1 ≤ℤ result }
    ensures few { result ≤ℤ pos 255 }
{
    points.max(1) as i32
}

fn line(x: u8, ring: bool) -> Shape
    ensures shape { IsShape result }
    ensures wide { within_ghosts result 1 ≡ true }
{
    Shape {
        dims: 1,
        n: Point {
            x: side(x),
            y: 1,
            z: 1,
        },
        ghost_: Point { x: 1, y: 0, z: 0 },
        periodic: [ring, false, false],
    }
}

fn sheet(x: u8, y: u8, ring: bool) -> Shape
    ensures shape { IsShape result }
    ensures wide { within_ghosts result 1 ≡ true }
{
    Shape {
        dims: 2,
        n: Point {
            x: side(x),
            y: side(y),
            z: 1,
        },
        ghost_: Point { x: 1, y: 1, z: 0 },
        periodic: [ring, false, false],
    }
}

fn block(x: u8, y: u8) -> Shape
    ensures shape { IsShape result }
    ensures wide { within_ghosts result 1 ≡ true }
{
    Shape {
        dims: 3,
        n: Point {
            x: side(x),
            y: side(y),
            z: 3,
        },
        ghost_: Point { x: 1, y: 1, z: 1 },
        periodic: [false, false, false],
    }
}

fn tower(x: u8, y: u8) -> Shape
    ensures shape { IsShape result }
    ensures wide { within_ghosts result 1 ≡ true }
{
    Shape {
        dims: 3,
        n: Point {
            x: side(x),
            y: side(y),
            z: 5,
        },
        ghost_: Point { x: 1, y: 1, z: 1 },
        periodic: [false, false, false],
    }
}

/// The grid of these points, with a ghost zone one point wide.
pub(crate) fn shape_of(grid: Grid) -> Shape
    ensures shape { IsShape result }
    ensures wide { within_ghosts result 1 ≡ true }
{
    match grid {
        Grid::Line(x) => line(x, false),
        Grid::Ring(x) => line(x, true),
        Grid::Sheet(x, y) => sheet(x, y, false),
        Grid::Tube(x, y) => sheet(x, y, true),
        Grid::Block(x, y) => block(x, y),
        Grid::Tower(x, y) => tower(x, y),
    }
}

fn width(points: i32) -> u32 {
    points.unsigned_abs()
}

/// A grid cut into parts of these widths along x; without widths it is one part.
pub(crate) fn cut_along_x(alloc: Global, shape: &Shape, widths: &[u32]) -> Result<Cut, Fail>
    requires { IsShape shape.now }
    ensures whole { IfOk result (λ cut. IsWhole cut) }
    ensures shape { IfOk result (λ cut. cut.shape ≡ shape.now) }
{
    let all = [width(shape.n.x)];
    let x = if widths.is_empty() {
        all.as_slice()
    } else {
        widths
    };
    let widths = Cuts {
        x: List::new(x.to_vec(alloc)?),
        y: List::new(vec![in alloc; width(shape.n.y)]?),
        z: List::new(vec![in alloc; width(shape.n.z)]?),
    };
    Ok(cut(alloc, shape, &widths)?)
}

/// The one variable.
pub(crate) fn variables(alloc: Global) -> Result<List<VarInfo>, Fail>
    ensures { IfOk result (λ vars. vars ≡ field_vars) }
{
    let mut vars = Vec::new(alloc);
    vars.push(VarInfo {
        full: Text::from_slice(alloc, b"field")?,
        ctype: CType::Int,
        scalar: false,
        levels: 3,
    })?;
    Ok(List::new(vars))
}

fn is_mark(byte: u8) -> bool
    ensures { result ≡ is_mark byte }
{
    byte == b'_'
}

fn marks(name: &[u8]) -> usize
    ensures { result ≡ count_by is_mark name.now }
{
    name.iter().filter(|byte| is_mark(**byte)).count()
}

/// The level that a name says: 1 for `wave::phi_p`.
fn level_named(name: &[u8]) -> u8
    ensures { result ≡ level_named name.now }
{
    marks(name).min(2) as u8
}

fn touch_of(want: &Want) -> Touch
    ensures { result ≡ touch_of want.now }
{
    Touch {
        var: VarId(0),
        level: level_named(want.name.as_slice()),
        region: want.region,
        reach: want.reach,
    }
}

fn touches(alloc: Global, wants: &[Want]) -> Result<List<Touch>, Fail>
    ensures { IfOk result (λ touches. touches ≡ map touch_of wants.now) }
{
    let mut touches = List::empty(alloc);
    'wants: for want in wants {
        touches.push(touch_of(want))?;
    }
    Ok(touches)
}

/// The item of a routine that says this of itself, on the field.
pub(crate) fn item_for(alloc: Global, spec: &Spec, params: &[i64]) -> Result<Item, Fail>
    ensures { IfOk result (λ item. item ≡ item_for spec.now params.now) }
{
    Ok(Item {
        thorn: spec.thorn.copy(alloc)?,
        name: spec.name.copy(alloc)?,
        path: Text::from_slice(alloc, b"")?,
        kind: spec.kind,
        routine: 0,
        reads: touches(alloc, spec.reads.as_slice())?,
        writes: touches(alloc, spec.writes.as_slice())?,
        params: List::new(params.to_vec(alloc)?),
    })
}

/// The place in the grid of the point that a point stands for.
fn place_of(shape: &Shape, p: Point) -> usize
    requires { IsShape shape.now }
    ensures { result < 2 ^ 24 }
{
    let all = whole(shape);
    let at = wrap(shape, p);
    if contains(&all, at) {
        index_of(&all, at)
    } else {
        0
    }
}

/// How many points the grid has.
pub(crate) fn points(shape: &Shape) -> usize
    requires { IsShape shape.now }
    ensures { result ≤ 2 ^ 24 }
{
    count(&whole(shape))
}

/// The number of a level of the field.
pub(crate) fn number(patch: &Patch, level: u8, p: Point) -> i64
    requires vars { patch.now.vars ≡ field_vars }
    requires local { IsIn patch.now.local p }
{
    patch.get(VarId(0), level.min(2), p)
}

fn fill_number(patch: &mut Patch, shape: &Shape, level: u8, p: Point, numbers: &[i64])
    requires shape { IsShape shape.now }
    requires level { level ≤ 2 }
    requires vars { patch.old.vars ≡ field_vars }
    requires local { IsIn patch.old.local p }
    ensures { IsSamePart patch.new patch.old }
{
    let place = level as usize * points(shape) + place_of(shape, p);
    let number = numbers.get(place).copied().unwrap_or(0);
    patch.set(VarId(0), level, p, number);
}

fn fill_point(patch: &mut Patch, shape: &Shape, p: Point, numbers: &[i64])
    requires shape { IsShape shape.now }
    requires vars { patch.old.vars ≡ field_vars }
    requires local { IsIn patch.old.local p }
    ensures { IsSamePart patch.new patch.old }
{
    fill_number(patch, shape, 0, p, numbers);
    fill_number(patch, shape, 1, p, numbers);
    fill_number(patch, shape, 2, p, numbers);
}

/// Sets the field's numbers: those of the whole grid, x fastest, level after level.
pub(crate) fn fill(patch: &mut Patch, shape: &Shape, numbers: &[i64])
    requires shape { IsShape shape.now }
    requires vars { patch.old.vars ≡ field_vars }
    ensures { IsSamePart patch.new patch.old }
{
    let local = *patch.local();
    'points: for i in 0..count(&local) {
        fill_point(patch, shape, point_at(&local, i), numbers);
    }
}
