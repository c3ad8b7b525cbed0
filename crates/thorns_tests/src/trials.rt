//! Sweeps over parts of a field, beside what the routine gives at each of their points.

ghost use Rattle.std.specs.Prelude.{◌≡◌, ◌<◌, ◌≤◌, length, IfOk, IfSome};
ghost use Rattle.cx_grid.specs.Boxes.{IsIn};
ghost use Rattle.cx_grid.specs.Grid.{IsShape};
ghost use Rattle.cx_plan.specs.Regions.{region_of};
ghost use Rattle.cx_cut.specs.Cuts.{local};
ghost use Rattle.cx_rule.specs.Patches.{value_count};
ghost use Rattle.cx_rule.specs.Staging.{CanStage};
ghost use Rattle.cx_rule.specs.Sweeps.{window_point};
ghost use Rattle.cx_rule.specs.Zones.{in_zone};
ghost use Rattle.thorns_tests.specs.Fields.{field_vars, first_item, IsTested, IsFieldFor, IsTrial};

use crate::fields::{Grid, cut_along_x, fill, item_for, number, shape_of, variables};
use cx_cut::Cut;
use cx_grid::{Point, Shape, clamp, contains, count, point_at, wrap};
use cx_plan::{Item, Region};
use cx_rule::{Cells, Meter, Overflow, Patch, Place, Routine, Spec, Window, Zone};
use cx_text::List;
use std::test::Fail;

/// The iteration of each sweep.
const ITERATION: u64 = 1;

/// A cut grid, an item on its one field, and the field's numbers.
#[derive(Drop)]
pub(crate) struct Field {
    pub(crate) shape: Shape,
    pub(crate) cut: Cut,
    pub(crate) items: List<Item>,
    pub(crate) numbers: Vec<i64>,
}

/// A cut has no such part, or none so small.
#[derive(Debug, Drop)]
struct NoPart;

/// As many of these numbers as a routine takes parameters.
fn params_for<'p>(spec: &Spec, params: &'p [i64; 4]) -> &'p [i64]
    requires { length spec.now.params ≤ 4 }
    ensures { length result.now ≡ length spec.now.params }
{
    &params[..spec.params.len()]
}

/// A grid, cut into parts of these widths along x, with a routine's item and these numbers.
pub(crate) fn field_for<R: Routine>(
    rt: &HostRuntime,
    routine: &R,
    grid: Grid,
    widths: &[u32],
    params: &[i64; 4],
    numbers: &[i64],
) -> Result<Field, Fail>
    requires { IsTested (R.spec_of routine.now) }
    ensures { IfOk result (λ field. IsFieldFor (R.spec_of routine.now)
        field.shape field.cut field.items) }
{
    let alloc = rt.alloc();
    let shape = shape_of(grid);
    let spec = routine.spec();
    let mut items = Vec::new(alloc);
    items.push(item_for(alloc, spec, params_for(spec, params))?)?;
    Ok(Field {
        shape,
        cut: cut_along_x(alloc, &shape, widths)?,
        items: List::new(items),
        numbers: numbers.to_vec(alloc)?,
    })
}

/// Part k of a field, with its numbers.
pub(crate) fn part_of<R: Routine>(
    rt: &HostRuntime,
    _routine: &R,
    field: &Field,
    k: u32,
) -> Result<Patch, Fail>
    requires tested { IsTested (R.spec_of _routine.now) }
    requires field { IsFieldFor (R.spec_of _routine.now)
        field.now.shape field.now.cut field.now.items }
    ensures trial { IfOk result (λ patch. IsTrial (R.spec_of _routine.now)
        (first_item field.now.items) patch) }
    ensures local { IfOk result (λ patch. patch.local ≡ local field.now.cut k) }
{
    if k >= field.cut.count() {
        return Err(Fail::from(NoPart));
    }
    let owned = field.cut.part(k);
    let local = field.cut.local(k);
    let vars = variables(rt.alloc())?;
    let mut patch = Patch::new(
        rt.alloc(),
        &field.shape,
        &owned,
        &local,
        &vars,
        &field.items,
    )?;
    if count(patch.local()) > 1000000 {
        return Err(Fail::from(NoPart));
    }
    fill(&mut patch, &field.shape, &field.numbers);
    Ok(patch)
}

/// Sweeps the item over a part.
pub(crate) fn sweep<R: Routine>(
    rt: &HostRuntime,
    routine: &R,
    item: &Item,
    patch: &mut Patch,
) -> Result<(), Overflow>
    requires { IsTrial (R.spec_of routine.now) item.now patch.old }
    ensures vars { patch.new.vars ≡ field_vars }
    ensures local { patch.new.local ≡ patch.old.local }
{
    let zone = patch.item_points(item);
    let mut meter = Meter::new(rt);
    routine.sweep(item, patch, &zone, ITERATION, &mut meter)
}

/// The numbers that a routine gives at a point for what is seen around another one, if it gives some.
pub(crate) fn at_point<R: Routine>(
    rt: &HostRuntime,
    routine: &R,
    item: &Item,
    patch: &Patch,
    from: Point,
    p: Point,
) -> Result<Option<Cells>, Fail>
    requires can { CanStage (R.spec_of routine.now) item.now patch.now from p }
    requires writes { length item.now.writes ≤ 2 }
    requires values { value_count patch.now.shape.dims item.now ≤ 99 }
    ensures { IfOk result (λ found. IfSome found
        (λ cells. length cells ≡ length item.now.writes)) }
{
    let shape = patch.shape();
    let mut w = Window::new(rt.alloc(), 99)?;
    patch.window(item, from, &mut w);
    let at = Place::new(wrap(shape, p), shape, ITERATION, &item.params);
    let mut out = Cells::new(rt.alloc(), item.writes.len() as u32)?;
    let mut meter = Meter::new(rt);
    match routine.point(&w, &at, &mut out, &mut meter) {
        Ok(()) => Ok(Some(out)),
        Err(Overflow) => Ok(None),
    }
}

pub(crate) fn in_zone(zone: &Zone, p: Point) -> bool
    ensures { result ≡ in_zone zone.now p }
{
    let all = contains(&zone.all, p);
    let hole = contains(&zone.hole, p);
    all && !hole
}

/// The region that an item writes.
fn region_of(item: &Item) -> Region
    ensures { result ≡ region_of item.now.writes }
{
    match item.writes.as_slice().first() {
        Some(write) => write.region,
        None => Region::Everywhere,
    }
}

/// Where what is seen around a point is taken: at the nearest interior point for one of the boundary.
pub(crate) fn window_point(shape: &Shape, item: &Item, p: Point) -> Point
    requires { IsShape shape.now }
    ensures { result ≡ window_point shape.now (region_of item.now.writes) p }
{
    match region_of(item) {
        Region::Boundary => clamp(shape, p),
        Region::Interior | Region::Everywhere => p,
    }
}

/// The place among an item's writes of the one of a level.
fn write_of(item: &Item, level: u8) -> Option<usize>
    ensures { IfSome result (λ k. k < length item.now.writes) }
{
    'writes: for (k, write) in item.writes.as_slice().iter().enumerate() {
        if write.level == level {
            return Some(k);
        }
    }
    None
}

/// The number of a level after a sweep: the one that was given if it is written, else the one before.
fn wanted(item: &Item, cells: &Cells, before: &Patch, level: u8, p: Point) -> i64
    requires cells { length cells.now ≡ length item.now.writes }
    requires vars { before.now.vars ≡ field_vars }
    requires local { IsIn before.now.local p }
{
    match write_of(item, level) {
        Some(k) => cells.get(k),
        None => number(before, level, p),
    }
}

/// Whether a point has the numbers that were given, and no other number has changed there.
fn has_numbers(item: &Item, cells: &Cells, before: &Patch, after: &Patch, p: Point) -> bool
    requires cells { length cells.now ≡ length item.now.writes }
    requires vars { before.now.vars ≡ field_vars }
    requires local { IsIn before.now.local p }
    requires new_vars { after.now.vars ≡ field_vars }
    requires same { after.now.local ≡ before.now.local }
{
    'levels: for level in 0..3u8 {
        if number(after, level, p) != wanted(item, cells, before, level, p) {
            return false;
        }
    }
    true
}

/// Whether a point has the same numbers in two parts.
fn is_kept(before: &Patch, after: &Patch, p: Point) -> bool
    requires vars { before.now.vars ≡ field_vars }
    requires local { IsIn before.now.local p }
    requires new_vars { after.now.vars ≡ field_vars }
    requires new_local { IsIn after.now.local p }
{
    'levels: for level in 0..3u8 {
        if number(after, level, p) != number(before, level, p) {
            return false;
        }
    }
    true
}

/// Whether a point hasn't the numbers that the routine gives there from those before.
fn differs_at<R: Routine>(
    rt: &HostRuntime,
    routine: &R,
    item: &Item,
    before: &Patch,
    after: &Patch,
    p: Point,
) -> Result<bool, Fail>
    requires trial { IsTrial (R.spec_of routine.now) item.now before.now }
    requires vars { after.now.vars ≡ field_vars }
    requires same { after.now.local ≡ before.now.local }
    requires local { IsIn before.now.local p }
{
    let shape = before.shape();
    let zone = before.item_points(item);
    if in_zone(&zone, p) {
        let from = window_point(shape, item, p);
        return match at_point(rt, routine, item, before, from, p)? {
            Some(cells) => Ok(!has_numbers(item, &cells, before, after, p)),
            None => Ok(true),
        };
    }
    Ok(!is_kept(before, after, p))
}

/// Whether each point has the numbers that the routine gives there, and no other number has changed.
fn agrees<R: Routine>(
    rt: &HostRuntime,
    routine: &R,
    item: &Item,
    before: &Patch,
    after: &Patch,
) -> Result<bool, Fail>
    requires trial { IsTrial (R.spec_of routine.now) item.now before.now }
    requires vars { after.now.vars ≡ field_vars }
    requires same { after.now.local ≡ before.now.local }
{
    let local = before.local();
    'points: for i in 0..count(local) {
        if differs_at(rt, routine, item, before, after, point_at(local, i))? {
            return Ok(false);
        }
    }
    Ok(true)
}

/// Whether a point is computed, and the routine gives no numbers there.
fn lacks_at<R: Routine>(
    rt: &HostRuntime,
    routine: &R,
    item: &Item,
    patch: &Patch,
    p: Point,
) -> Result<bool, Fail>
    requires trial { IsTrial (R.spec_of routine.now) item.now patch.now }
    requires local { IsIn patch.now.local p }
{
    let shape = patch.shape();
    let zone = patch.item_points(item);
    if in_zone(&zone, p) {
        let from = window_point(shape, item, p);
        return Ok(at_point(rt, routine, item, patch, from, p)?.is_none());
    }
    Ok(false)
}

/// Whether the routine gives no numbers at one of the points.
fn lacks_one<R: Routine>(
    rt: &HostRuntime,
    routine: &R,
    item: &Item,
    patch: &Patch,
) -> Result<bool, Fail>
    requires { IsTrial (R.spec_of routine.now) item.now patch.now }
{
    let local = patch.local();
    'points: for i in 0..count(local) {
        if lacks_at(rt, routine, item, patch, point_at(local, i))? {
            return Ok(true);
        }
    }
    Ok(false)
}

/// Whether a part has the same numbers as another one at the points that it owns and the other one holds.
fn is_alike(part: &Patch, other: &Patch) -> bool
    requires vars { part.now.vars ≡ field_vars }
    requires other_vars { other.now.vars ≡ field_vars }
{
    let local = part.local();
    'points: for i in 0..count(local) {
        let p = point_at(local, i);
        if contains(part.owned(), p) && contains(other.local(), p) && !is_kept(part, other, p) {
            return false;
        }
    }
    true
}

/// What came of a sweep.
#[derive(Clone, Copy, Debug, PartialEq, Eq)]
pub(crate) enum Outcome {
    /// Each point has the numbers that the routine gives there, no other number has changed, and the parts of a cut have the same.
    Agrees,
    /// No number has changed, and there is a point at which the routine gives none.
    Overflows,
    /// None of these.
    Differs,
}

/// What came of a sweep that ended so.
fn outcome_of<R: Routine>(
    rt: &HostRuntime,
    routine: &R,
    item: &Item,
    before: &Patch,
    after: &Patch,
    end: Result<(), Overflow>,
) -> Result<Outcome, Fail>
    requires trial { IsTrial (R.spec_of routine.now) item.now before.now }
    requires vars { after.now.vars ≡ field_vars }
    requires same { after.now.local ≡ before.now.local }
{
    if end.is_ok() {
        if agrees(rt, routine, item, before, after)? {
            return Ok(Outcome::Agrees);
        }
    } else if is_alike(before, after) && lacks_one(rt, routine, item, before)? {
        return Ok(Outcome::Overflows);
    }
    Ok(Outcome::Differs)
}

/// The one item.
pub(crate) fn first_item(items: &List<Item>) -> &Item
    requires { length items.now ≡ 1 }
    ensures { result.now ≡ first_item items.now }
{
    &items.as_slice()[0]
}

/// Whether the sweep of part k leaves its own points the numbers of the undivided part after its sweep.
fn is_part_alike<R: Routine>(
    rt: &HostRuntime,
    routine: &R,
    field: &Field,
    k: u32,
    whole: &Patch,
) -> Result<bool, Fail>
    requires tested { IsTested (R.spec_of routine.now) }
    requires field { IsFieldFor (R.spec_of routine.now)
        field.now.shape field.now.cut field.now.items }
    requires vars { whole.now.vars ≡ field_vars }
{
    let item = first_item(&field.items);
    let mut part = part_of(rt, routine, field, k)?;
    let end = sweep(rt, routine, item, &mut part);
    Ok(end.is_ok() && is_alike(&part, whole))
}

/// The same of all parts.
fn are_parts_alike<R: Routine>(
    rt: &HostRuntime,
    routine: &R,
    field: &Field,
    whole: &Patch,
) -> Result<bool, Fail>
    requires tested { IsTested (R.spec_of routine.now) }
    requires field { IsFieldFor (R.spec_of routine.now)
        field.now.shape field.now.cut field.now.items }
    requires vars { whole.now.vars ≡ field_vars }
{
    'parts: for k in 0..field.cut.count() {
        if !is_part_alike(rt, routine, field, k, whole)? {
            return Ok(false);
        }
    }
    Ok(true)
}

/// The current numbers of all points that a part holds.
pub(crate) fn shown(rt: &HostRuntime, patch: &Patch) -> Result<Vec<i64>, Fail>
    requires { patch.now.vars ≡ field_vars }
{
    let mut shown = Vec::new(rt.alloc());
    let local = patch.local();
    'points: for i in 0..count(local) {
        shown.push(number(patch, 0, point_at(local, i)))?;
    }
    Ok(shown)
}

/// What comes of a sweep of an undivided field, and the field behind it.
fn swept_whole<R: Routine>(
    rt: &HostRuntime,
    routine: &R,
    field: &Field,
) -> Result<(Outcome, Patch), Fail>
    requires tested { IsTested (R.spec_of routine.now) }
    requires field { IsFieldFor (R.spec_of routine.now)
        field.now.shape field.now.cut field.now.items }
    ensures { IfOk result (λ came. came.1.vars ≡ field_vars) }
{
    let item = first_item(&field.items);
    let before = part_of(rt, routine, field, 0)?;
    let mut after = part_of(rt, routine, field, 0)?;
    let end = sweep(rt, routine, item, &mut after);
    let came = outcome_of(rt, routine, item, &before, &after, end)?;
    Ok((came, after))
}

/// What came of it, beside the same field in parts.
fn came_in_parts<R: Routine>(
    rt: &HostRuntime,
    routine: &R,
    parts: &Field,
    whole: &Patch,
    came: Outcome,
) -> Result<Outcome, Fail>
    requires tested { IsTested (R.spec_of routine.now) }
    requires parts { IsFieldFor (R.spec_of routine.now)
        parts.now.shape parts.now.cut parts.now.items }
    requires vars { whole.now.vars ≡ field_vars }
{
    if came == Outcome::Agrees && !are_parts_alike(rt, routine, parts, whole)? {
        return Ok(Outcome::Differs);
    }
    Ok(came)
}

/// What comes of a sweep of a field and of the same field in parts, and the current numbers behind it.
fn swept<R: Routine>(
    rt: &HostRuntime,
    routine: &R,
    field: &Field,
    parts: &Field,
) -> Result<(Outcome, Vec<i64>), Fail>
    requires tested { IsTested (R.spec_of routine.now) }
    requires field { IsFieldFor (R.spec_of routine.now)
        field.now.shape field.now.cut field.now.items }
    requires parts { IsFieldFor (R.spec_of routine.now)
        parts.now.shape parts.now.cut parts.now.items }
{
    let (came, after) = swept_whole(rt, routine, field)?;
    let came = came_in_parts(rt, routine, parts, &after, came)?;
    Ok((came, shown(rt, &after)?))
}

/// Two parts of a direction, where it has two points.
fn halves(points: i32) -> [u32; 2] {
    let all = points.unsigned_abs();
    [all / 2, all - all / 2]
}

/// The grid with a routine's item and these numbers, in two parts along x where it has two points.
fn field_in_parts<R: Routine>(
    rt: &HostRuntime,
    routine: &R,
    grid: Grid,
    params: &[i64; 4],
    numbers: &[i64],
) -> Result<Field, Fail>
    requires { IsTested (R.spec_of routine.now) }
    ensures { IfOk result (λ field. IsFieldFor (R.spec_of routine.now)
        field.shape field.cut field.items) }
{
    let widths = halves(shape_of(grid).n.x);
    let cut: &[u32] = if widths[0] == 0 { &[] } else { &widths };
    field_for(rt, routine, grid, cut, params, numbers)
}

/// What comes of a routine's sweep of a grid with these numbers, and the current numbers behind it.
pub(crate) fn tried<R: Routine>(
    rt: &HostRuntime,
    routine: &R,
    grid: Grid,
    params: &[i64; 4],
    numbers: &[i64],
) -> Result<(Outcome, Vec<i64>), Fail>
    requires { IsTested (R.spec_of routine.now) }
{
    let field = field_for(rt, routine, grid, &[], params, numbers)?;
    let parts = field_in_parts(rt, routine, grid, params, numbers)?;
    swept(rt, routine, &field, &parts)
}
