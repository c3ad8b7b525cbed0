//! Numbers that are staged, and set all at once.

ghost use Rattle.std.specs.Prelude.{◌≡◌, ◌<◌, length};
ghost use Rattle.cx_rule.specs.Staging.{CanStage, CanCommit};
ghost use Rattle.cx_rule.specs.Swept.{IsSamePatch, swept_zone};
ghost use Rattle.cx_rule.specs.Zones.{in_zone};
ghost use Rattle.cx_thorn_ca.specs.Automaton.{ca_step_spec};
ghost use Rattle.thorns_tests.specs.Fields.{field_vars, IsTrial};

use crate::fields::Grid;
use crate::trials::{field_for, first_item, in_zone, part_of, shown, window_point};
use cx_grid::{Point, contains};
use cx_plan::Item;
use cx_rule::{Meter, Patch, Routine, Zone};
use cx_thorn_ca::CaStep;
use std::test::Fail;
use test_cases::same;

/// A row of cells between two edges.
const CELLS: [i64; 7] = [1, 0, 1, 1, 1, 0, 0];

/// Computes a routine at a point and stages its numbers there.
fn stage_by_rule(
    rt: &HostRuntime,
    routine: &Box<dyn Routine>,
    item: &Item,
    patch: &mut Patch,
    from: Point,
    p: Point,
) -> bool
    requires { CanStage (spec_of routine.now) item.now patch.old from p }
    ensures { IsSamePatch patch.new patch.old }
{
    let mut meter = Meter::new(rt);
    patch
        .stage_point(routine, item, from, p, 1, &mut meter)
        .is_ok()
}

/// Stages a number at a point.
fn stage_one(patch: &mut Patch, p: Point, value: i64)
    requires { 0 < length patch.old.staged }
    ensures { IsSamePatch patch.new patch.old }
{
    if contains(patch.local(), p) {
        patch.stage(0, p, value);
    }
}

/// Stages three numbers along x, at the third to the fifth inner cell.
fn stage_three(patch: &mut Patch)
    requires { 0 < length patch.old.staged }
    ensures { IsSamePatch patch.new patch.old }
{
    let local = *patch.local();
    let low = Point { x: 3, y: 0, z: 0 };
    if !contains(&local, low) {
        return;
    }
    if contains(&local, Point { x: 5, y: 0, z: 0 }) {
        patch.stage_row(0, low, &[6, 7, 8]);
    }
}

/// Sets what is staged.
fn set_staged(item: &Item, patch: &mut Patch, zone: &Zone) -> bool
    requires { CanCommit patch.old item.now zone.now }
    ensures { patch.new.vars ≡ patch.old.vars }
{
    patch.commit(item, zone).is_ok()
}

/// Stages what the routine gives at a point, a number, and three along x.
fn stage_all(
    rt: &HostRuntime,
    routine: &Box<dyn Routine>,
    item: &Item,
    patch: &mut Patch,
    zone: &Zone,
) -> bool
    requires trial { IsTrial (spec_of routine.now) item.now patch.old }
    requires zone { zone.now ≡ swept_zone patch.old item.now }
    requires some { 0 < length patch.old.staged }
    ensures same { IsSamePatch patch.new patch.old }
{
    let p = Point { x: 1, y: 0, z: 0 };
    let from = window_point(patch.shape(), item, p);
    if in_zone(zone, p) {
        let given = stage_by_rule(rt, routine, item, patch, from, p);
        stage_one(patch, Point { x: 2, y: 0, z: 0 }, 5);
        stage_three(patch);
        return given;
    }
    false
}

/// Stages at each point of a row, and sets that.
fn set_all(rt: &HostRuntime, routine: &Box<dyn Routine>, item: &Item, patch: &mut Patch) -> bool
    requires trial { IsTrial (spec_of routine.now) item.now patch.old }
    ensures vars { patch.new.vars ≡ field_vars }
{
    let _ = patch.shape();
    let zone = patch.item_points(item);
    if item.writes.is_empty() {
        return false;
    }
    let given = stage_all(rt, routine, item, patch, &zone);
    set_staged(item, patch, &zone) && given
}

/// What the row has then, where each stage is done.
#[tactic(auto, using(crate::proofs::TestedSpecs::ca_step))]
fn staged(rt: &HostRuntime, routine: &Box<dyn Routine>) -> Result<Option<Vec<i64>>, Fail>
    requires { spec_of routine.now ≡ ca_step_spec }
{
    let step = CaStep::new(rt.alloc())?;
    let field = field_for(rt, &step, Grid::Line(7), &[], &[110, 0, 0, 0], &CELLS)?;
    let item = first_item(&field.items);
    let mut patch = part_of(rt, &step, &field, 0)?;
    if set_all(rt, routine, item, &mut patch) {
        return Ok(Some(shown(rt, &patch)?));
    }
    Ok(None)
}

#[test]
fn staged_numbers_are_set_at_once(rt: HostRuntime) -> Result<(), Fail> {
    let alloc = rt.alloc();
    let routine: Box<dyn Routine> = Box::new(alloc, CaStep::new(alloc)?)?;
    let found = staged(&rt, &routine)?.unwrap_or(Vec::new(alloc));
    // 101 gives 1 by 110; then what is staged as it is, between the edges.
    let want = [1, 1, 5, 6, 7, 8, 0];
    same(&"a row of cells", &found.as_slice(), &want.as_slice())
}
