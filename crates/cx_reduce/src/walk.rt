//! The number of a reduction over the points that a part owns.
ghost use Rattle.std.specs.Prelude.{◌≡◌, ◌<◌, ◌≤◌, ◌+◌, ◌*◌, ◌^◌, Some, length};
ghost use Rattle.std.specs.List.{fold, filter};
ghost use Rattle.cx_grid.specs.Boxes.{IsBox, IsSmall, extent, point_count, numbers_in};
ghost use Rattle.cx_field.specs.Patches.{IsGridLevel, number_at};
ghost use Rattle.cx_rule.specs.Runs.{row_count};
ghost use Rattle.cx_plan.specs.declared.item.ItemKind.TheVariants as kinds;
ghost use Rattle.cx_reduce.specs.Partials.{IsReduction, IsBounded, IsWithin, reduced_over, told, one_more};
ghost use Rattle.cx_text.specs.Numbers.{is_not_zero};

use crate::joining::{Partial, combine};
use cx_field::Patch;
use cx_grid::{Box3, count, point_at};
use cx_plan::{ItemKind, VarId};

/// The number of a reduction over the owned points of a part: the sum, the least or the greatest of the numbers of a level of a grid
/// variable, or how many of them aren't 0.
pub fn partial(kind: ItemKind, patch: &Patch, v: VarId, level: u8) -> Partial
    requires kind { IsReduction kind }
    requires level { IsGridLevel patch.now v level }
    ensures { result
        ≡ reduced_over kind (numbers_in patch.now.owned (number_at patch.now v level)) }
{
    let owned = patch.owned();
    let mut number = None;
    'rows: for row in 0..row_count(owned) {
        let start = row_start(owned, row);
        let numbers = patch.row(v, level, point_at(owned, start), width(owned));
        number = Some(with_row(kind, number, start as u32, numbers));
    }
    Partial {
        kind,
        points: count(owned) as u32,
        number: number.unwrap_or(0),
    }
}

/// How many points a row of a box has.
fn width(b: &Box3) -> u32
    requires { IsBox b.now }
    ensures { result ≡ extent b.now 0 }
{
    (b.high.x as i64 - b.low.x as i64) as u32
}

/// How many rows a box has.
fn row_count(b: &Box3) -> usize
    requires ordered { IsBox b.now }
    requires small { IsSmall b.now }
    requires wide { 0 < extent b.now 0 }
    ensures { result ≡ row_count b.now }
{
    count(b) / width(b) as usize
}

/// The place of a row's first point.
fn row_start(b: &Box3, row: usize) -> usize
    requires ordered { IsBox b.now }
    requires small { IsSmall b.now }
    requires row { row < row_count b.now }
    ensures value { result ≡ row * extent b.now 0 }
    ensures room { result + extent b.now 0 ≤ point_count b.now }
{
    row * width(b) as usize
}

/// The number over so many points and those of a row.
fn with_row(kind: ItemKind, number: Option<i128>, points: u32, row: &[i64]) -> i128
    requires before { IsBounded points number }
    requires some { 0 < length row.now }
    requires few { points + length row.now ≤ 2 ^ 24 }
    ensures value { Some result ≡ fold (one_more kind) number row.now }
    ensures within { IsWithin (points + length row.now) result }
{
    match kind {
        ItemKind::Count => with_counted(number, points, row),
        _ => with_each(kind, number, points, row),
    }
}

/// How many numbers at so many points and those of a row aren't 0.
fn with_counted(number: Option<i128>, points: u32, row: &[i64]) -> i128
    requires before { IsBounded points number }
    requires some { 0 < length row.now }
    requires few { points + length row.now ≤ 2 ^ 24 }
    ensures value { Some result ≡ fold (one_more kinds.Count) number row.now }
    ensures within { IsWithin (points + length row.now) result }
{
    let counted = i128::from(counted_in(row));
    match number {
        Some(so_far) => combine(ItemKind::Count, so_far, counted, points, row.len() as u32),
        None => counted,
    }
}

/// How many numbers of a row aren't 0.
fn counted_in(row: &[i64]) -> u64
    ensures value { result ≡ length (filter is_not_zero row.now) }
    ensures most { result ≤ length row.now }
{
    let mut counted = 0;
    'values: for value in row {
        counted += u64::from(*value != 0);
    }
    counted
}

/// The number over so many points and those of a row, one after another.
fn with_each(kind: ItemKind, number: Option<i128>, points: u32, row: &[i64]) -> i128
    requires before { IsBounded points number }
    requires some { 0 < length row.now }
    requires few { points + length row.now ≤ 2 ^ 24 }
    ensures value { Some result ≡ fold (one_more kind) number row.now }
    ensures within { IsWithin (points + length row.now) result }
{
    let mut so_far = number;
    let mut passed = points;
    'values: for value in row {
        so_far = Some(with_point(kind, so_far, passed, *value));
        passed += 1;
    }
    so_far.unwrap_or(0)
}

/// The number over so many points and one more.
fn with_point(kind: ItemKind, number: Option<i128>, points: u32, value: i64) -> i128
    requires before { IsBounded points number }
    requires few { points + 1 ≤ 2 ^ 24 }
    ensures value { Some result ≡ one_more kind number value }
    ensures within { IsWithin (points + 1) result }
{
    match number {
        Some(so_far) => combine(kind, so_far, told(kind, value), points, 1),
        None => told(kind, value),
    }
}

/// What a number counts as: itself, or, where numbers are counted that aren't 0, 1 or 0.
fn told(kind: ItemKind, value: i64) -> i128
    ensures value { result ≡ told kind value }
    ensures within { IsWithin 1 result }
{
    match kind {
        ItemKind::Count => i128::from(value != 0),
        _ => i128::from(value),
    }
}
