//! A part's own numbers put into whole levels, row by row.
ghost use Rattle.std.specs.Prelude.{◌≡◌, ◌<◌, ◌≤◌, ◌+◌, ◌+ℤ◌, ◌<ℤ◌, ◌≤ℤ◌, pos, length, slice_index_or, slice_set, [], ℕ, ℤ, List as ListOf, All};
ghost use Rattle.cx_grid.specs.Boxes.{IsIn, IsBox, IsSmall, extent, point_count, index_in};
ghost use Rattle.cx_grid.specs.Grid.{whole};
ghost use Rattle.cx_rule.specs.States.{level_of};
ghost use Rattle.cx_field.specs.Patches.{IsGridLevel, IsPart, numbers_along};
ghost use Rattle.cx_field.specs.Staging.{put_from};
ghost use Rattle.cx_core_buffers.specs.Gathering.{put};
ghost use Rattle.cx_core_buffers.specs.Rows.{row_starts, levels_put};

use cx_field::Patch;
use cx_grid::{Box3, Point, count, index_of, point_at, whole};
use cx_plan::VarId;
use cx_text::List;
use std::alloc::Global;
use std::mem;

/// The first points of the rows of a box.
fn row_starts(owned: &Box3) -> Box3
    requires some { owned.now.low.x <ℤ owned.now.high.x }
    requires few { owned.now.high.x ≤ℤ pos 16777216 }
    ensures { result ≡ row_starts owned.now }
{
    Box3 {
        low: owned.low,
        high: Point {
            x: owned.low.x + 1,
            ..owned.high
        },
    }
}

/// How many points a row of a box has.
fn row_length(owned: &Box3) -> u32
    requires some { owned.now.low.x <ℤ owned.now.high.x }
    requires few { owned.now.high.x ≤ℤ pos 16777216 }
    ensures { result ≡ extent owned.now 0 }
{
    (owned.high.x as i64 - owned.low.x as i64) as u32
}

/// Sets numbers from a place on.
fn put_from(level: &mut Vec<i64>, at: usize, values: &[i64])
    requires { at + length values.now ≤ length level.old.items }
    ensures { level.new.items ≡ put_from at level.old.items values.now }
{
    let end = at + values.len();
    level[at..end].copy_from_slice(values);
}

/// Sets the numbers of a whole level along one row of a part's own points to those of the part.
fn put_row(level: &mut Vec<i64>, patch: &Patch, v: VarId, number: u8, low: Point)
    requires stored { IsGridLevel patch.now v number }
    requires room { length level.old.items ≡ point_count (whole patch.now.shape) }
    requires low { IsIn (row_starts patch.now.owned) low }
    ensures { level.new.items
        ≡ put_from (index_in (whole patch.now.shape) low) level.old.items
        (numbers_along patch.now v number low (extent patch.now.owned 0)) }
{
    let at = index_of(&whole(patch.shape()), low);
    let row = patch.row(v, number, low, row_length(patch.owned()));
    put_from(level, at, row);
}

/// Sets the numbers of a whole level at a part's own points to those of a level of the part.
fn put_rows(level: &mut Vec<i64>, patch: &Patch, v: VarId, number: u8)
    requires stored { IsGridLevel patch.now v number }
    requires room { length level.old.items ≡ point_count (whole patch.now.shape) }
    ensures { level.new.items
        ≡ put patch.now (level_of patch.now.numbers v number) level.old.items }
{
    let starts = row_starts(patch.owned());
    'rows: for i in 0..count(&starts) {
        put_row(level, patch, v, number, point_at(&starts, i));
    }
}

/// Sets the numbers of a whole level, here a list, at a part's own points to those of a level of the part.
/// The empty list that takes its place meanwhile takes no memory.
pub(crate) fn put_level(alloc: Global, level: &mut List<i64>, patch: &Patch, v: VarId, number: u8)
    requires stored { IsGridLevel patch.now v number }
    requires room { length level.old ≡ point_count (whole patch.now.shape) }
    ensures { level.new ≡ put patch.now (level_of patch.now.numbers v number) level.old }
{
    let mut numbers = mem::replace(level, List::empty(alloc)).into_vec();
    put_rows(&mut numbers, patch, v, number);
    *level = List::new(numbers);
}

/// Sets the numbers of a variable's whole levels, the first of them at `from`, at a part's own points.
pub(crate) fn put_levels(
    alloc: Global,
    all: &mut Vec<List<i64>>,
    from: usize,
    levels: u8,
    patch: &Patch,
    v: VarId,
)
    requires stored { (level : ℕ) → level < levels → IsGridLevel patch.now v level }
    requires room { from + levels ≤ length all.old.items }
    requires points { All (λ (level : ListOf ℤ). length level ≡ point_count (whole patch.now.shape))
        all.old.items }
    ensures { all.new.items ≡ levels_put patch.now v from levels all.old.items }
{
    'levels: for number in 0..levels {
        put_level_at(alloc, all, from + number as usize, patch, v, number);
    }
}

/// Sets the numbers of one of several whole levels at a part's own points to those of a level of the part.
fn put_level_at(
    alloc: Global,
    all: &mut Vec<List<i64>>,
    at: usize,
    patch: &Patch,
    v: VarId,
    number: u8,
)
    requires stored { IsGridLevel patch.now v number }
    requires at { at < length all.old.items }
    requires room { length (slice_index_or all.old.items at [])
        ≡ point_count (whole patch.now.shape) }
    ensures { all.new.items ≡ slice_set all.old.items at
        (put patch.now (level_of patch.now.numbers v number) (slice_index_or all.old.items at [])) }
{
    let level = &mut all[at];
    put_level(alloc, level, patch, v, number);
}
