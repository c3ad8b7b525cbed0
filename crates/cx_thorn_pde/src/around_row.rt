//! The rows around a row that a rule reads.
ghost use Rattle.std.specs.Prelude.{◌≡◌, ◌≤◌, ◌<◌, length};
ghost use Rattle.cx_rule.specs.Rows.{seen_row, reach_at};
ghost use Rattle.cx_thorn_pde.specs.Rows.{HasPlaces, ShowsRows};

use crate::rows_around::RowsAround;
use cx_rule::Row;

/// The rows around a row of the first read, with the numbers before.
pub(crate) fn rows_around<'r>(row: &'r Row, before: &'r [i64]) -> RowsAround<'r>
    requires some { 1 ≤ (seen_row row.now).dims }
    requires most { (seen_row row.now).dims ≤ 3 }
    requires read { 0 < length (seen_row row.now).reaches }
    requires reach { reach_at (seen_row row.now) 0 ≡ 1 }
    requires before { (seen_row row.now).count ≤ length before.now }
    ensures rows { ShowsRows (seen_row row.now) result }
    ensures before { result.before ≡ before.now }
    ensures places { HasPlaces result (seen_row row.now).count }
{
    if row.dims() < 2 {
        line_around(row, before)
    } else if row.dims() < 3 {
        sheet_around(row, before)
    } else {
        space_around(row, before)
    }
}

/// The rows around a row on a grid with one direction: the row alone.
fn line_around<'r>(row: &'r Row, before: &'r [i64]) -> RowsAround<'r>
    requires dims { (seen_row row.now).dims ≡ 1 }
    requires read { 0 < length (seen_row row.now).reaches }
    requires reach { reach_at (seen_row row.now) 0 ≡ 1 }
    requires before { (seen_row row.now).count ≤ length before.now }
    ensures rows { ShowsRows (seen_row row.now) result }
    ensures before { result.before ≡ before.now }
    ensures places { HasPlaces result (seen_row row.now).count }
{
    RowsAround::line(before, row.along(0, 0, 0))
}

/// The rows around a row on a grid with two directions.
fn sheet_around<'r>(row: &'r Row, before: &'r [i64]) -> RowsAround<'r>
    requires dims { (seen_row row.now).dims ≡ 2 }
    requires read { 0 < length (seen_row row.now).reaches }
    requires reach { reach_at (seen_row row.now) 0 ≡ 1 }
    requires before { (seen_row row.now).count ≤ length before.now }
    ensures rows { ShowsRows (seen_row row.now) result }
    ensures before { result.before ≡ before.now }
    ensures places { HasPlaces result (seen_row row.now).count }
{
    let below = row.along(0, -1, 0);
    let above = row.along(0, 1, 0);
    RowsAround::sheet(before, row.along(0, 0, 0), below, above)
}

/// The rows around a row on a grid with three directions.
fn space_around<'r>(row: &'r Row, before: &'r [i64]) -> RowsAround<'r>
    requires dims { (seen_row row.now).dims ≡ 3 }
    requires read { 0 < length (seen_row row.now).reaches }
    requires reach { reach_at (seen_row row.now) 0 ≡ 1 }
    requires before { (seen_row row.now).count ≤ length before.now }
    ensures rows { ShowsRows (seen_row row.now) result }
    ensures before { result.before ≡ before.now }
    ensures places { HasPlaces result (seen_row row.now).count }
{
    let below = row.along(0, -1, 0);
    let above = row.along(0, 1, 0);
    let under = row.along(0, 0, -1);
    let over = row.along(0, 0, 1);
    RowsAround::space(before, row.along(0, 0, 0), below, above, under, over)
}
