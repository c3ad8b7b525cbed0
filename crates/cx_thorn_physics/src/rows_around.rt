//! Rows of numbers with those beside them.
ghost use Rattle.std.specs.Prelude.{◌≡◌, ◌≤◌, ◌≤ℤ◌, ◌<◌, ◌+◌, ◌^◌, length, pos, negsuc};
ghost use Rattle.cx_rule.specs.Rows.{seen_row, reach_at};
ghost use Rattle.cx_thorn_physics.specs.Rows.{HasPlaces, ShowsRows, number_at, spot_of, gain_x, gain_y, gain_z, heat_at};

use crate::exact::in_64_bits;
use crate::flow::{Spot, gain_between};
use crate::flux_around::sum;
use crate::heat_step::plus;
use cx_rule::Row;
use std::marker::Model;

/// A row of numbers, and the rows beside it along y and z. Each begins one number before the first place.
#[derive(Drop)]
pub(crate) struct RowsAround<'r> {
    row: &'r [i64],
    below: &'r [i64],
    above: &'r [i64],
    under: &'r [i64],
    over: &'r [i64],
}

impl<'r> Model for RowsAround<'r> {
    ghost use Rattle.cx_thorn_physics.specs.Rows.{RowValues, row_values};

    ghost Value = { RowValues };

    ghost view = { λ r. row_values r.row.now r.below.now r.above.now r.under.now r.over.now };
}

/// The rows of a read around a row.
pub(crate) fn rows_around<'r>(row: &'r Row, k: usize) -> RowsAround<'r>
    requires some { 1 ≤ (seen_row row.now).dims }
    requires most { (seen_row row.now).dims ≤ 3 }
    requires read { k < length (seen_row row.now).reaches }
    requires reach { reach_at (seen_row row.now) k ≡ 1 }
    ensures rows { ShowsRows (seen_row row.now) k result }
    ensures places { HasPlaces result (seen_row row.now).count }
{
    if row.dims() < 2 {
        line_around(row, k)
    } else if row.dims() < 3 {
        sheet_around(row, k)
    } else {
        space_around(row, k)
    }
}

/// The rows around a row on a grid with one direction: the row alone.
fn line_around<'r>(row: &'r Row, k: usize) -> RowsAround<'r>
    requires dims { (seen_row row.now).dims ≡ 1 }
    requires read { k < length (seen_row row.now).reaches }
    requires reach { reach_at (seen_row row.now) k ≡ 1 }
    ensures rows { ShowsRows (seen_row row.now) k result }
    ensures places { HasPlaces result (seen_row row.now).count }
{
    let own = row.along(k, 0, 0);
    RowsAround {
        row: own,
        below: own,
        above: own,
        under: own,
        over: own,
    }
}

/// The rows around a row on a grid with two directions.
fn sheet_around<'r>(row: &'r Row, k: usize) -> RowsAround<'r>
    requires dims { (seen_row row.now).dims ≡ 2 }
    requires read { k < length (seen_row row.now).reaches }
    requires reach { reach_at (seen_row row.now) k ≡ 1 }
    ensures rows { ShowsRows (seen_row row.now) k result }
    ensures places { HasPlaces result (seen_row row.now).count }
{
    let own = row.along(k, 0, 0);
    let below = row.along(k, -1, 0);
    let above = row.along(k, 1, 0);
    RowsAround {
        row: own,
        below,
        above,
        under: own,
        over: own,
    }
}

/// The rows around a row on a grid with three directions.
fn space_around<'r>(row: &'r Row, k: usize) -> RowsAround<'r>
    requires dims { (seen_row row.now).dims ≡ 3 }
    requires read { k < length (seen_row row.now).reaches }
    requires reach { reach_at (seen_row row.now) k ≡ 1 }
    ensures rows { ShowsRows (seen_row row.now) k result }
    ensures places { HasPlaces result (seen_row row.now).count }
{
    let own = row.along(k, 0, 0);
    let below = row.along(k, -1, 0);
    let above = row.along(k, 1, 0);
    let under = row.along(k, 0, -1);
    let over = row.along(k, 0, 1);
    RowsAround {
        row: own,
        below,
        above,
        under,
        over,
    }
}

impl<'r> RowsAround<'r> {
    /// The heat at a place and what it gains, if that has 64 bits.
    #[inline(always)]
    pub(crate) fn heat_at(&self, mask: &RowsAround, factor: i64, i: usize) -> Option<i64>
        requires heat { HasPlaces self.now (i + 1) }
        requires mask { HasPlaces mask.now (i + 1) }
        ensures { result ≡ heat_at factor self.now mask.now i }
    {
        let x = self.gain_x(mask, factor, i);
        let y = self.gain_y(mask, factor, i);
        let z = self.gain_z(mask, factor, i);
        let gains = sum(x, y, z);
        in_64_bits(plus(self.here(i), gains))
    }

    /// The number at a place.
    #[inline(always)]
    fn here(&self, i: usize) -> i64
        requires { HasPlaces self.now (i + 1) }
        ensures { result ≡ number_at self.now.row (i + 1) }
    {
        number_of(self.row, i + 1)
    }

    /// What a place gains along x.
    #[inline(always)]
    fn gain_x(&self, mask: &RowsAround, factor: i64, i: usize) -> i128
        requires heat { HasPlaces self.now (i + 1) }
        requires mask { HasPlaces mask.now (i + 1) }
        ensures value { result ≡ gain_x factor self.now mask.now i }
        ensures low { negsuc (2 ^ 121) ≤ℤ result }
        ensures high { result ≤ℤ pos (2 ^ 121) }
    {
        let left = spot_of(self.row, mask.row, i);
        let here = spot_of(self.row, mask.row, i + 1);
        gain_between(factor, left, here, spot_of(self.row, mask.row, i + 2))
    }

    /// What a place gains along y.
    #[inline(always)]
    fn gain_y(&self, mask: &RowsAround, factor: i64, i: usize) -> i128
        requires heat { HasPlaces self.now (i + 1) }
        requires mask { HasPlaces mask.now (i + 1) }
        ensures value { result ≡ gain_y factor self.now mask.now i }
        ensures low { negsuc (2 ^ 121) ≤ℤ result }
        ensures high { result ≤ℤ pos (2 ^ 121) }
    {
        let below = spot_of(self.below, mask.below, i + 1);
        let here = spot_of(self.row, mask.row, i + 1);
        gain_between(factor, below, here, spot_of(self.above, mask.above, i + 1))
    }

    /// What a place gains along z.
    #[inline(always)]
    fn gain_z(&self, mask: &RowsAround, factor: i64, i: usize) -> i128
        requires heat { HasPlaces self.now (i + 1) }
        requires mask { HasPlaces mask.now (i + 1) }
        ensures value { result ≡ gain_z factor self.now mask.now i }
        ensures low { negsuc (2 ^ 121) ≤ℤ result }
        ensures high { result ≤ℤ pos (2 ^ 121) }
    {
        let under = spot_of(self.under, mask.under, i + 1);
        let here = spot_of(self.row, mask.row, i + 1);
        gain_between(factor, under, here, spot_of(self.over, mask.over, i + 1))
    }
}

/// The number at a place of a row.
#[inline(always)]
fn number_of(ns: &[i64], i: usize) -> i64
    requires { i < length ns.now }
    ensures { result ≡ number_at ns.now i }
{
    ns[i]
}

/// The mask and the heat at a place of two rows.
#[inline(always)]
fn spot_of(heat: &[i64], mask: &[i64], i: usize) -> Spot
    requires heat { i < length heat.now }
    requires mask { i < length mask.now }
    ensures { result ≡ spot_of heat.now mask.now i }
{
    Spot {
        mask: mask[i],
        heat: heat[i],
    }
}
