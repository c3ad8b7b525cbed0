//! Rows of numbers with those beside them, and the next numbers along them.
ghost use Rattle.std.specs.Prelude.{◌≡◌, ◌≤◌, ◌<◌, ◌+◌, ◌^◌, length, pos, true, OnOk, OnErr, Some, IfSome};
ghost use Rattle.cx_thorn_pde.specs.Near.{IsNear, IsNearStar, AreNear, AreNearRows};
ghost use Rattle.cx_thorn_pde.specs.Rows.{AreBy, LacksIn, HasPlaces, next_at, star_at, number_at};

use crate::near::{are_near, small_factor};
use crate::star::Star;
use cx_rule::Overflow;
use std::marker::Model;

/// A row of numbers with the numbers before them, and with the rows beside it along y and z. All but the numbers before begin one
/// number before the first place.
#[derive(Drop)]
pub(crate) struct RowsAround<'r> {
    dims: u8,
    before: &'r [i64],
    row: &'r [i64],
    below: &'r [i64],
    above: &'r [i64],
    under: &'r [i64],
    over: &'r [i64],
}

impl<'r> Model for RowsAround<'r> {
    ghost use Rattle.cx_thorn_pde.specs.Rows.{RowValues, IsAlone, row_values};

    ghost Value = { RowValues };

    ghost view = { λ r. row_values r.before.now r.row.now
        r.below.now r.above.now r.under.now r.over.now };

    ghost invariant = { λ r. IsAlone r.dims (row_values r.before.now r.row.now
        r.below.now r.above.now r.under.now r.over.now) };
}

impl<'r> RowsAround<'r> {
    ghost use Rattle.cx_thorn_pde.specs.Rows.{row_values};

    /// The rows around a row in a grid of one direction.
    #[inline(always)]
    pub(crate) fn line(before: &'r [i64], row: &'r [i64]) -> Self
        ensures { result ≡ row_values before.now row.now row.now row.now row.now row.now }
    {
        RowsAround {
            dims: 1,
            before,
            row,
            below: row,
            above: row,
            under: row,
            over: row,
        }
    }

    /// The rows around a row in a grid of two directions.
    #[inline(always)]
    pub(crate) fn sheet(
        before: &'r [i64],
        row: &'r [i64],
        below: &'r [i64],
        above: &'r [i64],
    ) -> Self
        ensures { result ≡ row_values before.now row.now below.now above.now row.now row.now }
    {
        RowsAround {
            dims: 2,
            before,
            row,
            below,
            above,
            under: row,
            over: row,
        }
    }

    /// The rows around a row in a grid of three directions.
    pub(crate) fn space(
        before: &'r [i64],
        row: &'r [i64],
        below: &'r [i64],
        above: &'r [i64],
        under: &'r [i64],
        over: &'r [i64],
    ) -> Self
        ensures { result ≡ row_values before.now row.now below.now above.now under.now over.now }
    {
        RowsAround {
            dims: 3,
            before,
            row,
            below,
            above,
            under,
            over,
        }
    }

    /// The number at a place and its neighbours.
    #[inline(always)]
    fn star_at(&self, i: usize) -> Star
        requires { HasPlaces self.now (i + 1) }
        ensures { result ≡ star_at self.now i }
    {
        let row = self.row;
        Star {
            here: row[i + 1],
            left: row[i],
            right: row[i + 2],
            below: self.below[i + 1],
            above: self.above[i + 1],
            under: self.under[i + 1],
            over: self.over[i + 1],
        }
    }

    /// The number before at a place.
    #[inline(always)]
    fn before_at(&self, i: usize) -> i64
        requires { HasPlaces self.now (i + 1) }
        ensures { result ≡ number_at self.now.before i }
    {
        let before = self.before;
        before[i]
    }

    /// The next number at a place.
    #[inline(always)]
    fn next_at(&self, factor: i64, i: usize) -> Option<i64>
        requires { HasPlaces self.now (i + 1) }
        ensures { result ≡ next_at factor self.now i }
    {
        self.star_at(i).next(factor, self.before_at(i))
    }

    /// The next number at a place by sums that aren't tested, where the numbers are near 0.
    #[inline(always)]
    fn plain_at(&self, factor: u32, i: usize) -> i64
        requires places { HasPlaces self.now (i + 1) }
        requires factor { factor ≤ 2 ^ 16 }
        requires star { IsNearStar (star_at self.now i) }
        requires before { IsNear (number_at self.now.before i) }
        ensures { Some result ≡ next_at (pos factor) self.now i }
    {
        self.star_at(i).next_plain(factor, self.before_at(i))
    }

    /// Twice each number of a row, minus the one before it, and a factor, in 256ths, times its bend.
    ///
    /// # Errors
    ///
    /// `Overflow` exactly where one of these numbers leaves 64 bits.
    pub(crate) fn next_row(&self, factor: i64, out: &mut [i64]) -> Result<(), Overflow>
        requires places { HasPlaces self.now (length out.old) }
        ensures numbers { OnOk result (AreBy (next_at factor self.now) out.new (length out.old)) }
        ensures overflow { OnErr result (LacksIn (next_at factor self.now) (length out.old)) }
        ensures room { length out.new ≡ length out.old }
    {
        let mut from = 0;
        'pieces: while from < out.len() {
            let to = piece_end(from, out.len());
            match self.next_piece(factor, from, to, out) {
                Ok(()) => from = to,
                Err(Overflow) => return Err(Overflow),
            }
        }
        Ok(())
    }

    /// The next numbers from a place on, before another place: by plain sums where all numbers that they are computed from are near 0.
    fn next_piece(
        &self,
        factor: i64,
        from: usize,
        to: usize,
        out: &mut [i64],
    ) -> Result<(), Overflow>
        requires places { HasPlaces self.now (length out.old) }
        requires order { from ≤ to }
        requires end { to ≤ length out.old }
        requires before { AreBy (next_at factor self.now) out.old from }
        ensures numbers { OnOk result (AreBy (next_at factor self.now) out.new to) }
        ensures overflow { OnErr result (LacksIn (next_at factor self.now) to) }
        ensures room { length out.new ≡ length out.old }
    {
        if let Some(small) = small_factor(factor)
            && self.are_near(from, to)
        {
            self.put_plain(small, from, to, out);
            return Ok(());
        }
        self.put_exact(factor, from, to, out)
    }

    /// Sets the next numbers from one place to another by sums that are tested one by one.
    fn put_exact(
        &self,
        factor: i64,
        from: usize,
        to: usize,
        out: &mut [i64],
    ) -> Result<(), Overflow>
        requires places { HasPlaces self.now (length out.old) }
        requires order { from ≤ to }
        requires end { to ≤ length out.old }
        requires before { AreBy (next_at factor self.now) out.old from }
        ensures numbers { OnOk result (AreBy (next_at factor self.now) out.new to) }
        ensures overflow { OnErr result (LacksIn (next_at factor self.now) to) }
        ensures room { length out.new ≡ length out.old }
    {
        'places: for i in from..to {
            match self.next_at(factor, i) {
                Some(number) => out[i] = number,
                None => return Err(Overflow),
            }
        }
        Ok(())
    }

    /// Sets the next numbers from one place to another by sums without tests, where all numbers are near 0:
    /// in one, two and three directions by a loop that reads no row twice.
    #[inline(never)]
    fn put_plain(&self, factor: u32, from: usize, to: usize, out: &mut [i64])
        requires places { HasPlaces self.now (length out.old) }
        requires factor { factor ≤ 2 ^ 16 }
        requires near { AreNearRows self.now from to }
        requires order { from ≤ to }
        requires end { to ≤ length out.old }
        requires before { AreBy (next_at (pos factor) self.now) out.old from }
        ensures numbers { AreBy (next_at (pos factor) self.now) out.new to }
        ensures room { length out.new ≡ length out.old }
    {
        if let Some(line) = self.as_line() {
            line.put_near(factor, from, to, out);
        } else if let Some(sheet) = self.as_sheet() {
            sheet.put_near(factor, from, to, out);
        } else {
            self.again().put_near(factor, from, to, out);
        }
    }

    /// These rows as those of a grid with one direction, if it has one.
    #[inline(always)]
    fn as_line(&self) -> Option<RowsAround<'r>>
        ensures { IfSome result (λ rows. rows ≡ self.now) }
    {
        if self.dims < 2 {
            Some(RowsAround::line(self.before, self.row))
        } else {
            None
        }
    }

    /// These rows as those of a grid with two directions, if it has one or two.
    #[inline(always)]
    fn as_sheet(&self) -> Option<RowsAround<'r>>
        ensures { IfSome result (λ rows. rows ≡ self.now) }
    {
        if self.dims < 3 {
            Some(RowsAround::sheet(self.before, self.row, self.below, self.above))
        } else {
            None
        }
    }

    /// These rows as a value of the caller's own, so that a loop need not read them again after each write.
    #[inline(always)]
    fn again(&self) -> RowsAround<'r>
        ensures { result ≡ self.now }
    {
        RowsAround {
            dims: self.dims,
            before: self.before,
            row: self.row,
            below: self.below,
            above: self.above,
            under: self.under,
            over: self.over,
        }
    }

    /// The loop of `put_plain`.
    #[inline(always)]
    fn put_near(&self, factor: u32, from: usize, to: usize, out: &mut [i64])
        requires places { HasPlaces self.now (length out.old) }
        requires factor { factor ≤ 2 ^ 16 }
        requires near { AreNearRows self.now from to }
        requires order { from ≤ to }
        requires end { to ≤ length out.old }
        requires before { AreBy (next_at (pos factor) self.now) out.old from }
        ensures numbers { AreBy (next_at (pos factor) self.now) out.new to }
        ensures room { length out.new ≡ length out.old }
    {
        'places: for i in from..to {
            out[i] = self.plain_at(factor, i);
        }
    }

    /// Whether all numbers are near 0 that the next ones are computed from.
    fn are_near(&self, from: usize, to: usize) -> bool
        requires places { HasPlaces self.now to }
        requires order { from ≤ to }
        ensures { result ≡ true → AreNearRows self.now from to }
    {
        let row = self.row;
        are_near(row, from, to + 2)
            && are_near(self.before, from, to)
            && self.are_near_along_y(from + 1, to + 1)
            && self.are_near_along_z(from + 1, to + 1)
    }

    /// Whether the numbers below and above are near 0, where those of the row are.
    fn are_near_along_y(&self, from: usize, to: usize) -> bool
        requires below { to ≤ length self.now.below }
        requires above { to ≤ length self.now.above }
        requires row { AreNear self.now.row from to }
        ensures below { result ≡ true → AreNear self.now.below from to }
        ensures above { result ≡ true → AreNear self.now.above from to }
    {
        self.dims < 2 || (are_near(self.below, from, to) && are_near(self.above, from, to))
    }

    /// Whether the numbers under and over are near 0, where those of the row are.
    fn are_near_along_z(&self, from: usize, to: usize) -> bool
        requires under { to ≤ length self.now.under }
        requires over { to ≤ length self.now.over }
        requires row { AreNear self.now.row from to }
        ensures under { result ≡ true → AreNear self.now.under from to }
        ensures over { result ≡ true → AreNear self.now.over from to }
    {
        self.dims < 3 || (are_near(self.under, from, to) && are_near(self.over, from, to))
    }
}

/// Where the piece of a row ends that begins at a place.
fn piece_end(from: usize, count: usize) -> usize
    requires { from < count }
    ensures after { from < result }
    ensures within { result ≤ count }
{
    if count - from <= 512 {
        count
    } else {
        from + 512
    }
}
