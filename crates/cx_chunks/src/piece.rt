//! What a chunk file holds.

ghost use Rattle.std.specs.Prelude.{◌≡◌, pos, length, slice_index_or};
ghost use Rattle.cx_chunks.specs.Combining.{full_of, iteration_of, values_of};
ghost use Rattle.cx_chunks.specs.Rows.{values_from};

use crate::rows::{set_row, value_at};
use crate::values::Values;
use cx_ascii_read::Record;
use cx_text::{List, Text};

/// A scalar's value, or a part's own values of a grid variable.
#[derive(Debug, Drop)]
pub enum Piece {
    /// The line of a scalar.
    Line(Record),
    /// The section of a part.
    Box {
        /// The variable's full name.
        full: Text,
        iteration: u64,
        /// The part's number.
        part: u32,
        /// How many parts there are.
        parts: u32,
        /// The coordinates of its first point, one for each direction.
        from: List<u32>,
        /// How many points it has in each direction.
        size: List<u32>,
        /// The values of its own points, x fastest, then y.
        values: Values,
    },
}

impl Piece {
    /// The full name of its variable.
    pub(crate) fn full(&self) -> &Text
        ensures { result.now ≡ full_of self.now }
    {
        match self {
            Piece::Line(record) => &record.full,
            Piece::Box { full, .. } => full,
        }
    }

    /// The iteration that it is of.
    pub(crate) fn iteration(&self) -> u64
        ensures { result ≡ iteration_of self.now }
    {
        match self {
            Piece::Line(record) => record.iteration,
            Piece::Box { iteration, .. } => *iteration,
        }
    }

    /// Its first value, and 0 where it has none.
    pub(crate) fn first(&self) -> i64
        ensures { result ≡ slice_index_or (values_of self.now) 0 (pos 0) }
    {
        match self {
            Piece::Line(record) => value_at(record.values.as_slice(), 0),
            Piece::Box { values, .. } => values.first(),
        }
    }

    /// Sets a row to its values from a place on; one that isn't there counts as 0.
    pub(crate) fn set_run(&self, row: &mut [i64], from: usize)
        ensures { row.new ≡ values_from (values_of self.now) from (length row.old) }
    {
        match self {
            Piece::Line(record) => set_row(row, record.values.as_slice(), from),
            Piece::Box { values, .. } => values.set_run(row, from),
        }
    }
}
