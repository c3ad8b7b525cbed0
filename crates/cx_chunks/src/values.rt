//! Whole numbers in little memory.

ghost use Rattle.std.specs.Prelude.{◌≡◌, ◌++◌, pos, length, slice_index_or, take, drop, IfOk, OnOk};
ghost use Rattle.cx_chunks.specs.Rows.{values_from};

use crate::larger::Larger;
use crate::rows::run;
use crate::small::{push_small, push_widened, set_widened};
use cx_text::Memory;
use std::alloc::Global;
use std::marker::Model;

/// Whole numbers. Those before the first one that 8 bits don't hold take 8 bits each, and of the others those before the first
/// one that 32 bits don't hold 32. The rest take 64. Contracts see the list of all.
#[derive(Debug, Drop)]
pub struct Values {
    small: Vec<i8>,
    larger: Larger,
}

impl Model for Values {
    ghost use Rattle.std.specs.Prelude.{List, ℤ, ◌++◌};

    ghost Value = { List ℤ };

    ghost view = { λ values. values.small.items ++ values.larger };
}

impl Values {
    /// These numbers.
    pub fn new(alloc: Global, numbers: &[i64]) -> Result<Self, Memory>
        ensures { IfOk result (λ values. values ≡ numbers.now) }
    {
        let mut small = Vec::new(alloc);
        small.reserve_exact(numbers.len())?;
        let count = push_small(&mut small, numbers)?;
        small.shrink_to_fit();
        let larger = Larger::new(alloc, &numbers[count..])?;
        Ok(Values { small, larger })
    }

    /// The first number, and 0 where there is none.
    pub(crate) fn first(&self) -> i64
        ensures { result ≡ slice_index_or self.now 0 (pos 0) }
    {
        match self.small.first() {
            Some(number) => i64::from(*number),
            None => self.larger.first(),
        }
    }

    /// Adds at most so many of the numbers from a place on, in 64 bits each, to a row. So values are read a row at a time, into
    /// one buffer.
    ///
    /// # Errors
    ///
    /// `Memory`: out of memory.
    pub fn push_run(&self, row: &mut Vec<i64>, from: usize, count: usize) -> Result<(), Memory>
        ensures { OnOk result (row.new.items ≡ row.old.items ++ take count (drop from self.now)) }
    {
        let small = run(&self.small, from, count);
        push_widened(row, small)?;
        let after = from.saturating_sub(self.small.len());
        self.larger.push_run(row, after, count - small.len())
    }

    /// Sets a row to the numbers from a place on; one that isn't there counts as 0.
    pub(crate) fn set_run(&self, row: &mut [i64], from: usize)
        ensures { row.new ≡ values_from self.now from (length row.old) }
    {
        let small = run(&self.small, from, row.len());
        let (first, others) = row.split_at_mut(small.len());
        set_widened(first, small);
        let after = from.saturating_sub(self.small.len());
        self.larger.set_run(others, after);
    }
}
