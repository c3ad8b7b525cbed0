//! Whole numbers in 32 bits each, as far as these hold them.

ghost use Rattle.std.specs.Prelude.{◌≡◌, ◌≤◌, ◌++◌, pos, length, slice_index_or, take, drop, IfOk, IfSome, OnOk};
ghost use Rattle.cx_chunks.specs.Rows.{values_from};

use crate::rows::{run, set_row, value_at};
use cx_text::Memory;
use std::alloc::Global;
use std::marker::Model;

/// Whole numbers. Those before the first one that 32 bits don't hold take 32 bits each, the others 64. Contracts see the list of all.
#[derive(Debug, Drop)]
pub(crate) struct Larger {
    narrow: Vec<i32>,
    wide: Vec<i64>,
}

impl Model for Larger {
    ghost use Rattle.std.specs.Prelude.{List, ℤ, ◌++◌};

    ghost Value = { List ℤ };

    ghost view = { λ larger. larger.narrow.items ++ larger.wide.items };
}

impl Larger {
    /// These numbers.
    pub(crate) fn new(alloc: Global, numbers: &[i64]) -> Result<Self, Memory>
        ensures { IfOk result (λ larger. larger ≡ numbers.now) }
    {
        let mut narrow = Vec::new(alloc);
        narrow.reserve_exact(numbers.len())?;
        let count = push_narrow(&mut narrow, numbers)?;
        let mut wide = Vec::new(alloc);
        wide.extend_from_slice(&numbers[count..])?;
        Ok(Larger { narrow, wide })
    }

    /// The first number, and 0 where there is none.
    pub(crate) fn first(&self) -> i64
        ensures { result ≡ slice_index_or self.now 0 (pos 0) }
    {
        match self.narrow.first() {
            Some(number) => i64::from(*number),
            None => value_at(&self.wide, 0),
        }
    }

    /// Adds at most so many of the numbers from a place on, in 64 bits each.
    pub(crate) fn push_run(
        &self,
        row: &mut Vec<i64>,
        from: usize,
        count: usize,
    ) -> Result<(), Memory>
        ensures { OnOk result (row.new.items ≡ row.old.items ++ take count (drop from self.now)) }
    {
        let narrow = run(&self.narrow, from, count);
        push_widened(row, narrow)?;
        let after = from.saturating_sub(self.narrow.len());
        row.extend_from_slice(run(&self.wide, after, count - narrow.len()))?;
        Ok(())
    }

    /// Sets a row to the numbers from a place on; one that isn't there counts as 0.
    pub(crate) fn set_run(&self, row: &mut [i64], from: usize)
        ensures { row.new ≡ values_from self.now from (length row.old) }
    {
        let narrow = run(&self.narrow, from, row.len());
        let (first, others) = row.split_at_mut(narrow.len());
        set_widened(first, narrow);
        let after = from.saturating_sub(self.narrow.len());
        set_row(others, &self.wide, after);
    }
}

/// A number in 32 bits, if these hold it.
fn narrowed(number: i64) -> Option<i32>
    ensures { IfSome result (λ narrow. narrow ≡ number) }
{
    i32::try_from(number).ok()
}

/// Adds the numbers before the first one that 32 bits don't hold, and says how many these are.
#[inline(never)]
fn push_narrow(row: &mut Vec<i32>, numbers: &[i64]) -> Result<usize, Memory>
    ensures row { IfOk result (λ count. row.new.items ≡ row.old.items ++ take count numbers.now) }
    ensures within { IfOk result (λ count. count ≤ length numbers.now) }
{
    'numbers: for (place, number) in numbers.iter().enumerate() {
        match narrowed(*number) {
            Some(narrow) => row.push(narrow)?,
            None => return Ok(place),
        }
    }
    Ok(numbers.len())
}

/// Adds numbers of 32 bits, in 64 bits each.
fn push_widened(row: &mut Vec<i64>, narrow: &[i32]) -> Result<(), Memory>
    ensures { OnOk result (row.new.items ≡ row.old.items ++ narrow.now) }
{
    'numbers: for number in narrow {
        row.push(i64::from(*number))?;
    }
    Ok(())
}

/// Sets each number of a row to one of 32 bits.
fn set_widened(row: &mut [i64], narrow: &[i32])
    requires { length row.old ≡ length narrow.now }
    ensures { row.new ≡ narrow.now }
{
    'numbers: for place in 0..narrow.len() {
        row[place] = i64::from(narrow[place]);
    }
}
