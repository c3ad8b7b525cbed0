//! Whole numbers in 8 bits each.

ghost use Rattle.std.specs.Prelude.{◌≡◌, ◌≤◌, ◌++◌, length, take, IfOk, IfSome, OnOk};

use cx_text::Memory;

/// A number in 8 bits, if these hold it.
fn shortened(number: i64) -> Option<i8>
    ensures { IfSome result (λ short. short ≡ number) }
{
    i8::try_from(number).ok()
}

/// Adds the numbers before the first one that 8 bits don't hold, and says how many these are.
#[inline(never)]
pub(crate) fn push_small(row: &mut Vec<i8>, numbers: &[i64]) -> Result<usize, Memory>
    ensures row { IfOk result (λ count. row.new.items ≡ row.old.items ++ take count numbers.now) }
    ensures within { IfOk result (λ count. count ≤ length numbers.now) }
{
    'numbers: for (place, number) in numbers.iter().enumerate() {
        match shortened(*number) {
            Some(short) => row.push(short)?,
            None => return Ok(place),
        }
    }
    Ok(numbers.len())
}

/// Adds numbers of 8 bits, in 64 bits each.
pub(crate) fn push_widened(row: &mut Vec<i64>, small: &[i8]) -> Result<(), Memory>
    ensures { OnOk result (row.new.items ≡ row.old.items ++ small.now) }
{
    'numbers: for number in small {
        row.push(i64::from(*number))?;
    }
    Ok(())
}

/// Sets each number of a row to one of 8 bits.
pub(crate) fn set_widened(row: &mut [i64], small: &[i8])
    requires { length row.old ≡ length small.now }
    ensures { row.new ≡ small.now }
{
    'numbers: for place in 0..small.len() {
        row[place] = i64::from(small[place]);
    }
}
