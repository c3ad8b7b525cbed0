//! The sum of the values that are given out.
ghost use Rattle.std.specs.Prelude.{◌≡◌, ◌%◌, ◌^◌};
ghost use Rattle.cx_text.specs.Numbers.{word_sum};

/// The values together, modulo 2^64.
pub fn sum_of(values: &[i64]) -> u64
    ensures { result ≡ word_sum values.now % 2 ^ 64 }
{
    let mut sum: u64 = 0;
    'values: for value in values {
        sum = sum.wrapping_add(value.cast_unsigned());
    }
    sum
}
