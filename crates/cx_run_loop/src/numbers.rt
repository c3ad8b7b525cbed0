//! What the types of a checkpoint's numbers say of them. Nothing here does what shows.
ghost use Rattle.std.specs.Prelude.{All};
ghost use Rattle.std.specs.Int.{w64};
ghost use Rattle.std.specs.Int.RustNames.{FitsSigned};
ghost use Rattle.cx_chk.specs.Encoding.{IsWord};
ghost use Rattle.cx_run_loop.specs.Numbers.{AreNumbers};

use cx_chk::Checkpoint;
use cx_text::List;

/// Each number of a checkpoint is one of its type.
pub(crate) fn numbers_fit(c: &Checkpoint)
    ensures { AreNumbers c.now }
{
    let _iteration = c.iteration;
    words_fit(c.lengths.as_slice());
    values_fit(c.scalars.as_slice());
    levels_fit(c.levels.as_slice());
}

fn words_fit(words: &[u64])
    ensures { All IsWord words.now }
{
    let _count = words.len();
}

fn levels_fit(levels: &[List<i64>])
    ensures { All (All (FitsSigned w64)) levels.now }
{
    'each: for level in levels {
        values_fit(level.as_slice());
    }
}

fn values_fit(values: &[i64])
    ensures { All (FitsSigned w64) values.now }
{
    'each: for value in values {
        value_fits(value);
    }
}

fn value_fits(value: &i64)
    ensures { FitsSigned w64 value.now }
{
    let _value = *value;
}
