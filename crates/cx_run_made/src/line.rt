//! The line that sums up a run.

ghost use Rattle.std.specs.Prelude.{◌≡◌, IfOk};
ghost use Rattle.cx_run_made.specs.Summaries.{summary};

use cx_text::{Memory, Text};
use std::alloc::Global;

/// The line that sums up a run that was made from a seed and a size: `made SEED SIZE points P parts 16 output B live L`, where P is
/// `size` times `size`, B the length of all outputs together and L how many cells live at the end. It fails when out of memory.
pub fn summary(alloc: Global, seed: u64, size: u32, output: u128, live: i64) -> Result<Text, Memory>
    ensures { IfOk result (λ text. text ≡ summary seed size output live) }
{
    let points = u64::from(size) * u64::from(size);
    let text = format!(in alloc;
        "made {seed} {size} points {points} parts 16 output {output} live {live}\n"
    )?;
    Ok(Text::new(text.into_bytes()))
}
