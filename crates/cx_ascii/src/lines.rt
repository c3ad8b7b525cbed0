//! Sections and lines.

ghost use Rattle.std.specs.Prelude.{◌≡◌, ◌++◌, codes, length, IfOk, OnOk};
ghost use Rattle.std.specs.Fmt.{decimal};
ghost use Rattle.cx_grid.specs.Boxes.{point_count};
ghost use Rattle.cx_grid.specs.Grid.{IsShape, whole};
ghost use Rattle.cx_ascii.specs.Output.{section, line, head_text};

use crate::numbers::{push_count, push_value};
use crate::rows::{push_level, push_sizes};
use cx_grid::Shape;
use cx_text::{Memory, Text};
use std::alloc::Global;

/// A grid variable's section: `# FULL iteration N size NX NY NZ` with as many sizes as directions, a line for each row along
/// x, and an empty line. It takes as many values as the grid has points.
pub fn section(
    alloc: Global,
    full: &Text,
    iteration: u64,
    shape: &Shape,
    values: &[i64],
) -> Result<Text, Memory>
    requires shape { IsShape shape.now }
    requires values { length values.now ≡ point_count (whole shape.now) }
    ensures { IfOk result (λ text. text ≡ section full.now iteration shape.now values.now) }
{
    let mut text = head(alloc, full, iteration)?;
    text.push_slice(b" size")?;
    push_sizes(&mut text, shape)?;
    text.push_slice(b"\n")?;
    push_level(&mut text, shape, values)?;
    text.push_slice(b"\n")?;
    Ok(text)
}

/// A scalar's line, `# FULL iteration N value V`.
pub fn scalar_line(alloc: Global, full: &Text, iteration: u64, value: i64) -> Result<Text, Memory>
    ensures { IfOk result (λ text. text ≡ line full.now iteration value) }
{
    let mut text = head(alloc, full, iteration)?;
    text.push_slice(b" value ")?;
    push_value(&mut text, value)?;
    text.push_slice(b"\n")?;
    Ok(text)
}

/// What a section and a line begin with: `# FULL iteration N`.
pub fn head(alloc: Global, full: &Text, iteration: u64) -> Result<Text, Memory>
    ensures { IfOk result (λ text. text ≡ head_text full.now iteration) }
{
    let mut text = Text::from_slice(alloc, b"# ")?;
    text.push_slice(full.as_slice())?;
    text.push_slice(b" iteration ")?;
    push_count(&mut text, iteration)?;
    Ok(text)
}
