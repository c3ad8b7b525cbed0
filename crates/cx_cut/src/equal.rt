//! An equal cut of a direction.
ghost use Rattle.std.specs.Prelude.{◌≡◌, ◌≤◌, IfOk};
ghost use Rattle.cx_cut.specs.Axis.{sum_of};
ghost use Rattle.cx_cut.specs.Equal.{even_width, even};

use cx_text::{List, Memory};
use std::alloc::Global;

/// The width of a part of an equal cut: the first ones have one point more.
fn width_of(points: u32, parts: u32, part: u32) -> u32
    requires { 1 ≤ parts }
    ensures { result ≡ even_width points parts part }
{
    let width = points / parts;
    if part < points % parts {
        width + 1
    } else {
        width
    }
}

/// The widths of an equal cut of a number of points into parts, of which there is at least one: as many as the division leaves
/// points over have one point more than the others, and these come first.
///
/// # Errors
///
/// `Memory` where memory runs out.
pub fn even(alloc: Global, points: u32, parts: u32) -> Result<List<u32>, Memory>
    requires { 1 ≤ parts }
    ensures value { IfOk result (λ widths. widths ≡ even points parts) }
    ensures total { IfOk result (λ widths. sum_of widths ≡ points) }
{
    let mut widths = List::empty(alloc);
    'parts: for part in 0..parts {
        widths.push(width_of(points, parts, part))?;
    }
    Ok(widths)
}
