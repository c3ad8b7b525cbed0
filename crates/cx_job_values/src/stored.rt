//! Variables with the levels that are stored of them, and how many cells they have.

ghost use Rattle.std.specs.Prelude.{◌≡◌, ◌≤◌, ◌^◌, pos, slice_index_or, if◌then◌else◌, IfOk};
ghost use Rattle.std.specs.Int.{int_gap};
ghost use Rattle.cx_plan.specs.Whole.{grid_levels};
ghost use Rattle.cx_job_values.specs.Stored.{stored_info, stored_infos, point_count, owned_cells};
ghost use Rattle.cx_text.specs.Numbers.{in_64_bits};

use cx_bind::Bound;
use cx_grid::Shape;
use cx_plan::VarInfo;
use cx_text::{List, Memory, Text};
use std::alloc::Global;

/// How many levels are stored of the variable of a number.
pub fn stored_levels(storage: &[u8], number: usize) -> u8
    ensures { result ≡ slice_index_or storage.now number 0 }
{
    storage.get(number).copied().unwrap_or(0)
}

/// The variable of a number, with its stored levels.
fn stored_info(
    alloc: Global,
    storage: &[u8],
    number: usize,
    info: &VarInfo,
) -> Result<VarInfo, Memory>
    ensures { IfOk result (λ stored. stored ≡ stored_info storage.now (number, info.now)) }
{
    Ok(VarInfo {
        full: Text::from_slice(alloc, info.full.as_slice())?,
        ctype: info.ctype,
        scalar: info.scalar,
        levels: stored_levels(storage, number),
    })
}

/// The variables, with their stored levels.
pub fn stored_infos(
    alloc: Global,
    bound: &Bound,
    storage: &List<u8>,
) -> Result<List<VarInfo>, Memory>
    ensures { IfOk result (λ infos. infos ≡ stored_infos bound.now storage.now) }
{
    let vars = bound.variables().as_slice();
    let storage = storage.as_slice();
    let mut infos = List::empty(alloc);
    'vars: for (number, info) in vars.iter().enumerate() {
        infos.push(stored_info(alloc, storage, number, info)?)?;
    }
    Ok(infos)
}

/// The points of a direction; none below 1.
fn points_along(n: i32) -> u64
    ensures value { result ≡ int_gap (pos 0) n }
    ensures most { result ≤ 2 ^ 31 }
{
    if n < 0 { 0 } else { n as u64 }
}

/// The number of points of the grid, or the greatest number of 64 bits.
pub fn point_count(shape: &Shape) -> u64
    ensures { result ≡ point_count shape.now }
{
    let row = points_along(shape.n.x);
    let plane = row * points_along(shape.n.y);
    plane.saturating_mul(points_along(shape.n.z))
}

/// The stored levels of a grid variable.
fn grid_levels_in(info: &VarInfo) -> u64
    ensures { result ≡ (if info.now.scalar then 0 else info.now.levels) }
{
    if info.scalar {
        0
    } else {
        u64::from(info.levels)
    }
}

/// The number of stored levels of grid variables, or the greatest number of 64 bits.
pub fn grid_levels(vars: &[VarInfo]) -> u64
    ensures { result ≡ in_64_bits (grid_levels vars.now) }
{
    let mut levels: u64 = 0;
    'vars: for info in vars {
        levels = levels.saturating_add(grid_levels_in(info));
    }
    levels
}

/// The number of points times that of the stored levels of grid variables, or the greatest number of 64 bits.
pub fn owned_cells(shape: &Shape, vars: &List<VarInfo>) -> u64
    ensures { result ≡ owned_cells shape.now vars.now }
{
    point_count(shape).saturating_mul(grid_levels(vars.as_slice()))
}
