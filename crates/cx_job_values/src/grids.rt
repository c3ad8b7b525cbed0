//! The grid, by the values of parameters.

ghost use Rattle.std.specs.Prelude.{◌≡◌, ◌≤ℤ◌, pos, find, IfOk};
ghost use Rattle.std.specs.Option.{option_copied};
ghost use Rattle.cx_bind.specs.Faults.{is_grid};
ghost use Rattle.cx_job_values.specs.Grids.{number_along, dim_in, first_dim, dims, for_all_or, most_points, points_along, ghosts_along, is_periodic_along, shape_by, shape_of};

use crate::Direction;
use crate::built_in::{holds_along, name_along};
use cx_bind::{Bound, Thorn};
use cx_grid::{Point, Shape};
use cx_iface::{GType, Group};
use cx_text::{Memory, Text};
use cx_values::{Values, holds_at, number_at, within};
use std::alloc::Global;

/// The most points of a direction.
const MAX_POINTS: i64 = 16_777_216;

/// The greatest ghost width.
const MAX_GHOSTS: i64 = 8;

/// Whether a group is of grid functions.
fn is_grid(gtype: GType) -> bool
    ensures { result ≡ is_grid gtype }
{
    match gtype {
        GType::Gf => true,
        GType::Array | GType::Scalar => false,
    }
}

/// The first group of grid functions, in file order.
fn first_grid(groups: &[Group]) -> Option<&Group>
    ensures { option_copied result ≡ find (λ g. is_grid g.gtype) groups.now }
{
    groups.iter().find(|group| is_grid(group.gtype))
}

/// The number of directions of a thorn's grid functions.
fn dim_in(thorn: &Thorn) -> Option<u8>
    ensures { result ≡ dim_in thorn.now }
{
    match first_grid(thorn.interface.groups.as_slice()) {
        Some(group) => Some(group.dim),
        None => None,
    }
}

/// The number of directions of the first grid function, and one where there is none.
fn first_dim(thorns: &[Thorn]) -> u8
    ensures { result ≡ first_dim thorns.now }
{
    for thorn in thorns {
        match dim_in(thorn) {
            Some(dim) => return dim,
            None => {}
        }
    }
    1
}

/// The number of directions of the grid.
pub(crate) fn dims_of(thorns: &[Thorn]) -> u8
    ensures { result ≡ dims thorns.now }
{
    first_dim(thorns).clamp(1, 3)
}

/// A number for all directions, from a least one on, goes before that of one direction.
fn for_all_or(least: i64, all: i64, one: i64) -> i64
    ensures { result ≡ for_all_or least all one }
{
    if least <= all { all } else { one }
}

/// The number of a parameter of all directions, and else that of one direction's.
fn number_along(
    alloc: Global,
    values: &Values,
    least: i64,
    all: &[u8],
    begin: &[u8],
    direction: Direction,
) -> Result<i64, Memory>
    ensures { IfOk result (λ n. n ≡ number_along values.now least all.now begin.now direction) }
{
    let all = Text::from_slice(alloc, all)?;
    let one = name_along(alloc, begin, direction)?;
    Ok(for_all_or(least, number_at(values, &all), number_at(values, &one)))
}

/// The number of points of a direction.
pub(crate) fn points_along(
    alloc: Global,
    dims: u8,
    values: &Values,
    direction: Direction,
) -> Result<i32, Memory>
    ensures value { IfOk result (λ n. n ≡ points_along dims values.now direction) }
    ensures some { IfOk result (λ n. pos 1 ≤ℤ n) }
    ensures most { IfOk result (λ n. n ≤ℤ pos most_points) }
{
    if !direction.is_in(dims) {
        return Ok(1);
    }
    let n = number_along(
        alloc,
        values,
        1,
        b"driver::global_nsize",
        b"driver::global_n",
        direction,
    )?;
    Ok(within(1, MAX_POINTS, n) as i32)
}

/// The width of the ghost zone of a direction.
fn ghosts_along(
    alloc: Global,
    dims: u8,
    values: &Values,
    direction: Direction,
) -> Result<i32, Memory>
    ensures { IfOk result (λ n. n ≡ ghosts_along dims values.now direction) }
{
    if !direction.is_in(dims) {
        return Ok(0);
    }
    let n = number_along(
        alloc,
        values,
        0,
        b"driver::ghost_size",
        b"driver::ghost_size_",
        direction,
    )?;
    Ok(within(0, MAX_GHOSTS, n) as i32)
}

/// Whether a direction of the grid is periodic: by its own parameter, and by the one for all.
fn is_periodic_along(
    alloc: Global,
    dims: u8,
    values: &Values,
    direction: Direction,
) -> Result<bool, Memory>
    ensures { IfOk result (λ periodic. periodic ≡ is_periodic_along dims values.now direction) }
{
    if !direction.is_in(dims) || !holds_at(alloc, values, b"driver::periodic")? {
        return Ok(false);
    }
    holds_along(alloc, values, b"driver::periodic_", direction)
}

/// Points, ghosts and periodic directions of the grid, by the values of the parameters.
fn shape_by(alloc: Global, dims: u8, values: &Values) -> Result<Shape, Memory>
    ensures { IfOk result (λ shape. shape ≡ shape_by dims values.now) }
{
    Ok(Shape {
        dims,
        n: Point {
            x: points_along(alloc, dims, values, Direction::X)?,
            y: points_along(alloc, dims, values, Direction::Y)?,
            z: points_along(alloc, dims, values, Direction::Z)?,
        },
        ghost_: Point {
            x: ghosts_along(alloc, dims, values, Direction::X)?,
            y: ghosts_along(alloc, dims, values, Direction::Y)?,
            z: ghosts_along(alloc, dims, values, Direction::Z)?,
        },
        periodic: [
            is_periodic_along(alloc, dims, values, Direction::X)?,
            is_periodic_along(alloc, dims, values, Direction::Y)?,
            is_periodic_along(alloc, dims, values, Direction::Z)?,
        ],
    })
}

/// The grid of a bound configuration, by the values of its parameters.
pub fn shape_of(alloc: Global, bound: &Bound, values: &Values) -> Result<Shape, Memory>
    ensures { IfOk result (λ shape. shape ≡ shape_of bound.now values.now) }
{
    shape_by(alloc, dims_of(bound.thorns().as_slice()), values)
}
