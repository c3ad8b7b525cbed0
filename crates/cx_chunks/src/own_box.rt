//! The box of the points that a part owns, as chunks say it.

ghost use Rattle.std.specs.Prelude.{◌≡◌, ◌<◌, unsigned_abs, IfOk};
ghost use Rattle.cx_grid.specs.Boxes.{IsBox, along, extent};
ghost use Rattle.cx_cut.specs.Cuts.{IsWhole, part_count};
ghost use Rattle.cx_chunks.specs.Cutting.{low_of, size_of, own_of};

use crate::place::Place;
use cx_cut::Cut;
use cx_grid::Box3;
use cx_text::{List, Memory};
use std::alloc::Global;

/// A part's place, and how many points it owns in each direction of the grid.
#[derive(Debug, Drop)]
pub(crate) struct OwnBox {
    pub place: Place,
    pub size: List<u32>,
}

/// Where a box begins in a direction.
fn low_along(own: &Box3, direction: u8) -> u32
    ensures { result ≡ unsigned_abs (along own.now.low direction) }
{
    match direction {
        0 => own.low.x.unsigned_abs(),
        1 => own.low.y.unsigned_abs(),
        _ => own.low.z.unsigned_abs(),
    }
}

/// How many points a box has in a direction.
#[tactic(auto, using(crate::proofs::OwnLaws::gap_is))]
pub(crate) fn points_along(own: &Box3, direction: u8) -> u32
    requires { IsBox own.now }
    ensures { result ≡ extent own.now direction }
{
    match direction {
        0 => own.high.x.abs_diff(own.low.x),
        1 => own.high.y.abs_diff(own.low.y),
        _ => own.high.z.abs_diff(own.low.z),
    }
}

/// The coordinates of a box's first point, one for each direction of the grid.
fn low(alloc: Global, own: &Box3, dims: u8) -> Result<List<u32>, Memory>
    ensures { IfOk result (λ low. low ≡ low_of dims own.now) }
{
    let mut low = List::empty(alloc);
    'directions: for direction in 0..dims {
        low.push(low_along(own, direction))?;
    }
    Ok(low)
}

/// How many points a box has in each direction of the grid.
fn size(alloc: Global, own: &Box3, dims: u8) -> Result<List<u32>, Memory>
    requires { IsBox own.now }
    ensures { IfOk result (λ size. size ≡ size_of dims own.now) }
{
    let mut size = List::empty(alloc);
    'directions: for direction in 0..dims {
        size.push(points_along(own, direction))?;
    }
    Ok(size)
}

/// The box of the points that a part owns, on a grid of so many directions.
pub(crate) fn own_box(alloc: Global, cut: &Cut, dims: u8, part: u32) -> Result<OwnBox, Memory>
    requires whole { IsWhole cut.now }
    requires dims { dims ≡ cut.now.shape.dims }
    requires part { part < part_count cut.now }
    ensures { IfOk result (λ own. own ≡ own_of cut.now part) }
{
    let own = cut.part(part);
    let place = Place {
        part,
        parts: cut.count(),
        from: low(alloc, &own, dims)?,
    };
    Ok(OwnBox {
        place,
        size: size(alloc, &own, dims)?,
    })
}
