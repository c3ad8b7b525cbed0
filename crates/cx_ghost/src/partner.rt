//! With which part layers are exchanged.
ghost use Rattle.std.specs.Prelude.{◌≡◌, ◌<◌, MatchOption, ⊤};
ghost use Rattle.cx_grid.specs.Boxes.{along};
ghost use Rattle.cx_cut.specs.Cuts.{IsWhole, part_count};
ghost use Rattle.cx_cut.specs.Neighbours.{partner};
ghost use Rattle.cx_ghost.specs.Posts.{IsBelow};

use cx_cut::Cut;
use cx_grid::{Point, Shape, Side};

/// The part with which part k exchanges layers at a side of a direction: its neighbour, or none where there are no ghosts.
pub(crate) fn partner(cut: &Cut, shape: &Shape, k: u32, dir: u8, side: Side) -> Option<u32>
    requires whole { IsWhole cut.now }
    requires shape { shape.now ≡ cut.now.shape }
    requires part { k < part_count cut.now }
    requires dir { dir < cut.now.shape.dims }
    ensures value { result ≡ partner cut.now k dir side }
    ensures below { IsBelow (part_count cut.now) result }
{
    if along(&shape.ghost_, dir) <= 0 {
        return None;
    }
    cut.neighbour(k, dir, side)
}

/// A coordinate of a point.
fn along(p: &Point, dir: u8) -> i32
    requires { dir < 3 }
    ensures { result ≡ along p.now dir }
{
    match dir {
        0 => p.x,
        1 => p.y,
        _ => p.z,
    }
}
