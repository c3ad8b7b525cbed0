ghost use Rattle.std.specs.Prelude.{◌≡◌, ◌≤◌, ◌<◌, ◌^◌, length};
ghost use Rattle.cx_grid.specs.Boxes.{IsIn};
ghost use Rattle.cx_grid.specs.Grid.{IsShape, whole};

use cx_grid::{Point, Shape, index_of, whole};
use cx_text::List;
use std::marker::Model;

/// Where and when a rule is applied.
#[derive(Debug, Drop)]
pub struct Place {
    /// A point of the grid.
    pub at: Point,
    pub shape: Shape,
    pub iteration: u64,
    /// The numbers of the routine's parameters, in its order.
    pub params: Params,
}

/// At most 32 numbers of parameters. Contracts see the list.
#[derive(Debug, Drop)]
pub struct Params {
    values: [i64; 32],
    count: usize,
}

impl Model for Params {
    ghost use Rattle.std.specs.Prelude.{List, ℤ, take, ◌≤◌};

    ghost Value = { List ℤ };

    ghost view = { λ params. take params.count params.values };

    ghost invariant = { λ params. params.count ≤ 32 };
}

impl Place {
    /// The place of a point of the grid at an iteration, with these numbers of parameters.
    pub fn new(at: Point, shape: &Shape, iteration: u64, params: &List<i64>) -> Self
        requires shape { IsShape shape.now }
        requires point { IsIn (whole shape.now) at }
        requires few { length params.now ≤ 32 }
        ensures { result ≡ record {
          at = at;
          shape = shape.now;
          iteration = iteration;
          params = params.now;
        } }
    {
        let given = params.as_slice();
        let mut values = [0; 32];
        values[..given.len()].copy_from_slice(given);
        Place {
            at,
            shape: *shape,
            iteration,
            params: Params {
                values,
                count: given.len(),
            },
        }
    }

    ghost use Rattle.cx_rule.specs.Place.{global_index, param_of};

    /// The place of its point in global order: among all points of the grid, x fastest.
    pub fn index(&self) -> usize
        requires shape { IsShape self.now.shape }
        requires point { IsIn (whole self.now.shape) self.now.at }
        ensures value { result ≡ global_index self.now }
        ensures below { result < 2 ^ 24 }
    {
        index_of(&whole(&self.shape), self.at)
    }

    /// The number of a parameter.
    pub fn param(&self, k: usize) -> i64
        requires { k < length self.now.params }
        ensures { result ≡ param_of self.now k }
    {
        let params = &self.params;
        let values = &params.values;
        values[k]
    }
}
