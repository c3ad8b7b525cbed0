//! Directions of a grid.

ghost use Rattle.std.specs.Prelude.{◌≡◌};
ghost use Rattle.cx_job_values.specs.Grids.{letter, has_direction};

/// A direction.
#[derive(Clone, Copy, Debug, PartialEq, Eq)]
pub enum Direction {
    X,
    Y,
    Z,
}

impl Direction {
    /// The letter that ends the name of a direction's parameter.
    pub(crate) fn letter(self) -> &'static [u8]
        ensures { result.now ≡ letter self }
    {
        match self {
            Direction::X => b"x",
            Direction::Y => b"y",
            Direction::Z => b"z",
        }
    }

    /// Whether a grid of so many directions has this one.
    pub(crate) fn is_in(self, dims: u8) -> bool
        ensures { result ≡ has_direction dims self }
    {
        match self {
            Direction::X => dims > 0,
            Direction::Y => dims > 1,
            Direction::Z => dims > 2,
        }
    }
}
