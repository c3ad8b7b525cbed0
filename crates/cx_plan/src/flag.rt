//! Flags of levels.

use std::fmt;

/// What is known of a variable's level: that the points of a part of the grid have been filled.
#[derive(Clone, Copy, Debug, PartialEq, Eq)]
pub enum Flag {
    /// The interior points.
    I,
    /// The boundary points.
    B,
    /// The ghost points.
    G,
    /// A scalar.
    S,
}

/// The flag's letter.
impl fmt::Display for Flag {
    /// The letter of the flag.
    fn fmt<W: fmt::Write>(&self, f: &mut fmt::Formatter<W>) -> fmt::Result {
        match self {
            Flag::I => f.write_str("I"),
            Flag::B => f.write_str("B"),
            Flag::G => f.write_str("G"),
            Flag::S => f.write_str("S"),
        }
    }
}
