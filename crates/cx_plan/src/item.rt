use crate::VarId;
use cx_text::{List, Text};

/// The part of a grid that an item reads or writes. A scalar is read and written everywhere.
#[derive(Clone, Copy, Debug, PartialEq, Eq)]
pub enum Region {
    /// The points that aren't boundary points.
    Interior,
    /// The boundary points: in a direction that isn't periodic, those within the ghost width of an end.
    Boundary,
    /// All points.
    Everywhere,
}

/// What an item computes.
#[derive(Clone, Copy, Debug, PartialEq, Eq)]
pub enum ItemKind {
    /// Numbers at each point of a region.
    Cell,
    /// Scalars, once.
    Scalar,
    /// The sum of a variable over all points.
    Sum,
    /// Its least number.
    Least,
    /// Its greatest number.
    Greatest,
    /// How many of its numbers aren't 0.
    Count,
}

/// A read or a write of one level of a variable.
#[derive(Clone, Copy, Debug, Drop, PartialEq, Eq)]
pub struct Touch {
    pub var: VarId,
    /// The time level, 0 for the current one.
    pub level: u8,
    /// The points where it is read or written.
    pub region: Region,
    /// How far from a point a read looks in each direction.
    pub reach: u8,
}

/// A routine at one of the places where it is scheduled, with what it reads and writes there.
#[derive(Debug, Drop)]
pub struct Item {
    /// The thorn that schedules it.
    pub thorn: Text,
    /// The routine's name.
    pub name: Text,
    /// Its bin, the groups around it and its own name there, joined by `/`.
    pub path: Text,
    pub kind: ItemKind,
    /// The place of its object among those that are handed in.
    pub routine: u32,
    pub reads: List<Touch>,
    pub writes: List<Touch>,
    /// The numbers of the parameters that its rule names.
    pub params: List<i64>,
}
