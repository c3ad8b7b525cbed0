use cx_grid::Side;
use cx_text::List;

/// What a message says of itself.
#[derive(Clone, Copy, Debug, PartialEq, Eq)]
pub struct Head {
    /// How many operations the sender had done, modulo 2^64.
    pub op: u64,
    /// The direction: 0 is x, 1 is y, 2 is z.
    pub dir: u8,
    /// The side of the sender at which the values lie.
    pub side: Side,
    /// The number of values.
    pub count: u32,
}

/// A message: as many values as its head says.
#[derive(Debug, Drop)]
pub struct Mail {
    pub head: Head,
    pub values: List<i64>,
}
