//! Numbers in order.

use cx_text::List;

/// Numbers in the least order, or in a cycle.
#[derive(Debug, Drop)]
pub enum Sorted {
    /// All of them, in order.
    InOrder(List<usize>),
    /// Some of them, each of which must stand before the next, and the last before the first.
    InCycle(List<usize>),
}
