//! How runs end.

use cx_text::Text;

/// How a run ends. The numbers are iterations, the texts paths of entries in the schedule.
#[derive(Debug, Drop)]
pub enum End {
    /// After the last iteration.
    Done,
    /// At an item whose rule gives no numbers at a point, or a number that the type of its variable can't hold.
    Overflow(u64, Text),
    /// At a WHILE whose scalar isn't 0 after the greatest number of turns.
    WhileLimit(u64, Text),
    /// At a text with which its variable's output would have more than 2^32 bytes.
    OutputLimit(u64),
}
