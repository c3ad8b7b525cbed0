//! What ordering gives.

use cx_plan::{Item, Schedule};
use cx_text::{List, Text};

/// A schedule in order.
#[derive(Debug, Drop)]
pub struct Ordered {
    /// What each bin runs.
    pub plan: Schedule,
    /// The calls of routines, in the order of the trees, once for each place. Their kinds, objects and parameters aren't known
    /// yet: each is a Cell item of object 0 without parameters, and each read has reach 0.
    pub items: List<Item>,
    /// How many levels each variable stores, by the variables' numbers.
    pub storage: List<u8>,
    /// The schedule as text.
    pub text: Text,
}
