//! Counters as tasks: each turn counts one, and notes whose turn it was.

ghost use Rattle.std.specs.Prelude.{◌≡◌};

use cx_batch::Task;

/// What counters share.
#[derive(Drop)]
pub(crate) struct Tally {
    /// The counters' places, in the order of their turns.
    pub(crate) turns: Vec<usize>,
    /// What all counters have counted.
    pub(crate) count: u64,
}

/// A counter.
#[derive(Drop)]
pub(crate) struct Counter {
    pub(crate) place: usize,
    /// The turns that are left.
    pub(crate) left: u64,
    /// What it has counted.
    pub(crate) counted: u64,
}

impl Task<Tally> for Counter {
    ghost use Rattle.std.specs.Prelude.{◌==◌, ◌≤◌};

    ghost place = { λ counter. counter.place };

    ghost is_over = { λ counter. counter.left == 0 };

    ghost left = { λ counter. counter.left };

    ghost work = { λ counter. counter.counted };

    ghost count = { λ tally. tally.count };

    ghost Fixed = { Unit {0} };

    ghost fixed = { λ tally. tt };

    ghost sound = { λ counter tally. counter.counted ≤ tally.count };

    fn over(&self) -> bool {
        self.left == 0
    }

    fn turn(&mut self, tally: &mut Tally) {
        let before = tally.count;
        tally.count = before.saturating_add(1);
        self.counted += tally.count - before;
        self.left -= 1;
        // a note that memory has no room for is missing, and fails the test
        let _noted = tally.turns.push(self.place);
    }
}
