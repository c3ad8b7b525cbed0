//! A source of turns.
ghost use Rattle.std.specs.Prelude.{◌<◌, ◌≡◌, ℕ, Option, Some};

/// A source of turns: of so many events that can happen, the one that does.
pub trait Turns {
    /// The seed that it was begun from last, if it was begun.
    ghost begun: { Self → Option ℕ };

    /// What it may pick: as it was, how many events there are, the number of the one that it picks, and as it is then.
    ghost picks: { Self → ℕ → ℕ → Self → Type 0 };

    /// Begins anew, from a seed.
    fn start(&mut self, seed: u64)
        ensures begun { begun self.new ≡ Some seed };

    /// The number of the next event, one of `n`, counted from 0.
    fn pick(&mut self, n: u64) -> u64
        requires { 0 < n }
        ensures below { result < n }
        ensures picks { picks self.old n result self.new }
        ensures begun { begun self.new ≡ begun self.old };
}
