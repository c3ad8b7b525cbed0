//! Turns from a seed.
ghost use Rattle.std.specs.Prelude.{◌≡◌, ◌<◌, None, Some};
ghost use Rattle.cx_turns.specs.Picks.{IsNextPick};

use crate::turns::Turns;
use std::marker::Model;

/// Turns from a seed: the numbers of a linear congruence modulo 2^64, each pick by the upper 31 bits.
#[derive(Debug, Drop)]
pub struct SeededTurns {
    begun: Option<u64>,
    state: u64,
}

impl Model for SeededTurns {
    ghost use Rattle.cx_turns.specs.Picks.{Seeded};

    ghost Value = { Seeded };

    ghost view = { λ turns. record { begun = turns.begun; state = turns.state } };
}

impl SeededTurns {
    /// The turns of seed 0, not begun from any.
    pub fn new() -> Self
        ensures { result ≡ record { begun = None; state = 0 } }
    {
        SeededTurns {
            begun: None,
            state: 0,
        }
    }
}

impl Turns for SeededTurns {
    ghost begun = { λ turns. turns.begun };

    ghost picks = { IsNextPick };

    /// Begins the turns that belong to a seed.
    fn start(&mut self, seed: u64)
        ensures begun { self.new.begun ≡ Some seed }
        ensures state { self.new.state ≡ seed }
    {
        self.begun = Some(seed);
        self.state = seed;
    }

    /// A number below n, by the next state of a linear congruential generator.
    fn pick(&mut self, n: u64) -> u64
        requires { 0 < n }
        ensures below { result < n }
        ensures picks { IsNextPick self.old n result self.new }
        ensures begun { self.new.begun ≡ self.old.begun }
    {
        self.state = self
            .state
            .wrapping_mul(6364136223846793005)
            .wrapping_add(1442695040888963407);
        (self.state >> 33) % n
    }
}
