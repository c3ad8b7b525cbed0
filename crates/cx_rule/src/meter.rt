ghost use Rattle.std.specs.Prelude.{◌≡◌};
ghost use Rattle.cx_rule.specs.Meter.{raised};

use std::marker::Model;
use std::rt::Runtime;

/// Counts the points that are computed.
#[derive(Debug, Drop)]
pub struct Meter {
    points: u128,
}

impl Model for Meter {
    ghost use Rattle.std.specs.Prelude.{ℕ};

    ghost Value = { ℕ };

    ghost view = { λ meter. meter.points };
}

impl Meter {
    /// A meter at 0. The program's one meter is made where its runtime is at hand, and handed down.
    pub fn new<R: Runtime>(_rt: &R) -> Self
        ensures { result ≡ 0 }
    {
        Meter { points: 0 }
    }

    /// How many points were computed.
    pub fn count(&self) -> u128
        ensures { result ≡ self.now }
    {
        self.points
    }

    /// Counts this many points more. The count stands still at its type's end.
    pub fn add(&mut self, points: u64)
        ensures { self.new ≡ raised self.old points }
    {
        self.points = self.points.saturating_add(points as u128);
    }
}
