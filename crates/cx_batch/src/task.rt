//! What takes turns.
ghost use Rattle.std.specs.Prelude.{◌≡◌, ◌≢◌, ◌<◌, ◌≤◌, ◌+◌, ℕ, Bool, false};

/// Work that is done a turn at a time. Several tasks share one `X`, and each has a place of its own in it.
pub trait Task<X> {
    /// The number of the task's place, which no turn changes.
    ghost place: { Self → ℕ };

    /// Whether the task is over: it has no turn left.
    ghost is_over: { Self → Bool };

    /// A measure of what is left to do, which each turn of the task makes smaller.
    ghost left: { Self → ℕ };

    /// The work that the task has done so far.
    ghost work: { Self → ℕ };

    /// The work that is counted in `X`, of all tasks together.
    ghost count: { X → ℕ };

    /// What a caller has to know of `X` that no turn changes.
    ghost Fixed: { Type 0 };

    /// That part of an `X`: above all the names of the references in it, so that a caller finds
    /// what the turns changed in what it lent.
    ghost fixed: { X → Fixed };

    /// What holds of a task and of its place in `X` before and after each turn.
    ghost sound: { Self → X → Type 0 };

    /// Whether the task is over.
    fn over(&self) -> bool
        ensures { result ≡ is_over self.now };

    /// Takes one turn, of a task that isn't over.
    ///
    /// `X` counts the work of the turn, and every task at another place stays sound.
    fn turn(&mut self, x: &mut X)
        requires goes_on { is_over self.old ≡ false }
        requires sound { sound self.old x.old }
        ensures place { place self.new ≡ place self.old }
        ensures less { left self.new < left self.old }
        ensures rises { work self.old ≤ work self.new }
        ensures counts { count x.new + work self.old ≡ count x.old + work self.new }
        ensures fixed { fixed x.new ≡ fixed x.old }
        ensures sound { sound self.new x.new }
        ensures others { (other : Self) → place other ≢ place self.old
            → sound other x.old → sound other x.new };
}
