//! The law of networks.
ghost use Rattle.std.specs.Prelude.{ℕ};
ghost use Rattle.law_network.specs.Machine.{Net};
ghost use Rattle.law_network.specs.Agreement.{Script, Fits, Ends};
ghost use Rattle.law_network.specs.Orders.{EveryOrder};

/// A network of parts, with what was shown of one operation of one part at a time. It has no code: it says in one place what
/// the law asks for.
pub trait Network {
    /// What a part holds.
    ghost Held: { Type 0 };

    /// What stands in a queue: a message to another part, or a piece for the writer.
    ghost Message: { Type 0 };

    /// A queue from one part to one part.
    ghost Channel: { Type 0 };

    /// What decides which operation comes next.
    ghost Control: { Type 0 };

    /// What the writer keeps.
    ghost Book: { Type 0 };

    /// The parts, their operations, and how far each may be ahead of others.
    ghost net: { Self → Net Held Message Channel Control Book };

    /// What the undivided run posts, hands in and meets at each place.
    ghost script: { Self → Script Message Channel };

    /// What a part holds at a place is what the undivided run has there.
    ghost agrees: { Self → ℕ → ℕ → Held → Type 0 };

    /// What a part will give at a place is what was foretold, where it isn't known beforehand.
    ghost gives: { Self → ℕ → ℕ → Held → Type 0 };

    /// What the writer keeps at a place is that of all works before it.
    ghost books: { Self → ℕ → Book → Type 0 };

    /// Each operation of a part that agrees leaves a part that agrees.
    ghost fits: { (x : Self) → Fits (net x) (script x) (agrees x) (gives x) (books x) };

    /// A part meets an end exactly where the undivided run says so, and the run's end is the first of these.
    ghost ends: { (x : Self) → Ends (net x) (script x) (agrees x) (books x) };
}

/// Every order gives one run. It does nothing; its clause is the law.
///
/// In each state that any order of events reaches, each part agrees with the undivided run at its own place, each queue holds
/// what was posted and not yet taken, some event can happen until the end is reported, each event lessens what is left, and the
/// end that is reported is the undivided run's.
pub fn every_order<N: Network>(network: &N)
    ensures { EveryOrder (N.net network.now) (N.script network.now) (N.agrees network.now)
        (N.gives network.now) (N.books network.now) }
{}
