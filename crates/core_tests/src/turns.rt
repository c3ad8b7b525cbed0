//! Turns that always take the first event or the last one, all orders of events one after another, and picks from a list.

ghost use Rattle.std.specs.Prelude.{◌+◌, ◌≡◌, ◌<◌};

use cx_core::Core;
use cx_text::{Memory, Text};
use cx_turns::{SeededTurns, Turns};
use std::alloc::Global;

/// What looks at a core before each event.
pub trait Watch {
    /// Looks at it.
    fn see(&mut self, core: &Core) -> Result<(), Memory>;
}

impl Watch for SeededTurns {
    fn see(&mut self, _core: &Core) -> Result<(), Memory> {
        Ok(())
    }
}

/// The first of the events that can happen comes next. It keeps the seed that it was begun from.
#[derive(Drop)]
pub struct FirstTurns(pub Option<u64>);

impl Watch for FirstTurns {
    fn see(&mut self, _core: &Core) -> Result<(), Memory> {
        Ok(())
    }
}

impl Turns for FirstTurns {
    ghost begun = { λ turns. turns.0 };

    ghost picks = { λ was n k is. k ≡ 0 };

    fn start(&mut self, seed: u64) {
        self.0 = Some(seed);
    }

    fn pick(&mut self, _n: u64) -> u64 {
        0
    }
}

/// The last of them comes next.
#[derive(Drop)]
pub struct LastTurns(pub Option<u64>);

impl Watch for LastTurns {
    fn see(&mut self, _core: &Core) -> Result<(), Memory> {
        Ok(())
    }
}

impl Turns for LastTurns {
    ghost begun = { λ turns. turns.0 };

    ghost picks = { λ was n k is. k + 1 ≡ n };

    fn start(&mut self, seed: u64) {
        self.0 = Some(seed);
    }

    fn pick(&mut self, n: u64) -> u64 {
        n - 1
    }
}

/// As many picks as a run may take.
const LENGTH: usize = 32;

/// The picks of one run, and how many events there were to pick from at each of them. From these come the picks of the next run, until
/// all orders of events were run.
#[derive(Drop)]
pub struct EachOrder {
    begun: Option<u64>,
    picks: [u64; 32],
    choices: [u64; 32],
    done: usize,
}

impl EachOrder {
    /// The first event always comes next.
    pub fn new() -> Self {
        EachOrder {
            begun: None,
            picks: [0; 32],
            choices: [0; 32],
            done: 0,
        }
    }

    /// Whether the last run took more picks than are kept.
    pub fn is_too_long(&self) -> bool {
        self.done > LENGTH
    }

    /// Goes on to the next order: the last pick that can be raised is raised. False where none is left.
    pub fn advance(&mut self) -> bool {
        let done = self.done.min(LENGTH);
        self.done = 0;
        for k in (0..done).rev() {
            let next = self.picks[k].saturating_add(1);
            if next < self.choices[k] {
                self.picks[k] = next;
                return true;
            }
            self.picks[k] = 0;
        }
        false
    }
}

impl Watch for EachOrder {
    fn see(&mut self, _core: &Core) -> Result<(), Memory> {
        Ok(())
    }
}

impl Turns for EachOrder {
    ghost begun = { λ turns. turns.begun };

    ghost picks = { λ was n k is. k < n };

    fn start(&mut self, seed: u64) {
        self.begun = Some(seed);
        self.done = 0;
    }

    fn pick(&mut self, n: u64) -> u64 {
        let k = self.done;
        self.done = k.saturating_add(1);
        if k >= LENGTH {
            return 0;
        }
        self.choices[k] = n;
        self.picks[k].min(n - 1)
    }
}

/// Picks from a list, the first event or the second one each time, and which events lay ahead before each of them.
#[derive(Drop)]
pub struct Listed {
    begun: Option<u64>,
    picks: &'static [u8],
    done: usize,
    seen: Text,
}

impl Listed {
    /// The picks of this list, each a 0 or a 1.
    pub fn new(alloc: Global, picks: &'static [u8]) -> Self {
        Listed {
            begun: None,
            picks,
            done: 0,
            seen: Text::new(Vec::new(alloc)),
        }
    }

    /// What was seen: before each event a word with a letter for each event that could happen, A where it lay ahead.
    pub fn into_seen(self) -> Text {
        self.seen
    }
}

impl Watch for Listed {
    fn see(&mut self, core: &Core) -> Result<(), Memory> {
        'events: for k in 0..core.enabled() {
            let letter = if core.ahead(k) { b"A" } else { b"-" };
            self.seen.push_slice(letter)?;
        }
        self.seen.push_slice(b" ")
    }
}

impl Turns for Listed {
    ghost begun = { λ turns. turns.begun };

    ghost picks = { λ was n k is. k < n };

    fn start(&mut self, seed: u64) {
        self.begun = Some(seed);
        self.done = 0;
    }

    fn pick(&mut self, n: u64) -> u64 {
        let second = self.picks.get(self.done) == Some(&b'1');
        self.done = self.done.saturating_add(1);
        if second { 1.min(n - 1) } else { 0 }
    }
}
