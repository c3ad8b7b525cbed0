//! Open WHILEs, and their order.

ghost use Rattle.std.specs.Prelude.{◌≡◌, ◌↔◌, ◌<◌, ◌+◌, ◌^◌, [], IsTrue};
ghost use Rattle.cx_flat.specs.Flats.{last_turns};
ghost use Rattle.cx_flat.specs.Ways.{opened_key, Less};
ghost use Rattle.cx_core_place.specs.Seen.{all_opened};

/// A WHILE that is open: the place of its test, and the turns that it has taken.
#[derive(Clone, Copy, Debug, Default)]
pub(crate) struct OpenWhile {
    pub(crate) place: u32,
    pub(crate) turns: u64,
}

impl OpenWhile {
    /// One turn later.
    pub(crate) fn turned(self) -> OpenWhile
        requires { self.turns + 1 < 2 ^ 64 }
        ensures { result ≡ record { place = self.place; turns = self.turns + 1 } }
    {
        OpenWhile {
            place: self.place,
            turns: self.turns + 1,
        }
    }
}

/// The turns of the innermost WHILE; 0 where none is open.
pub(crate) fn last_turns(opened: &[OpenWhile]) -> u64
    ensures { result ≡ last_turns (all_opened opened.now) }
{
    match opened.last() {
        Some(open) => open.turns,
        None => 0,
    }
}

/// Whether a place comes before another one of the same iteration. Each is told by the WHILEs that are open there, from the
/// outside in, and its operation.
pub(crate) fn comes_before(mine: &[OpenWhile], here: u32, theirs: &[OpenWhile], there: u32) -> bool
    ensures { IsTrue result
        ↔ Less (opened_key (all_opened mine.now) here) (opened_key (all_opened theirs.now) there) }
{
    match mine.split_first() {
        None => before_any(here, theirs, there),
        Some((open, mine)) => match theirs.split_first() {
            None => open.place < there,
            Some((other, theirs)) => {
                if open.place != other.place {
                    open.place < other.place
                } else if open.turns != other.turns {
                    open.turns < other.turns
                } else {
                    comes_before(mine, here, theirs, there)
                }
            }
        },
    }
}

/// Whether a place where no `WHILE` is open comes before another one with its open `WHILE`s.
fn before_any(here: u32, theirs: &[OpenWhile], there: u32) -> bool
    ensures { IsTrue result ↔ Less (opened_key [] here) (opened_key (all_opened theirs.now) there) }
{
    match theirs.split_first() {
        None => here < there,
        Some((other, _)) => here < other.place,
    }
}

/// Whether the same WHILEs are open, in the same turns.
pub(crate) fn are_same(mine: &[OpenWhile], theirs: &[OpenWhile]) -> bool
    ensures { IsTrue result ↔ (all_opened mine.now ≡ all_opened theirs.now) }
{
    match mine.split_first() {
        None => theirs.is_empty(),
        Some((open, mine)) => match theirs.split_first() {
            None => false,
            Some((other, theirs)) => {
                if open.place != other.place || open.turns != other.turns {
                    false
                } else {
                    are_same(mine, theirs)
                }
            }
        },
    }
}
