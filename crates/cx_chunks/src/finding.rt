//! Pieces found in their chunks. Each search begins where the last one ended, so that pieces which are looked for in the order
//! in which they stand are found at once.

ghost use Rattle.std.specs.Prelude.{◌≡◌, ◌≤◌, length, find, None, option_copied};
ghost use Rattle.std.specs.List.{position};
ghost use Rattle.cx_plan.specs.Lists.{first_again};
ghost use Rattle.cx_chunks.specs.Combining.{is_at, is_twin};
ghost use Rattle.cx_chunks.specs.Turns.{piece_at};

use crate::piece::Piece;
use cx_text::{Memory, Text};
use std::alloc::Global;

/// Where the next search begins, chunk by chunk. What is found doesn't depend on it.
#[derive(Drop)]
pub(crate) struct Cursors {
    places: Vec<usize>,
}

impl Cursors {
    /// Searches of so many chunks that begin at their first pieces.
    pub(crate) fn new(alloc: Global, chunks: usize) -> Result<Self, Memory> {
        Ok(Cursors {
            places: vec![in alloc; 0; chunks]?,
        })
    }

    /// Where the next search of a chunk begins.
    fn place(&self, part: u32) -> usize {
        match self.places.get(part as usize) {
            Some(place) => *place,
            None => 0,
        }
    }

    /// Lets the next search of a chunk begin behind a place.
    fn set_behind(&mut self, part: u32, place: usize) {
        if let Some(next) = self.places.get_mut(part as usize) {
            *next = place.saturating_add(1);
        }
    }
}

/// Whether a piece is of this variable and iteration.
fn is_at(full: &Text, iteration: u64, piece: &Piece) -> bool
    ensures { result ≡ is_at full.now iteration piece.now }
{
    piece.full().as_slice() == full.as_slice() && piece.iteration() == iteration
}

/// The place of the first piece of this variable and iteration.
fn first_place(full: &Text, iteration: u64, pieces: &[Piece]) -> Option<usize>
    ensures { result ≡ position (is_at full.now iteration) pieces.now }
{
    pieces
        .iter()
        .position(|piece| is_at(full, iteration, piece))
}

/// The place of the piece of this variable and iteration among pieces of which no two are twins, looked for from `near` on first.
fn place_from(full: &Text, iteration: u64, pieces: &[Piece], near: usize) -> Option<usize>
    requires single { first_again is_twin pieces.now ≡ None }
    requires near { near ≤ length pieces.now }
    ensures { piece_at pieces.now result ≡ find (is_at full.now iteration) pieces.now }
{
    match first_place(full, iteration, &pieces[near..]) {
        Some(ahead) => Some(near + ahead),
        None => first_place(full, iteration, pieces),
    }
}

/// The piece of this variable and iteration in the chunk of a part, of which no two pieces are twins.
pub(crate) fn find_piece<'a>(
    cursors: &mut Cursors,
    full: &Text,
    iteration: u64,
    part: u32,
    pieces: &'a [Piece],
) -> Option<&'a Piece>
    requires { first_again is_twin pieces.now ≡ None }
    ensures { option_copied result ≡ find (is_at full.now iteration) pieces.now }
{
    let near = cursors.place(part).min(pieces.len());
    let place = place_from(full, iteration, pieces, near)?;
    cursors.set_behind(part, place);
    pieces.get(place)
}
