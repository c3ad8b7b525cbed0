//! The iterations of which there are pieces.

ghost use Rattle.std.specs.Prelude.{◌≡◌, ◌++◌, IfOk, OnOk};
ghost use Rattle.std.specs.List.{flat_map};
ghost use Rattle.cx_chunks.specs.Combining.{iterations_in, iterations_of};

use crate::piece::Piece;
use cx_text::{List, Memory, Text};
use std::alloc::Global;

/// Adds the iterations of a variable's pieces.
fn push_iterations(iterations: &mut Vec<u64>, pieces: &[Piece], full: &Text) -> Result<(), Memory>
    ensures { OnOk result (iterations.new.items ≡ iterations.old.items
        ++ iterations_in full.now pieces.now) }
{
    'pieces: for piece in pieces {
        if piece.full().as_slice() == full.as_slice() {
            iterations.push(piece.iteration())?;
        }
    }
    Ok(())
}

/// The iterations of a variable's pieces in all chunks, as they come.
fn all_iterations(alloc: Global, chunks: &[List<Piece>], full: &Text) -> Result<Vec<u64>, Memory>
    ensures { IfOk result (λ iterations. iterations.items
        ≡ flat_map (iterations_in full.now) chunks.now) }
{
    let mut iterations = Vec::new(alloc);
    'chunks: for pieces in chunks {
        push_iterations(&mut iterations, pieces.as_slice(), full)?;
    }
    Ok(iterations)
}

/// The iterations of which some chunk has a piece of this variable, rising.
pub fn iterations(alloc: Global, chunks: &[List<Piece>], full: &Text) -> Result<Vec<u64>, Memory>
    ensures { IfOk result (λ iterations. iterations.items ≡ iterations_of chunks.now full.now) }
{
    let mut iterations = all_iterations(alloc, chunks, full)?;
    iterations.sort_unstable();
    iterations.dedup();
    Ok(iterations)
}
