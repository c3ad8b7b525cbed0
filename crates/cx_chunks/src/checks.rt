//! Tests before chunks are combined: no piece is a stranger in its chunk, none is there twice, and none is missing.

ghost use Rattle.std.specs.Prelude.{◌≡◌, ◌<◌, ◌≤◌, ◌+◌, ◌-◌, ◌&&◌, true, false, None, length, find, slice_get, All, option_copied};
ghost use Rattle.std.specs.List.{list_any};
ghost use Rattle.cx_text.specs.Telling.{Tells};
ghost use Rattle.cx_plan.specs.Lists.{first_again, first_of_each};
ghost use Rattle.cx_plan.specs.Lookups.{variable};
ghost use Rattle.cx_plan.specs.Setups.{setup_of};
ghost use Rattle.cx_plan.specs.Whole.{IsVariable};
ghost use Rattle.cx_cut.specs.Cuts.{part_count};
ghost use Rattle.cx_chunks.specs.declared.fault.ChunkFault.TheVariants as faults;
ghost use Rattle.cx_chunks.specs.Combining.{is_of, is_at, is_twin, is_output_of, is_output, is_own, is_stranger, stranger_in, double_in, first_of_chunks, missing_at, missing_of, missing, chunk};
ghost use Rattle.cx_chunks.specs.Laws.{IsCutOf};
ghost use Rattle.cx_chunks.specs.Turns.{in_turn_behind};

use crate::fault::ChunkFault;
use crate::finding::{Cursors, find_piece};
use crate::own_box::{OwnBox, own_box};
use crate::piece::Piece;
use crate::rising::iterations;
use cx_cut::Cut;
use cx_plan::{Job, VarId, VarInfo};
use cx_text::{List, Text};
use std::alloc::Global;

/// What is known of a variable.
pub(crate) fn info_of(job: &Job, v: VarId) -> &VarInfo
    requires { v.0 < length job.now.vars }
    ensures { result.now ≡ variable (setup_of job.now) v }
{
    &job.vars.as_slice()[v.0 as usize]
}

/// Whether a variable has this name, and is a scalar or isn't.
fn is_output_of(scalar: bool, full: &Text, info: &VarInfo) -> bool
    ensures { result ≡ is_output_of scalar full.now info.now }
{
    info.full.as_slice() == full.as_slice() && info.scalar == scalar
}

/// Whether a variable that is written has this name, and is a scalar or isn't.
fn is_output(job: &Job, scalar: bool, full: &Text) -> bool
    requires { All (IsVariable job.now) job.now.out_vars }
    ensures { result ≡ is_output (setup_of job.now) scalar full.now }
{
    'outputs: for v in job.out_vars.as_slice() {
        if is_output_of(scalar, full, info_of(job, *v)) {
            return true;
        }
    }
    false
}

/// Whether this part of so many parts, from this point and of these sizes, is a part of the cut.
fn is_own(own: &OwnBox, part: u32, parts: u32, from: &[u32], size: &[u32]) -> bool
    ensures { result ≡ is_own own.now part parts from.now size.now }
{
    part == own.place.part
        && parts == own.place.parts
        && from == own.place.from.as_slice()
        && size == own.size.as_slice()
}

/// Whether a piece isn't one that a part's chunk holds.
fn is_stranger(job: &Job, own: &OwnBox, piece: &Piece) -> bool
    requires { All (IsVariable job.now) job.now.out_vars }
    ensures { result ≡ is_stranger (setup_of job.now) own.now piece.now }
{
    match piece {
        Piece::Line(record) => !(is_output(job, true, &record.full) && own.place.part == 0),
        Piece::Box {
            full,
            part,
            parts,
            from,
            size,
            ..
        } => {
            let is_own = is_own(own, *part, *parts, from.as_slice(), size.as_slice());
            !(is_output(job, false, full) && is_own)
        }
    }
}

/// The first piece of a chunk that isn't one of its own.
fn stranger<'a>(job: &Job, own: &OwnBox, pieces: &'a [Piece]) -> Option<&'a Piece>
    requires { All (IsVariable job.now) job.now.out_vars }
    ensures { option_copied result ≡ find (is_stranger (setup_of job.now) own.now) pieces.now }
{
    pieces.iter().find(|piece| is_stranger(job, own, piece))
}

/// Tests that a part's chunk has its own pieces alone.
fn check_own(
    alloc: Global,
    job: &Job,
    cut: &Cut,
    part: u32,
    pieces: &[Piece],
) -> Result<(), ChunkFault>
    requires outputs { All (IsVariable job.now) job.now.out_vars }
    requires cut { IsCutOf job.now cut.now }
    requires part { part < part_count cut.now }
    ensures { Tells faults.Memory (stranger_in (setup_of job.now) cut.now part pieces.now) result }
{
    let own = own_box(alloc, cut, job.shape.dims, part)?;
    match stranger(job, &own, pieces) {
        Some(piece) => {
            let full = piece.full().copy(alloc)?;
            Err(ChunkFault::Stranger(part, full, piece.iteration()))
        }
        None => Ok(()),
    }
}

/// Tests that each chunk has its part's own pieces alone.
pub(crate) fn check_strangers(
    alloc: Global,
    job: &Job,
    cut: &Cut,
    chunks: &[List<Piece>],
) -> Result<(), ChunkFault>
    requires outputs { All (IsVariable job.now) job.now.out_vars }
    requires cut { IsCutOf job.now cut.now }
    requires chunks { length chunks.now ≡ part_count cut.now }
    ensures { Tells faults.Memory
        (first_of_chunks (stranger_in (setup_of job.now) cut.now) 0 chunks.now) result }
{
    let mut part = 0;
    'chunks: for pieces in chunks {
        check_own(alloc, job, cut, part, pieces.as_slice())?;
        part += 1;
    }
    Ok(())
}

/// Whether two pieces are of one variable and one iteration.
fn is_twin(piece: &Piece, other: &Piece) -> bool
    ensures { result ≡ is_twin piece.now other.now }
{
    piece.full().as_slice() == other.full().as_slice() && piece.iteration() == other.iteration()
}

/// Whether one of these pieces is a twin of this one.
fn has_twin(piece: &Piece, pieces: &[Piece]) -> bool
    ensures { result ≡ list_any (is_twin piece.now) pieces.now }
{
    pieces.iter().any(|other| is_twin(piece, other))
}

/// Whether a piece is of this variable.
fn is_of(full: &Text, piece: &Piece) -> bool
    ensures { result ≡ is_of full.now piece.now }
{
    piece.full().as_slice() == full.as_slice()
}

/// Whether one of these pieces is of this variable.
fn has_any(full: &Text, pieces: &[Piece]) -> bool
    ensures { result ≡ list_any (is_of full.now) pieces.now }
{
    pieces.iter().any(|piece| is_of(full, piece))
}

/// Whether a piece is of the variable of the last one before it and later, or none before it is of its variable.
fn is_in_turn(before: &[Piece], piece: &Piece) -> bool
    ensures { result ≡ in_turn_behind (slice_get before.now (length before.now - 1))
        before.now piece.now }
{
    let Some(last) = before.last() else {
        return true;
    };
    if is_of(piece.full(), last) {
        last.iteration() < piece.iteration()
    } else {
        !has_any(piece.full(), before)
    }
}

/// Whether pieces came in turn, and one more does.
fn goes_on(in_turn: bool, before: &[Piece], piece: &Piece) -> bool
    ensures { result ≡ (in_turn && in_turn_behind
        (slice_get before.now (length before.now - 1)) before.now piece.now) }
{
    in_turn && is_in_turn(before, piece)
}

/// Whether one of the pieces before a piece is its twin. None is where all came in turn, it too.
fn is_again(in_turn: bool, before: &[Piece], piece: &Piece) -> bool
    requires { in_turn ≡ true → list_any (is_twin piece.now) before.now ≡ false }
    ensures { result ≡ list_any (is_twin piece.now) before.now }
{
    !in_turn && has_twin(piece, before)
}

/// Tests that no two pieces of a chunk are twins.
fn check_twins(alloc: Global, part: u32, pieces: &[Piece]) -> Result<(), ChunkFault>
    ensures { Tells faults.Memory (double_in part pieces.now) result }
{
    let mut in_turn = true;
    'pieces: for place in 0..pieces.len() {
        let (before, piece) = (&pieces[..place], &pieces[place]);
        let turn = goes_on(in_turn, before, piece);
        if is_again(turn, before, piece) {
            let full = piece.full().copy(alloc)?;
            return Err(ChunkFault::Double(part, full, piece.iteration()));
        }
        in_turn = turn;
    }
    Ok(())
}

/// Tests that no chunk has twins.
pub(crate) fn check_doubles(alloc: Global, chunks: &[List<Piece>]) -> Result<(), ChunkFault>
    requires { length chunks.now ≤ 512 }
    ensures { Tells faults.Memory (first_of_chunks double_in 0 chunks.now) result }
{
    let mut part = 0;
    'chunks: for pieces in chunks {
        check_twins(alloc, part, pieces.as_slice())?;
        part += 1;
    }
    Ok(())
}

/// Whether the chunk of a part has a piece of this variable and iteration.
#[tactic(auto, using(crate::proofs::FindLaws::any_is))]
fn has_piece(
    cursors: &mut Cursors,
    full: &Text,
    iteration: u64,
    part: u32,
    pieces: &[Piece],
) -> bool
    requires { first_again is_twin pieces.now ≡ None }
    ensures { result ≡ list_any (is_at full.now iteration) pieces.now }
{
    find_piece(cursors, full, iteration, part, pieces).is_some()
}

/// The pieces of a part's chunk.
pub(crate) fn chunk(chunks: &[List<Piece>], part: u32) -> &[Piece]
    ensures { result.now ≡ chunk chunks.now part }
{
    match chunks.get(part as usize) {
        Some(pieces) => pieces.as_slice(),
        None => &[],
    }
}

/// Tests that each chunk has a piece of this variable and iteration.
fn check_everywhere(
    alloc: Global,
    cut: &Cut,
    chunks: &[List<Piece>],
    cursors: &mut Cursors,
    full: &Text,
    iteration: u64,
) -> Result<(), ChunkFault>
    requires { first_of_chunks double_in 0 chunks.now ≡ None }
    ensures { Tells faults.Memory (missing_at cut.now chunks.now full.now iteration) result }
{
    'parts: for part in 0..cut.count() {
        if !has_piece(cursors, full, iteration, part, chunk(chunks, part)) {
            return Err(ChunkFault::Missing(part, full.copy(alloc)?, iteration));
        }
    }
    Ok(())
}

/// Tests that each chunk has a piece of this variable at each of these iterations.
fn check_iterations(
    alloc: Global,
    cut: &Cut,
    chunks: &[List<Piece>],
    full: &Text,
    iterations: &[u64],
) -> Result<(), ChunkFault>
    requires { first_of_chunks double_in 0 chunks.now ≡ None }
    ensures { Tells faults.Memory
        (first_of_each (missing_at cut.now chunks.now full.now) iterations.now) result }
{
    let mut cursors = Cursors::new(alloc, chunks.len())?;
    'iterations: for iteration in iterations {
        check_everywhere(alloc, cut, chunks, &mut cursors, full, *iteration)?;
    }
    Ok(())
}

/// Tests that each chunk has the iterations of a grid variable that another chunk has.
fn check_variable(
    alloc: Global,
    cut: &Cut,
    chunks: &[List<Piece>],
    info: &VarInfo,
) -> Result<(), ChunkFault>
    requires { first_of_chunks double_in 0 chunks.now ≡ None }
    ensures { Tells faults.Memory (missing_of cut.now chunks.now info.now) result }
{
    if info.scalar {
        return Ok(());
    }
    let iterations = iterations(alloc, chunks, &info.full)?;
    check_iterations(alloc, cut, chunks, &info.full, &iterations)
}

/// Tests that no chunk lacks a piece of a grid variable that another one has.
pub(crate) fn check_missing(
    alloc: Global,
    job: &Job,
    cut: &Cut,
    chunks: &[List<Piece>],
) -> Result<(), ChunkFault>
    requires outputs { All (IsVariable job.now) job.now.out_vars }
    requires single { first_of_chunks double_in 0 chunks.now ≡ None }
    ensures { Tells faults.Memory (missing (setup_of job.now) cut.now chunks.now) result }
{
    'outputs: for v in job.out_vars.as_slice() {
        check_variable(alloc, cut, chunks, info_of(job, *v))?;
    }
    Ok(())
}
