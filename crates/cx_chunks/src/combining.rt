//! The whole output from chunks.

ghost use Rattle.std.specs.Prelude.{◌≡◌, ◌+◌, ◌≤◌, ◌++◌, length, pos, slice_index_or, None, All, IfOk, OnOk, option_copied};
ghost use Rattle.cx_text.specs.Telling.{Answers, Tells};
ghost use Rattle.cx_grid.specs.declared.boxes.Point.{Point};
ghost use Rattle.cx_grid.specs.Boxes.{IsBox, IsIn, IsSmall, index_in, point_count};
ghost use Rattle.cx_plan.specs.Setups.{setup_of};
ghost use Rattle.cx_plan.specs.Whole.{IsVariable};
ghost use Rattle.cx_cut.specs.Cuts.{IsWhole, part_count};
ghost use Rattle.cx_chunks.specs.declared.fault.ChunkFault.TheVariants as faults;
ghost use Rattle.cx_chunks.specs.Combining.{double_in, first_of_chunks, found_values, values_in, joined, text_at, whole_text, whole_texts, chunk_fault, combined};
ghost use Rattle.cx_chunks.specs.Laws.{IsCutOf};
ghost use Rattle.cx_chunks.specs.Rows.{values_from, with_row};

use crate::checks::{check_doubles, check_missing, check_strangers, chunk, info_of};
use crate::fault::ChunkFault;
use crate::finding::{Cursors, find_piece};
use crate::own_box::points_along;
use crate::piece::Piece;
use crate::rising::iterations;
use crate::section::{push_line, push_section};
use cx_cut::Cut;
use cx_grid::{Box3, Shape, count, index_of, point_at, whole};
use cx_plan::{Job, VarInfo};
use cx_text::{List, Memory, Text};
use std::alloc::Global;

/// The piece that a part's chunk has of a variable at an iteration.
fn piece_in<'a>(
    chunks: &'a [List<Piece>],
    cursors: &mut Cursors,
    full: &Text,
    iteration: u64,
    part: u32,
) -> Option<&'a Piece>
    requires { first_of_chunks double_in 0 chunks.now ≡ None }
    ensures { found_values (option_copied result)
        ≡ values_in chunks.now full.now iteration part }
{
    find_piece(cursors, full, iteration, part, chunk(chunks, part))
}

/// The first value of a piece, and 0 where there is none.
fn value_of(piece: Option<&Piece>) -> i64
    ensures { result ≡ slice_index_or (found_values (option_copied piece.entry)) 0 (pos 0) }
{
    match piece {
        Some(piece) => piece.first(),
        None => 0,
    }
}

/// Sets a row to the values of a piece from a place on; one that isn't there counts as 0.
fn set_run(row: &mut [i64], piece: Option<&Piece>, from: usize)
    ensures { row.new
        ≡ values_from (found_values (option_copied piece.entry)) from (length row.old) }
{
    match piece {
        Some(piece) => piece.set_run(row, from),
        None => row.fill(0),
    }
}

/// Sets so many numbers from a place of a level on to the values of a piece from a place on; one that isn't there counts as 0.
fn put_run(level: &mut Vec<i64>, at: usize, count: usize, piece: Option<&Piece>, from: usize)
    requires { at + count ≤ length level.old.items }
    ensures { level.new.items ≡ with_row level.old.items at count
        (values_from (found_values (option_copied piece.entry)) from count) }
{
    let end = at + count;
    set_run(&mut level[at..end], piece, from);
}

/// Puts the values of a piece at the places of its box in a level, row by row; values that it lacks count as 0.
fn put_part(level: &mut Vec<i64>, all: &Box3, own: &Box3, piece: Option<&Piece>)
    requires all { IsSmall all.now }
    requires ordered { IsBox own.now }
    requires own { IsSmall own.now }
    requires inside { (p : Point) → IsIn own.now p → IsIn all.now p }
    requires level { length level.old.items ≡ point_count all.now }
    ensures length { length level.new.items ≡ point_count all.now }
    ensures own { (p : Point) → IsIn own.now p
        → slice_index_or level.new.items (index_in all.now p) (pos 0)
        ≡ slice_index_or (found_values (option_copied piece.entry)) (index_in own.now p)
        (pos 0) }
    ensures others { (p : Point) → IsIn all.now p → (IsIn own.now p → ⊥)
        → slice_index_or level.new.items (index_in all.now p) (pos 0)
        ≡ slice_index_or level.old.items (index_in all.now p) (pos 0) }
{
    let width = points_along(own, 0) as usize;
    let end = count(own);
    let mut from = 0;
    'rows: while from < end {
        put_run(
            level,
            index_of(all, point_at(own, from)),
            width,
            piece,
            from,
        );
        from += width;
    }
}

/// Gives a level a value for each point, whatever it is.
fn set_size(level: &mut Vec<i64>, all: &Box3) -> Result<(), Memory>
    requires ordered { IsBox all.now }
    requires small { IsSmall all.now }
    ensures { OnOk result (length level.new.items ≡ point_count all.now) }
{
    level.resize(count(all), 0)?;
    Ok(())
}

/// Makes a whole level, each point from the part that owns it, in the room of the level before it.
fn join(
    level: &mut Vec<i64>,
    shape: &Shape,
    cut: &Cut,
    chunks: &[List<Piece>],
    cursors: &mut Cursors,
    full: &Text,
    iteration: u64,
) -> Result<(), Memory>
    requires whole { IsWhole cut.now }
    requires shape { shape.now ≡ cut.now.shape }
    requires single { first_of_chunks double_in 0 chunks.now ≡ None }
    ensures { OnOk result (level.new.items
        ≡ joined cut.now (values_in chunks.now full.now iteration)) }
{
    let all = whole(shape);
    set_size(level, &all)?;
    'parts: for part in 0..cut.count() {
        let own = cut.part(part);
        let piece = piece_in(chunks, cursors, full, iteration, part);
        put_part(level, &all, &own, piece);
    }
    Ok(())
}

/// Adds a variable's text at an iteration: its line in chunk 0, or the section of the level of all parts, which is made in `level`.
fn push_text_at(
    alloc: Global,
    text: &mut Text,
    level: &mut Vec<i64>,
    job: &Job,
    cut: &Cut,
    chunks: &[List<Piece>],
    cursors: &mut Cursors,
    info: &VarInfo,
    iteration: u64,
) -> Result<(), Memory>
    requires cut { IsCutOf job.now cut.now }
    requires single { first_of_chunks double_in 0 chunks.now ≡ None }
    ensures { OnOk result (text.new ≡ text.old
        ++ text_at (setup_of job.now) cut.now chunks.now info.now iteration) }
{
    if info.scalar {
        let value = value_of(piece_in(chunks, cursors, &info.full, iteration, 0));
        push_line(alloc, text, &info.full, iteration, value)
    } else {
        join(
            level, &job.shape, cut, chunks, cursors, &info.full, iteration,
        )?;
        push_section(alloc, text, &info.full, iteration, &job.shape, level)
    }
}

/// The whole text of a variable.
fn whole_text(
    alloc: Global,
    job: &Job,
    cut: &Cut,
    chunks: &[List<Piece>],
    info: &VarInfo,
) -> Result<Text, Memory>
    requires cut { IsCutOf job.now cut.now }
    requires single { first_of_chunks double_in 0 chunks.now ≡ None }
    ensures { IfOk result (λ text. text
        ≡ whole_text (setup_of job.now) cut.now chunks.now info.now) }
{
    let iterations = iterations(alloc, chunks, &info.full)?;
    let mut cursors = Cursors::new(alloc, chunks.len())?;
    let mut level = Vec::new(alloc);
    let mut text = Text::new(Vec::new(alloc));
    'iterations: for iteration in &iterations {
        push_text_at(
            alloc,
            &mut text,
            &mut level,
            job,
            cut,
            chunks,
            &mut cursors,
            info,
            *iteration,
        )?;
    }
    Ok(text)
}

/// The whole text of each variable that is written.
fn whole_texts(
    alloc: Global,
    job: &Job,
    cut: &Cut,
    chunks: &[List<Piece>],
) -> Result<List<Text>, Memory>
    requires outputs { All (IsVariable job.now) job.now.out_vars }
    requires cut { IsCutOf job.now cut.now }
    requires single { first_of_chunks double_in 0 chunks.now ≡ None }
    ensures { IfOk result (λ texts. texts ≡ whole_texts (setup_of job.now) cut.now chunks.now) }
{
    let mut texts = List::empty(alloc);
    'outputs: for v in job.out_vars.as_slice() {
        texts.push(whole_text(alloc, job, cut, chunks, info_of(job, *v))?)?;
    }
    Ok(texts)
}

/// Tests that the chunks can be put together.
fn check(alloc: Global, job: &Job, cut: &Cut, chunks: &[List<Piece>]) -> Result<(), ChunkFault>
    requires outputs { All (IsVariable job.now) job.now.out_vars }
    requires cut { IsCutOf job.now cut.now }
    requires chunks { length chunks.now ≡ part_count cut.now }
    ensures { Tells faults.Memory (chunk_fault (setup_of job.now) cut.now chunks.now) result }
{
    check_strangers(alloc, job, cut, chunks)?;
    check_doubles(alloc, chunks)?;
    check_missing(alloc, job, cut, chunks)
}

/// The text of each output variable, its records by rising iteration, from the pieces of each part's chunk.
///
/// A grid variable's value at a point is that of the part that owns the point. A scalar's lines are those of chunk 0.
/// The job's output variables are among its variables, and there are as many chunks as parts.
///
/// # Errors
///
/// The first of these in this order, over all chunks; the first chunk and piece counts.
/// - `Stranger`: a piece has a name that isn't among the output variables, is of the wrong kind, has another part, number of
///   parts or box than its chunk's part, or is a line outside chunk 0.
/// - `Double`: a piece has the variable and the iteration of one before it in its chunk.
/// - `Missing`: a chunk lacks a piece of a grid variable and an iteration that another chunk has. The least variable counts,
///   then the least iteration, then the least part.
///
/// `Memory`: out of memory.
#[tactic(auto, using(crate::proofs::FindLaws::no_double))]
pub fn combine(
    alloc: Global,
    job: &Job,
    cut: &Cut,
    chunks: &List<List<Piece>>,
) -> Result<List<Text>, ChunkFault>
    requires outputs { All (IsVariable job.now) job.now.out_vars }
    requires cut { IsCutOf job.now cut.now }
    requires chunks { length chunks.now ≡ part_count cut.now }
    ensures { Answers faults.Memory (combined (setup_of job.now) cut.now chunks.now) result }
{
    check(alloc, job, cut, chunks.as_slice())?;
    Ok(whole_texts(alloc, job, cut, chunks.as_slice())?)
}
