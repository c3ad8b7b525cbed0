//! Records cut into chunks.

ghost use Rattle.std.specs.Prelude.{◌≡◌, ◌<◌, ◌++◌, [], pos, length, slice_index_or, slice_set, IfOk, OnOk};
ghost use Rattle.std.specs.List.{flat_map};
ghost use Rattle.cx_ascii.specs.Output.{rows_text};
ghost use Rattle.cx_ascii_read.specs.Records.{shape_of};
ghost use Rattle.cx_cut.specs.Cuts.{IsWhole, part_count};
ghost use Rattle.cx_chunks.specs.Pieces.{piece_text};
ghost use Rattle.cx_chunks.specs.Cutting.{own_of, own_values, line_in, section_in, pieces_in, chunk_texts, with_record, AddsRecord, AddsVariable};
ghost use Rattle.cx_chunks.specs.Laws.{IsCutOf};

use crate::own_box::{own_box, points_along};
use crate::rows::{push_row, value_at};
use crate::section::push_section_head;
use cx_ascii::{push_rows, scalar_line};
use cx_ascii_read::Record;
use cx_cut::Cut;
use cx_grid::{Shape, count, index_of, point_at, whole};
use cx_plan::Job;
use cx_text::{List, Memory, Text};
use std::alloc::Global;
use std::mem;

/// Adds the rows of the points that a part owns of a level, a line for each row along x.
fn push_own_rows(
    alloc: Global,
    text: &mut Text,
    shape: &Shape,
    cut: &Cut,
    part: u32,
    level: &[i64],
) -> Result<(), Memory>
    requires whole { IsWhole cut.now }
    requires shape { shape.now ≡ cut.now.shape }
    requires part { part < part_count cut.now }
    ensures { OnOk result (text.new ≡ text.old ++ rows_text
        (shape_of (own_of cut.now part).size) (own_values cut.now part level.now)) }
{
    let own = cut.part(part);
    let all = whole(shape);
    let width = points_along(&own, 0) as usize;
    let end = count(&own);
    let mut row = Vec::new(alloc);
    let mut from = 0;
    'rows: while from < end {
        let at = index_of(&all, point_at(&own, from));
        row.clear();
        push_row(&mut row, level, at, width)?;
        push_rows(text, width, 1, &row)?;
        from += width;
    }
    Ok(())
}

/// Adds the section of what a part owns of a level.
fn push_own_section(
    alloc: Global,
    text: &mut Text,
    shape: &Shape,
    cut: &Cut,
    part: u32,
    entry: &Record,
) -> Result<(), Memory>
    requires whole { IsWhole cut.now }
    requires shape { shape.now ≡ cut.now.shape }
    requires part { part < part_count cut.now }
    ensures { OnOk result (text.new
        ≡ text.old ++ piece_text (section_in cut.now part entry.now)) }
{
    let own = own_box(alloc, cut, shape.dims, part)?;
    push_section_head(alloc, text, &entry.full, entry.iteration, &own)?;
    push_own_rows(alloc, text, shape, cut, part, entry.values.as_slice())?;
    text.push_slice(b"\n")
}

/// The line of a scalar in the chunk of part 0, and nothing in the others.
fn own_line(alloc: Global, part: u32, entry: &Record) -> Result<Text, Memory>
    requires { entry.now.size ≡ [] }
    ensures { IfOk result (λ text. text ≡ flat_map piece_text (line_in part entry.now)) }
{
    if part == 0 {
        scalar_line(
            alloc,
            &entry.full,
            entry.iteration,
            value_at(entry.values.as_slice(), 0),
        )
    } else {
        Ok(Text::new(Vec::new(alloc)))
    }
}

/// Adds the line of a scalar to the chunk of part 0, and nothing to the others.
fn push_own_line(alloc: Global, text: &mut Text, part: u32, entry: &Record) -> Result<(), Memory>
    requires { entry.now.size ≡ [] }
    ensures { OnOk result (text.new
        ≡ text.old ++ flat_map piece_text (line_in part entry.now)) }
{
    let line = own_line(alloc, part, entry)?;
    text.push_slice(line.as_slice())
}

/// Adds what a part has of a record: its section of a level, or a scalar's line.
fn push_pieces(
    alloc: Global,
    text: &mut Text,
    shape: &Shape,
    cut: &Cut,
    part: u32,
    entry: &Record,
) -> Result<(), Memory>
    requires whole { IsWhole cut.now }
    requires shape { shape.now ≡ cut.now.shape }
    requires part { part < part_count cut.now }
    ensures { OnOk result (text.new
        ≡ text.old ++ flat_map piece_text (pieces_in cut.now part entry.now)) }
{
    match entry.size.as_slice() {
        [] => push_own_line(alloc, text, part, entry),
        [_, ..] => push_own_section(alloc, text, shape, cut, part, entry),
    }
}

/// Adds what a part has of a record to its text.
fn push_part(
    alloc: Global,
    all: &mut Vec<Text>,
    shape: &Shape,
    cut: &Cut,
    part: u32,
    entry: &Record,
) -> Result<(), Memory>
    requires whole { IsWhole cut.now }
    requires shape { shape.now ≡ cut.now.shape }
    requires part { part < part_count cut.now }
    requires texts { part < length all.old.items }
    ensures { OnOk result (all.new.items ≡ slice_set all.old.items part
        (slice_index_or all.old.items part []
        ++ flat_map piece_text (pieces_in cut.now part entry.now))) }
{
    push_pieces(alloc, &mut all[part as usize], shape, cut, part, entry)
}

/// Adds what each part has of a record to its text.
fn push_parts(
    alloc: Global,
    all: &mut Vec<Text>,
    shape: &Shape,
    cut: &Cut,
    entry: &Record,
) -> Result<(), Memory>
    requires whole { IsWhole cut.now }
    requires shape { shape.now ≡ cut.now.shape }
    requires texts { length all.old.items ≡ part_count cut.now }
    ensures { OnOk result (all.new.items ≡ with_record cut.now entry.now 0 all.old.items) }
{
    'parts: for part in 0..cut.count() {
        push_part(alloc, all, shape, cut, part, entry)?;
    }
    Ok(())
}

/// The text of each part's chunk where there are no records: none is longer than nothing.
///
/// Begin with these texts, and add each record by `push_record`.
pub fn empty_texts(alloc: Global, cut: &Cut) -> Result<List<Text>, Memory>
    ensures { IfOk result (λ texts. texts ≡ chunk_texts cut.now []) }
{
    let mut texts = List::empty(alloc);
    'parts: for _ in 0..cut.count() {
        texts.push(Text::new(Vec::new(alloc)))?;
    }
    Ok(texts)
}

/// Adds a record to the texts of the chunks, of which there is one for each part: to each what its part has of the record.
///
/// So records can be cut one after another, and none has to be kept: those of one output variable after those of the one before
/// it. Where memory runs out, the texts are no longer those of any records.
pub fn push_record(
    alloc: Global,
    job: &Job,
    cut: &Cut,
    entry: &Record,
    texts: &mut List<Text>,
) -> Result<(), Memory>
    requires cut { IsCutOf job.now cut.now }
    requires texts { length texts.old ≡ part_count cut.now }
    ensures texts { OnOk result (AddsRecord cut.now entry.now texts.old texts.new) }
    ensures many { OnOk result (length texts.new ≡ part_count cut.now) }
{
    let mut all = mem::replace(texts, List::empty(alloc)).into_vec();
    let pushed = push_parts(alloc, &mut all, &job.shape, cut, entry);
    *texts = List::new(all);
    pushed
}

/// Adds the records of one more variable to the texts of the chunks.
fn push_records(
    alloc: Global,
    job: &Job,
    cut: &Cut,
    records: &[Record],
    texts: &mut List<Text>,
) -> Result<(), Memory>
    requires cut { IsCutOf job.now cut.now }
    requires texts { length texts.old ≡ part_count cut.now }
    ensures texts { OnOk result (AddsVariable cut.now records.now texts.old texts.new) }
    ensures many { OnOk result (length texts.new ≡ part_count cut.now) }
{
    'records: for entry in records {
        push_record(alloc, job, cut, entry, texts)?;
    }
    Ok(())
}

/// The text of each part's chunk. `records` has a list for each output variable, in the order of their numbers.
///
/// A chunk holds a section of each level, list by list, with the values of the points that its part owns. Chunk 0 also holds
/// the lines of scalars. A level has the sizes of the job's grid; a value that it lacks counts as 0.
pub fn cut_records(
    alloc: Global,
    job: &Job,
    cut: &Cut,
    records: &List<List<Record>>,
) -> Result<List<Text>, Memory>
    requires { IsCutOf job.now cut.now }
    ensures { IfOk result (λ texts. texts ≡ chunk_texts cut.now records.now) }
{
    let mut texts = empty_texts(alloc, cut)?;
    'outputs: for list in records.as_slice() {
        push_records(alloc, job, cut, list.as_slice(), &mut texts)?;
    }
    Ok(texts)
}
