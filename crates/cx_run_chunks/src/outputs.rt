//! A job's output files, cut record by record into the texts of its chunks.

ghost use Rattle.std.specs.Prelude.{◌≡◌, ◌≤◌, ◌<◌, ◌++◌, ◌-◌, ◌^◌, ◌&&◌, [], min, length, codes, bytes_eq, unsigned_abs, IsTrue, IfOk, OnOk};
ghost use Rattle.cx_text.specs.Telling.{Tells};
ghost use Rattle.cx_cut.specs.Cuts.{part_count};
ghost use Rattle.cx_disk.specs.Files.{count_with, output_limit};
ghost use Rattle.cx_disk.specs.Keeps.{Keeps};
ghost use Rattle.cx_disk.specs.Moments.{IsQuiet};
ghost use Rattle.cx_grid.specs.Boxes.{along};
ghost use Rattle.cx_outputs.specs.Names.{output_count};
ghost use Rattle.cx_plan.specs.Lookups.{variable};
ghost use Rattle.cx_plan.specs.Setups.{setup_of};
ghost use Rattle.cx_plan.specs.Whole.{IsWhole};
ghost use Rattle.cx_ascii_read.specs.Printed.{sizes_of};
ghost use Rattle.cx_ascii_read.specs.Reading.{Gives};
ghost use Rattle.cx_chunks.specs.declared.fault.ChunkFault.TheVariants as chunk;
ghost use Rattle.cx_chunks.specs.Cutting.{chunk_texts, sizes_in, AddsVariable};
ghost use Rattle.cx_chunks.specs.Laws.{IsCutOf};
ghost use Rattle.cx_run_chunks.specs.Commands.{fault_unless, first_by_place, not_output, output_in, output_records, outputs_fault, records_at};
ghost use Rattle.cx_run_chunks.specs.Entries.{found, records_of};
ghost use Rattle.cx_run_chunks.specs.Faults.{Finds};
ghost use Rattle.cx_run_chunks.specs.Next.{is_above, is_next, next_record, total_of};

use crate::fault::ChunksFault;
use crate::files::check_length;
use cx_ascii_read::{Entry, Record, Stop};
use cx_chunks::{ChunkFault, empty_texts, push_record};
use cx_cut::Cut;
use cx_disk::{Disk, named_output, read_whole};
use cx_grid::{Point, Shape};
use cx_plan::{Job, VarId, VarInfo};
use cx_text::{List, Memory, Text};
use std::alloc::Global;

/// How many points there are along a direction.
fn points_along(n: Point, direction: u8) -> u32
    ensures { result ≡ unsigned_abs (along n direction) }
{
    match direction {
        0 => n.x.unsigned_abs(),
        1 => n.y.unsigned_abs(),
        _ => n.z.unsigned_abs(),
    }
}

/// How many points a grid has in each of its directions.
fn grid_sizes(alloc: Global, shape: &Shape) -> Result<List<u32>, Memory>
    ensures { IfOk result (λ sizes. sizes ≡ sizes_of shape.now.dims shape.now.n) }
{
    let mut sizes = List::empty(alloc);
    'directions: for direction in 0..shape.dims {
        sizes.push(points_along(shape.n, direction))?;
    }
    Ok(sizes)
}

/// The sizes in the records of a variable: those of the grid, and none for a scalar.
fn sizes_in(alloc: Global, job: &Job, info: &VarInfo) -> Result<List<u32>, Memory>
    ensures { IfOk result (λ sizes. sizes ≡ sizes_in (setup_of job.now) info.now) }
{
    if info.scalar {
        Ok(List::empty(alloc))
    } else {
        grid_sizes(alloc, &job.shape)
    }
}

/// What is known of a variable.
pub(crate) fn info_of(job: &Job, v: VarId) -> &VarInfo
    requires { v.0 < length job.now.vars }
    ensures { result.now ≡ variable (setup_of job.now) v }
{
    &job.vars.as_slice()[v.0 as usize]
}

/// There are as many outputs as a mount names at most.
fn outputs_are_few(job: &Job)
    requires whole { IsWhole job.now }
    ensures { output_count (setup_of job.now) ≤ output_limit }
{}

/// How many outputs a job has.
fn count_outputs(job: &Job) -> u32
    requires whole { IsWhole job.now }
    ensures value { result ≡ output_count (setup_of job.now) }
    ensures few { output_count (setup_of job.now) ≤ output_limit }
{
    outputs_are_few(job);
    job.out_vars.len() as u32
}

/// Whether a record has this name and these sizes.
fn is_of(full: &Text, sizes: &[u32], entry: &Record) -> bool
    ensures { result ≡ (bytes_eq entry.now.full full.now && bytes_eq entry.now.size sizes.now) }
{
    entry.full.as_slice() == full.as_slice() && entry.size.as_slice() == sizes
}

/// Whether an iteration is above the last one, if there was one.
fn is_above(last: Option<u64>, iteration: u64) -> bool
    ensures { result ≡ is_above last iteration }
{
    match last {
        None => true,
        Some(last) => last < iteration,
    }
}

/// Whether a record has this name and these sizes, and comes after the last iteration.
fn is_next(full: &Text, sizes: &[u32], last: Option<u64>, entry: &Record) -> bool
    ensures { result ≡ is_next full.now sizes.now last entry.now }
{
    is_of(full, sizes, entry) && is_above(last, entry.iteration)
}

/// The record in front, if it has this name and these sizes and comes after the last iteration, and what comes after it.
#[tactic(auto, unfolding(crate::specs::Next::next_record))]
fn next_record<'a>(
    alloc: Global,
    full: &Text,
    sizes: &[u32],
    last: Option<u64>,
    bytes: &'a [u8],
) -> Result<(Record, &'a [u8]), Stop>
    ensures { Gives (λ x. (x.0, x.1.now)) result (next_record full.now sizes.now last bytes.now) }
{
    let (entry, rest) = Record::read(alloc, bytes)?;
    if !is_next(full, sizes, last, &entry) {
        return Err(Stop::Other);
    }
    Ok((entry, rest))
}

/// Adds the records of a variable's output file to the texts of the chunks, one after another, and gives how many they are. A
/// count that 64 bits don't hold is the greatest number that they hold.
fn cut_bytes(
    alloc: Global,
    job: &Job,
    cut: &Cut,
    info: &VarInfo,
    bytes: &[u8],
    texts: &mut List<Text>,
) -> Result<u64, Stop>
    requires cut { IsCutOf job.now cut.now }
    requires texts { length texts.old ≡ part_count cut.now }
    ensures told { Gives (λ _. found (records_of bytes.now)) result
        (output_in (setup_of job.now) info.now bytes.now) }
    ensures count { IfOk result
        (λ count. count ≡ min (length (found (records_of bytes.now))) (2 ^ 64 - 1)) }
    ensures texts { OnOk result
        (AddsVariable cut.now (found (records_of bytes.now)) texts.old texts.new) }
    ensures many { OnOk result (length texts.new ≡ part_count cut.now) }
{
    let sizes = sizes_in(alloc, job, info)?;
    let mut rest = bytes;
    let mut last = None;
    let mut count = 0_u64;
    'records: while !rest.is_empty() {
        let (entry, after) = next_record(alloc, &info.full, sizes.as_slice(), last, rest)?;
        push_record(alloc, job, cut, &entry, texts)?;
        last = Some(entry.iteration);
        count = count.saturating_add(1);
        rest = after;
    }
    Ok(count)
}

/// The fault of an output file that isn't the output of this variable.
fn other_file(alloc: Global, info: &VarInfo) -> Result<ChunkFault, Memory>
    ensures { IfOk result (λ fault. fault ≡ chunk.NotOutput (info.now.full ++ codes ".asc")) }
{
    let mut name = info.full.copy(alloc)?;
    name.push_slice(b".asc")?;
    Ok(ChunkFault::NotOutput(name))
}

/// The same, or the fault of the file.
fn cut_file(
    alloc: Global,
    job: &Job,
    cut: &Cut,
    info: &VarInfo,
    bytes: &[u8],
    texts: &mut List<Text>,
) -> Result<u64, ChunkFault>
    requires cut { IsCutOf job.now cut.now }
    requires texts { length texts.old ≡ part_count cut.now }
    ensures told { Tells chunk.Memory
        (fault_unless (chunk.NotOutput (info.now.full ++ codes ".asc"))
        (output_in (setup_of job.now) info.now bytes.now)) result }
    ensures count { IfOk result
        (λ count. count ≡ min (length (found (records_of bytes.now))) (2 ^ 64 - 1)) }
    ensures texts { OnOk result
        (AddsVariable cut.now (found (records_of bytes.now)) texts.old texts.new) }
    ensures many { OnOk result (length texts.new ≡ part_count cut.now) }
{
    match cut_bytes(alloc, job, cut, info, bytes, texts) {
        Ok(count) => Ok(count),
        Err(Stop::Other) => Err(other_file(alloc, info)?),
        Err(Stop::Memory) => Err(ChunkFault::Memory),
    }
}

/// Adds the records of the output file of a variable, by its place among the job's outputs, and gives how many they are, or
/// the file's fault.
fn cut_one<D: Disk>(
    alloc: Global,
    disk: &mut D,
    job: &Job,
    cut: &Cut,
    place: u32,
    v: VarId,
    texts: &mut List<Text>,
) -> Result<u64, ChunksFault>
    requires mounted { IsTrue (D.mounted disk.old) }
    requires files { D.file_count disk.old ≡ count_with (output_count (setup_of job.now)) }
    requires few { output_count (setup_of job.now) ≤ output_limit }
    requires place { place < output_count (setup_of job.now) }
    requires variable { v.0 < length job.now.vars }
    requires cut { IsCutOf job.now cut.now }
    requires texts { length texts.old ≡ part_count cut.now }
    ensures told { D.tells →
        Finds (not_output (setup_of job.now) (D.view disk.old).seen place v) result }
    ensures count { D.tells → IfOk result (λ count. count
        ≡ min (length (records_at (D.view disk.old).seen place)) (2 ^ 64 - 1)) }
    ensures texts { D.tells → OnOk result
        (AddsVariable cut.now (records_at (D.view disk.old).seen place) texts.old texts.new) }
    ensures many { OnOk result (length texts.new ≡ part_count cut.now) }
    ensures quiet { D.tells → IsQuiet (D.view disk.old) (D.view disk.new) }
    ensures kept { Keeps D.Disk ChunksFault.Disk disk.old disk.new result }
{
    let bytes = read_whole(alloc, disk, named_output(place))?;
    Ok(cut_file(alloc, job, cut, info_of(job, v), bytes.as_slice(), texts)?)
}

/// Adds the records of each output file to the texts of the chunks, and gives how many they are together, or the first fault
/// of the files.
fn cut_each<D: Disk>(
    alloc: Global,
    disk: &mut D,
    job: &Job,
    cut: &Cut,
    texts: &mut List<Text>,
) -> Result<u64, ChunksFault>
    requires mounted { IsTrue (D.mounted disk.old) }
    requires files { D.file_count disk.old ≡ count_with (output_count (setup_of job.now)) }
    requires whole { IsWhole job.now }
    requires few { output_count (setup_of job.now) ≤ output_limit }
    requires cut { IsCutOf job.now cut.now }
    requires texts { texts.old ≡ chunk_texts cut.now [] }
    ensures told { D.tells → Finds (first_by_place
        (not_output (setup_of job.now) (D.view disk.old).seen) 0 job.now.out_vars) result }
    ensures count { D.tells → IfOk result (λ count. count
        ≡ total_of (output_records (setup_of job.now) (D.view disk.old).seen)) }
    ensures texts { D.tells → OnOk result
        (texts.new
        ≡ chunk_texts cut.now (output_records (setup_of job.now) (D.view disk.old).seen)) }
    ensures many { OnOk result (length texts.new ≡ part_count cut.now) }
    ensures quiet { D.tells → IsQuiet (D.view disk.old) (D.view disk.new) }
    ensures kept { Keeps D.Disk ChunksFault.Disk disk.old disk.new result }
{
    let mut records = 0_u64;
    let mut place = 0;
    'outputs: for v in job.out_vars.as_slice() {
        let count = cut_one(alloc, disk, job, cut, place, *v, texts)?;
        records = records.saturating_add(count);
        place += 1;
    }
    Ok(records)
}

/// The texts of a job's chunks, and how many records are in them, or the first fault of the output files: they are too long
/// together, or one isn't the output of its variable. No byte is read where they are too long.
///
/// The bytes of one file and one of its records are held at a time, beside the texts.
pub(crate) fn cut_outputs<D: Disk>(
    alloc: Global,
    disk: &mut D,
    job: &Job,
    cut: &Cut,
) -> Result<(u64, List<Text>), ChunksFault>
    requires mounted { IsTrue (D.mounted disk.old) }
    requires files { D.file_count disk.old ≡ count_with (output_count (setup_of job.now)) }
    requires whole { IsWhole job.now }
    requires cut { IsCutOf job.now cut.now }
    ensures told { D.tells →
        Finds (outputs_fault (setup_of job.now) (D.view disk.old).seen) result }
    ensures count { D.tells → IfOk result (λ x. x.0
        ≡ total_of (output_records (setup_of job.now) (D.view disk.old).seen)) }
    ensures texts { D.tells → IfOk result (λ x. x.1
        ≡ chunk_texts cut.now (output_records (setup_of job.now) (D.view disk.old).seen)) }
    ensures many { IfOk result (λ x. length x.1 ≡ part_count cut.now) }
    ensures quiet { D.tells → IsQuiet (D.view disk.old) (D.view disk.new) }
    ensures kept { Keeps D.Disk ChunksFault.Disk disk.old disk.new result }
{
    let count = count_outputs(job);
    check_length(disk, named_output(0), count)?;
    let mut texts = empty_texts(alloc, cut)?;
    let records = cut_each(alloc, disk, job, cut, &mut texts)?;
    Ok((records, texts))
}
