//! The pieces of a job's chunk files.

ghost use Rattle.std.specs.Prelude.{◌≡◌, ◌<◌, ◌≤◌, ◌+◌, ◌-◌, ◌^◌, min, map, length, IsTrue, IfOk};
ghost use Rattle.std.specs.List.{range_with_len};
ghost use Rattle.cx_text.specs.Telling.{Tells};
ghost use Rattle.cx_cut.specs.Cuts.{part_count};
ghost use Rattle.cx_disk.specs.Keeps.{Keeps};
ghost use Rattle.cx_disk.specs.Moments.{IsQuiet};
ghost use Rattle.cx_plan.specs.Lists.{first_of_each};
ghost use Rattle.cx_plan.specs.Setups.{setup_of};
ghost use Rattle.cx_plan.specs.Whole.{IsWhole};
ghost use Rattle.cx_chunks.specs.declared.fault.ChunkFault.TheVariants as chunk;
ghost use Rattle.cx_chunks.specs.Laws.{IsCutOf};
ghost use Rattle.cx_run_chunks.specs.Commands.{all_pieces, bad, fault_unless, files_fault, pieces_in, record_count};
ghost use Rattle.cx_run_chunks.specs.Entries.{found, pieces_of};
ghost use Rattle.cx_run_chunks.specs.Faults.{Finds};

use crate::fault::ChunksFault;
use crate::files::check_length;
use crate::outputs::info_of;
use cx_chunks::{ChunkFault, Piece, iterations, read_chunk};
use cx_cut::Cut;
use cx_disk::{Disk, FIRST_CHUNK, chunk, read_whole};
use cx_plan::Job;
use cx_text::{List, Memory};
use std::alloc::Global;

/// The pieces that the bytes of a part's chunk are, or its fault.
fn pieces_of(alloc: Global, part: u32, bytes: &[u8]) -> Result<List<Piece>, ChunkFault>
    ensures told { Tells chunk.Memory
        (fault_unless (chunk.Bad part) (pieces_of bytes.now)) result }
    ensures pieces { IfOk result (λ pieces. pieces ≡ found (pieces_of bytes.now)) }
{
    let found = read_chunk(alloc, bytes)?;
    match found {
        Some(pieces) => Ok(pieces),
        None => Err(ChunkFault::Bad(part)),
    }
}

/// The pieces of a part's chunk, or its fault.
fn read_one<D: Disk>(alloc: Global, disk: &mut D, part: u32) -> Result<List<Piece>, ChunksFault>
    requires mounted { IsTrue (D.mounted disk.old) }
    requires part { part < 512 }
    ensures told { D.tells → Finds (bad (D.view disk.old).seen part) result }
    ensures pieces { D.tells → IfOk result
        (λ pieces. pieces ≡ pieces_in (D.view disk.old).seen part) }
    ensures quiet { D.tells → IsQuiet (D.view disk.old) (D.view disk.new) }
    ensures kept { Keeps D.Disk ChunksFault.Disk disk.old disk.new result }
{
    let bytes = read_whole(alloc, disk, chunk(part))?;
    Ok(pieces_of(alloc, part, bytes.as_slice())?)
}

/// The pieces of so many chunks, or the first fault.
fn read_each<D: Disk>(
    alloc: Global,
    disk: &mut D,
    count: u32,
) -> Result<List<List<Piece>>, ChunksFault>
    requires mounted { IsTrue (D.mounted disk.old) }
    requires few { count ≤ 512 }
    ensures told { D.tells → Finds
        (first_of_each (bad (D.view disk.old).seen) (range_with_len 0 count)) result }
    ensures pieces { D.tells → IfOk result
        (λ chunks. chunks ≡ map (pieces_in (D.view disk.old).seen) (range_with_len 0 count)) }
    ensures many { IfOk result (λ chunks. length chunks ≡ count) }
    ensures quiet { D.tells → IsQuiet (D.view disk.old) (D.view disk.new) }
    ensures kept { Keeps D.Disk ChunksFault.Disk disk.old disk.new result }
{
    let mut chunks = List::empty(alloc);
    'parts: for part in 0..count {
        let pieces = read_one(alloc, disk, part)?;
        chunks.push(pieces)?;
    }
    Ok(chunks)
}

/// The pieces of the chunk of each part of a cut, or the first fault of the files: they are too long together, or one isn't made
/// of pieces. No byte is read where they are too long.
pub(crate) fn read_chunks<D: Disk>(
    alloc: Global,
    disk: &mut D,
    cut: &Cut,
) -> Result<List<List<Piece>>, ChunksFault>
    requires mounted { IsTrue (D.mounted disk.old) }
    requires few { part_count cut.now ≤ 512 }
    ensures told { D.tells → Finds (files_fault cut.now (D.view disk.old).seen) result }
    ensures pieces { D.tells → IfOk result
        (λ chunks. chunks ≡ all_pieces cut.now (D.view disk.old).seen) }
    ensures many { IfOk result (λ chunks. length chunks ≡ part_count cut.now) }
    ensures quiet { D.tells → IsQuiet (D.view disk.old) (D.view disk.new) }
    ensures kept { Keeps D.Disk ChunksFault.Disk disk.old disk.new result }
{
    let count = cut.count();
    check_length(disk, FIRST_CHUNK, count)?;
    read_each(alloc, disk, count)
}

/// How many records the pieces of all chunks are of: each iteration of a variable counts once.
pub(crate) fn record_count(alloc: Global, job: &Job, chunks: &[List<Piece>]) -> Result<u64, Memory>
    requires whole { IsWhole job.now }
    ensures { IfOk result
        (λ count. count ≡ min (record_count (setup_of job.now) chunks.now) (2 ^ 64 - 1)) }
{
    let mut count = 0_u64;
    'outputs: for v in job.out_vars.as_slice() {
        let each = iterations(alloc, chunks, &info_of(job, *v).full)?;
        count = count.saturating_add(each.len() as u64);
    }
    Ok(count)
}
