//! The output of a job, cut into chunks.

ghost use Rattle.std.specs.Prelude.{◌≡◌, None, IsTrue, IfOk, IfErr, OnOk};
ghost use Rattle.cx_cut.specs.Cuts.{part_count};
ghost use Rattle.cx_cut.specs.Faults.{cut_fault};
ghost use Rattle.cx_disk.specs.Cause.{HasCause};
ghost use Rattle.cx_disk.specs.Disk.{IsNamed};
ghost use Rattle.cx_disk.specs.Files.{chunk_file};
ghost use Rattle.cx_disk.specs.Moments.{IsQuiet};
ghost use Rattle.cx_outputs.specs.Names.{output_names};
ghost use Rattle.cx_plan.specs.Setups.{setup_of};
ghost use Rattle.cx_plan.specs.Whole.{IsWhole};
ghost use Rattle.cx_run_chunks.specs.Commands.{chunked_of, chunks_to_write, outputs_fault, parts_in};
ghost use Rattle.cx_run_chunks.specs.Faults.{Finds, IsRefusal};
ghost use Rattle.cx_run_chunks.specs.Writing.{AreWritten, Writes};

use crate::fault::ChunksFault;
use crate::outputs::cut_outputs;
use crate::parts::{cut_of, mount};
use crate::summary::Chunked;
use crate::writing::write_files;
use cx_disk::{Disk, FIRST_CHUNK};
use cx_outputs::output_names;
use cx_plan::Job;
use std::alloc::Global;

/// Cuts the output files of a job into chunks: mounts the disk with the job's folders and output files, reads these files, and
/// writes the chunk file of each part of the job's cut anew and settles it. A file that isn't there counts as empty.
///
/// The chunk of part K is `chunk(K)` of cx_disk. Chunk files of higher numbers stay, and so does every other file.
///
/// # Errors
///
/// The first of these counts, and no byte has changed. `TooLong`: the output files have together more than 268,435,456 bytes; no
/// byte was read. `NotOutput`: an output file isn't made of its variable's records, with the job's sizes and in rising iterations;
/// the first such file counts.
///
/// `Disk`: the disk failed. The chunk files may then hold any bytes, and each other file has what it had. So it may after `Memory`.
pub fn chunk<D: Disk>(alloc: Global, disk: &mut D, job: &Job) -> Result<Chunked, ChunksFault>
    requires whole { IsWhole job.now }
    requires cut { cut_fault (parts_in job.now) ≡ None }
    ensures told { D.tells →
        Finds (outputs_fault (setup_of job.now) (D.view disk.old).seen) result }
    ensures value { D.tells → IfOk result
        (λ done. done ≡ chunked_of job.now (D.view disk.old).seen) }
    ensures written { D.tells → OnOk result
        (AreWritten (chunk_file 0) (chunks_to_write job.now (D.view disk.old).seen)
        (D.view disk.new)) }
    ensures writes { D.tells →
        Writes (chunk_file 0) (part_count (parts_in job.now)) (D.view disk.old) (D.view disk.new) }
    ensures refused { D.tells → IfErr result
        (λ e. IsRefusal e → IsQuiet (D.view disk.old) (D.view disk.new)) }
    ensures mounted { OnOk result (IsTrue (D.mounted disk.new)) }
    ensures folders { OnOk result (IsNamed job.now.out_dir
        (output_names (setup_of job.now)) job.now.chk_dir (D.folders disk.new)) }
    ensures cause { HasCause ChunksFault.Disk (D.faults disk.old) (D.faults disk.new) result }
{
    let cut = cut_of(alloc, job)?;
    let names = output_names(alloc, job)?;
    mount(disk, job, &names)?;
    let (records, texts) = cut_outputs(alloc, disk, job, &cut)?;
    write_files(disk, FIRST_CHUNK, texts.as_slice())?;
    Ok(Chunked {
        parts: cut.count(),
        records,
    })
}
