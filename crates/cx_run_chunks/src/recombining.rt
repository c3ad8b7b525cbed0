//! The output of a job, put together again from its chunks.

ghost use Rattle.std.specs.Prelude.{◌≡◌, ◌≤◌, ◌++◌, ◌∷◌, [], None, length, IsTrue, IfOk, IfErr, OnOk};
ghost use Rattle.std.specs.List.{concat};
ghost use Rattle.cx_cut.specs.Cuts.{part_count};
ghost use Rattle.cx_cut.specs.Faults.{cut_fault};
ghost use Rattle.cx_disk.specs.Cause.{HasCause};
ghost use Rattle.cx_disk.specs.Disk.{IsNamed};
ghost use Rattle.cx_disk.specs.Files.{count_with, recombined_file};
ghost use Rattle.cx_disk.specs.Keeps.{Keeps};
ghost use Rattle.cx_disk.specs.Moments.{IsQuiet};
ghost use Rattle.cx_outputs.specs.Names.{output_count, output_names};
ghost use Rattle.cx_plan.specs.Setups.{setup_of};
ghost use Rattle.cx_plan.specs.Whole.{IsWhole};
ghost use Rattle.cx_chunks.specs.Laws.{IsCutOf};
ghost use Rattle.cx_run_chunks.specs.Commands.{parts_in, recombine_fault, recombined_of, whole_output};
ghost use Rattle.cx_run_chunks.specs.Faults.{Finds, IsRefusal};
ghost use Rattle.cx_run_chunks.specs.Writing.{AreWritten, Writes};

use crate::fault::ChunksFault;
use crate::parts::{cut_of, mount};
use crate::pieces::{read_chunks, record_count};
use crate::summary::Recombined;
use crate::writing::write_files;
use cx_chunks::combine;
use cx_cut::Cut;
use cx_disk::{Disk, RECOMBINED};
use cx_outputs::output_names;
use cx_plan::Job;
use cx_text::{List, Memory, Text};
use std::alloc::Global;
use std::mem;

/// Texts one after another. The first one is taken over, so that a job of one output variable has its text once.
fn joined(alloc: Global, mut texts: Vec<Text>) -> Result<Text, Memory>
    ensures { IfOk result (λ whole. whole ≡ concat texts.items) }
{
    let none = Text::new(Vec::new(alloc));
    match texts.split_first_mut() {
        Some((first, others)) => followed(mem::replace(first, none), others),
        None => Ok(none),
    }
}

/// A text, and others after it.
fn followed(mut whole: Text, texts: &[Text]) -> Result<Text, Memory>
    ensures { IfOk result (λ all. all ≡ whole ++ concat texts.now) }
{
    'texts: for text in texts {
        whole.push_slice(text.as_slice())?;
    }
    Ok(whole)
}

/// The text of each output variable and how many records they are, from the chunk files of a mounted disk.
fn combine_chunks<D: Disk>(
    alloc: Global,
    disk: &mut D,
    job: &Job,
    cut: &Cut,
) -> Result<(u64, List<Text>), ChunksFault>
    requires mounted { IsTrue (D.mounted disk.old) }
    requires whole { IsWhole job.now }
    requires parts { cut.now ≡ parts_in job.now }
    requires cut { IsCutOf job.now cut.now }
    ensures told { D.tells → Finds (recombine_fault job.now (D.view disk.old).seen) result }
    ensures records { D.tells → IfOk result
        (λ x. x.0 ≡ (recombined_of job.now (D.view disk.old).seen).records) }
    ensures texts { D.tells → IfOk result
        (λ x. concat x.1 ≡ whole_output job.now (D.view disk.old).seen) }
    ensures quiet { D.tells → IsQuiet (D.view disk.old) (D.view disk.new) }
    ensures kept { Keeps D.Disk ChunksFault.Disk disk.old disk.new result }
{
    let chunks = read_chunks(alloc, disk, cut)?;
    let texts = combine(alloc, job, cut, &chunks)?;
    let records = record_count(alloc, job, chunks.as_slice())?;
    Ok((records, texts))
}

/// The whole output and what it is, from the chunk files of a mounted disk.
fn whole_output<D: Disk>(
    alloc: Global,
    disk: &mut D,
    job: &Job,
    cut: &Cut,
) -> Result<(Recombined, Text), ChunksFault>
    requires mounted { IsTrue (D.mounted disk.old) }
    requires whole { IsWhole job.now }
    requires parts { cut.now ≡ parts_in job.now }
    requires cut { IsCutOf job.now cut.now }
    ensures told { D.tells → Finds (recombine_fault job.now (D.view disk.old).seen) result }
    ensures value { D.tells → IfOk result
        (λ x. x.0 ≡ recombined_of job.now (D.view disk.old).seen) }
    ensures text { D.tells → IfOk result
        (λ x. x.1 ≡ whole_output job.now (D.view disk.old).seen) }
    ensures quiet { D.tells → IsQuiet (D.view disk.old) (D.view disk.new) }
    ensures kept { Keeps D.Disk ChunksFault.Disk disk.old disk.new result }
{
    let (records, texts) = combine_chunks(alloc, disk, job, cut)?;
    let whole = joined(alloc, texts.into_vec())?;
    let summary = Recombined {
        records,
        bytes: whole.len() as u64,
    };
    Ok((summary, whole))
}

/// Puts the output of a job together again from its chunks: mounts the disk with the job's folders and output files, reads the
/// chunk file of each part of the job's cut, and writes the file `RECOMBINED` of cx_disk anew and settles it. It then holds the
/// texts of all output variables one after another. A file that isn't there counts as empty.
///
/// Every other file stays.
///
/// # Errors
///
/// The first of these counts, and no byte has changed. `TooLong`: the chunk files have together more than 268,435,456 bytes; no byte
/// was read. `Bad`: a chunk isn't made of pieces; the first such one counts. Then those of `combine` of cx_chunks: `Stranger`, `Double`
/// and `Missing`.
///
/// `Disk`: the disk failed. The file may then hold any bytes, and each other file has what it had. So it may after `Memory`.
pub fn recombine<D: Disk>(alloc: Global, disk: &mut D, job: &Job) -> Result<Recombined, ChunksFault>
    requires whole { IsWhole job.now }
    requires cut { cut_fault (parts_in job.now) ≡ None }
    ensures told { D.tells → Finds (recombine_fault job.now (D.view disk.old).seen) result }
    ensures value { D.tells → IfOk result
        (λ done. done ≡ recombined_of job.now (D.view disk.old).seen) }
    ensures written { D.tells → OnOk result
        (AreWritten recombined_file (whole_output job.now (D.view disk.old).seen ∷ [])
        (D.view disk.new)) }
    ensures writes { D.tells →
        Writes recombined_file 1 (D.view disk.old) (D.view disk.new) }
    ensures refused { D.tells → IfErr result
        (λ e. IsRefusal e → IsQuiet (D.view disk.old) (D.view disk.new)) }
    ensures mounted { OnOk result (IsTrue (D.mounted disk.new)) }
    ensures folders { OnOk result (IsNamed job.now.out_dir
        (output_names (setup_of job.now)) job.now.chk_dir (D.folders disk.new)) }
    ensures cause { HasCause ChunksFault.Disk (D.faults disk.old) (D.faults disk.new) result }
{
    let cut = cut_of(alloc, job)?;
    let names = output_names(alloc, job)?;
    mount(disk, job, &names)?;
    let (done, whole) = whole_output(alloc, disk, job, &cut)?;
    let texts = [whole];
    write_files(disk, RECOMBINED, &texts)?;
    Ok(done)
}
