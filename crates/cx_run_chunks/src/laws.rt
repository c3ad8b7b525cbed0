//! What the files are, in terms of what they spell.

ghost use Rattle.cx_run_chunks.specs.Laws.{FilesAreOutputs, PiecesAreSpelled, RecordsAreSpelled};

use cx_plan::Job;

/// The laws of what the two commands ensure.
///
/// - The records that an output file is made of are those that its bytes spell, and so are the pieces of a chunk.
/// - Output files without a fault hold the records of their variables, with the job's sizes and rising iterations, so that
///   `chunks_are_whole` of cx_chunks speaks of them.
pub fn files_are_exact(job: &Job)
    ensures records { RecordsAreSpelled }
    ensures pieces { PiecesAreSpelled }
    ensures outputs { FilesAreOutputs job.now }
{}
