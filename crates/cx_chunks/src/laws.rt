//! What is cut into chunks comes together again.

ghost use Rattle.cx_plan.specs.Whole.{IsWhole};
ghost use Rattle.cx_chunks.specs.Laws.{ChunksAreRead, OwnersCount, PiecesJoin};

use cx_ascii_read::printed;
use cx_plan::Job;

/// The laws of a whole job's output in chunks, with what `cut_records`, `read_chunk` and `combine` ensure.
///
/// - Records of the output variables, with the job's sizes and rising iterations, are cut into chunks that are read again.
/// - The pieces of all chunks are combined into the text of these records.
/// - A level that is combined has at each point the value of the one part that owns it.
pub fn chunks_are_whole(job: &Job)
    requires { IsWhole job.now }
    ensures read { ChunksAreRead job.now }
    ensures joined { PiecesJoin job.now }
    ensures owners { OwnersCount job.now }
{
    printed();
}
