//! How long files are together.

ghost use Rattle.std.specs.Prelude.{◌≡◌, ◌<◌, ◌+◌, length, IsTrue, IfOk};
ghost use Rattle.std.specs.List.{range_with_len};
ghost use Rattle.cx_disk.specs.Files.{IsFile};
ghost use Rattle.cx_disk.specs.Keeps.{Keeps};
ghost use Rattle.cx_disk.specs.Moments.{IsQuiet};
ghost use Rattle.cx_text.specs.Telling.{Tells};
ghost use Rattle.cx_chunks.specs.declared.fault.ChunkFault.TheVariants as chunk;
ghost use Rattle.cx_run_chunks.specs.Commands.{length_of, long_fault, too_long};
ghost use Rattle.cx_run_chunks.specs.Faults.{Finds};
ghost use Rattle.cx_run_chunks.specs.Writing.{AreFiles};

use crate::fault::ChunksFault;
use cx_chunks::ChunkFault;
use cx_disk::{Disk, DiskFault};

/// The most bytes that the files which a command reads may have together.
const GREATEST: u64 = 268_435_456;

/// The length of one of some files.
fn length_at<D: Disk>(disk: &mut D, first: u32, count: u32, place: u32) -> Result<u64, DiskFault>
    requires mounted { IsTrue (D.mounted disk.old) }
    requires files { AreFiles (D.file_count disk.old) first count }
    requires place { place < count }
    ensures length { D.tells → IfOk result
        (λ bytes. bytes ≡ length ((D.view disk.old).seen (first + place))) }
    ensures quiet { D.tells → IsQuiet (D.view disk.old) (D.view disk.new) }
    ensures kept { Keeps D.Disk DiskFault.Failed disk.old disk.new result }
{
    disk.length(first + place)
}

/// How many bytes so many files from this one on have together.
fn total_length<D: Disk>(disk: &mut D, first: u32, count: u32) -> Result<u64, DiskFault>
    requires mounted { IsTrue (D.mounted disk.old) }
    requires files { AreFiles (D.file_count disk.old) first count }
    ensures total { D.tells → IfOk result
        (λ total. total ≡ length_of (D.view disk.old).seen (range_with_len first count)) }
    ensures quiet { D.tells → IsQuiet (D.view disk.old) (D.view disk.new) }
    ensures kept { Keeps D.Disk DiskFault.Failed disk.old disk.new result }
{
    let mut total = 0_u64;
    'files: for place in 0..count {
        let more = length_at(disk, first, count, place)?;
        total = total.saturating_add(more);
    }
    Ok(total)
}

/// Tests that so many bytes aren't too many.
fn check_total(total: u64) -> Result<(), ChunkFault>
    ensures { Tells chunk.Memory (long_fault total) result }
{
    if GREATEST < total {
        return Err(ChunkFault::TooLong(total, GREATEST));
    }
    Ok(())
}

/// Tests that so many files from this one on aren't too long together. It reads no byte.
pub(crate) fn check_length<D: Disk>(disk: &mut D, first: u32, count: u32) -> Result<(), ChunksFault>
    requires mounted { IsTrue (D.mounted disk.old) }
    requires files { AreFiles (D.file_count disk.old) first count }
    ensures told { D.tells → Finds
        (too_long (D.view disk.old).seen (range_with_len first count)) result }
    ensures quiet { D.tells → IsQuiet (D.view disk.old) (D.view disk.new) }
    ensures kept { Keeps D.Disk ChunksFault.Disk disk.old disk.new result }
{
    let total = total_length(disk, first, count)?;
    Ok(check_total(total)?)
}
