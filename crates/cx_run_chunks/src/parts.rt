//! The cut of a job, and the disk that its files are on.

ghost use Rattle.std.specs.Prelude.{◌≡◌, None, IsTrue, IfOk, OnOk};
ghost use Rattle.cx_cut.specs.Faults.{cut_fault};
ghost use Rattle.cx_disk.specs.Cause.{HasCause};
ghost use Rattle.cx_disk.specs.Disk.{IsNamed};
ghost use Rattle.cx_disk.specs.Files.{count_with};
ghost use Rattle.cx_disk.specs.Moments.{IsQuiet};
ghost use Rattle.cx_outputs.specs.Names.{output_count, output_names};
ghost use Rattle.cx_plan.specs.Setups.{setup_of};
ghost use Rattle.cx_plan.specs.Whole.{IsWhole};
ghost use Rattle.cx_chunks.specs.Laws.{IsCutOf};
ghost use Rattle.cx_run_chunks.specs.Commands.{parts_in};

use cx_cut::{Cut, CutFault, cut};
use cx_disk::{Disk, DiskFault};
use cx_plan::Job;
use cx_text::{List, Memory, Text};
use std::alloc::Global;

/// The cut of a job.
pub(crate) fn cut_of(alloc: Global, job: &Job) -> Result<Cut, Memory>
    requires whole { IsWhole job.now }
    requires cut { cut_fault (parts_in job.now) ≡ None }
    ensures value { IfOk result (λ cut. cut ≡ parts_in job.now) }
    ensures cut { IfOk result (λ cut. IsCutOf job.now cut) }
{
    match cut(alloc, &job.shape, &job.cut) {
        Ok(cut) => Ok(cut),
        Err(CutFault::Memory) => Err(Memory),
        Err(_) => unreachable!(),
    }
}

/// Mounts a disk with a job's folders and the names of its output files.
pub(crate) fn mount<D: Disk>(disk: &mut D, job: &Job, names: &List<Text>) -> Result<(), DiskFault>
    requires names { names.now ≡ output_names (setup_of job.now) }
    ensures mounted { OnOk result (IsTrue (D.mounted disk.new)) }
    ensures folders { OnOk result (IsNamed job.now.out_dir
        (output_names (setup_of job.now)) job.now.chk_dir (D.folders disk.new)) }
    ensures count { OnOk result
        (D.file_count disk.new ≡ count_with (output_count (setup_of job.now))) }
    ensures quiet { D.tells → IsQuiet (D.view disk.old) (D.view disk.new) }
    ensures cause { HasCause DiskFault.Failed (D.faults disk.old) (D.faults disk.new) result }
{
    disk.mount(&job.out_dir, names, &job.chk_dir)
}
