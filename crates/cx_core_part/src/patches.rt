//! The patch of a part as a run begins.
ghost use Rattle.std.specs.Prelude.{◌≡◌, ◌<◌, ◌≤◌, All, List as ListOf, IfOk};
ghost use Rattle.cx_plan.specs.Setups.{setup_of};
ghost use Rattle.cx_plan.specs.declared.item.Item.{Item};
ghost use Rattle.cx_plan.specs.declared.item.Touch.{Touch};
ghost use Rattle.cx_rule.specs.Routine.{Rule};
ghost use Rattle.cx_cut.specs.Cuts.{part_count};
ghost use Rattle.law_parts.specs.Beginnings.{run_of, Afresh};
ghost use Rattle.law_parts.specs.Nets.{held_first};
ghost use Rattle.cx_core_part.specs.Jobs.{IsChecked, IsCutOf};
ghost use Rattle.cx_core_part.specs.Frames.{IsPatchOf};

use cx_cut::Cut;
use cx_field::Patch;
use cx_plan::{Item, Job, Touch};
use cx_text::Memory;
use std::alloc::Global;

/// The patch of part `k` as a run begins at its start: all its numbers are 0. It has room for each item that is run.
pub fn start(alloc: Global, job: &Job, cut: &Cut, k: u32) -> Result<Patch, Memory>
    requires job { IsChecked job.now }
    requires cut { IsCutOf job.now cut.now }
    requires part { k < part_count cut.now }
    ensures part { IfOk result (IsPatchOf (setup_of job.now) cut.now k) }
    ensures numbers { (rules : ListOf Rule) → IfOk result (λ patch. patch.numbers
        ≡ (held_first (run_of job.now rules Afresh) k).numbers) }
{
    // Reaches have 8 bits, so a window has room for all that an item which is run reads.
    farthest(job.items.as_slice());
    Patch::new(
        alloc,
        &job.shape,
        &cut.part(k),
        &cut.local(k),
        &job.vars,
        &job.items,
    )
}

/// How far from a point the reads of these items look at most.
fn farthest(items: &[Item]) -> u8
    ensures { All (λ (x : Item). All (λ (r : Touch). r.reach ≤ result) x.reads) items.now }
{
    let mut most = 0;
    'items: for item in items {
        most = farthest_read(most, item.reads.as_slice());
    }
    most
}

/// The same of these reads, where others look this far.
fn farthest_read(others: u8, reads: &[Touch]) -> u8
    ensures others { others ≤ result }
    ensures reads { All (λ (r : Touch). r.reach ≤ result) reads.now }
{
    let mut most = others;
    'reads: for read in reads {
        most = most.max(read.reach);
    }
    most
}
