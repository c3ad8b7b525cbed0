//! The largest part of a job, and the routines that don't sweep it.

ghost use Rattle.std.specs.Prelude.{◌≡◌, ◌<◌, map, Some, IfOk};
ghost use Rattle.cx_plan.specs.Lists.{first_of_each};
ghost use Rattle.cx_cut.specs.Cuts.{IsWhole, part_count};
ghost use Rattle.cx_text.specs.Telling.{Tells};
ghost use Rattle.cx_job.specs.Caps.{part_points, greatest_part, too_large, cap_fault};
ghost use Rattle.cx_job.specs.declared.fault.JobFault.TheVariants as faults;

use crate::JobFault;
use crate::cells::point_count;
use cx_cut::Cut;
use cx_plan::Item;
use cx_rule::Spec;
use cx_text::{Memory, Text};
use std::alloc::Global;

/// How many points a part holds, its own ones and its ghosts.
fn part_points(cut: &Cut, part: u32) -> u64
    requires whole { IsWhole cut.now }
    requires part { part < part_count cut.now }
    ensures { result ≡ part_points cut.now part }
{
    point_count(&cut.local(part))
}

/// How many points the part holds that holds most.
pub(crate) fn greatest_part(cut: &Cut) -> u64
    requires { IsWhole cut.now }
    ensures { result ≡ greatest_part cut.now }
{
    let mut most = 0;
    'parts: for part in 0..cut.count() {
        most = most.max(part_points(cut, part));
    }
    most
}

/// The fault of a routine that doesn't sweep a part of so many points: its path, the points and its cap.
fn too_large(alloc: Global, path: &Text, points: u64, cap: u64) -> Result<JobFault, Memory>
    ensures { IfOk result (λ fault. fault ≡ faults.TooLarge path.now points cap) }
{
    Ok(JobFault::TooLarge(path.copy(alloc)?, points, cap))
}

/// Tests that an object sweeps a part of so many points.
fn check_spec(alloc: Global, points: u64, path: &Text, spec: &Spec) -> Result<(), JobFault>
    ensures { Tells faults.Memory (too_large points path.now (Some spec.now)) result }
{
    if spec.cap < points {
        return Err(too_large(alloc, path, points, spec.cap)?);
    }
    Ok(())
}

/// Tests that the object of an item sweeps a part of so many points.
fn check_cap(alloc: Global, specs: &[&Spec], points: u64, item: &Item) -> Result<(), JobFault>
    ensures { Tells faults.Memory
        (cap_fault (map (λ s. s.now) specs.now) points item.now) result }
{
    let object = item.routine as usize;
    if object >= specs.len() {
        return Ok(());
    }
    check_spec(alloc, points, &item.path, specs[object])
}

/// Tests that the objects of these items sweep a part of so many points.
pub(crate) fn check_caps(
    alloc: Global,
    specs: &[&Spec],
    points: u64,
    items: &[Item],
) -> Result<(), JobFault>
    ensures { Tells faults.Memory
        (first_of_each (cap_fault (map (λ s. s.now) specs.now) points) items.now) result }
{
    for item in items {
        check_cap(alloc, specs, points, item)?;
    }
    Ok(())
}
