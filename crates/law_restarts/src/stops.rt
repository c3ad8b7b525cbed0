//! Runs over objects in memory that are stopped and started again.
ghost use Rattle.std.specs.Prelude.{◌≡◌, ◌≤◌, ◌^◌, [], IfOk, List as ListOf, length, map};
ghost use Rattle.cx_disk.specs.Memory.{History, fresh, view_of};
ghost use Rattle.cx_keep.specs.Resuming.{AreTrails};
ghost use Rattle.cx_plan.specs.declared.job.Job.{Job};
ghost use Rattle.cx_rule.specs.Routine.{Rule};
ghost use Rattle.cx_run_loop.specs.Lent.{lent_disk};
ghost use Rattle.law_course.specs.Starts.{course_in};
ghost use Rattle.law_restarts.specs.Stops.{AreStopped, EndsAsOne, IsStarted, IsStopped, RunsThrough, routines_of, stage};

use cx_disk::{Disk, FuseDisk, MemoryDisk};
use cx_rule::{Meter, Routine};
use cx_run::{MemoryShelf, MemorySink, cactus};
use cx_text::{List, Memory, Text};
use cx_turns::Turns;
use cx_wire::MemoryWire;
use std::alloc::Global;

/// A start that is stopped.
#[derive(Debug, Drop)]
pub struct Stop {
    /// What it is asked for: the words of the command line.
    pub words: List<Text>,
    /// After how many calls its disk fails, for good.
    pub calls: u64,
    /// Which of the images that a crash may then leave the next start finds, as `FuseDisk::into_image` has it.
    pub choice: u64,
}

/// The greatest number of parts that a grid is cut into.
const MOST_PARTS: u32 = 512;

/// Runs what the words ask for, after starts that are stopped: each goes on from what a crash may have left of the one before, and
/// the last one, which isn't stopped, from what the last of these may have left. It gives the status of the last one, and the disk.
///
/// Each start is a call of `cactus` of cx_run, over a new wire. They read one shelf, print to one sink, and count on one meter, one after
/// another. Their words may ask for different parameter files, if these differ only in how and where a run is done (`one_run` says which
/// do). If each image of the disk is a trail of the first start's job, then, wherever the starts are stopped, and whatever a crash leaves
/// of them, at status 0 and 3 each output is that of the undivided run of the last start's job, also in what a crash may then leave. A
/// disk without checkpoints is a trail (`empty_is_trail` of law_course), and so is `empty_disk`.
///
/// # Errors
///
/// `Memory` when out of memory for a wire or an image. A start that lacks memory ends with status 5, and isn't an error.
pub fn run_through_stops<T: Turns>(
    alloc: Global,
    words: &[Text],
    stops: &[Stop],
    shelf: &mut MemoryShelf,
    disk: MemoryDisk,
    turns: &mut T,
    out: &mut MemorySink,
    routines: &[Box<dyn Routine>],
    meter: &mut Meter,
) -> Result<(u8, MemoryDisk), Memory>
    requires few { length routines.now ≤ 2 ^ 32 }
    ensures starts { IfOk result (λ r. RunsThrough
        (routines_of (map rule routines.now) (map spec_of routines.now)) words.now stops.now
        (stage shelf.old disk (T.begun turns.old) out.old meter.old)
        (stage shelf.new r.1 (T.begun turns.new) out.new meter.new) r.0) }
    ensures ends { IfOk result (λ r. EndsAsOne
        (routines_of (map rule routines.now) (map spec_of routines.now)) words.now stops.now
        shelf.old disk r.1 r.0) }
{
    let mut left = after_stops(alloc, stops, shelf, disk, turns, out, routines, meter)?;
    let status = start(alloc, words, shelf, &mut left, turns, out, routines, meter)?;
    Ok((status, left))
}

/// A disk in memory without files, which isn't mounted. It is a trail of every job, so a first start may begin on it.
pub fn empty_disk(alloc: Global) -> MemoryDisk
    ensures unmounted { result ≡ fresh [] }
    ensures trails { (job : Job) (rules : ListOf Rule)
        → AreTrails (course_in job rules) (view_of result) }
{
    MemoryDisk::new(alloc, List::empty(alloc))
}

/// The disk that the last of these starts leaves.
fn after_stops<T: Turns>(
    alloc: Global,
    stops: &[Stop],
    shelf: &mut MemoryShelf,
    disk: MemoryDisk,
    turns: &mut T,
    out: &mut MemorySink,
    routines: &[Box<dyn Routine>],
    meter: &mut Meter,
) -> Result<MemoryDisk, Memory>
    requires few { length routines.now ≤ 2 ^ 32 }
    ensures { IfOk result (λ left. AreStopped
        (routines_of (map rule routines.now) (map spec_of routines.now)) stops.now
        (stage shelf.old disk (T.begun turns.old) out.old meter.old)
        (stage shelf.new left (T.begun turns.new) out.new meter.new)) }
{
    let mut left = disk;
    'stops: for stop in stops {
        left = stopped(alloc, stop, shelf, left, turns, out, routines, meter)?;
    }
    Ok(left)
}

/// The disk that one start leaves, which is stopped.
fn stopped<T: Turns>(
    alloc: Global,
    stop: &Stop,
    shelf: &mut MemoryShelf,
    disk: MemoryDisk,
    turns: &mut T,
    out: &mut MemorySink,
    routines: &[Box<dyn Routine>],
    meter: &mut Meter,
) -> Result<MemoryDisk, Memory>
    requires few { length routines.now ≤ 2 ^ 32 }
    ensures { IfOk result (λ left. IsStopped
        (routines_of (map rule routines.now) (map spec_of routines.now)) stop.now
        (stage shelf.old disk (T.begun turns.old) out.old meter.old)
        (stage shelf.new left (T.begun turns.new) out.new meter.new)) }
{
    let mut fuse = FuseDisk::new(disk, stop.calls);
    start(
        alloc,
        stop.words.as_slice(),
        shelf,
        &mut fuse,
        turns,
        out,
        routines,
        meter,
    )?;
    let image = fuse.into_image(stop.choice)?;
    Ok(image)
}

/// The status of one start over a disk and a new wire.
fn start<D: Disk, T: Turns>(
    alloc: Global,
    words: &[Text],
    shelf: &mut MemoryShelf,
    disk: &mut D,
    turns: &mut T,
    out: &mut MemorySink,
    routines: &[Box<dyn Routine>],
    meter: &mut Meter,
) -> Result<u8, Memory>
    requires few { length routines.now ≤ 2 ^ 32 }
    ensures { (before after : History) → IfOk result (IsStarted
        (routines_of (map rule routines.now) (map spec_of routines.now)) words.now
        (stage shelf.old before (T.begun turns.old) out.old meter.old)
        (stage shelf.new after (T.begun turns.new) out.new meter.new)
        (lent_disk D.Disk disk.old disk.new) (D.folders disk.new)) }
{
    let mut wire = MemoryWire::new(alloc, MOST_PARTS)?;
    Ok(cactus(
        alloc, words, shelf, disk, &mut wire, turns, out, routines, meter,
    ))
}
