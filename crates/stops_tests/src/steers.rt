//! A run whose steer file has changed after it was stopped: from each of its checkpoints up to the change it goes on
//! with the new lines.

use cx_disk::{Disk, FuseDisk, MemoryDisk};
use cx_text::List;
use sample_files::File;
use sample_runs::{Outcome, answer_over, shelf_with};
use std::test::Fail;
use test_cases::same;

/// The parameters of the wave, whose factor may be steered anywhere.
const PARAM: File = File {
    name: "arrangements/Integer/WaveInt/param.ccl",
    bytes: b"restricted:\n\
        INT factor STEERABLE=ALWAYS { 0:* } 64\n\
        KEYWORD pattern { \"point\" \"uniform\" \"alternate\" \"random\" } \"point\"\n\
        INT amount { *:* } 8\n\
        INT start { 0:* } 0\n\
        INT seed { 0:* } 0\n\
        INT edge { *:* } 0\n\
        BOOLEAN sum { } \"no\"\n",
};

/// A wave on a ring of six points, with a checkpoint of each of two iterations.
const WAVE: &[u8] = b"ActiveThorns = \"WaveInt\"\n\
    Cactus::cctk_itlast = 2\n\
    driver::global_nx = 6\n\
    driver::periodic = yes\n\
    wave::factor = 256\n\
    wave::start = 2\n\
    IO::out_vars = \"wave::phi\"\n\
    IO::checkpoint_every = 1\n\
    IO::recover = \"autoprobe\"\n\
    IO::steer_file = \"s.txt\"\n";

/// No speed in iteration 2.
const LINE: &[u8] = b"@2 wave::factor = 0\n";

/// What the wave writes with this line, and without it.
const STEERED: &[u8] = b"# wave::phi iteration 0 size 6\n\
    0 0 8 0 0 0\n\
    \n\
    # wave::phi iteration 1 size 6\n\
    0 8 -8 8 0 0\n\
    \n\
    # wave::phi iteration 2 size 6\n\
    0 16 -24 16 0 0\n\
    \n";

const UNSTEERED: &[u8] = b"# wave::phi iteration 0 size 6\n\
    0 0 8 0 0 0\n\
    \n\
    # wave::phi iteration 1 size 6\n\
    0 8 -8 8 0 0\n\
    \n\
    # wave::phi iteration 2 size 6\n\
    8 -8 8 -8 8 0\n\
    \n";

/// A start of the wave with these lines over a disk.
fn start_with<D: Disk>(
    rt: &HostRuntime,
    lines: &'static [u8],
    disk: &mut D,
) -> Result<Outcome, Fail> {
    let steer_file = File {
        name: "s.txt",
        bytes: lines,
    };
    let mut shelf = shelf_with(rt.alloc(), WAVE, "", &[PARAM, steer_file])?;
    answer_over(rt, &["run", "t.par"], &mut shelf, disk)
}

/// The status of a run with these lines that stops after so many calls of the disk, and what it leaves.
fn stopped(rt: &HostRuntime, lines: &'static [u8], calls: u64) -> Result<(u8, MemoryDisk), Fail> {
    let alloc = rt.alloc();
    let disk = MemoryDisk::new(alloc, List::empty(alloc));
    let mut fuse = FuseDisk::new(disk, calls);
    let came = start_with(rt, lines, &mut fuse)?;
    Ok((came.status, fuse.into_image(calls)?))
}

/// The iteration of an open slot, or 0.
fn iteration_in(slot: &[u8]) -> u8 {
    if slot.first() == Some(&1) {
        slot.get(16).copied().unwrap_or(0)
    } else {
        0
    }
}

/// The lines of the first run and of the next one, what that one writes from a checkpoint before iteration 2, and what
/// it prints where the newest checkpoint is of iteration 2.
#[derive(Drop)]
struct Change {
    name: &'static str,
    before: &'static [u8],
    after: &'static [u8],
    output: &'static [u8],
    refused: &'static [u8],
}

/// The iteration of the newest checkpoint on a disk, or 0.
fn newest_on(disk: &MemoryDisk) -> u8 {
    iteration_in(disk.bytes(0)).max(iteration_in(disk.bytes(1)))
}

/// The points that a start computes which goes on from iteration 0 or 1. The beginning fills eight points, two of them
/// ghost points, and each iteration six.
fn points_from(newest: u8) -> u128 {
    if newest == 0 { 20 } else { 6 }
}

/// Fails unless the next start goes on from a checkpoint of iteration 0 or 1 with its own lines, and refuses that of
/// iteration 2.
fn starts(rt: &HostRuntime, change: &Change, calls: u64, mut disk: MemoryDisk) -> Result<u8, Fail> {
    let newest = newest_on(&disk);
    let came = start_with(rt, change.after, &mut disk)?;
    let case = (change.name, calls);
    if newest < 2 {
        let printed = b"done: iteration 2\n".as_slice();
        let found = (
            came.status,
            came.printed.as_slice(),
            disk.bytes(9),
            came.points,
        );
        let want = (0, printed, change.output, points_from(newest));
        same(&case, &found, &want)?;
    } else {
        let found = (came.status, came.printed.as_slice(), came.points);
        same(&case, &found, &(6, change.refused, 0))?;
    }
    Ok(newest)
}

/// More calls than a run makes.
const MANY_CALLS: u64 = 100;

/// The status of a first run that stops after so many calls, and the iteration of the checkpoint that the next one finds.
fn change_after(rt: &HostRuntime, change: &Change, calls: u64) -> Result<(u8, u8), Fail> {
    let (status, disk) = stopped(rt, change.before, calls)?;
    let newest = starts(rt, change, calls, disk)?;
    Ok((status, newest))
}

/// A first run stops after each of its calls, and the next one has other lines. Each of the three checkpoints is met.
fn change_lines(rt: &HostRuntime, change: &Change) -> Result<(), Fail> {
    let mut met = [false, false, false];
    for calls in 0..MANY_CALLS {
        let (status, newest) = change_after(rt, change, calls)?;
        if let Some(it) = met.get_mut(newest as usize) {
            *it = true;
        }
        if status == 0 {
            break;
        }
    }
    same(&change.name, &met, &[true, true, true])
}

#[test]
fn line_that_comes_in(rt: HostRuntime) -> Result<(), Fail> {
    let change = Change {
        name: "a line comes in",
        before: b"",
        after: LINE,
        output: STEERED,
        refused: b"recovery: OtherJob\n\nsteer 2 wave::factor = \"0\"\n",
    };
    change_lines(&rt, &change)
}

#[test]
fn line_that_is_taken_out(rt: HostRuntime) -> Result<(), Fail> {
    let change = Change {
        name: "a line is taken out",
        before: LINE,
        after: b"",
        output: UNSTEERED,
        refused: b"recovery: OtherJob\nsteer 2 wave::factor = \"0\"\n\n",
    };
    change_lines(&rt, &change)
}

/// Fails unless a start with a line of iteration 1 is refused.
fn is_refused(rt: &HostRuntime, calls: u64, mut disk: MemoryDisk) -> Result<(), Fail> {
    let came = start_with(rt, b"@1 wave::factor = 0\n", &mut disk)?;
    let found = (came.status, came.printed.as_slice(), came.points);
    let refused = b"recovery: OtherJob\n\nsteer 1 wave::factor = \"0\"\n".as_slice();
    same(&calls, &found, &(6, refused, 0))
}

/// The status of a run that stops after so many calls, and whether its newest checkpoint is of iteration 1. If so, the next
/// start is refused.
fn refused_after(rt: &HostRuntime, calls: u64) -> Result<(u8, bool), Fail> {
    let (status, disk) = stopped(rt, b"", calls)?;
    if newest_on(&disk) != 1 {
        return Ok((status, false));
    }
    is_refused(rt, calls, disk)?;
    Ok((status, true))
}

/// The next start has a line of the iteration that the newest checkpoint is of.
#[test]
fn line_of_the_newest_checkpoint(rt: HostRuntime) -> Result<(), Fail> {
    let mut met = false;
    for calls in 0..MANY_CALLS {
        let (status, is_met) = refused_after(&rt, calls)?;
        met = met || is_met;
        if status == 0 {
            break;
        }
    }
    same(&"a checkpoint of iteration 1", &met, &true)
}
