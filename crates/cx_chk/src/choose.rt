//! Which slot is the newest, and which one a save takes.
ghost use Rattle.std.specs.Prelude.{◌≡◌, ◌<◌, ◌≤◌, ◌+◌, length, IsTrue, IfOk, IfSome, Some, option_map};
ghost use Rattle.cx_disk.specs.Keeps.{Keeps};
ghost use Rattle.cx_disk.specs.Moments.{IsQuiet};
ghost use Rattle.cx_disk.specs.Files.{slot_count};
ghost use Rattle.cx_chk.specs.Slots.{IsNewestIn, goes_before, newer, place_of, older, IsNext};

use crate::header::{header, mark};
use cx_disk::{Disk, DiskFault, SLOTS};

/// Whether a slot goes before an earlier one.
fn goes_before(second: bool, was_second: bool, iteration: u64, best: u64) -> bool
    ensures { result ≡ goes_before second was_second iteration best }
{
    best < iteration || (best == iteration && (second && !was_second))
}

/// The newer of the newest so far and one more slot.
fn newer_of(
    best: Option<(u32, u64, bool)>,
    slot: u32,
    found: Option<(u64, bool)>,
) -> Option<(u32, u64, bool)>
    ensures { result ≡ newer best slot found }
{
    match (best, found) {
        (_, None) => best,
        (None, Some((iteration, second))) => Some((slot, iteration, second)),
        (Some((_, newest, was_second)), Some((iteration, second))) => {
            if goes_before(second, was_second, iteration, newest) {
                Some((slot, iteration, second))
            } else {
                best
            }
        }
    }
}

/// Its place.
fn place_of(best: Option<(u32, u64, bool)>) -> Option<(u32, u64)>
    ensures { result ≡ option_map place_of best }
{
    match best {
        Some((slot, iteration, _)) => Some((slot, iteration)),
        None => None,
    }
}

/// The older of the oldest so far and one more slot.
fn older_of(oldest: Option<(u32, u64)>, slot: u32, iteration: u64) -> (u32, u64)
    ensures { result ≡ older oldest slot iteration }
{
    match oldest {
        None => (slot, iteration),
        Some((first, least)) => {
            if iteration < least {
                (slot, iteration)
            } else {
                (first, least)
            }
        }
    }
}

/// The newest slot and its iteration.
pub fn newest<D: Disk>(disk: &mut D) -> Result<Option<(u32, u64)>, DiskFault>
    requires mounted { IsTrue (D.mounted disk.old) }
    requires files { slot_count ≤ D.file_count disk.old }
    ensures newest { D.tells → IfOk result (IsNewestIn (D.view disk.old).seen) }
    ensures known { IfOk result (λ found. IfSome found (λ f. f.0 < slot_count)) }
    ensures quiet { D.tells → IsQuiet (D.view disk.old) (D.view disk.new) }
    ensures kept { Keeps D.Disk DiskFault.Failed disk.old disk.new result }
{
    let mut best = None;
    'look: for slot in 0..SLOTS {
        let found = mark(disk, slot)?;
        best = newer_of(best, slot, found);
    }
    Ok(place_of(best))
}

/// The slot that a save takes.
pub fn next<D: Disk>(disk: &mut D, keep: u32) -> Result<u32, DiskFault>
    requires mounted { IsTrue (D.mounted disk.old) }
    requires files { slot_count ≤ D.file_count disk.old }
    requires keep { keep < slot_count }
    ensures next { D.tells → IfOk result (λ slot. IsNext (D.view disk.old).seen keep slot) }
    ensures known { IfOk result (λ slot. slot ≤ keep) }
    ensures quiet { D.tells → IsQuiet (D.view disk.old) (D.view disk.new) }
    ensures kept { Keeps D.Disk DiskFault.Failed disk.old disk.new result }
{
    let mut oldest = None;
    'look: for slot in 0..keep + 1 {
        let Some(iteration) = header(disk, slot)? else {
            return Ok(slot);
        };
        oldest = Some(older_of(oldest, slot, iteration));
    }
    match oldest {
        Some((slot, _)) => Ok(slot),
        None => Ok(0),
    }
}
