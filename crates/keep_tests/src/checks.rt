//! What the files of an image may hold.

use cx_disk::{MemoryDisk, OLD_OUTPUT, SLOTS};

/// Whether the bytes of a slot are those of one that isn't open.
fn is_closed(bytes: &[u8]) -> bool {
    bytes.len() < 17 || bytes[0] != 1
}

/// Whether a slot is as before, or closed.
fn is_within_closing(before: &[u8], bytes: &[u8]) -> bool {
    bytes == before || is_closed(bytes)
}

/// Whether all files but one slot are as before, and this one is as before, or closed, or has these bytes.
pub fn save_kept(before: &MemoryDisk, image: &MemoryDisk, slot: usize, saved: &[u8]) -> bool {
    let bytes = image.bytes(slot);
    let within = bytes == saved || is_within_closing(before.bytes(slot), bytes);
    within
        && (0..OLD_OUTPUT as usize + 1).all(|file| file == slot
            || image.bytes(file) == before.bytes(file))
}

/// Whether each slot is as before, or closed, and the output is as before.
pub fn closing_kept(before: &MemoryDisk, image: &MemoryDisk) -> bool {
    let output = OLD_OUTPUT as usize;
    let same = image.bytes(output) == before.bytes(output);
    same && (0..SLOTS as usize).all(|slot| is_within_closing(before.bytes(slot), image.bytes(slot)))
}

/// Whether all files are as before, but for one slot, which is as before or, if the closing is done, closed.
pub fn one_closed(before: &MemoryDisk, image: &MemoryDisk, slot: usize, done: bool) -> bool {
    let bytes = image.bytes(slot);
    let within = is_closed(bytes) || !done && bytes == before.bytes(slot);
    within
        && (0..OLD_OUTPUT as usize + 1).all(|file| file == slot
            || image.bytes(file) == before.bytes(file))
}

/// Whether the newest slot is the one that was saved or, unless the save is done, the one that was the newest.
pub fn newest_after_save(newest: Option<(u32, u64)>, done: bool, taken: u32) -> bool {
    match newest {
        Some((slot, 30)) => slot == taken,
        Some((0, 20)) => !done,
        _ => false,
    }
}

/// Whether no slot is open or, unless the closing is done, the newest is one that was open.
pub fn newest_after_closing(newest: Option<(u32, u64)>, done: bool) -> bool {
    match newest {
        Some((0, 20)) | Some((1, 10)) | Some((4, 5)) => !done,
        Some(_) => false,
        None => true,
    }
}
