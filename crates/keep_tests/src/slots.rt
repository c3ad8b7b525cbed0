//! Small checkpoints, and the bytes of their slots.
ghost use Rattle.std.specs.Prelude.{IfOk};
ghost use Rattle.cx_chk.specs.Encoding.{IsCheckpoint};

use cx_chk::{Checkpoint, decode};
use cx_text::Memory;
use std::alloc::{AllocError, Global};

/// The slot of version 1 of the checkpoint of iteration 20 with the key `k`, one output file of 300 bytes, a scalar -1, and
/// one level with 0 and 1.
pub const BARE_SLOT: &[u8] = b"\x01CXCHKPT\x01\0\0\0\0\0\0\0\x14\0\0\0\x01k\
    \0\0\0\x01\0\0\0\0\0\0\x01\x2c\0\0\0\x01\xff\xff\xff\xff\xff\xff\xff\xff\
    \0\0\0\x01\0\0\0\0\0\0\0\x02\0\0\0\0\0\0\0\0\0\0\0\0\0\0\0\x01";

/// The slot of version 2 of the checkpoint of iteration 20 with the key `k`, and the output file `p.asc` of 149 bytes.
pub const NAMED_SLOT: &[u8] = b"\x01CXCHKPT\x02\0\0\0\0\0\0\0\x14\0\0\0\x01k\
    \0\0\0\x01\0\0\0\x05p.asc\0\0\0\0\0\0\0\x95\0\0\0\0\0\0\0\0";

/// The bytes of a slot with another byte at one place.
pub fn slot_with(alloc: Global, slot: &[u8], at: usize, byte: u8) -> Result<Vec<u8>, AllocError> {
    let mut bytes = slot.to_vec(alloc)?;
    if at < bytes.len() {
        bytes[at] = byte;
    }
    Ok(bytes)
}

/// The slot of version 1 with another iteration.
pub fn slot(alloc: Global, iteration: u8) -> Result<Vec<u8>, AllocError> {
    slot_with(alloc, BARE_SLOT, 16, iteration)
}

/// The slot of version 2 with another iteration.
pub fn named_slot(alloc: Global, iteration: u8) -> Result<Vec<u8>, AllocError> {
    slot_with(alloc, NAMED_SLOT, 16, iteration)
}

/// The slot of version 1 with the gate shut.
pub fn shut_slot(alloc: Global) -> Result<Vec<u8>, AllocError> {
    slot_with(alloc, BARE_SLOT, 0, 0)
}

/// The checkpoint of the slot of version 1 with another iteration.
pub fn checkpoint(alloc: Global, iteration: u8) -> Result<Checkpoint, Memory>
    ensures { IfOk result IsCheckpoint }
{
    match decode(alloc, &slot(alloc, iteration)?)? {
        Some(found) => Ok(found),
        None => Err(Memory),
    }
}
