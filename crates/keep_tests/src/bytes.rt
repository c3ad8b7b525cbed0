//! Bytes that spell no checkpoint.

ghost use Rattle.std.specs.Prelude.{◌<◌, length};

use crate::slots::{BARE_SLOT, NAMED_SLOT, slot_with};
use cx_chk::decode;
use std::alloc::Global;
use std::fmt::Debug;
use std::test::Fail;
use test_cases::same;

/// The bytes spell no checkpoint.
fn spells_none<C: Debug>(alloc: Global, case: &C, bytes: &[u8]) -> Result<(), Fail> {
    same(case, &decode(alloc, bytes)?.is_none(), &true)
}

/// Neither the first k bytes of a slot spell one, nor all its bytes but byte k.
fn byte_missing(alloc: Global, version: u8, slot: &[u8], k: usize) -> Result<(), Fail>
    requires { k < length slot.now }
{
    spells_none(alloc, &(version, "the first bytes", k), &slot[..k])?;
    let mut bytes = slot[..k].to_vec(alloc)?;
    bytes.extend_from_slice(&slot[k + 1..])?;
    spells_none(alloc, &(version, "without byte", k), &bytes)
}

/// The slot of a version where a byte is missing.
fn bytes_missing(alloc: Global, version: u8, slot: &[u8]) -> Result<(), Fail> {
    for k in 0..slot.len() {
        byte_missing(alloc, version, slot, k)?;
    }
    Ok(())
}

/// The slot of a version with another one.
fn other_version(alloc: Global, version: u8, slot: &[u8], other: u8) -> Result<(), Fail> {
    let bytes = slot_with(alloc, slot, 8, other)?;
    spells_none(alloc, &(version, "with version", other), &bytes)
}

#[test]
fn spoiled_bytes_spell_no_checkpoint(rt: HostRuntime) -> Result<(), Fail> {
    for (version, slot) in [(1, BARE_SLOT), (2, NAMED_SLOT)] {
        bytes_missing(rt.alloc(), version, slot)?;
        other_version(rt.alloc(), version, slot, 0)?;
        other_version(rt.alloc(), version, slot, 3)?;
    }
    Ok(())
}
