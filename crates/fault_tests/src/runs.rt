//! What is said of a start and of chunks.

use crate::common::{says, text};
use cx_chunks::ChunkFault;
use cx_keep::BeginFault;
use cx_run_chunks::ChunksFault;
use std::test::Fail;

#[test]
fn starts(rt: HostRuntime) -> Result<(), Fail> {
    let alloc = rt.alloc();
    says(&rt, BeginFault::NoCheckpoint, "NoCheckpoint");
    let kept = text(alloc, b"points 8")?;
    let own = text(alloc, b"points 9")?;
    let fault = BeginFault::OtherJob(kept, own);
    says(&rt, fault, "OtherJob\npoints 8\npoints 9");
    says(&rt, BeginFault::Damaged(1), "Damaged 1");
    says(&rt, BeginFault::OutputShort(10, 300), "OutputShort 10 300");
    let fault = BeginFault::OldTooLong(300000000, 268435456);
    says(&rt, fault, "OldTooLong 300000000 268435456");
    says(&rt, BeginFault::Disk, "Disk");
    says(&rt, BeginFault::Memory, "Memory");
    Ok(())
}

#[test]
fn chunks(rt: HostRuntime) -> Result<(), Fail> {
    let alloc = rt.alloc();
    let name = text(alloc, b"ca::cell.asc")?;
    says(&rt, ChunkFault::NotOutput(name), "NotOutput ca::cell.asc");
    says(&rt, ChunkFault::TooLong(10, 9), "TooLong 10 9");
    says(&rt, ChunkFault::Bad(1), "Bad 1");
    let name = text(alloc, b"ca::cell")?;
    let fault = ChunkFault::Stranger(0, name, 0);
    says(&rt, fault, "Stranger 0 ca::cell 0");
    let name = text(alloc, b"ca::cell")?;
    says(&rt, ChunkFault::Double(0, name, 2), "Double 0 ca::cell 2");
    let name = text(alloc, b"ca::cell")?;
    says(&rt, ChunkFault::Missing(1, name, 1), "Missing 1 ca::cell 1");
    says(&rt, ChunkFault::Memory, "Memory");
    says(&rt, ChunksFault::Chunks(ChunkFault::Bad(1)), "Bad 1");
    says(&rt, ChunksFault::Disk, "Disk");
    Ok(())
}
