//! The disk over folders in memory that tell what their files hold.
ghost use Rattle.std.specs.Prelude.{◌≡◌, IfOk, IsTrue};
ghost use Rattle.cx_disk.specs.Disk.{files_in};

use cx_disk::{Disk, OLD_OUTPUT};
use cx_folder::{FolderDisk, MemoryFolder};
use cx_text::{List, Text};
use std::alloc::Global;
use std::test::Fail;
use test_cases::same;

/// A disk over folders in memory, made for these and mounted on them.
fn mounted(alloc: Global) -> Result<FolderDisk<MemoryFolder>, Fail>
    ensures mounted { IfOk result (λ disk. IsTrue disk.mounted) }
    ensures count { IfOk result (λ disk. files_in disk.folders ≡ 9) }
{
    let output = Text::from_slice(alloc, b"out")?;
    let checkpoints = Text::from_slice(alloc, b"chk")?;
    let names = List::empty(alloc);
    let folder = MemoryFolder::new(alloc);
    let mut disk = FolderDisk::on(folder, alloc, &output, &names, &checkpoints)?;
    disk.mount(&output, &names, &checkpoints)?;
    Ok(disk)
}

#[test]
fn folders_tell_what_was_done(rt: HostRuntime) -> Result<(), Fail> {
    let mut disk = mounted(rt.alloc())?;
    disk.write_at(OLD_OUTPUT, 0, b"0123")?;
    disk.sync(OLD_OUTPUT)?;
    let folder = disk.into_inner();
    let found = folder.bytes(b"out/output.asc");
    same(
        &"the bytes under the file's path",
        &found,
        &b"0123".as_slice(),
    )?;
    // The file was made, written and synced, and then both folders were.
    same(&"the events", &folder.events().len(), &5)
}
