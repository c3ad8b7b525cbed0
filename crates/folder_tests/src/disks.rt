//! The disk over folders in memory.
ghost use Rattle.std.specs.Prelude.{◌≡◌, length, IfOk, IsTrue};
ghost use Rattle.cx_disk.specs.Disk.{files_in};
ghost use Rattle.cx_disk.specs.Files.{IsFile};

use crate::memory::MemoryFolder;
use cx_disk::{Disk, DiskFault, OLD_OUTPUT, RECOMBINED, SLOTS, chunk, named_output};
use cx_folder::FolderDisk;
use cx_text::{List, Text};
use std::alloc::Global;
use std::test::Fail;
use test_cases::same;

/// The name of one output.
fn one_name(alloc: Global, name: &str) -> Result<List<Text>, Fail>
    ensures { IfOk result (λ names. length names ≡ 1) }
{
    let mut names = List::empty(alloc);
    names.push(Text::from_slice(alloc, name.as_bytes())?)?;
    Ok(names)
}

/// A disk over folders in memory, of whose calls this one fails, with one output.
fn mounted(alloc: Global, fail: usize) -> Result<FolderDisk<MemoryFolder>, Fail>
    ensures mounted { IfOk result (λ disk. IsTrue disk.mounted) }
    ensures count { IfOk result (λ disk. files_in disk.folders ≡ 10) }
{
    let output = Text::from_slice(alloc, b"out")?;
    let checkpoints = Text::from_slice(alloc, b"")?;
    let names = one_name(alloc, "ca::cell.asc")?;
    let mut disk = FolderDisk::new(MemoryFolder::new(alloc, fail), alloc);
    disk.mount(&output, &names, &checkpoints)?;
    Ok(disk)
}

/// Writes its path to a file.
fn write_path(disk: &mut FolderDisk<MemoryFolder>, file: u32, path: &str) -> Result<(), DiskFault>
    requires mounted { IsTrue disk.old.mounted }
    requires file { IsFile (files_in disk.old.folders) file }
    ensures mounted { IsTrue disk.new.mounted }
    ensures folders { disk.new.folders ≡ disk.old.folders }
{
    disk.write_at(file, 0, path.as_bytes())
}

/// Files of each kind by their paths.
const PATHS: &[&str] = &[
    "./checkpoint.chkpt.0",
    "./checkpoint.chkpt.7",
    "out/output.asc",
    "out/ca::cell.asc",
    "out/chunk.0.asc",
    "out/chunk.511.asc",
    "out/recombined.asc",
];

#[test]
fn files_have_their_paths(rt: HostRuntime) -> Result<(), Fail> {
    let mut disk = mounted(rt.alloc(), 0)?;
    write_path(&mut disk, 0, PATHS[0])?;
    write_path(&mut disk, SLOTS - 1, PATHS[1])?;
    write_path(&mut disk, OLD_OUTPUT, PATHS[2])?;
    write_path(&mut disk, named_output(0), PATHS[3])?;
    write_path(&mut disk, chunk(0), PATHS[4])?;
    write_path(&mut disk, chunk(511), PATHS[5])?;
    write_path(&mut disk, RECOMBINED, PATHS[6])?;
    let folder = disk.into_inner();
    for path in PATHS {
        same(&path, &folder.reads(path, path.as_bytes()), &true)?;
    }
    Ok(())
}

#[test]
fn a_sync_settles_a_file_and_new_entries(rt: HostRuntime) -> Result<(), Fail> {
    let mut disk = mounted(rt.alloc(), 0)?;
    disk.write_at(OLD_OUTPUT, 0, b"0123")?;
    disk.write_at(OLD_OUTPUT, 4, b"45")?;
    disk.sync(OLD_OUTPUT)?;
    disk.write_at(OLD_OUTPUT, 6, b"6")?;
    disk.cut(OLD_OUTPUT, 4)?;
    disk.sync(OLD_OUTPUT)?;
    let folder = disk.into_inner();
    same(
        &"what the folders were asked",
        &folder.notes(),
        &"omwwsffowcs",
    )
}

/// Whether a second sync and a later write fail, where one of the calls failed in a first sync.
fn after_failed_sync(alloc: Global, fail: usize) -> Result<(bool, bool), Fail> {
    let mut disk = mounted(alloc, fail)?;
    disk.write_at(OLD_OUTPUT, 0, b"0123")?;
    if disk.sync(OLD_OUTPUT).is_ok() {
        return Ok((false, false));
    }
    let synced = disk.sync(OLD_OUTPUT);
    let written = disk.write_at(OLD_OUTPUT, 4, b"4");
    Ok((synced.is_err(), written.is_err()))
}

#[test]
fn a_failed_sync_is_not_trusted_again(rt: HostRuntime) -> Result<(), Fail> {
    // A file is opened, made and written; call 4 is its sync, and calls 5 and 6 are those of the folders.
    let cases: &[(usize, (bool, bool))] = &[
        (4, (true, true)),
        (5, (true, false)),
        (6, (true, false)),
    ];
    for (fail, fails) in cases {
        let found = after_failed_sync(rt.alloc(), *fail)?;
        same(&("call", fail), &found, fails)?;
    }
    Ok(())
}

#[test]
fn two_files_have_two_paths(rt: HostRuntime) -> Result<(), Fail> {
    let alloc = rt.alloc();
    let here = Text::from_slice(alloc, b"")?;
    let cases: &[&str] = &["output.asc", "checkpoint.chkpt.3", "chunk.511.asc"];
    for case in cases {
        let names = one_name(alloc, case)?;
        let mut disk = FolderDisk::new(MemoryFolder::new(alloc, 0), alloc);
        let found = disk.mount(&here, &names, &here);
        same(&case, &found, &Err(DiskFault::Failed))?;
    }
    Ok(())
}
