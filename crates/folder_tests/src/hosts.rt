//! The disk over folders of the host.
ghost use Rattle.std.specs.Prelude.{◌≡◌, IsTrue, OnOk};
ghost use Rattle.cx_disk.specs.Disk.{files_in};

use cx_disk::{Disk, DiskFault, OLD_OUTPUT, RECOMBINED, SLOTS, chunk, named_output, rewrite};
use cx_folder::{Folder, FolderDisk, HostFolder};
use cx_text::{List, Text};
use std::alloc::Global;
use std::fs;
use std::test::Fail;
use test_cases::same;

// A disk over folders of the host, which isn't mounted.
fn host_disk(rt: HostRuntime) -> FolderDisk<HostFolder<HostRuntime>> {
    let alloc = rt.alloc();
    FolderDisk::new(HostFolder::new(rt, alloc), alloc)
}

// Mounts these folders, with one output.
fn mount_one<F: Folder + Drop>(
    alloc: Global,
    disk: &mut FolderDisk<F>,
    output: &str,
    checkpoints: &str,
) -> Result<(), Fail>
    ensures mounted { OnOk result (IsTrue disk.new.mounted) }
    ensures count { OnOk result (files_in disk.new.folders ≡ 10) }
{
    let output = Text::from_slice(alloc, output.as_bytes())?;
    let checkpoints = Text::from_slice(alloc, checkpoints.as_bytes())?;
    let mut names = List::empty(alloc);
    names.push(Text::from_slice(alloc, b"ca::cell.asc")?)?;
    Ok(disk.mount(&output, &names, &checkpoints)?)
}

// Mounts a folder, with two outputs.
fn mount_two<F: Folder + Drop>(alloc: Global, disk: &mut FolderDisk<F>) -> Result<(), Fail>
    ensures mounted { OnOk result (IsTrue disk.new.mounted) }
    ensures count { OnOk result (files_in disk.new.folders ≡ 11) }
{
    let folder = Text::from_slice(alloc, b"named")?;
    let mut names = List::empty(alloc);
    names.push(Text::from_slice(alloc, b"ca::cell.asc")?)?;
    names.push(Text::from_slice(alloc, b"ca::live.asc")?)?;
    Ok(disk.mount(&folder, &names, &folder)?)
}

// Writes the second output, the last chunk, and what chunks are combined into.
fn write_named<F: Folder + Drop>(alloc: Global, disk: &mut FolderDisk<F>) -> Result<(), Fail>
    requires { F.tells → ⊥ }
{
    mount_two(alloc, disk)?;
    rewrite(disk, named_output(1), b"second output")?;
    rewrite(disk, chunk(511), b"last chunk")?;
    rewrite(disk, RECOMBINED, b"recombined")?;
    Ok(())
}

// The same on the host.
fn write_on_host(rt: HostRuntime) -> Result<(), Fail> {
    let mut disk = host_disk(rt);
    write_named(rt.alloc(), &mut disk)
}

#[test]
fn a_host_names_files(rt: HostRuntime) -> Result<(), Fail> {
    write_on_host(rt)?;
    let cases: &[(&str, &str)] = &[
        ("named/ca::live.asc", "second output"),
        ("named/chunk.511.asc", "last chunk"),
        ("named/recombined.asc", "recombined"),
    ];
    for (path, bytes) in cases {
        same(&path, &fs::read_to_string(&rt, path)?.as_str(), bytes)?;
    }
    Ok(())
}

// Writes an output, and a slot that it cuts, and reads a range of the slot.
fn keep_files<F: Folder + Drop>(alloc: Global, disk: &mut FolderDisk<F>) -> Result<[u8; 3], Fail>
    requires { F.tells → ⊥ }
{
    mount_one(alloc, disk, "new/out", "new")?;
    rewrite(disk, named_output(0), b"cells")?;
    disk.write_at(SLOTS - 1, 0, b"0123456789")?;
    disk.write_at(SLOTS - 1, 8, b"abcd")?;
    disk.sync(SLOTS - 1)?;
    disk.cut(SLOTS - 1, 10)?;
    let mut within = [0; 3];
    disk.read(SLOTS - 1, 7, &mut within)?;
    Ok(within)
}

// The same on the host.
fn keep_on_host(rt: HostRuntime) -> Result<[u8; 3], Fail> {
    let mut disk = host_disk(rt);
    keep_files(rt.alloc(), &mut disk)
}

#[test]
fn a_host_keeps_files(rt: HostRuntime) -> Result<(), Fail> {
    keep_on_host(rt)?;
    let cases: &[(&str, &str)] = &[
        ("new/out/ca::cell.asc", "cells"),
        ("new/checkpoint.chkpt.7", "01234567ab"),
    ];
    for (path, bytes) in cases {
        same(&path, &fs::read_to_string(&rt, path)?.as_str(), bytes)?;
    }
    Ok(())
}

#[test]
fn a_host_reads_ranges(rt: HostRuntime) -> Result<(), Fail> {
    let within = keep_on_host(rt)?;
    same(&"a range within a file", &within, &*b"7ab")
}

// What a call told.
type Told = Result<(), DiskFault>;

// Three disks in one folder: what the second is told, which was mounted before the first made it, and the third.
fn share<F: Folder + Drop>(
    alloc: Global,
    first: &mut FolderDisk<F>,
    second: &mut FolderDisk<F>,
    third: &mut FolderDisk<F>,
) -> Result<(Told, Told), Fail>
    requires { F.tells → ⊥ }
{
    mount_one(alloc, first, "one", "./one")?;
    mount_one(alloc, second, "one", "one")?;
    first.write_at(OLD_OUTPUT, 0, b"first")?;
    let made = second.write_at(OLD_OUTPUT, 0, b"second");
    let here = Text::from_slice(alloc, b"one")?;
    let locked = third.mount(&here, &List::empty(alloc), &here);
    Ok((made, locked))
}

// The same on the host.
fn share_on_host(rt: HostRuntime) -> Result<(Told, Told), Fail> {
    let mut first = host_disk(rt);
    let mut second = host_disk(rt);
    let mut third = host_disk(rt);
    share(rt.alloc(), &mut first, &mut second, &mut third)
}

#[test]
fn one_run_has_a_folder(rt: HostRuntime) -> Result<(), Fail> {
    let (made, locked) = share_on_host(rt)?;
    let cases: &[(&str, Told)] = &[
        ("another run has made the folder", made),
        ("another run has the lock", locked),
    ];
    for (case, told) in cases {
        same(&case, told, &Err(DiskFault::Failed))?;
    }
    Ok(())
}

// Writes five bytes to a folder.
fn write_five<F: Folder + Drop>(alloc: Global, disk: &mut FolderDisk<F>) -> Result<(), Fail>
    requires { F.tells → ⊥ }
{
    mount_one(alloc, disk, "left", "left")?;
    Ok(disk.write_at(OLD_OUTPUT, 0, b"first")?)
}

// How many bytes are in that folder.
fn length_left<F: Folder + Drop>(alloc: Global, disk: &mut FolderDisk<F>) -> Result<u64, Fail>
    requires { F.tells → ⊥ }
{
    mount_one(alloc, disk, "left", "left")?;
    Ok(disk.length(OLD_OUTPUT)?)
}

// How many bytes a disk finds in the folder of one that is gone.
fn left_on_host(rt: HostRuntime) -> Result<u64, Fail> {
    let mut first = host_disk(rt);
    write_five(rt.alloc(), &mut first)?;
    drop(first);
    let mut next = host_disk(rt);
    length_left(rt.alloc(), &mut next)
}

#[test]
fn a_run_leaves_its_folder(rt: HostRuntime) -> Result<(), Fail> {
    let left = left_on_host(rt)?;
    same(&"what the first run wrote", &left, &5)
}

// What a disk is told of names that clash, of ranges that aren't in a file, and of a second mount.
fn fail_calls<F: Folder + Drop>(
    alloc: Global,
    disk: &mut FolderDisk<F>,
) -> Result<(Told, Told, Told, Told, Told), Fail>
    requires { F.tells → ⊥ }
{
    let here = Text::from_slice(alloc, b"other")?;
    let mut names = List::empty(alloc);
    names.push(Text::from_slice(alloc, b"output.asc")?)?;
    let clashing = disk.mount(&here, &names, &here);
    mount_one(alloc, disk, "other", "other")?;
    disk.write_at(OLD_OUTPUT, 0, b"012345678")?;
    let mut into = [0; 3];
    let written = disk.write_at(OLD_OUTPUT, 10, b"x");
    let cut = disk.cut(OLD_OUTPUT, 10);
    let read = disk.read(OLD_OUTPUT, 7, &mut into);
    let mounted = disk.mount(&here, &List::empty(alloc), &here);
    Ok((clashing, written, cut, read, mounted))
}

// The same on the host.
fn fail_on_host(rt: HostRuntime) -> Result<(Told, Told, Told, Told, Told), Fail> {
    let mut disk = host_disk(rt);
    fail_calls(rt.alloc(), &mut disk)
}

#[test]
fn a_host_fails_outside_its_files(rt: HostRuntime) -> Result<(), Fail> {
    let (clashing, written, cut, read, mounted) = fail_on_host(rt)?;
    let cases: &[(&str, Told)] = &[
        ("an output with the path of another file", clashing),
        ("a write past the end", written),
        ("a cut to more than the file", cut),
        ("a range that isn't there", read),
        ("a second mount", mounted),
    ];
    for (case, told) in cases {
        same(&case, told, &Err(DiskFault::Failed))?;
    }
    Ok(())
}
