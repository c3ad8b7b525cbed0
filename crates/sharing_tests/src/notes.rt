//! Disks that note in one list whose calls change a file.
ghost use Rattle.std.specs.Prelude.{◌≡◌, IsTrue, OnOk};
ghost use Rattle.cx_disk.specs.Files.{count_with};

use cx_disk::{Disk, MemoryDisk, NotingDisk};
use cx_text::{List, Text};
use std::alloc::{AllocError, Global};
use std::cell::RefCell;
use std::rc::Rc;
use std::test::Fail;
use test_cases::same;

/// Mounts a disk whose outputs have no names.
fn mount<D: Disk>(alloc: Global, disk: &mut D) -> Result<(), Fail>
    ensures mounted { OnOk result (IsTrue (D.mounted disk.new)) }
    ensures files { OnOk result (D.file_count disk.new ≡ count_with 0) }
{
    let folder = Text::from_slice(alloc, b"out")?;
    disk.mount(&folder, &List::empty(alloc), &folder)?;
    Ok(())
}

/// Changes a file of the first disk, one of the second, and then the first one's twice.
fn change_in_turns(
    alloc: Global,
    first: &mut NotingDisk,
    second: &mut NotingDisk,
) -> Result<(), Fail> {
    mount(alloc, first)?;
    mount(alloc, second)?;
    first.write_at(0, 0, b"one")?;
    second.write_at(0, 0, b"two")?;
    second.length(0)?;
    first.cut(0, 0)?;
    first.sync(0)?;
    Ok(())
}

/// A list that several disks may hold.
fn new_list(alloc: Global) -> Result<Rc<RefCell<Vec<u32>>>, AllocError> {
    Ok(Rc::new(alloc, RefCell::new(Vec::new(alloc)))?)
}

#[test]
fn noting_disks_share_a_list(rt: HostRuntime) -> Result<(), Fail> {
    let alloc = rt.alloc();
    let list = new_list(alloc)?;
    let mut first = NotingDisk::new(MemoryDisk::new(alloc, List::empty(alloc)), 1, list.clone()?);
    let mut second = NotingDisk::new(MemoryDisk::new(alloc, List::empty(alloc)), 2, list.clone()?);
    change_in_turns(alloc, &mut first, &mut second)?;
    let Ok(notes) = list.try_borrow() else {
        return Err(Fail::new("the list is in use"));
    };
    same(
        &"whose calls changed a file",
        &notes.as_slice(),
        &[1, 2, 1, 1].as_slice(),
    )
}
