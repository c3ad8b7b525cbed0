//! A disk in memory that notes whose call it is.
ghost use Rattle.std.specs.Prelude.{◌≡◌, ◌≤◌, ◌+◌, length, slice_range, IsTrue, OnOk, OnErr, IfOk, IfErr};
ghost use Rattle.cx_disk.specs.Cause.{HasCause};
ghost use Rattle.cx_disk.specs.Disk.{files_in, IsNamed, SameFiles, OthersSame, Changes, Holds, Torn, Front, CutShort, Passes, IsSettled};
ghost use Rattle.cx_disk.specs.Files.{IsFile};
ghost use Rattle.cx_disk.specs.Memory.{whole_write, whole_cut, synced, view_of, Notes, Looks, Mounts};
ghost use Rattle.cx_disk.specs.MemoryLaws.{sound_of};

use crate::{Disk, DiskFault, MemoryDisk};
use cx_text::{List, Text};
use std::cell::RefCell;
use std::marker::Model;
use std::rc::Rc;

/// A disk in memory for tests of jobs that take turns. Before each `write_at`, `cut` and `sync` it adds its job to a list, which
/// it shares with the other jobs' disks. Where the list is in use or can't grow, the call answers `Memory` and does nothing.
#[derive(Drop)]
pub struct NotingDisk {
    disk: MemoryDisk,
    job: u32,
    list: Rc<RefCell<Vec<u32>>>,
}

impl Model for NotingDisk {
    ghost use Rattle.cx_disk.specs.Memory.{History};

    ghost Value = { History };

    ghost view = { λ disk. disk.disk };
}

impl NotingDisk {
    /// The disk that notes this job.
    pub fn new(disk: MemoryDisk, job: u32, list: Rc<RefCell<Vec<u32>>>) -> Self
        ensures { result ≡ disk }
    {
        NotingDisk { disk, job, list }
    }

    /// The disk within.
    pub fn into_inner(self) -> MemoryDisk
        ensures { result ≡ self }
    {
        self.disk
    }

    /// Adds the job to the list.
    fn note(&self) -> Result<(), DiskFault>
        ensures { IfErr result (λ fault. fault ≡ DiskFault.Memory) }
    {
        let Ok(mut list) = self.list.try_borrow_mut() else {
            return Err(DiskFault::Memory);
        };
        Ok(list.push(self.job)?)
    }
}

impl Disk for NotingDisk {
    ghost tells = { Unit {0} };

    ghost mounted = { λ disk. disk.mounted };

    ghost folders = { λ disk. disk.folders };

    ghost file_count = { λ disk. files_in disk.folders };

    ghost view = { view_of };

    ghost faults = { λ _. 0 };

    ghost sound = { λ disk _. sound_of disk };

    fn mount(
        &mut self,
        output: &Text,
        names: &List<Text>,
        checkpoints: &Text,
    ) -> Result<(), DiskFault>
        ensures does { Mounts output.now names.now checkpoints.now self.old self.new result }
        ensures mounted { OnOk result (IsTrue self.new.mounted) }
        ensures stays { IsTrue self.old.mounted → IsTrue self.new.mounted }
        ensures named { OnOk result
            (IsNamed output.now names.now checkpoints.now self.new.folders) }
        ensures unnamed { OnErr result (self.new.folders ≡ self.old.folders) }
        ensures same { SameFiles (view_of self.old).seen (view_of self.new).seen }
        ensures after { Passes SameFiles (view_of self.old) (view_of self.new) }
        ensures cause { HasCause DiskFault.Failed 0 0 result }
    {
        self.disk.mount(output, names, checkpoints)
    }

    fn length(&mut self, file: u32) -> Result<u64, DiskFault>
        requires mounted { IsTrue self.old.mounted }
        requires file { IsFile (files_in self.old.folders) file }
        ensures does { Looks self.old self.new result }
        ensures length { IfOk result
            (λ count. count ≡ length ((view_of self.old).seen file)) }
        ensures mounted { IsTrue self.new.mounted }
        ensures folders { self.new.folders ≡ self.old.folders }
        ensures same { SameFiles (view_of self.old).seen (view_of self.new).seen }
        ensures after { Passes SameFiles (view_of self.old) (view_of self.new) }
        ensures cause { HasCause DiskFault.Failed 0 0 result }
        ensures takes_no_memory { IfErr result (λ fault. fault ≡ DiskFault.Failed) }
    {
        self.disk.length(file)
    }

    fn read(&mut self, file: u32, at: u64, into: &mut [u8]) -> Result<(), DiskFault>
        requires mounted { IsTrue self.old.mounted }
        requires file { IsFile (files_in self.old.folders) file }
        requires range { at + length into.old ≤ length ((view_of self.old).seen file) }
        ensures does { Looks self.old self.new result }
        ensures read { OnOk result (into.new
            ≡ slice_range ((view_of self.old).seen file) at (at + length into.old)) }
        ensures mounted { IsTrue self.new.mounted }
        ensures folders { self.new.folders ≡ self.old.folders }
        ensures same { SameFiles (view_of self.old).seen (view_of self.new).seen }
        ensures after { Passes SameFiles (view_of self.old) (view_of self.new) }
        ensures cause { HasCause DiskFault.Failed 0 0 result }
        ensures takes_no_memory { IfErr result (λ fault. fault ≡ DiskFault.Failed) }
    {
        self.disk.read(file, at, into)
    }

    fn write_at(&mut self, file: u32, at: u64, bytes: &[u8]) -> Result<(), DiskFault>
        requires mounted { IsTrue self.old.mounted }
        requires file { IsFile (files_in self.old.folders) file }
        requires start { at ≤ length ((view_of self.old).seen file) }
        ensures does { Notes (whole_write file at bytes.now) self.old self.new result }
        ensures written { OnOk result (Holds at bytes.now
            ((view_of self.old).seen file) ((view_of self.new).seen file)) }
        ensures stopped { OnErr result (Torn at (length bytes.now)
            ((view_of self.old).seen file) ((view_of self.new).seen file)) }
        ensures others { OthersSame file (view_of self.old).seen (view_of self.new).seen }
        ensures mounted { IsTrue self.new.mounted }
        ensures folders { self.new.folders ≡ self.old.folders }
        ensures after { Passes (Changes (Torn at (length bytes.now)) file)
            (view_of self.old) (view_of self.new) }
        ensures cause { HasCause DiskFault.Failed 0 0 result }
    {
        self.note()?;
        self.disk.write_at(file, at, bytes)
    }

    fn cut(&mut self, file: u32, to: u64) -> Result<(), DiskFault>
        requires mounted { IsTrue self.old.mounted }
        requires file { IsFile (files_in self.old.folders) file }
        requires within { to ≤ length ((view_of self.old).seen file) }
        ensures does { Notes (whole_cut file to) self.old self.new result }
        ensures cut { OnOk result (Front to
            ((view_of self.old).seen file) ((view_of self.new).seen file)) }
        ensures stopped { OnErr result (CutShort to
            ((view_of self.old).seen file) ((view_of self.new).seen file)) }
        ensures others { OthersSame file (view_of self.old).seen (view_of self.new).seen }
        ensures mounted { IsTrue self.new.mounted }
        ensures folders { self.new.folders ≡ self.old.folders }
        ensures after { Passes (Changes (CutShort to) file)
            (view_of self.old) (view_of self.new) }
        ensures cause { HasCause DiskFault.Failed 0 0 result }
    {
        self.note()?;
        self.disk.cut(file, to)
    }

    fn sync(&mut self, file: u32) -> Result<(), DiskFault>
        requires mounted { IsTrue self.old.mounted }
        requires file { IsFile (files_in self.old.folders) file }
        ensures does { Notes (synced file) self.old self.new result }
        ensures settled { OnOk result (IsSettled (view_of self.new) file) }
        ensures mounted { IsTrue self.new.mounted }
        ensures folders { self.new.folders ≡ self.old.folders }
        ensures same { SameFiles (view_of self.old).seen (view_of self.new).seen }
        ensures after { Passes SameFiles (view_of self.old) (view_of self.new) }
        ensures cause { HasCause DiskFault.Failed 0 0 result }
    {
        self.note()?;
        self.disk.sync(file)
    }
}
