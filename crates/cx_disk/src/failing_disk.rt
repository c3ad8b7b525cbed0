//! A disk in memory that fails at some calls.
ghost use Rattle.std.specs.Prelude.{◌≡◌, ◌≤◌, ◌<◌, ◌+◌, ◌↔◌, if◌then◌else◌, length, slice_range, IsTrue, OnOk, OnErr, IfOk, IfErr};
ghost use Rattle.cx_disk.specs.Cause.{Rose, HasCause};
ghost use Rattle.cx_disk.specs.Disk.{IsNamed, SameFiles, OthersSame, Changes, Holds, Torn, Front, CutShort, Passes, IsSettled, files_in};
ghost use Rattle.cx_disk.specs.Files.{IsFile};
ghost use Rattle.cx_disk.specs.Failing.{failing_disk, FailsNext, FailsAt, called, failed};
ghost use Rattle.cx_disk.specs.Fuse.{Fails, Stops};
ghost use Rattle.cx_disk.specs.Memory.{whole_write, whole_cut, synced, stopped_write, stopped_cut, view_of, Notes, Looks, Mounts};
ghost use Rattle.cx_disk.specs.MemoryLaws.{sound_of};

use crate::{Disk, DiskFault, MemoryDisk};
use cx_text::{List, Text};
use std::marker::Model;

/// A disk in memory that fails the calls of some numbers, and does all others. The first call is number 1, and from the last
/// number of 64 bits on each has that one. A call that fails leaves the files as they read; a write or a cut is noted as
/// stopped, so that a crash may leave a part of it.
#[derive(Debug, Drop)]
pub struct FailingDisk {
    disk: MemoryDisk,
    fail: List<u64>,
    next: u64,
    faults: u64,
}

impl Model for FailingDisk {
    ghost use Rattle.cx_disk.specs.Failing.{Failing};

    ghost Value = { Failing };

    ghost view = { λ f. record {
      disk = f.disk;
      fail = f.fail;
      next = f.next;
      faults = f.faults;
    } };
}

impl FailingDisk {
    /// The disk that fails the calls of these numbers.
    pub fn new(disk: MemoryDisk, fail: List<u64>) -> Self
        ensures { result ≡ failing_disk disk fail }
    {
        FailingDisk {
            disk,
            fail,
            next: 1,
            faults: 0,
        }
    }

    /// The disk within.
    pub fn into_inner(self) -> MemoryDisk
        ensures { result ≡ self.disk }
    {
        self.disk
    }

    /// Counts a call, and tells whether it fails.
    fn fails(&mut self) -> bool
        ensures value { IsTrue result ↔ FailsNext self.old }
        ensures later { self.old.faults ≤ self.new.faults }
        ensures rose { IsTrue result → Rose self.old.faults self.new.faults }
        ensures new { self.new ≡ (if result then failed self.old else called self.old) }
    {
        let fails = self.fail.as_slice().contains(&self.next);
        self.next = self.next.saturating_add(1);
        if fails {
            self.faults = self.faults.saturating_add(1);
        }
        fails
    }
}

impl Disk for FailingDisk {
    ghost tells = { Unit {0} };

    ghost mounted = { λ f. f.disk.mounted };

    ghost folders = { λ f. f.disk.folders };

    ghost file_count = { λ f. files_in f.disk.folders };

    ghost view = { λ f. view_of f.disk };

    ghost faults = { λ f. f.faults };

    ghost sound = { λ f _. sound_of f.disk };

    fn mount(
        &mut self,
        output: &Text,
        names: &List<Text>,
        checkpoints: &Text,
    ) -> Result<(), DiskFault>
        ensures fails { FailsAt (Mounts output.now names.now checkpoints.now) Fails
            self.old self.new result }
        ensures mounted { OnOk result (IsTrue self.new.disk.mounted) }
        ensures stays { IsTrue self.old.disk.mounted → IsTrue self.new.disk.mounted }
        ensures named { OnOk result
            (IsNamed output.now names.now checkpoints.now self.new.disk.folders) }
        ensures unnamed { OnErr result (self.new.disk.folders ≡ self.old.disk.folders) }
        ensures same { SameFiles (view_of self.old.disk).seen (view_of self.new.disk).seen }
        ensures after { Passes SameFiles (view_of self.old.disk) (view_of self.new.disk) }
        ensures cause { HasCause DiskFault.Failed self.old.faults self.new.faults result }
    {
        if self.fails() {
            return Err(DiskFault::Failed);
        }
        self.disk.mount(output, names, checkpoints)
    }

    fn length(&mut self, file: u32) -> Result<u64, DiskFault>
        requires mounted { IsTrue self.old.disk.mounted }
        requires file { IsFile (files_in self.old.disk.folders) file }
        ensures fails { FailsAt Looks Fails self.old self.new result }
        ensures length { IfOk result
            (λ count. count ≡ length ((view_of self.old.disk).seen file)) }
        ensures mounted { IsTrue self.new.disk.mounted }
        ensures folders { self.new.disk.folders ≡ self.old.disk.folders }
        ensures same { SameFiles (view_of self.old.disk).seen (view_of self.new.disk).seen }
        ensures after { Passes SameFiles (view_of self.old.disk) (view_of self.new.disk) }
        ensures cause { HasCause DiskFault.Failed self.old.faults self.new.faults result }
        ensures takes_no_memory { IfErr result (λ fault. fault ≡ DiskFault.Failed) }
    {
        if self.fails() {
            return Err(DiskFault::Failed);
        }
        self.disk.length(file)
    }

    fn read(&mut self, file: u32, at: u64, into: &mut [u8]) -> Result<(), DiskFault>
        requires mounted { IsTrue self.old.disk.mounted }
        requires file { IsFile (files_in self.old.disk.folders) file }
        requires range { at + length into.old ≤ length ((view_of self.old.disk).seen file) }
        ensures fails { FailsAt Looks Fails self.old self.new result }
        ensures read { OnOk result (into.new
            ≡ slice_range ((view_of self.old.disk).seen file) at (at + length into.old)) }
        ensures mounted { IsTrue self.new.disk.mounted }
        ensures folders { self.new.disk.folders ≡ self.old.disk.folders }
        ensures same { SameFiles (view_of self.old.disk).seen (view_of self.new.disk).seen }
        ensures after { Passes SameFiles (view_of self.old.disk) (view_of self.new.disk) }
        ensures cause { HasCause DiskFault.Failed self.old.faults self.new.faults result }
        ensures takes_no_memory { IfErr result (λ fault. fault ≡ DiskFault.Failed) }
    {
        if self.fails() {
            return Err(DiskFault::Failed);
        }
        self.disk.read(file, at, into)
    }

    fn write_at(&mut self, file: u32, at: u64, bytes: &[u8]) -> Result<(), DiskFault>
        requires mounted { IsTrue self.old.disk.mounted }
        requires file { IsFile (files_in self.old.disk.folders) file }
        requires start { at ≤ length ((view_of self.old.disk).seen file) }
        ensures fails { FailsAt (Notes (whole_write file at bytes.now))
            (Stops (stopped_write file at bytes.now)) self.old self.new result }
        ensures written { OnOk result (Holds at bytes.now
            ((view_of self.old.disk).seen file) ((view_of self.new.disk).seen file)) }
        ensures stopped { OnErr result (Torn at (length bytes.now)
            ((view_of self.old.disk).seen file) ((view_of self.new.disk).seen file)) }
        ensures others { OthersSame file (view_of self.old.disk).seen (view_of self.new.disk).seen }
        ensures mounted { IsTrue self.new.disk.mounted }
        ensures folders { self.new.disk.folders ≡ self.old.disk.folders }
        ensures after { Passes (Changes (Torn at (length bytes.now)) file)
            (view_of self.old.disk) (view_of self.new.disk) }
        ensures cause { HasCause DiskFault.Failed self.old.faults self.new.faults result }
    {
        if self.fails() {
            self.disk.stop_write(file, at, bytes)?;
            return Err(DiskFault::Failed);
        }
        self.disk.write_at(file, at, bytes)
    }

    fn cut(&mut self, file: u32, to: u64) -> Result<(), DiskFault>
        requires mounted { IsTrue self.old.disk.mounted }
        requires file { IsFile (files_in self.old.disk.folders) file }
        requires within { to ≤ length ((view_of self.old.disk).seen file) }
        ensures fails { FailsAt (Notes (whole_cut file to)) (Stops (stopped_cut file to))
            self.old self.new result }
        ensures cut { OnOk result (Front to
            ((view_of self.old.disk).seen file) ((view_of self.new.disk).seen file)) }
        ensures stopped { OnErr result (CutShort to
            ((view_of self.old.disk).seen file) ((view_of self.new.disk).seen file)) }
        ensures others { OthersSame file (view_of self.old.disk).seen (view_of self.new.disk).seen }
        ensures mounted { IsTrue self.new.disk.mounted }
        ensures folders { self.new.disk.folders ≡ self.old.disk.folders }
        ensures after { Passes (Changes (CutShort to) file)
            (view_of self.old.disk) (view_of self.new.disk) }
        ensures cause { HasCause DiskFault.Failed self.old.faults self.new.faults result }
    {
        if self.fails() {
            self.disk.stop_cut(file, to)?;
            return Err(DiskFault::Failed);
        }
        self.disk.cut(file, to)
    }

    fn sync(&mut self, file: u32) -> Result<(), DiskFault>
        requires mounted { IsTrue self.old.disk.mounted }
        requires file { IsFile (files_in self.old.disk.folders) file }
        ensures fails { FailsAt (Notes (synced file)) Fails self.old self.new result }
        ensures settled { OnOk result (IsSettled (view_of self.new.disk) file) }
        ensures mounted { IsTrue self.new.disk.mounted }
        ensures folders { self.new.disk.folders ≡ self.old.disk.folders }
        ensures same { SameFiles (view_of self.old.disk).seen (view_of self.new.disk).seen }
        ensures after { Passes SameFiles (view_of self.old.disk) (view_of self.new.disk) }
        ensures cause { HasCause DiskFault.Failed self.old.faults self.new.faults result }
    {
        if self.fails() {
            return Err(DiskFault::Failed);
        }
        self.disk.sync(file)
    }
}
