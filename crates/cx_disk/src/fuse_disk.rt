//! A disk in memory that fails from some call on.
ghost use Rattle.std.specs.Prelude.{◌≡◌, ◌≤◌, ◌<◌, ◌+◌, ◌-◌, false, true, length, slice_range, IsTrue, OnOk, OnErr, IfOk, IfErr};
ghost use Rattle.cx_disk.specs.Cause.{Rose, HasCause};
ghost use Rattle.cx_disk.specs.Disk.{IsNamed, SameFiles, OthersSame, Changes, Holds, Torn, Front, CutShort, Passes, IsSettled, files_in};
ghost use Rattle.cx_disk.specs.Files.{IsFile};
ghost use Rattle.cx_disk.specs.Fuse.{next_count, Fails, Stops, Burns};
ghost use Rattle.cx_disk.specs.Image.{IsImageOf, IsChosenOf};
ghost use Rattle.cx_disk.specs.Memory.{whole_write, whole_cut, synced, stopped_write, stopped_cut, view_of, Notes, Looks, Mounts};
ghost use Rattle.cx_disk.specs.MemoryLaws.{sound_of};

use crate::{Disk, DiskFault, MemoryDisk};
use cx_text::{List, Memory, Text};
use std::marker::Model;

/// A disk in memory that passes so many calls, and then fails every call. A write or a cut that fails leaves the files as
/// they read, and is noted as stopped. Contracts see the disk, how many calls more it passes, and how often it has failed.
#[derive(Debug, Drop)]
pub struct FuseDisk {
    disk: MemoryDisk,
    calls: u64,
    faults: u64,
}

impl Model for FuseDisk {
    ghost use Rattle.cx_disk.specs.Fuse.{Fuse};

    ghost Value = { Fuse };

    ghost view = { λ fuse. record {
      disk = fuse.disk;
      calls = fuse.calls;
      faults = fuse.faults;
    } };
}

impl FuseDisk {
    /// The disk that passes so many calls.
    pub fn new(disk: MemoryDisk, calls: u64) -> Self
        ensures { result ≡ record { disk = disk; calls = calls; faults = 0 } }
    {
        FuseDisk {
            disk,
            calls,
            faults: 0,
        }
    }

    /// A disk that isn't mounted, of files that a crash may leave now: what came since the last sync of each file is left in
    /// part, by the choice. Choice 0 leaves nothing of it, 1 all of it, and any other one of each change nothing, all, or
    /// torn bytes and a length between the old and the new one.
    pub fn into_image(self, choice: u64) -> Result<MemoryDisk, Memory>
        ensures image { IfOk result (IsImageOf (view_of self.disk)) }
        ensures chosen { IfOk result (IsChosenOf choice self.disk) }
    {
        Ok(self.disk.image(choice)?)
    }
}

/// Whether one more call passes.
fn passes(calls: &mut u64, faults: &mut u64) -> bool
    ensures passes { result ≡ true
        → (0 < calls.old) × (calls.new ≡ calls.old - 1) × (faults.new ≡ faults.old) }
    ensures fails { result ≡ false
        → (calls.old ≡ 0) × (calls.new ≡ calls.old) × (faults.new ≡ next_count faults.old) }
    ensures later { faults.old ≤ faults.new }
    ensures rose { result ≡ false → Rose faults.old faults.new }
{
    if *calls == 0 {
        *faults = faults.saturating_add(1);
        false
    } else {
        *calls -= 1;
        true
    }
}

impl Disk for FuseDisk {
    ghost tells = { Unit {0} };

    ghost mounted = { λ fuse. fuse.disk.mounted };

    ghost folders = { λ fuse. fuse.disk.folders };

    ghost file_count = { λ fuse. files_in fuse.disk.folders };

    ghost view = { λ fuse. view_of fuse.disk };

    ghost faults = { λ fuse. fuse.faults };

    ghost sound = { λ fuse _. sound_of fuse.disk };

    fn mount(
        &mut self,
        output: &Text,
        names: &List<Text>,
        checkpoints: &Text,
    ) -> Result<(), DiskFault>
        ensures burns { Burns (Mounts output.now names.now checkpoints.now) Fails
            self.old self.new result }
        ensures mounted { OnOk result (IsTrue self.new.disk.mounted) }
        ensures stays { IsTrue self.old.disk.mounted → IsTrue self.new.disk.mounted }
        ensures named { OnOk result
            (IsNamed output.now names.now checkpoints.now self.new.disk.folders) }
        ensures unnamed { OnErr result (self.new.disk.folders ≡ self.old.disk.folders) }
        ensures same { SameFiles (view_of self.old.disk).seen (view_of self.new.disk).seen }
        ensures after { Passes SameFiles (view_of self.old.disk) (view_of self.new.disk) }
        ensures cause { HasCause DiskFault.Failed self.old.faults self.new.faults result }
    {
        if !passes(&mut self.calls, &mut self.faults) {
            return Err(DiskFault::Failed);
        }
        self.disk.mount(output, names, checkpoints)
    }

    fn length(&mut self, file: u32) -> Result<u64, DiskFault>
        requires mounted { IsTrue self.old.disk.mounted }
        requires file { IsFile (files_in self.old.disk.folders) file }
        ensures burns { Burns Looks Fails self.old self.new result }
        ensures length { IfOk result
            (λ count. count ≡ length ((view_of self.old.disk).seen file)) }
        ensures mounted { IsTrue self.new.disk.mounted }
        ensures folders { self.new.disk.folders ≡ self.old.disk.folders }
        ensures same { SameFiles (view_of self.old.disk).seen (view_of self.new.disk).seen }
        ensures after { Passes SameFiles (view_of self.old.disk) (view_of self.new.disk) }
        ensures cause { HasCause DiskFault.Failed self.old.faults self.new.faults result }
        ensures takes_no_memory { IfErr result (λ fault. fault ≡ DiskFault.Failed) }
    {
        if !passes(&mut self.calls, &mut self.faults) {
            return Err(DiskFault::Failed);
        }
        self.disk.length(file)
    }

    fn read(&mut self, file: u32, at: u64, into: &mut [u8]) -> Result<(), DiskFault>
        requires mounted { IsTrue self.old.disk.mounted }
        requires file { IsFile (files_in self.old.disk.folders) file }
        requires range { at + length into.old ≤ length ((view_of self.old.disk).seen file) }
        ensures burns { Burns Looks Fails self.old self.new result }
        ensures read { OnOk result (into.new
            ≡ slice_range ((view_of self.old.disk).seen file) at (at + length into.old)) }
        ensures mounted { IsTrue self.new.disk.mounted }
        ensures folders { self.new.disk.folders ≡ self.old.disk.folders }
        ensures same { SameFiles (view_of self.old.disk).seen (view_of self.new.disk).seen }
        ensures after { Passes SameFiles (view_of self.old.disk) (view_of self.new.disk) }
        ensures cause { HasCause DiskFault.Failed self.old.faults self.new.faults result }
        ensures takes_no_memory { IfErr result (λ fault. fault ≡ DiskFault.Failed) }
    {
        if !passes(&mut self.calls, &mut self.faults) {
            return Err(DiskFault::Failed);
        }
        self.disk.read(file, at, into)
    }

    fn write_at(&mut self, file: u32, at: u64, bytes: &[u8]) -> Result<(), DiskFault>
        requires mounted { IsTrue self.old.disk.mounted }
        requires file { IsFile (files_in self.old.disk.folders) file }
        requires start { at ≤ length ((view_of self.old.disk).seen file) }
        ensures burns { Burns (Notes (whole_write file at bytes.now))
            (Stops (stopped_write file at bytes.now)) self.old self.new result }
        ensures written { OnOk result (Holds at bytes.now
            ((view_of self.old.disk).seen file) ((view_of self.new.disk).seen file)) }
        ensures stopped { OnErr result (Torn at (length bytes.now)
            ((view_of self.old.disk).seen file) ((view_of self.new.disk).seen file)) }
        ensures others { OthersSame file (view_of self.old.disk).seen (view_of self.new.disk).seen }
        ensures mounted { IsTrue self.new.disk.mounted }
        ensures folders { self.new.disk.folders ≡ self.old.disk.folders }
        ensures after { Passes (Changes (Torn at (length bytes.now)) file)
            (view_of self.old.disk) (view_of self.new.disk) }
        ensures cause { HasCause DiskFault.Failed self.old.faults self.new.faults result }
    {
        if !passes(&mut self.calls, &mut self.faults) {
            self.disk.stop_write(file, at, bytes)?;
            return Err(DiskFault::Failed);
        }
        self.disk.write_at(file, at, bytes)
    }

    fn cut(&mut self, file: u32, to: u64) -> Result<(), DiskFault>
        requires mounted { IsTrue self.old.disk.mounted }
        requires file { IsFile (files_in self.old.disk.folders) file }
        requires within { to ≤ length ((view_of self.old.disk).seen file) }
        ensures burns { Burns (Notes (whole_cut file to)) (Stops (stopped_cut file to))
            self.old self.new result }
        ensures cut { OnOk result (Front to
            ((view_of self.old.disk).seen file) ((view_of self.new.disk).seen file)) }
        ensures stopped { OnErr result (CutShort to
            ((view_of self.old.disk).seen file) ((view_of self.new.disk).seen file)) }
        ensures others { OthersSame file (view_of self.old.disk).seen (view_of self.new.disk).seen }
        ensures mounted { IsTrue self.new.disk.mounted }
        ensures folders { self.new.disk.folders ≡ self.old.disk.folders }
        ensures after { Passes (Changes (CutShort to) file)
            (view_of self.old.disk) (view_of self.new.disk) }
        ensures cause { HasCause DiskFault.Failed self.old.faults self.new.faults result }
    {
        if !passes(&mut self.calls, &mut self.faults) {
            self.disk.stop_cut(file, to)?;
            return Err(DiskFault::Failed);
        }
        self.disk.cut(file, to)
    }

    fn sync(&mut self, file: u32) -> Result<(), DiskFault>
        requires mounted { IsTrue self.old.disk.mounted }
        requires file { IsFile (files_in self.old.disk.folders) file }
        ensures burns { Burns (Notes (synced file)) Fails self.old self.new result }
        ensures settled { OnOk result (IsSettled (view_of self.new.disk) file) }
        ensures mounted { IsTrue self.new.disk.mounted }
        ensures folders { self.new.disk.folders ≡ self.old.disk.folders }
        ensures same { SameFiles (view_of self.old.disk).seen (view_of self.new.disk).seen }
        ensures after { Passes SameFiles (view_of self.old.disk) (view_of self.new.disk) }
        ensures cause { HasCause DiskFault.Failed self.old.faults self.new.faults result }
    {
        if !passes(&mut self.calls, &mut self.faults) {
            return Err(DiskFault::Failed);
        }
        self.disk.sync(file)
    }
}
