//! A disk in memory.
ghost use Rattle.std.specs.Prelude.{◌≡◌, ◌≤◌, ◌<◌, ◌+◌, ◌++◌, ℕ, length, take, drop, slice_range, vec_len, IsTrue, OnOk, OnErr, IfOk, IfErr, true, false};
ghost use Rattle.cx_disk.specs.Cause.{HasCause};
ghost use Rattle.cx_disk.specs.Disk.{Files, files_in, IsNamed, SameFiles, OthersSame, Changes, Holds, Torn, Front, CutShort, Passes, IsSettled};
ghost use Rattle.cx_disk.specs.Files.{IsFile};
ghost use Rattle.cx_disk.specs.Image.{IsImageOf, IsChosenOf};
ghost use Rattle.cx_disk.specs.Memory.{fresh, noted, whole_write, whole_cut, synced, stopped_write, stopped_cut, file_of, changed, view_of, Notes, Looks, Mounts};
ghost use Rattle.cx_disk.specs.MemoryLaws.{sound_of};

use crate::image::{image_of, written};
use crate::{Change, Disk, DiskFault, Note};
use cx_text::{List, Text};
use std::alloc::{AllocError, Global};
use std::marker::Model;

/// A disk in memory. It tells what its files hold, never fails, and notes each change, so that what a crash at each
/// moment may leave can be told. Contracts see whether it is mounted, and on which folders, its files at the
/// beginning, and the notes.
#[derive(Debug, Drop)]
pub struct MemoryDisk {
    alloc: Global,
    first: List<Text>,
    files: Vec<Text>,
    notes: Vec<Note>,
    mounted: bool,
    output: Text,
    names: List<Text>,
    checkpoints: Text,
}

impl Model for MemoryDisk {
    ghost use Rattle.cx_disk.specs.Memory.{History, IsKept};

    ghost Value = { History };

    ghost view = { λ disk. record {
      mounted = disk.mounted;
      folders = record {
        output = disk.output;
        names = disk.names;
        checkpoints = disk.checkpoints;
      };
      first = disk.first;
      notes = disk.notes.items;
    } };

    ghost invariant = { λ disk. IsKept disk.mounted disk.first disk.files.items disk.notes.items };
}

impl MemoryDisk {
    /// A disk of these files, the first being file 0, which isn't mounted. A file that isn't given is empty. The files as
    /// given are all that a crash may leave.
    pub fn new(alloc: Global, files: List<Text>) -> Self
        ensures unmounted { result ≡ fresh files }
        ensures reads { SameFiles (file_of files) (view_of result).seen }
        ensures only_image { (c : Files) → (view_of result).images c
            → SameFiles (file_of files) c }
    {
        MemoryDisk {
            alloc,
            first: files,
            files: Vec::new(alloc),
            notes: Vec::new(alloc),
            mounted: false,
            output: Text::new(Vec::new(alloc)),
            names: List::empty(alloc),
            checkpoints: Text::new(Vec::new(alloc)),
        }
    }

    /// The bytes of a file, as it reads.
    pub fn bytes(&self, file: usize) -> &[u8]
        ensures { result.now ≡ (view_of self.now).seen file }
    {
        if self.mounted {
            bytes_of(&self.files, file)
        } else {
            bytes_of(self.first.as_slice(), file)
        }
    }

    /// A disk that isn't mounted, of one of the images that a crash may leave of this one, by a choice.
    pub(crate) fn image(&self, choice: u64) -> Result<MemoryDisk, AllocError>
        ensures image { IfOk result (IsImageOf (view_of self.now)) }
        ensures chosen { IfOk result (IsChosenOf choice self.now) }
    {
        let files = image_of(self.alloc, self.first.as_slice(), &self.notes, choice)?;
        Ok(MemoryDisk::new(self.alloc, List::new(files)))
    }

    /// Keeps the files as they read, from the first mount on.
    fn keep_files(&mut self) -> Result<(), AllocError>
        ensures mounted { OnOk result (self.new ≡ record self.old { mounted = true }) }
        ensures err { OnErr result (self.new ≡ self.old) }
    {
        if !self.mounted {
            self.files = copied(self.alloc, self.first.as_slice())?;
            self.mounted = true;
        }
        Ok(())
    }

    /// Notes a change, after which the file has these bytes.
    fn change(&mut self, note: Note, next: Vec<u8>) -> Result<(), AllocError>
        requires mounted { IsTrue self.old.mounted }
        requires bytes { next.items ≡ changed note.change ((view_of self.old).seen note.file) }
        ensures ok { OnOk result (self.new ≡ noted self.old note) }
        ensures err { OnErr result (self.new ≡ self.old) }
    {
        let file = note.file as usize;
        fill(self.alloc, &mut self.files, file + 1)?;
        self.notes.push(note)?;
        self.files[file] = Text::new(next);
        Ok(())
    }

    /// Notes a write that was stopped.
    pub(crate) fn stop_write(&mut self, file: u32, at: u64, bytes: &[u8]) -> Result<(), AllocError>
        requires mounted { IsTrue self.old.mounted }
        requires file { IsFile (files_in self.old.folders) file }
        ensures ok { OnOk result
            (self.new ≡ noted self.old (stopped_write file at bytes.now)) }
        ensures err { OnErr result (self.new ≡ self.old) }
    {
        let same = self.bytes(file as usize).to_vec(self.alloc)?;
        let bytes = Text::new(bytes.to_vec(self.alloc)?);
        let change = Change::StoppedWrite { at, bytes };
        self.change(Note { file, change }, same)
    }

    /// Notes a cut that was stopped.
    pub(crate) fn stop_cut(&mut self, file: u32, to: u64) -> Result<(), AllocError>
        requires mounted { IsTrue self.old.mounted }
        requires file { IsFile (files_in self.old.folders) file }
        ensures ok { OnOk result
            (self.new ≡ noted self.old (stopped_cut file to)) }
        ensures err { OnErr result (self.new ≡ self.old) }
    {
        let same = self.bytes(file as usize).to_vec(self.alloc)?;
        let change = Change::StoppedCut { to };
        self.change(Note { file, change }, same)
    }
}

/// The bytes of a file of a list.
pub(crate) fn bytes_of(files: &[Text], file: usize) -> &[u8]
    ensures { result.now ≡ file_of files.now file }
{
    match files.get(file) {
        Some(text) => text.as_slice(),
        None => &[],
    }
}

/// The same files.
pub(crate) fn copied(alloc: Global, files: &[Text]) -> Result<Vec<Text>, AllocError>
    ensures { IfOk result (λ copy. copy.items ≡ files.now) }
{
    let mut copy = Vec::new(alloc);
    'texts: for text in files {
        copy.push(Text::new(text.as_slice().to_vec(alloc)?))?;
    }
    Ok(copy)
}

/// Adds empty files up to so many.
#[tactic(auto, using(crate::proofs::Filling::empty_file))]
pub(crate) fn fill(alloc: Global, files: &mut Vec<Text>, count: usize) -> Result<(), AllocError>
    ensures all { OnOk result (count ≤ vec_len files.new) }
    ensures same { SameFiles (file_of files.old.items) (file_of files.new.items) }
{
    'grow: while files.len() < count {
        files.push(Text::new(Vec::new(alloc)))?;
    }
    Ok(())
}

impl Disk for MemoryDisk {
    ghost tells = { Unit {0} };

    ghost mounted = { λ disk. disk.mounted };

    ghost folders = { λ disk. disk.folders };

    ghost file_count = { λ disk. files_in disk.folders };

    ghost view = { view_of };

    ghost faults = { λ _. 0 };

    ghost sound = { λ disk _. sound_of disk };

    fn mount(
        &mut self,
        output: &Text,
        names: &List<Text>,
        checkpoints: &Text,
    ) -> Result<(), DiskFault>
        ensures does { Mounts output.now names.now checkpoints.now self.old self.new result }
        ensures mounted { OnOk result (IsTrue self.new.mounted) }
        ensures stays { IsTrue self.old.mounted → IsTrue self.new.mounted }
        ensures named { OnOk result
            (IsNamed output.now names.now checkpoints.now self.new.folders) }
        ensures unnamed { OnErr result (self.new.folders ≡ self.old.folders) }
        ensures same { SameFiles (view_of self.old).seen (view_of self.new).seen }
        ensures after { Passes SameFiles (view_of self.old) (view_of self.new) }
        ensures cause { HasCause DiskFault.Failed 0 0 result }
    {
        let output = Text::new(output.as_slice().to_vec(self.alloc)?);
        let names = List::new(copied(self.alloc, names.as_slice())?);
        let checkpoints = Text::new(checkpoints.as_slice().to_vec(self.alloc)?);
        self.keep_files()?;
        self.output = output;
        self.names = names;
        self.checkpoints = checkpoints;
        Ok(())
    }

    fn length(&mut self, file: u32) -> Result<u64, DiskFault>
        requires mounted { IsTrue self.old.mounted }
        requires file { IsFile (files_in self.old.folders) file }
        ensures does { Looks self.old self.new result }
        ensures length { IfOk result
            (λ count. count ≡ length ((view_of self.old).seen file)) }
        ensures mounted { IsTrue self.new.mounted }
        ensures folders { self.new.folders ≡ self.old.folders }
        ensures same { SameFiles (view_of self.old).seen (view_of self.new).seen }
        ensures after { Passes SameFiles (view_of self.old) (view_of self.new) }
        ensures cause { HasCause DiskFault.Failed 0 0 result }
        ensures takes_no_memory { IfErr result (λ fault. fault ≡ DiskFault.Failed) }
    {
        Ok(self.bytes(file as usize).len() as u64)
    }

    fn read(&mut self, file: u32, at: u64, into: &mut [u8]) -> Result<(), DiskFault>
        requires mounted { IsTrue self.old.mounted }
        requires file { IsFile (files_in self.old.folders) file }
        requires range { at + length into.old ≤ length ((view_of self.old).seen file) }
        ensures does { Looks self.old self.new result }
        ensures read { OnOk result (into.new
            ≡ slice_range ((view_of self.old).seen file) at (at + length into.old)) }
        ensures mounted { IsTrue self.new.mounted }
        ensures folders { self.new.folders ≡ self.old.folders }
        ensures same { SameFiles (view_of self.old).seen (view_of self.new).seen }
        ensures after { Passes SameFiles (view_of self.old) (view_of self.new) }
        ensures cause { HasCause DiskFault.Failed 0 0 result }
        ensures takes_no_memory { IfErr result (λ fault. fault ≡ DiskFault.Failed) }
    {
        let bytes = self.bytes(file as usize);
        let at = at as usize;
        into.copy_from_slice(&bytes[at..at + into.len()]);
        Ok(())
    }

    fn write_at(&mut self, file: u32, at: u64, bytes: &[u8]) -> Result<(), DiskFault>
        requires mounted { IsTrue self.old.mounted }
        requires file { IsFile (files_in self.old.folders) file }
        requires start { at ≤ length ((view_of self.old).seen file) }
        ensures does { Notes (whole_write file at bytes.now) self.old self.new result }
        ensures written { OnOk result (Holds at bytes.now
            ((view_of self.old).seen file) ((view_of self.new).seen file)) }
        ensures stopped { OnErr result (Torn at (length bytes.now)
            ((view_of self.old).seen file) ((view_of self.new).seen file)) }
        ensures others { OthersSame file (view_of self.old).seen (view_of self.new).seen }
        ensures mounted { IsTrue self.new.mounted }
        ensures folders { self.new.folders ≡ self.old.folders }
        ensures after { Passes (Changes (Torn at (length bytes.now)) file)
            (view_of self.old) (view_of self.new) }
        ensures cause { HasCause DiskFault.Failed 0 0 result }
    {
        let next = written(self.alloc, self.bytes(file as usize), at, bytes)?;
        let bytes = Text::new(bytes.to_vec(self.alloc)?);
        let change = Change::Wrote { at, bytes };
        Ok(self.change(Note { file, change }, next)?)
    }

    fn cut(&mut self, file: u32, to: u64) -> Result<(), DiskFault>
        requires mounted { IsTrue self.old.mounted }
        requires file { IsFile (files_in self.old.folders) file }
        requires within { to ≤ length ((view_of self.old).seen file) }
        ensures does { Notes (whole_cut file to) self.old self.new result }
        ensures cut { OnOk result (Front to
            ((view_of self.old).seen file) ((view_of self.new).seen file)) }
        ensures stopped { OnErr result (CutShort to
            ((view_of self.old).seen file) ((view_of self.new).seen file)) }
        ensures others { OthersSame file (view_of self.old).seen (view_of self.new).seen }
        ensures mounted { IsTrue self.new.mounted }
        ensures folders { self.new.folders ≡ self.old.folders }
        ensures after { Passes (Changes (CutShort to) file)
            (view_of self.old) (view_of self.new) }
        ensures cause { HasCause DiskFault.Failed 0 0 result }
    {
        let next = self.bytes(file as usize)[..to as usize].to_vec(self.alloc)?;
        let change = Change::Cut { to };
        Ok(self.change(Note { file, change }, next)?)
    }

    fn sync(&mut self, file: u32) -> Result<(), DiskFault>
        requires mounted { IsTrue self.old.mounted }
        requires file { IsFile (files_in self.old.folders) file }
        ensures does { Notes (synced file) self.old self.new result }
        ensures settled { OnOk result (IsSettled (view_of self.new) file) }
        ensures mounted { IsTrue self.new.mounted }
        ensures folders { self.new.folders ≡ self.old.folders }
        ensures same { SameFiles (view_of self.old).seen (view_of self.new).seen }
        ensures after { Passes SameFiles (view_of self.old) (view_of self.new) }
        ensures cause { HasCause DiskFault.Failed 0 0 result }
    {
        let next = self.bytes(file as usize).to_vec(self.alloc)?;
        let change = Change::Synced;
        Ok(self.change(Note { file, change }, next)?)
    }
}
