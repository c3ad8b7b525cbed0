//! Folders in memory, which tell what their files hold.
ghost use Rattle.std.specs.Prelude.{◌≡◌, ◌≤◌, ◌+◌, ◌++◌, [], length, take, drop, slice_range, is_some, IfOk, IfErr, IfSome};
ghost use Rattle.cx_disk.specs.declared.disk.DiskFault.TheVariants.{Memory};
ghost use Rattle.cx_folder.specs.Tree.{bytes_in};
ghost use Rattle.cx_folder.specs.Memory.{is_file, is_of, seen_in, view_in, wrote, cut, synced, synced_folder, IsNoted, IsMade};
ghost use Rattle.cx_folder.specs.MemoryLaws.{sound_in};

use crate::Folder;
use cx_disk::DiskFault;
use cx_text::Text;
use std::alloc::{AllocError, Global};
use std::marker::Model;

/// What was done to a file or to a folder.
#[derive(Debug, Drop)]
pub enum Deed {
    /// The file was made.
    Made,
    /// So many bytes were written to it from this offset on.
    Wrote { at: u64, count: u64 },
    /// It was cut to this length.
    Cut { to: u64 },
    /// It was synced.
    Synced,
    /// The folder was synced.
    SyncedFolder,
}

/// What was done under a path, whether a file is there, and its bytes after it.
#[derive(Debug, Drop)]
pub struct Event {
    /// The path of a file, or of the folder that was synced.
    pub path: Text,
    /// Whether the file has an entry.
    pub is_there: bool,
    /// The file's bytes.
    pub bytes: Text,
    /// What was done.
    pub deed: Deed,
}

/// Folders in memory. They never fail, and note each event, so that what a crash at each moment may leave can be told.
/// Contracts see the events, the last first.
#[derive(Debug, Drop)]
pub struct MemoryFolder {
    alloc: Global,
    events: Vec<Event>,
}

/// An open file in memory.
#[derive(Debug, Drop)]
pub struct MemoryFile {
    path: Text,
}

impl Model for MemoryFolder {
    ghost use Rattle.std.specs.Prelude.{List};
    ghost use Rattle.cx_folder.specs.declared.memory_folder.Event.{Event};

    ghost Value = { List Event };

    ghost view = { λ folder. folder.events.items };
}

impl Model for MemoryFile {
    ghost use Rattle.cx_folder.specs.Names.{Path};

    ghost Value = { Path };

    ghost view = { λ file. file.path };
}

/// Whether something was done to a file, and not to a folder.
fn is_file(deed: &Deed) -> bool
    ensures { result ≡ is_file deed.now }
{
    match deed {
        Deed::Made => true,
        Deed::Wrote { at: _, count: _ } => true,
        Deed::Cut { to: _ } => true,
        Deed::Synced => true,
        Deed::SyncedFolder => false,
    }
}

/// Whether an event was one of this file.
fn is_of(event: &Event, path: &[u8]) -> bool
    ensures { result ≡ is_of event.now path.now }
{
    if is_file(&event.deed) {
        event.path.as_slice() == path
    } else {
        false
    }
}

/// The bytes under a path, whether or not it has an entry.
fn bytes_under<'a>(events: &'a [Event], path: &[u8]) -> &'a [u8]
    ensures { result.now ≡ (seen_in events.now path.now).bytes }
{
    'events: for event in events {
        if is_of(event, path) {
            return event.bytes.as_slice();
        }
    }
    &[]
}

/// Whether a path has an entry.
fn is_there(events: &[Event], path: &[u8]) -> bool
    ensures { result ≡ (seen_in events.now path.now).is_there }
{
    'events: for event in events {
        if is_of(event, path) {
            return event.is_there;
        }
    }
    false
}

/// A file that is open.
fn file_at(alloc: Global, path: &[u8]) -> Result<MemoryFile, DiskFault>
    ensures file { IfOk result (λ file. file ≡ path.now) }
    ensures wanting { IfErr result (λ fault. fault ≡ Memory) }
{
    let path = Text::new(path.to_vec(alloc)?);
    Ok(MemoryFile { path })
}

/// A file's bytes after a write.
fn over(alloc: Global, old: &[u8], at: u64, new: &[u8]) -> Result<Vec<u8>, AllocError>
    requires { at ≤ length old.now }
    ensures { IfOk result
        (λ all. all.items ≡ take at old.now ++ new.now ++ drop (at + length new.now) old.now) }
{
    let start = at as usize;
    let end = start.saturating_add(new.len());
    let mut all = old[..start].to_vec(alloc)?;
    all.extend_from_slice(new)?;
    if end < old.len() {
        all.extend_from_slice(&old[end..])?;
    }
    Ok(all)
}

impl MemoryFolder {
    /// Folders without files.
    pub fn new(alloc: Global) -> Self
        ensures { result ≡ [] }
    {
        MemoryFolder {
            alloc,
            events: Vec::new(alloc),
        }
    }

    /// The events, the last first.
    pub fn events(&self) -> &[Event]
        ensures { result.now ≡ self.now }
    {
        &self.events
    }

    /// How a file reads. One that isn't there reads as empty.
    pub fn bytes(&self, path: &[u8]) -> &[u8]
        ensures { result.now ≡ bytes_in (seen_in self.now) path.now }
    {
        if is_there(&self.events, path) {
            bytes_under(&self.events, path)
        } else {
            &[]
        }
    }

    /// Reads a range of a file, which lies within it.
    fn read_at(&self, path: &[u8], at: u64, into: &mut [u8])
        requires { at + length into.old ≤ length (bytes_in (seen_in self.now) path.now) }
        ensures { into.new ≡ slice_range (bytes_in (seen_in self.now) path.now) at
            (at + length into.old) }
    {
        let bytes = self.bytes(path);
        let at = at as usize;
        into.copy_from_slice(&bytes[at..at + into.len()]);
    }

    /// Notes an event of a file, after which it has these bytes.
    fn note(
        &mut self,
        path: &[u8],
        is_there: bool,
        bytes: Vec<u8>,
        deed: Deed,
    ) -> Result<(), DiskFault>
        ensures { IsNoted (record {
          path = path.now;
          is_there = is_there;
          bytes = bytes.items;
          deed = deed;
        }) self.old self.new result }
    {
        let path = Text::new(path.to_vec(self.alloc)?);
        let bytes = Text::new(bytes);
        let event = Event {
            path,
            is_there,
            bytes,
            deed,
        };
        Ok(self.events.insert(0, event)?)
    }

    /// A file that is open, if it is there.
    fn found(&self, path: &[u8]) -> Result<Option<MemoryFile>, DiskFault>
        ensures found { IfOk result (λ found. IfSome found (λ file. file ≡ path.now)) }
        ensures there { IfOk result
            (λ found. is_some found ≡ (seen_in self.now path.now).is_there) }
        ensures wanting { IfErr result (λ fault. fault ≡ Memory) }
    {
        if is_there(&self.events, path) {
            Ok(Some(file_at(self.alloc, path)?))
        } else {
            Ok(None)
        }
    }

    /// A file that is open, which is made where it is missing.
    fn made_at(&mut self, path: &[u8]) -> Result<MemoryFile, DiskFault>
        ensures made { IsMade path.now self.old self.new result }
        ensures file { IfOk result (λ file. file ≡ path.now) }
    {
        let file = file_at(self.alloc, path)?;
        if is_there(&self.events, path) {
            return Ok(file);
        }
        let bytes = Vec::new(self.alloc);
        self.note(path, true, bytes, Deed::Made)?;
        Ok(file)
    }

    /// Writes to a file.
    fn note_write(&mut self, file: &MemoryFile, at: u64, bytes: &[u8]) -> Result<(), DiskFault>
        requires { at ≤ length (seen_in self.old file.now).bytes }
        ensures { IsNoted (wrote file.now at bytes.now self.old) self.old self.new result }
    {
        let path = file.path.as_slice();
        let is_there = is_there(&self.events, path);
        let all = over(self.alloc, bytes_under(&self.events, path), at, bytes)?;
        let count = bytes.len() as u64;
        self.note(path, is_there, all, Deed::Wrote { at, count })
    }

    /// Cuts a file.
    fn note_cut(&mut self, file: &MemoryFile, to: u64) -> Result<(), DiskFault>
        requires { to ≤ length (seen_in self.old file.now).bytes }
        ensures { IsNoted (cut file.now to self.old) self.old self.new result }
    {
        let path = file.path.as_slice();
        let is_there = is_there(&self.events, path);
        let front = bytes_under(&self.events, path)[..to as usize].to_vec(self.alloc)?;
        self.note(path, is_there, front, Deed::Cut { to })
    }

    /// Syncs a file.
    fn note_sync(&mut self, file: &MemoryFile) -> Result<(), DiskFault>
        ensures { IsNoted (synced file.now self.old) self.old self.new result }
    {
        let path = file.path.as_slice();
        let is_there = is_there(&self.events, path);
        let bytes = bytes_under(&self.events, path).to_vec(self.alloc)?;
        self.note(path, is_there, bytes, Deed::Synced)
    }

    /// Syncs a folder.
    fn note_folder(&mut self, folder: &[u8]) -> Result<(), DiskFault>
        ensures { IsNoted (synced_folder folder.now) self.old self.new result }
    {
        let bytes = Vec::new(self.alloc);
        self.note(folder, true, bytes, Deed::SyncedFolder)
    }
}

impl Folder for MemoryFolder {
    type File = MemoryFile;

    ghost tells = { Unit {0} };

    ghost view = { view_in };

    ghost holds = { λ _ _. Unit {0} };

    ghost path_of = { λ file. file };

    ghost faults = { λ _. 0 };

    ghost sound = { λ events _. sound_in events };

    fn hold(&mut self, _folder: &str) -> Result<(), DiskFault> {
        Ok(())
    }

    fn length(&mut self, _folder: &str, path: &str) -> Result<u64, DiskFault> {
        Ok(self.bytes(path.as_bytes()).len() as u64)
    }

    fn read(
        &mut self,
        _folder: &str,
        path: &str,
        at: u64,
        into: &mut [u8],
    ) -> Result<(), DiskFault> {
        self.read_at(path.as_bytes(), at, into);
        Ok(())
    }

    fn open(&mut self, _folder: &str, path: &str) -> Result<Option<MemoryFile>, DiskFault> {
        self.found(path.as_bytes())
    }

    fn make(&mut self, _folder: &str, path: &str) -> Result<MemoryFile, DiskFault> {
        self.made_at(path.as_bytes())
    }

    fn write(&mut self, file: &MemoryFile, at: u64, bytes: &[u8]) -> Result<(), DiskFault> {
        self.note_write(file, at, bytes)
    }

    fn cut(&mut self, file: &MemoryFile, to: u64) -> Result<(), DiskFault> {
        self.note_cut(file, to)
    }

    fn sync(&mut self, file: &MemoryFile) -> Result<(), DiskFault> {
        self.note_sync(file)
    }

    fn sync_folder(&mut self, folder: &str) -> Result<(), DiskFault> {
        self.note_folder(folder.as_bytes())
    }
}
