//! The folders of the host, which tell nothing of what their files hold.
ghost use Rattle.std.specs.Prelude.{◌≡◌, [], ◌∷◌, ◌++◌, true, string_bytes, map, IfSome, IfErr, IfOk, OnOk, OnErr};
ghost use Rattle.std.specs.List.{Contains};
ghost use Rattle.cx_disk.specs.Cause.{HasCause};
ghost use Rattle.cx_disk.specs.declared.disk.DiskFault.TheVariants.{Failed, Memory};
ghost use Rattle.cx_folder.specs.Host.{Host};
ghost use Rattle.cx_folder.specs.Names.{Path};
ghost use Rattle.cx_folder.specs.Tree.{untold};

use crate::Folder;
use cx_disk::DiskFault;
use std::alloc::Global;
use std::fs::{self, File, OpenOptions};
use std::io::{self, ErrorKind};
use std::marker::Model;
use std::os::unix::fs::{FileExt, MetadataExt};
use std::rt::Files;

/// A folder that the run has for itself, under the path that it was asked for by. One that is missing is made with the
/// first file in it.
#[derive(Drop)]
struct Home {
    path: String,
    folder: Option<File>,
}

/// The folders of the host. Contracts see of which the run has the locks, and how often the host has failed.
///
/// A lock is the system's own on the open folder (`flock`), so no file is made for it, and it ends with the run. Two
/// paths to one folder have one lock. A folder that is missing is made with its first file, with those above it, and
/// each is settled by a sync of the one above; if another run has made it by then, that is a failure.
#[derive(Drop)]
pub struct HostFolder<R> {
    rt: R,
    alloc: Global,
    homes: Vec<Home>,
    levels: Vec<File>,
    faults: u64,
}

/// An open file of the host.
#[derive(Drop)]
pub struct HostFile {
    file: File,
}

impl<R> Model for HostFolder<R> {
    ghost use Rattle.std.specs.Prelude.{map, string_bytes};
    ghost use Rattle.cx_folder.specs.Host.{Host};

    ghost Value = { Host };

    ghost view = { λ host. record {
      held = map (λ home. string_bytes home.path) host.homes.items;
      faults = host.faults;
    } };
}

impl<R: Files<File = File> + Drop> HostFolder<R> {
    /// The folders of a host that hasn't failed, with no locks.
    pub fn new(rt: R, alloc: Global) -> Self
        ensures { result ≡ record { held = []; faults = 0 } }
    {
        HostFolder {
            rt,
            alloc,
            homes: Vec::new(alloc),
            levels: Vec::new(alloc),
            faults: 0,
        }
    }

    /// What a call gave, with a failure counted.
    fn counted<T>(&mut self, done: io::Result<T>) -> Result<T, DiskFault>
        ensures held { self.new.held ≡ self.old.held }
        ensures calm { OnOk result (self.new.faults ≡ self.old.faults) }
        ensures cause { HasCause Failed self.old.faults self.new.faults result }
        ensures takes_no_memory { IfErr result (λ fault. fault ≡ Failed) }
    {
        match done {
            Ok(value) => Ok(value),
            Err(_) => {
                self.faults = self.faults.saturating_add(1);
                Err(DiskFault::Failed)
            }
        }
    }

    /// Whether a folder is missing, of those that the run has.
    fn lacks(&self, path: &str) -> bool {
        let mut homes = self.homes.iter();
        !homes.any(|home| home.path.as_str() == path && home.folder.is_some())
    }

    /// Notes a folder that the run has.
    fn add(&mut self, path: &str, folder: Option<File>) -> Result<(), DiskFault>
        ensures held { OnOk result (self.new.held ≡ self.old.held ++ path.now ∷ []) }
        ensures same { OnErr result (self.new.held ≡ self.old.held) }
        ensures faults { self.new.faults ≡ self.old.faults }
        ensures wanting { IfErr result (λ fault. fault ≡ Memory) }
    {
        let path = format!(in self.alloc; "{path}")?;
        Ok(self.homes.push(Home { path, folder })?)
    }

    /// Makes a folder above another one, and keeps it. One that was there is left.
    fn make_level(&mut self, path: &str, above: &str) -> Result<(), DiskFault>
        ensures held { self.new.held ≡ self.old.held }
        ensures calm { OnOk result (self.new.faults ≡ self.old.faults) }
        ensures cause { HasCause Failed self.old.faults self.new.faults result }
    {
        let made = make_one(&self.rt, path, above);
        match self.counted(made)? {
            Some(level) => Ok(self.levels.push(level)?),
            None => Ok(()),
        }
    }

    /// Makes the folders above one, and gives how many bytes its path has before its last level.
    fn make_above(&mut self, path: &str) -> Result<usize, DiskFault>
        ensures held { self.new.held ≡ self.old.held }
        ensures calm { OnOk result (self.new.faults ≡ self.old.faults) }
        ensures cause { HasCause Failed self.old.faults self.new.faults result }
    {
        let mut above = 0;
        'levels: for end in 1..path.len() {
            if let Some(upper) = level_before(path, end) {
                self.make_level(upper, above_of(path, above))?;
                above = end;
            }
        }
        Ok(above)
    }

    /// Makes and locks a folder that is missing, with those above it.
    fn make_folder(&mut self, path: &str) -> Result<(), DiskFault>
        ensures still_held { (other : Path) → Contains self.old.held other
            → Contains self.new.held other }
        ensures calm { OnOk result (self.new.faults ≡ self.old.faults) }
        ensures cause { HasCause Failed self.old.faults self.new.faults result }
    {
        let above = self.make_above(path)?;
        let made = make_last(
            &self.rt,
            &self.homes,
            &self.levels,
            path,
            above_of(path, above),
        );
        let folder = self.counted(made)?;
        self.add(path, Some(folder))
    }

    /// Has a folder, which is made where it is missing.
    fn settle_in(&mut self, path: &str) -> Result<(), DiskFault>
        ensures still_held { (other : Path) → Contains self.old.held other
            → Contains self.new.held other }
        ensures calm { OnOk result (self.new.faults ≡ self.old.faults) }
        ensures cause { HasCause Failed self.old.faults self.new.faults result }
    {
        if self.lacks(path) {
            self.make_folder(path)
        } else {
            Ok(())
        }
    }
}

/// Opens a folder, if it is there.
fn open_folder<R: Files<File = File>>(rt: &R, path: &str) -> io::Result<Option<File>> {
    match File::open(rt, path) {
        Ok(folder) if folder.metadata()?.is_dir() => Ok(Some(folder)),
        Ok(_) => Err(ErrorKind::NotADirectory.into()),
        Err(error) if error.kind() == ErrorKind::NotFound => Ok(None),
        Err(error) => Err(error),
    }
}

/// Whether two open folders are one.
fn are_one(first: &File, second: &File) -> io::Result<bool> {
    let (first, second) = (first.metadata()?, second.metadata()?);
    Ok(first.dev() == second.dev() && first.ino() == second.ino())
}

/// Whether an open folder is one of these levels.
fn is_level(levels: &[File], folder: &File) -> io::Result<bool> {
    'levels: for level in levels {
        if are_one(level, folder)? {
            return Ok(true);
        }
    }
    Ok(false)
}

/// Whether an open folder is one of these homes.
fn is_home(homes: &[Home], folder: &File) -> io::Result<bool> {
    'homes: for home in homes {
        if let Some(other) = &home.folder {
            if are_one(other, folder)? {
                return Ok(true);
            }
        }
    }
    Ok(false)
}

/// Opens and locks a folder, if it is there.
fn enter<R: Files<File = File>>(rt: &R, homes: &[Home], path: &str) -> io::Result<Option<File>> {
    let entered = open_folder(rt, path)?;
    if let Some(folder) = &entered {
        if !is_home(homes, folder)? {
            folder.try_lock()?;
        }
    }
    Ok(entered)
}

/// Makes a folder, and settles its entry in the one above. One that was there is left, and is not given.
fn make_one<R: Files<File = File>>(rt: &R, path: &str, above: &str) -> io::Result<Option<File>> {
    match fs::create_dir(rt, path) {
        Ok(()) => {
            File::open(rt, above)?.sync_all()?;
            Ok(Some(File::open(rt, path)?))
        }
        Err(_) if fs::metadata(rt, path)?.is_dir() => Ok(None),
        Err(error) => Err(error),
    }
}

/// Makes and locks a folder. One that was there is a failure, unless this run has made it: another run has.
fn make_last<R: Files<File = File>>(
    rt: &R,
    homes: &[Home],
    levels: &[File],
    path: &str,
    above: &str,
) -> io::Result<File> {
    let (folder, is_own) = match make_one(rt, path, above)? {
        Some(folder) => (folder, true),
        None => {
            let folder = File::open(rt, path)?;
            if is_home(homes, &folder)? {
                return Ok(folder);
            }
            let is_own = is_level(levels, &folder)?;
            (folder, is_own)
        }
    };
    if !is_own {
        return Err(ErrorKind::AlreadyExists.into());
    }
    folder.try_lock()?;
    Ok(folder)
}

/// The path of the level that ends before this byte of a path, if one does.
fn level_before(path: &str, end: usize) -> Option<&str> {
    let (upper, rest) = path.split_at_checked(end)?;
    if rest.starts_with('/') {
        Some(upper)
    } else {
        None
    }
}

/// The path of the folder above, where a path has so many bytes before its last level.
fn above_of(path: &str, above: usize) -> &str {
    match path.get(..above) {
        Some("") if path.starts_with('/') => "/",
        Some("") | None => ".",
        Some(above) => above,
    }
}

/// Opens a file if it is there.
fn found<R: Files<File = File>>(rt: &R, path: &str) -> io::Result<Option<HostFile>> {
    let mut how = OpenOptions::new();
    how.read(true).write(true);
    match how.open(rt, path) {
        Ok(file) => Ok(Some(HostFile { file })),
        Err(error) if error.kind() == ErrorKind::NotFound => Ok(None),
        Err(error) => Err(error),
    }
}

/// Opens a file, and makes it where it is missing.
fn made<R: Files<File = File>>(rt: &R, path: &str) -> io::Result<HostFile> {
    let mut how = OpenOptions::new();
    how.read(true).write(true).create(true);
    Ok(HostFile {
        file: how.open(rt, path)?,
    })
}

/// The length of a file.
fn length_of(file: &File) -> io::Result<u64> {
    Ok(file.metadata()?.len())
}

/// The length of a file by its path. One that isn't there has none.
fn length_at<R: Files<File = File>>(rt: &R, path: &str) -> io::Result<u64> {
    match found(rt, path)? {
        Some(found) => length_of(&found.file),
        None => Ok(0),
    }
}

/// A range of a file that isn't there.
fn within_empty(at: u64, into: &[u8]) -> io::Result<()> {
    if at == 0 && into.is_empty() {
        Ok(())
    } else {
        Err(ErrorKind::UnexpectedEof.into())
    }
}

/// Reads a range of a file by its path.
fn read_at<R: Files<File = File>>(rt: &R, path: &str, at: u64, into: &mut [u8]) -> io::Result<()> {
    match found(rt, path)? {
        Some(found) => read_range(&found.file, at, into),
        None => within_empty(at, into),
    }
}

/// Reads a range that lies within a file.
fn read_range(file: &File, at: u64, into: &mut [u8]) -> io::Result<()> {
    if at > length_of(file)? {
        return Err(ErrorKind::UnexpectedEof.into());
    }
    file.read_exact_at(into, at)
}

/// Writes from a place within a file on, or at its end.
fn write_range(file: &File, at: u64, bytes: &[u8]) -> io::Result<()> {
    if at > length_of(file)? {
        return Err(ErrorKind::InvalidInput.into());
    }
    file.write_all_at(bytes, at)
}

/// Cuts a file to a length that it has.
fn cut_to(file: &File, to: u64) -> io::Result<()> {
    if to > length_of(file)? {
        return Err(ErrorKind::InvalidInput.into());
    }
    file.set_len(to)
}

/// Syncs a folder by its path. One that is missing has no entries.
fn sync_home(homes: &[Home], path: &str) -> io::Result<()> {
    let mut all = homes.iter();
    match all.find(|home| home.path.as_str() == path && home.folder.is_some()) {
        Some(
            Home {
                folder: Some(folder),
                ..
            },
        ) => folder.sync_all(),
        _ => Ok(()),
    }
}

impl<R: Files<File = File> + Drop> Folder for HostFolder<R> {
    type File = HostFile;

    ghost tells = { ⊥ };

    ghost view = { λ _. untold };

    ghost holds = { λ host folder. Contains host.held folder };

    ghost path_of = { λ _. [] };

    ghost faults = { λ host. host.faults };

    ghost sound = { λ _ tells. absurd tells };

    fn hold(&mut self, folder: &str) -> Result<(), DiskFault> {
        let entered = enter(&self.rt, &self.homes, folder);
        let entered = self.counted(entered)?;
        self.add(folder, entered)
    }

    fn length(&mut self, folder: &str, path: &str) -> Result<u64, DiskFault> {
        if self.lacks(folder) {
            return Ok(0);
        }
        let done = length_at(&self.rt, path);
        self.counted(done)
    }

    fn read(
        &mut self,
        folder: &str,
        path: &str,
        at: u64,
        into: &mut [u8],
    ) -> Result<(), DiskFault> {
        let done = if self.lacks(folder) {
            within_empty(at, into)
        } else {
            read_at(&self.rt, path, at, into)
        };
        self.counted(done)
    }

    fn open(&mut self, folder: &str, path: &str) -> Result<Option<HostFile>, DiskFault> {
        if self.lacks(folder) {
            return Ok(None);
        }
        let done = found(&self.rt, path);
        self.counted(done)
    }

    fn make(&mut self, folder: &str, path: &str) -> Result<HostFile, DiskFault> {
        self.settle_in(folder)?;
        let done = made(&self.rt, path);
        self.counted(done)
    }

    fn write(&mut self, file: &HostFile, at: u64, bytes: &[u8]) -> Result<(), DiskFault> {
        let done = write_range(&file.file, at, bytes);
        self.counted(done)
    }

    fn cut(&mut self, file: &HostFile, to: u64) -> Result<(), DiskFault> {
        let done = cut_to(&file.file, to);
        self.counted(done)
    }

    fn sync(&mut self, file: &HostFile) -> Result<(), DiskFault> {
        let done = file.file.sync_all();
        self.counted(done)
    }

    fn sync_folder(&mut self, folder: &str) -> Result<(), DiskFault> {
        let done = sync_home(&self.homes, folder);
        self.counted(done)
    }
}
