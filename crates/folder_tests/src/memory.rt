//! Folders in memory, which note what is done with their files and fail at one call. They tell nothing.
ghost use Rattle.std.specs.Prelude.{◌≡◌, [], OnOk};
ghost use Rattle.cx_disk.specs.Cause.{HasCause};
ghost use Rattle.cx_folder.specs.Tree.{untold};
ghost use Rattle.cx_disk.specs.declared.disk.DiskFault.TheVariants.{Failed};

use cx_disk::DiskFault;
use cx_folder::Folder;
use std::alloc::Global;

/// A file by its path.
#[derive(Drop)]
struct Stored {
    path: String,
    bytes: Vec<u8>,
}

/// Folders in memory. Of the calls that open, make, write, cut and sync one fails, the first being number 1. Each is noted by
/// a letter: `o` for one that opens, `m`, `w`, `c`, `s`, and `f` for the sync of a folder.
#[derive(Drop)]
pub struct MemoryFolder {
    alloc: Global,
    files: Vec<Stored>,
    notes: String,
    fail: usize,
    faults: u64,
}

/// An open file in memory.
#[derive(Drop)]
pub struct MemoryFile {
    path: String,
}

impl MemoryFolder {
    /// Folders without files, of whose calls this one fails.
    pub fn new(alloc: Global, fail: usize) -> Self {
        MemoryFolder {
            alloc,
            files: Vec::new(alloc),
            notes: String::new(alloc),
            fail,
            faults: 0,
        }
    }

    /// The notes so far.
    pub fn notes(&self) -> &str {
        self.notes.as_str()
    }

    /// The place of a file.
    fn place(&self, path: &str) -> Option<usize> {
        self.files
            .iter()
            .position(|file| file.path.as_str() == path)
    }

    /// The length of a file. One that isn't there has none.
    fn length_of(&self, path: &str) -> u64 {
        let mut files = self.files.iter();
        match files.find(|file| file.path.as_str() == path) {
            Some(file) => file.bytes.len() as u64,
            None => 0,
        }
    }

    /// Whether a file holds these bytes.
    pub fn reads(&self, path: &str, bytes: &[u8]) -> bool {
        let mut files = self.files.iter();
        match files.find(|file| file.path.as_str() == path) {
            Some(file) => file.bytes.as_slice() == bytes,
            None => false,
        }
    }

    /// Notes a call, and tells whether it fails.
    fn call(&mut self, letter: char) -> Result<(), DiskFault>
        ensures cause { HasCause Failed self.old.faults self.new.faults result }
        ensures calm { OnOk result (self.new.faults ≡ self.old.faults) }
    {
        self.notes.push(letter)?;
        if self.notes.len() == self.fail {
            self.faults = self.faults.saturating_add(1);
            return Err(DiskFault::Failed);
        }
        Ok(())
    }
}

impl Folder for MemoryFolder {
    type File = MemoryFile;

    ghost tells = { ⊥ };

    ghost view = { λ _. untold };

    ghost holds = { λ _ _. Unit {0} };

    ghost path_of = { λ _. [] };

    ghost faults = { λ folder. folder.faults };

    ghost sound = { λ _ tells. absurd tells };

    fn hold(&mut self, _folder: &str) -> Result<(), DiskFault> {
        Ok(())
    }

    fn length(&mut self, _folder: &str, path: &str) -> Result<u64, DiskFault> {
        Ok(self.length_of(path))
    }

    fn read(
        &mut self,
        _folder: &str,
        _path: &str,
        _at: u64,
        _into: &mut [u8],
    ) -> Result<(), DiskFault> {
        Ok(())
    }

    fn open(&mut self, _folder: &str, path: &str) -> Result<Option<MemoryFile>, DiskFault> {
        self.call('o')?;
        if self.place(path).is_none() {
            return Ok(None);
        }
        let path = format!(in self.alloc; "{path}")?;
        Ok(Some(MemoryFile { path }))
    }

    fn make(&mut self, _folder: &str, path: &str) -> Result<MemoryFile, DiskFault> {
        self.call('m')?;
        let bytes = Vec::new(self.alloc);
        let stored = format!(in self.alloc; "{path}")?;
        self.files.push(Stored {
            path: stored,
            bytes,
        })?;
        let path = format!(in self.alloc; "{path}")?;
        Ok(MemoryFile { path })
    }

    fn write(&mut self, file: &MemoryFile, _at: u64, bytes: &[u8]) -> Result<(), DiskFault> {
        self.call('w')?;
        let written = bytes.to_vec(self.alloc)?;
        if let Some(place) = self.place(file.path.as_str()) {
            if let Some(stored) = self.files.get_mut(place) {
                stored.bytes = written;
            }
        }
        Ok(())
    }

    fn cut(&mut self, _file: &MemoryFile, _to: u64) -> Result<(), DiskFault> {
        self.call('c')
    }

    fn sync(&mut self, _file: &MemoryFile) -> Result<(), DiskFault> {
        self.call('s')
    }

    fn sync_folder(&mut self, _folder: &str) -> Result<(), DiskFault> {
        self.call('f')
    }
}
