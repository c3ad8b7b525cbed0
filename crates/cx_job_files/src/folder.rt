//! The current folder, as a shelf that tells no content.
ghost use Rattle.std.specs.Prelude.{◌≡◌};
ghost use Rattle.cx_job_files.specs.Shelf.{nothing_held};
ghost use Rattle.cx_disk.specs.Cause.{HasCause};

use crate::shelf::{Shelf, ShelfFault};
use cx_text::Text;
use std::alloc::Global;
use std::fs;
use std::io::{self, ErrorKind, Read};
use std::marker::Model;
use std::rt::Files;

/// What is read of a file at most: 1 MiB and one byte.
const MOST: u64 = 1_048_577;

/// The files below the current folder. Of each at most 1 MiB and one byte is read. Nothing is told of bytes.
#[derive(Drop)]
pub struct FolderShelf<R> {
    rt: R,
    faults: u64,
}

impl<R> Model for FolderShelf<R> {
    ghost use Rattle.std.specs.Prelude.{ℕ};

    ghost Value = { ℕ };

    ghost view = { λ shelf. shelf.faults };
}

impl<R: Files + Drop> FolderShelf<R> {
    /// A shelf that hasn't failed yet. Contracts see its count of faults.
    pub fn new(rt: R) -> Self
        ensures { result ≡ 0 }
    {
        FolderShelf { rt, faults: 0 }
    }

    /// The bytes of a file, up to the most that are read.
    fn load(&self, alloc: Global, path: &str) -> io::Result<Vec<u8>> {
        let mut bytes = Vec::new(alloc);
        fs::open(&self.rt, path)?
            .take(MOST)
            .read_to_end(&mut bytes)?;
        Ok(bytes)
    }
}

impl<R> FolderShelf<R> {
    /// A failure, which is counted.
    fn count_failure(&mut self) -> Result<Option<Vec<u8>>, ShelfFault>
        ensures { HasCause ShelfFault.Failed self.old self.new result }
    {
        self.faults = self.faults.saturating_add(1);
        Err(ShelfFault::Failed)
    }
}

impl<R: Files + Drop> Shelf for FolderShelf<R> {
    ghost tells = { ⊥ };

    ghost held = { λ _. nothing_held };

    ghost faults = { λ shelf. shelf };

    /// A file of the folder; none if there is no such file. A name that isn't UTF-8 is a failure.
    fn read(&mut self, alloc: Global, name: &Text) -> Result<Option<Vec<u8>>, ShelfFault> {
        let Ok(path) = str::from_utf8(name.as_slice()) else {
            return self.count_failure();
        };
        match self.load(alloc, path) {
            Ok(bytes) => Ok(Some(bytes)),
            Err(error) => match error.kind() {
                ErrorKind::NotFound => Ok(None),
                ErrorKind::OutOfMemory => Err(ShelfFault::Memory),
                _ => self.count_failure(),
            },
        }
    }
}
