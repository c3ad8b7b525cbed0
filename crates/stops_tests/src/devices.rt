//! Devices that fail in one call, and a disk whose files are long.
ghost use Rattle.std.specs.Prelude.{◌≡◌, IfOk};
ghost use Rattle.cx_disk.specs.Disk.{files_in, untold};

use cx_disk::{Disk, DiskFault, FailingDisk, MemoryDisk, OLD_OUTPUT};
use cx_job_files::FailingShelf;
use cx_run::MemoryShelf;
use cx_text::{List, Memory, Text};
use std::alloc::{AllocError, Global};
use std::marker::Model;

/// The number of the call behind so many; the first call is number 1.
fn behind(alloc: Global, calls: u64) -> Result<List<u64>, Memory> {
    Ok(List::new(Vec::from_array(alloc, [calls.saturating_add(1)])?))
}

/// A disk without files that fails in the call behind so many.
pub(crate) fn failing_disk(alloc: Global, calls: u64) -> Result<FailingDisk, Memory> {
    let disk = MemoryDisk::new(alloc, List::empty(alloc));
    Ok(FailingDisk::new(disk, behind(alloc, calls)?))
}

/// A shelf that fails in the reading behind so many.
pub(crate) fn failing_shelf(
    alloc: Global,
    shelf: MemoryShelf,
    calls: u64,
) -> Result<FailingShelf, Memory> {
    Ok(FailingShelf::new(shelf, behind(alloc, calls)?))
}

/// A disk with a checkpoint in its second slot, each of whose files after the slots is said to be so long and has no byte. Nothing
/// of it is told, and it takes no change.
#[derive(Drop)]
pub struct LongDisk {
    alloc: Global,
    slot: Text,
    length: u64,
    mounted: bool,
    output: Text,
    names: List<Text>,
    checkpoints: Text,
}

impl Model for LongDisk {
    ghost use Rattle.stops_tests.specs.Adapter.{Adapter};

    ghost Value = { Adapter };

    ghost view = { λ disk. record {
      mounted = disk.mounted;
      folders = record {
        output = disk.output;
        names = disk.names;
        checkpoints = disk.checkpoints;
      };
      faults = 0;
    } };
}

impl LongDisk {
    /// The disk of this slot and this length, which isn't mounted.
    pub(crate) fn new(alloc: Global, slot: Text, length: u64) -> Self {
        LongDisk {
            alloc,
            slot,
            length,
            mounted: false,
            output: Text::new(Vec::new(alloc)),
            names: List::empty(alloc),
            checkpoints: Text::new(Vec::new(alloc)),
        }
    }

    /// How long a file is.
    fn length_of(&self, file: u32) -> u64 {
        match file {
            1 => self.slot.as_slice().len() as u64,
            slot if slot < OLD_OUTPUT => 0,
            _ => self.length,
        }
    }
}

/// Copies of texts.
fn copies(alloc: Global, texts: &[Text]) -> Result<Vec<Text>, AllocError>
    ensures { IfOk result (λ copy. copy.items ≡ texts.now) }
{
    let mut copy = Vec::new(alloc);
    'each: for text in texts {
        copy.push(Text::new(text.as_slice().to_vec(alloc)?))?;
    }
    Ok(copy)
}

/// Fills a place with what stands in a text from an offset on, where it is there.
fn fill(text: &[u8], at: usize, into: &mut [u8]) {
    let Some(end) = at.checked_add(into.len()) else {
        return;
    };
    if let Some(bytes) = text.get(at..end) {
        into.copy_from_slice(bytes);
    }
}

impl Disk for LongDisk {
    ghost tells = { ⊥ };

    ghost mounted = { λ disk. disk.mounted };

    ghost folders = { λ disk. disk.folders };

    ghost file_count = { λ disk. files_in disk.folders };

    ghost view = { λ _. untold };

    ghost faults = { λ disk. disk.faults };

    ghost sound = { λ _ tells. absurd tells };

    fn mount(
        &mut self,
        output: &Text,
        names: &List<Text>,
        checkpoints: &Text,
    ) -> Result<(), DiskFault> {
        let output = Text::new(output.as_slice().to_vec(self.alloc)?);
        let names = List::new(copies(self.alloc, names.as_slice())?);
        let checkpoints = Text::new(checkpoints.as_slice().to_vec(self.alloc)?);
        self.output = output;
        self.names = names;
        self.checkpoints = checkpoints;
        self.mounted = true;
        Ok(())
    }

    fn length(&mut self, file: u32) -> Result<u64, DiskFault> {
        Ok(self.length_of(file))
    }

    fn read(&mut self, file: u32, at: u64, into: &mut [u8]) -> Result<(), DiskFault> {
        if file == 1 {
            fill(self.slot.as_slice(), at as usize, into);
        }
        Ok(())
    }

    fn write_at(&mut self, _file: u32, _at: u64, _bytes: &[u8]) -> Result<(), DiskFault> {
        Err(DiskFault::Memory)
    }

    fn cut(&mut self, _file: u32, _to: u64) -> Result<(), DiskFault> {
        Err(DiskFault::Memory)
    }

    fn sync(&mut self, _file: u32) -> Result<(), DiskFault> {
        Err(DiskFault::Memory)
    }
}
