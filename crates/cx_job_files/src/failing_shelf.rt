//! A shelf in memory that fails at some calls.
ghost use Rattle.std.specs.Prelude.{◌≡◌, ◌≤◌, ◌↔◌, if◌then◌else◌, IsTrue, IfOk};
ghost use Rattle.cx_disk.specs.Cause.{Rose, HasCause};
ghost use Rattle.cx_job_files.specs.Failing.{failing_shelf, FailsNext, FailsAt, called, failed};
ghost use Rattle.cx_job_files.specs.Shelf.{Gives, looked_up};

use crate::{MemoryShelf, Shelf, ShelfFault};
use cx_text::{List, Text};
use std::alloc::Global;
use std::marker::Model;

/// A shelf in memory that fails the calls of some numbers, and does all others. The first call is number 1, and from the
/// last number of 64 bits on each has that one.
#[derive(Drop)]
pub struct FailingShelf {
    shelf: MemoryShelf,
    fail: List<u64>,
    next: u64,
    faults: u64,
}

impl Model for FailingShelf {
    ghost use Rattle.cx_job_files.specs.Failing.{Failing};

    ghost Value = { Failing };

    ghost view = { λ f. record {
      files = f.shelf;
      fail = f.fail;
      next = f.next;
      faults = f.faults;
    } };
}

impl FailingShelf {
    /// The shelf that fails the calls of these numbers.
    pub fn new(shelf: MemoryShelf, fail: List<u64>) -> Self
        ensures { result ≡ failing_shelf shelf fail }
    {
        FailingShelf {
            shelf,
            fail,
            next: 1,
            faults: 0,
        }
    }

    /// The shelf within.
    pub fn into_inner(self) -> MemoryShelf
        ensures { result ≡ self.files }
    {
        self.shelf
    }

    /// Counts a call, and says whether it fails.
    fn fails(&mut self) -> bool
        ensures value { IsTrue result ↔ FailsNext self.old }
        ensures later { self.old.faults ≤ self.new.faults }
        ensures rose { IsTrue result → Rose self.old.faults self.new.faults }
        ensures new { self.new ≡ (if result then failed self.old else called self.old) }
    {
        let fails = self.fail.as_slice().contains(&self.next);
        self.next = self.next.saturating_add(1);
        if fails {
            self.faults = self.faults.saturating_add(1);
        }
        fails
    }
}

impl Shelf for FailingShelf {
    ghost tells = { Unit {0} };

    ghost held = { λ f. looked_up f.files };

    ghost faults = { λ f. f.faults };

    /// A file of the shelf in memory; a failure at each call that is to fail.
    fn read(&mut self, alloc: Global, name: &Text) -> Result<Option<Vec<u8>>, ShelfFault>
        ensures fails { FailsAt self.old self.new result }
        ensures found { IfOk result (λ found. Gives found (looked_up self.old.files name.now)) }
        ensures same { looked_up self.new.files ≡ looked_up self.old.files }
        ensures cause { HasCause ShelfFault.Failed self.old.faults self.new.faults result }
    {
        if self.fails() {
            return Err(ShelfFault::Failed);
        }
        self.shelf.read(alloc, name)
    }
}
