//! Where printed text goes.
ghost use Rattle.std.specs.Prelude.{◌≡◌, ◌≤◌, ◌<◌, ◌-◌, ◌+◌, ◌^◌, ◌↔◌, [], ℕ, List as ListOf, OnOk, OnErr, IfOk, IsOk, IsErr, IsTrue, min, length, take, ◌++◌};
ghost use Rattle.cx_run.specs.Sink.{Adds, AddsFront};
ghost use Rattle.cx_disk.specs.Cause.{HasCause};
ghost use Rattle.cx_run.specs.MemorySink.{FailsNext, HasRoom, empty_sink, fitting};
ghost use Rattle.cx_disk.specs.Fuse.{next_count};

use cx_text::{List, Memory};
use std::alloc::Global;
use std::marker::Model;
use thiserror::Error;

/// Why a sink took less than it was given.
#[derive(Clone, Copy, Debug, Error, PartialEq, Eq)]
pub enum SinkFault {
    /// The sink failed. Its count of faults has risen in this call, or is 2^64 - 1.
    #[error("Failed")]
    Failed,
}

/// A place for printed text.
pub trait Sink {
    /// The sink tells what was written. Where it doesn't, nothing is said of bytes.
    ghost tells: { Type 0 };

    /// All bytes written.
    ghost written: { Self → ListOf ℕ };

    /// How often the sink has failed. The count stops at 2^64 - 1.
    ghost faults: { Self → ℕ };

    /// Writes a piece at the end. Where it answers `Failed` the count of faults rose, and only a front of the piece was written.
    fn put(&mut self, bytes: &[u8]) -> Result<(), SinkFault>
        ensures added { tells → OnOk result (Adds bytes.now (written self.old) (written self.new)) }
        ensures front { tells
            → OnErr result (AddsFront bytes.now (written self.old) (written self.new)) }
        ensures cause { HasCause SinkFault.Failed (faults self.old) (faults self.new) result }
        ensures count { OnOk result (faults self.new ≡ faults self.old) };
}

/// A sink in memory with room for some bytes. The first call of `put` is number 0.
#[derive(Drop)]
pub struct MemorySink {
    bytes: Vec<u8>,
    room: u32,
    fail: List<u64>,
    calls: u64,
    faults: u64,
}

impl Model for MemorySink {
    ghost use Rattle.std.specs.Prelude.{ℕ, ◌≤◌, vec_capacity, length};
    ghost use Rattle.cx_run.specs.MemorySink.{Written};

    ghost Value = { Written };

    ghost view = { λ s. record {
      bytes = s.bytes.items;
      room = s.room;
      fail = s.fail;
      calls = s.calls;
      faults = s.faults;
    } };

    ghost invariant = { λ s. (length s.bytes.items ≤ s.room) × (s.room ≤ vec_capacity s.bytes) };
}

impl MemorySink {
    /// An empty sink that holds at most `room` bytes, and whose calls of the numbers in `fail` fail.
    pub fn new(alloc: Global, room: u32, fail: List<u64>) -> Result<Self, Memory>
        ensures { IfOk result (λ sink. sink ≡ empty_sink room fail) }
    {
        Ok(MemorySink {
            bytes: Vec::with_capacity(alloc, room as usize)?,
            room,
            fail,
            calls: 0,
            faults: 0,
        })
    }

    /// The bytes written.
    pub fn bytes(&self) -> &[u8]
        ensures { result.now ≡ self.now.bytes }
    {
        &self.bytes
    }

    /// A failure, which is counted.
    fn failed(&mut self) -> Result<(), SinkFault>
        ensures fails { IsErr result }
        ensures next { self.new ≡ record self.old { faults = next_count self.old.faults } }
    {
        self.faults = self.faults.saturating_add(1);
        Err(SinkFault::Failed)
    }

    /// Writes as much of the front of a piece as there is room for, and says whether that is all of it.
    fn fill(&mut self, piece: &[u8]) -> bool
        ensures all { IsTrue result ↔ HasRoom self.old piece.now }
        ensures next { self.new
            ≡ record self.old { bytes = self.old.bytes ++ fitting self.old piece.now } }
    {
        let room = self.room as usize - self.bytes.len();
        let count = room.min(piece.len());
        self.bytes.extend_from_slice(&piece[..count]).is_ok() && count == piece.len()
    }
}

impl Sink for MemorySink {
    ghost tells = { Unit {0} };

    ghost written = { λ sink. sink.bytes };

    ghost faults = { λ sink. sink.faults };

    /// It fails exactly in the calls of the given numbers, which write nothing, and where there isn't room for the
    /// piece, of which it then writes the front that there is room for.
    #[tactic(auto, using(crate::proofs::Fronts::front_taken, crate::proofs::Fronts::front_none))]
    fn put(&mut self, bytes: &[u8]) -> Result<(), SinkFault>
        ensures added { OnOk result (Adds bytes.now self.old.bytes self.new.bytes) }
        ensures front { OnErr result (AddsFront bytes.now self.old.bytes self.new.bytes) }
        ensures cause { HasCause SinkFault.Failed self.old.faults self.new.faults result }
        ensures count { OnOk result (self.new.faults ≡ self.old.faults) }
        ensures fails_by_number { FailsNext self.old
            → IsErr result × (self.new.bytes ≡ self.old.bytes) }
        ensures fails_by_room { (FailsNext self.old → ⊥)
            → (IsOk result ↔ HasRoom self.old bytes.now)
            × (self.new.bytes ≡ self.old.bytes ++ fitting self.old bytes.now) }
        ensures calls { self.new.calls ≡ next_count self.old.calls }
        ensures same { (self.new.room ≡ self.old.room) × (self.new.fail ≡ self.old.fail) }
    {
        let call = self.calls;
        self.calls = self.calls.saturating_add(1);
        if self.fail.as_slice().contains(&call) {
            return self.failed();
        }
        if !self.fill(bytes) {
            return self.failed();
        }
        Ok(())
    }
}
