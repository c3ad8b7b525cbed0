//! A wire in memory that notes what is sent.
ghost use Rattle.std.specs.Prelude.{◌≡◌, ◌<◌, ◌+◌, ◌%◌, ◌^◌, [], length, OnOk, OnErr, IfOk, IfErr};
ghost use Rattle.cx_disk.specs.Cause.{HasCause};
ghost use Rattle.cx_wire.specs.Messages.{sent, IsCounted};
ghost use Rattle.cx_wire.specs.Queues.{Gains, Loses, SameQueues, fault_alone};
ghost use Rattle.cx_wire.specs.Received.{counted};
ghost use Rattle.cx_wire.specs.Memory.{told_queue, carried_sum};
ghost use Rattle.cx_wire.specs.Noting.{Noting, Notes};
ghost use Rattle.cx_text.specs.Numbers.{word_sum};

use crate::mail::{Head, Mail};
use crate::memory_wire::MemoryWire;
use crate::wire::{Wire, WireFault};
use cx_text::List;
use std::alloc::Global;
use std::marker::Model;

/// A wire in memory for tests: it notes each `send`, before it is done.
#[derive(Debug, Drop)]
pub struct NotingWire {
    wire: MemoryWire,
    notes: List<(u32, u32, Head)>,
}

impl Model for NotingWire {
    ghost use Rattle.cx_wire.specs.Noting.{Noting};

    ghost Value = { Noting };

    ghost view = { λ w. record { wire = w.wire; notes = w.notes } };
}

impl NotingWire {
    /// The wire that notes what is sent by this one.
    pub fn new(alloc: Global, wire: MemoryWire) -> Self
        ensures { result ≡ record { wire = wire; notes = [] } }
    {
        NotingWire {
            wire,
            notes: List::empty(alloc),
        }
    }

    /// What was sent, in order: from which part, to which, and the head.
    pub fn notes(&self) -> &List<(u32, u32, Head)>
        ensures { result.now ≡ self.now.notes }
    {
        &self.notes
    }
}

impl Wire for NotingWire {
    ghost use Rattle.std.specs.Prelude.{true};
    ghost use Rattle.cx_wire.specs.Memory.{sent_queue, carried_sum, carried_sum_fits};

    ghost tells = { true };

    ghost parts = { λ w. w.wire.parts };

    ghost queue = { λ w. sent_queue w.wire };

    ghost received = { λ w. w.wire.received };

    ghost sum = { λ w. carried_sum w.wire };

    ghost faults = { λ _. 0 };

    ghost sum_fits = { λ w _. carried_sum_fits w.wire };

    /// Notes sender, receiver and head, and sends the mail.
    fn send(&mut self, from: u32, to: u32, mail: Mail) -> Result<(), (WireFault, Mail)>
        requires from { from < self.old.wire.parts }
        requires to { to < self.old.wire.parts }
        requires counted { IsCounted mail }
        ensures notes { Notes self.old self.new from to mail result }
        ensures sent { OnOk result
            (Gains (told_queue self.old.wire) (told_queue self.new.wire) from to (sent mail)) }
        ensures unsent { OnErr result
            (SameQueues (told_queue self.old.wire) (told_queue self.new.wire)) }
        ensures back { IfErr result (λ e. e.1 ≡ mail) }
        ensures parts { self.new.wire.parts ≡ self.old.wire.parts }
        ensures received { self.new.wire.received ≡ self.old.wire.received }
        ensures sum { carried_sum self.new.wire ≡ carried_sum self.old.wire }
        ensures cause { HasCause WireFault.Failed 0 0 (fault_alone result) }
    {
        if self.notes.push((from, to, mail.head)).is_err() {
            return Err((WireFault::Memory, mail));
        }
        self.wire.send(from, to, mail)
    }

    /// The head of the mail that is received next.
    fn front(&self, from: u32, to: u32) -> Option<Head> {
        self.wire.front(from, to)
    }

    /// Receives mail, of which nothing is noted.
    fn receive(&mut self, from: u32, to: u32) -> Result<Mail, WireFault>
        requires from { from < self.old.wire.parts }
        requires to { to < self.old.wire.parts }
        requires some { 0 < length (told_queue self.old.wire from to) }
        ensures notes { self.new.notes ≡ self.old.notes }
        ensures taken { IfOk result (λ mail.
            Loses (told_queue self.old.wire) (told_queue self.new.wire) from to (sent mail)) }
        ensures counted { IfOk result (λ mail. IsCounted mail) }
        ensures left { OnErr result
            (SameQueues (told_queue self.old.wire) (told_queue self.new.wire)) }
        ensures parts { self.new.wire.parts ≡ self.old.wire.parts }
        ensures received { IfOk result (λ mail.
            self.new.wire.received ≡ counted self.old.wire.received mail.head.count) }
        ensures added { IfOk result (λ mail. carried_sum self.new.wire
            ≡ (carried_sum self.old.wire + word_sum mail.values) % 2 ^ 64) }
        ensures same { OnErr result (self.new.wire.received ≡ self.old.wire.received) }
        ensures same_sum { OnErr result (carried_sum self.new.wire ≡ carried_sum self.old.wire) }
        ensures cause { HasCause WireFault.Failed 0 0 result }
        ensures takes_no_memory { IfErr result (λ fault. fault ≡ WireFault.Failed) }
    {
        self.wire.receive(from, to)
    }
}
