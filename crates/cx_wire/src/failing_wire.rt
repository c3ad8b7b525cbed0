//! A wire in memory that fails at some calls.
ghost use Rattle.std.specs.Prelude.{◌≡◌, ◌<◌, ◌≤◌, ◌+◌, ◌%◌, ◌^◌, ◌↔◌, IsTrue, if◌then◌else◌, length, OnOk, OnErr, IfOk, IfErr};
ghost use Rattle.cx_disk.specs.Cause.{Rose, HasCause};
ghost use Rattle.cx_wire.specs.Messages.{sent, IsCounted};
ghost use Rattle.cx_wire.specs.Queues.{Gains, Loses, SameQueues, fault_alone};
ghost use Rattle.cx_wire.specs.Received.{counted};
ghost use Rattle.cx_wire.specs.Memory.{told_queue, carried_sum};
ghost use Rattle.cx_wire.specs.Failing.{FailsNext, FailsAt, failing_wire, failed, passed};
ghost use Rattle.cx_text.specs.Numbers.{word_sum};

use crate::mail::{Head, Mail};
use crate::memory_wire::MemoryWire;
use crate::wire::{Wire, WireFault};
use cx_text::List;
use std::marker::Model;

/// A wire in memory that fails at the calls of `send` and `receive` with some numbers. The first call is number 0.
#[derive(Debug, Drop)]
pub struct FailingWire {
    wire: MemoryWire,
    fail: List<u64>,
    calls: u64,
    faults: u64,
}

impl Model for FailingWire {
    ghost use Rattle.cx_wire.specs.Failing.{Failing};

    ghost Value = { Failing };

    ghost view = { λ w. record {
      wire = w.wire;
      fail = w.fail;
      calls = w.calls;
      faults = w.faults;
    } };
}

impl FailingWire {
    /// The wire that fails at the calls of these numbers.
    pub fn new(wire: MemoryWire, fail: List<u64>) -> Self
        ensures { result ≡ failing_wire wire fail }
    {
        FailingWire {
            wire,
            fail,
            calls: 0,
            faults: 0,
        }
    }

    /// Counts a call, and tells whether it fails.
    fn fails(&mut self) -> bool
        ensures value { IsTrue result ↔ FailsNext self.old }
        ensures later { self.old.faults ≤ self.new.faults }
        ensures rose { IsTrue result → Rose self.old.faults self.new.faults }
        ensures new { self.new ≡ (if result then failed self.old else passed self.old) }
    {
        let fails = self.fail.as_slice().contains(&self.calls);
        self.calls = self.calls.saturating_add(1);
        if fails {
            self.faults = self.faults.saturating_add(1);
        }
        fails
    }
}

impl Wire for FailingWire {
    ghost use Rattle.std.specs.Prelude.{true};
    ghost use Rattle.cx_wire.specs.Memory.{sent_queue, carried_sum, carried_sum_fits};

    ghost tells = { true };

    ghost parts = { λ w. w.wire.parts };

    ghost queue = { λ w. sent_queue w.wire };

    ghost received = { λ w. w.wire.received };

    ghost sum = { λ w. carried_sum w.wire };

    ghost faults = { λ w. w.faults };

    ghost sum_fits = { λ w _. carried_sum_fits w.wire };

    /// Sends mail, but at a call that is to fail nothing is sent and the mail comes back.
    fn send(&mut self, from: u32, to: u32, mail: Mail) -> Result<(), (WireFault, Mail)>
        requires from { from < self.old.wire.parts }
        requires to { to < self.old.wire.parts }
        requires counted { IsCounted mail }
        ensures fails { FailsAt (WireFault.Failed, mail) self.old self.new result }
        ensures sent { OnOk result
            (Gains (told_queue self.old.wire) (told_queue self.new.wire) from to (sent mail)) }
        ensures unsent { OnErr result
            (SameQueues (told_queue self.old.wire) (told_queue self.new.wire)) }
        ensures back { IfErr result (λ e. e.1 ≡ mail) }
        ensures parts { self.new.wire.parts ≡ self.old.wire.parts }
        ensures received { self.new.wire.received ≡ self.old.wire.received }
        ensures sum { carried_sum self.new.wire ≡ carried_sum self.old.wire }
        ensures cause { HasCause WireFault.Failed
            self.old.faults self.new.faults (fault_alone result) }
    {
        if self.fails() {
            return Err((WireFault::Failed, mail));
        }
        self.wire.send(from, to, mail)
    }

    /// The head of the mail that is received next; it counts as no call.
    fn front(&self, from: u32, to: u32) -> Option<Head> {
        self.wire.front(from, to)
    }

    /// Receives mail, but at a call that is to fail the mail stays in its queue.
    fn receive(&mut self, from: u32, to: u32) -> Result<Mail, WireFault>
        requires from { from < self.old.wire.parts }
        requires to { to < self.old.wire.parts }
        requires some { 0 < length (told_queue self.old.wire from to) }
        ensures fails { FailsAt WireFault.Failed self.old self.new result }
        ensures taken { IfOk result (λ mail.
            Loses (told_queue self.old.wire) (told_queue self.new.wire) from to (sent mail)) }
        ensures counted { IfOk result (λ mail. IsCounted mail) }
        ensures left { OnErr result
            (SameQueues (told_queue self.old.wire) (told_queue self.new.wire)) }
        ensures parts { self.new.wire.parts ≡ self.old.wire.parts }
        ensures received { IfOk result (λ mail.
            self.new.wire.received ≡ counted self.old.wire.received mail.head.count) }
        ensures added { IfOk result (λ mail. carried_sum self.new.wire
            ≡ (carried_sum self.old.wire + word_sum mail.values) % 2 ^ 64) }
        ensures same { OnErr result (self.new.wire.received ≡ self.old.wire.received) }
        ensures same_sum { OnErr result (carried_sum self.new.wire ≡ carried_sum self.old.wire) }
        ensures cause { HasCause WireFault.Failed self.old.faults self.new.faults result }
        ensures takes_no_memory { IfErr result (λ fault. fault ≡ WireFault.Failed) }
    {
        if self.fails() {
            return Err(WireFault::Failed);
        }
        self.wire.receive(from, to)
    }
}
