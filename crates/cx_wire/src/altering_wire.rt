//! A wire in memory that alters a value.
ghost use Rattle.std.specs.Prelude.{◌≡◌, ◌<◌, ◌+◌, ◌%◌, ◌^◌, length, OnOk, OnErr, IfOk, IfErr};
ghost use Rattle.cx_disk.specs.Cause.{HasCause};
ghost use Rattle.cx_wire.specs.Messages.{sent, IsCounted};
ghost use Rattle.cx_wire.specs.Queues.{Gains, Loses, SameQueues, fault_alone};
ghost use Rattle.cx_wire.specs.Received.{counted};
ghost use Rattle.cx_wire.specs.Memory.{queue_of, bare_queue, carried_sum};
ghost use Rattle.cx_wire.specs.Altering.{altering_wire, due, with_first, Alters};
ghost use Rattle.cx_text.specs.Numbers.{word_sum};

use crate::mail::{Head, Mail};
use crate::memory_wire::MemoryWire;
use crate::wire::{Wire, WireFault};
use cx_grid::Side;
use cx_text::List;
use std::marker::Model;

/// A wire in memory for tests: it adds 1 to the first value of the first mail with values that part 0 sends by its low
/// face. It tells no values.
#[derive(Debug, Drop)]
pub struct AlteringWire {
    wire: MemoryWire,
    altered: bool,
}

impl Model for AlteringWire {
    ghost use Rattle.cx_wire.specs.Altering.{Altering};

    ghost Value = { Altering };

    ghost view = { λ w. record { wire = w.wire; altered = w.altered } };
}

impl AlteringWire {
    /// The wire that alters what is sent by this one.
    pub fn new(wire: MemoryWire) -> Self
        ensures { result ≡ altering_wire wire }
    {
        AlteringWire {
            wire,
            altered: false,
        }
    }

    /// The value of a mail that part `from` sends to which 1 is to be added, if any.
    fn due(&self, from: u32, mail: &Mail) -> Option<i64>
        ensures { result ≡ due self.now from mail.now }
    {
        if self.altered {
            return None;
        }
        if from != 0 {
            return None;
        }
        match mail.head.side {
            Side::Low => mail.values.as_slice().first().copied(),
            Side::High => None,
        }
    }
}

/// The mail with another first value.
fn with_first(mail: Mail, first: i64) -> Mail
    requires { 0 < length mail.values }
    ensures { result ≡ with_first mail first }
{
    let mut values = mail.values.into_vec();
    values[0] = first;
    Mail {
        head: mail.head,
        values: List::new(values),
    }
}

impl Wire for AlteringWire {
    ghost use Rattle.std.specs.Prelude.{false};
    ghost use Rattle.cx_wire.specs.Memory.{sent_queue, carried_sum, carried_sum_fits};

    ghost tells = { false };

    ghost parts = { λ w. w.wire.parts };

    ghost queue = { λ w. sent_queue w.wire };

    ghost received = { λ w. w.wire.received };

    ghost sum = { λ w. carried_sum w.wire };

    ghost faults = { λ _. 0 };

    ghost sum_fits = { λ w _. carried_sum_fits w.wire };

    /// Sends mail; the first value of the one mail that is due arrives greater by one.
    fn send(&mut self, from: u32, to: u32, mail: Mail) -> Result<(), (WireFault, Mail)>
        requires from { from < self.old.wire.parts }
        requires to { to < self.old.wire.parts }
        requires counted { IsCounted mail }
        ensures alters { Alters self.old self.new from to mail result }
        ensures sent { OnOk result
            (Gains (bare_queue self.old.wire) (bare_queue self.new.wire) from to (sent mail)) }
        ensures unsent { OnErr result
            (SameQueues (bare_queue self.old.wire) (bare_queue self.new.wire)) }
        ensures back { IfErr result (λ e. e.1 ≡ mail) }
        ensures parts { self.new.wire.parts ≡ self.old.wire.parts }
        ensures received { self.new.wire.received ≡ self.old.wire.received }
        ensures sum { carried_sum self.new.wire ≡ carried_sum self.old.wire }
        ensures cause { HasCause WireFault.Failed 0 0 (fault_alone result) }
    {
        let Some(first) = self.due(from, &mail) else {
            return self.wire.send(from, to, mail);
        };
        match self
            .wire
            .send(from, to, with_first(mail, first.wrapping_add(1)))
        {
            Ok(()) => {
                self.altered = true;
                Ok(())
            }
            Err((fault, mail)) => Err((fault, with_first(mail, first))),
        }
    }

    /// The head of the mail that is received next.
    fn front(&self, from: u32, to: u32) -> Option<Head> {
        self.wire.front(from, to)
    }

    /// Receives mail as the wire in memory has it.
    fn receive(&mut self, from: u32, to: u32) -> Result<Mail, WireFault>
        requires from { from < self.old.wire.parts }
        requires to { to < self.old.wire.parts }
        requires some { 0 < length (bare_queue self.old.wire from to) }
        ensures altered { self.new.altered ≡ self.old.altered }
        ensures mail { IfOk result (λ mail.
            Loses (queue_of self.old.wire) (queue_of self.new.wire) from to mail) }
        ensures taken { IfOk result (λ mail.
            Loses (bare_queue self.old.wire) (bare_queue self.new.wire) from to (sent mail)) }
        ensures counted { IfOk result (λ mail. IsCounted mail) }
        ensures left { OnErr result
            (SameQueues (bare_queue self.old.wire) (bare_queue self.new.wire)) }
        ensures parts { self.new.wire.parts ≡ self.old.wire.parts }
        ensures received { IfOk result (λ mail.
            self.new.wire.received ≡ counted self.old.wire.received mail.head.count) }
        ensures added { IfOk result (λ mail. carried_sum self.new.wire
            ≡ (carried_sum self.old.wire + word_sum mail.values) % 2 ^ 64) }
        ensures same { OnErr result (self.new.wire.received ≡ self.old.wire.received) }
        ensures same_sum { OnErr result (carried_sum self.new.wire ≡ carried_sum self.old.wire) }
        ensures cause { HasCause WireFault.Failed 0 0 result }
        ensures takes_no_memory { IfErr result (λ fault. fault ≡ WireFault.Failed) }
    {
        self.wire.receive(from, to)
    }
}
