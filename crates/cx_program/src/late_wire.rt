//! A wire in memory that takes no memory before its first message.
ghost use Rattle.std.specs.Prelude.{◌≡◌, ◌<◌, ℕ, unwrap_or, None, [], OnOk, OnErr, IfErr};
ghost use Rattle.cx_disk.specs.Cause.{HasCause};
ghost use Rattle.cx_wire.specs.Memory.{new_wire, told_queue, carried_sum};
ghost use Rattle.cx_wire.specs.Messages.{sent, IsCounted};
ghost use Rattle.cx_wire.specs.Queues.{Gains, SameQueues, fault_alone};

use cx_text::Memory;
use cx_wire::{Head, Mail, MemoryWire, Wire, WireFault};
use std::alloc::Global;
use std::marker::Model;

/// A wire in memory, whose queues are made with the first message. It never fails.
#[derive(Drop)]
pub(crate) struct LateWire {
    alloc: Global,
    parts: u32,
    wire: Option<MemoryWire>,
}

impl Model for LateWire {
    ghost use Rattle.std.specs.Prelude.{unwrap_or};
    ghost use Rattle.cx_wire.specs.Memory.{Carried, new_wire};

    ghost Value = { Carried };

    ghost view = { λ w. unwrap_or w.wire (new_wire w.parts) };
}

impl LateWire {
    /// A wire between so many parts, with empty queues.
    pub(crate) fn new(alloc: Global, parts: u32) -> Self
        ensures new { result ≡ new_wire parts }
        ensures empty { (a b : ℕ) → told_queue result a b ≡ [] }
    {
        LateWire {
            alloc,
            parts,
            wire: None,
        }
    }
}

/// Makes the wire, and sends its first message.
fn send_first(
    made: &mut Option<MemoryWire>,
    alloc: Global,
    parts: u32,
    from: u32,
    to: u32,
    mail: Mail,
) -> Result<(), (WireFault, Mail)>
    requires none { made.old ≡ None }
    requires from { from < parts }
    requires to { to < parts }
    requires counted { IsCounted mail }
    ensures sent { OnOk result (Gains (told_queue (new_wire parts))
        (told_queue (unwrap_or made.new (new_wire parts))) from to (sent mail)) }
    ensures unsent { OnErr result (SameQueues (told_queue (new_wire parts))
        (told_queue (unwrap_or made.new (new_wire parts)))) }
    ensures back { IfErr result (λ e. e.1 ≡ mail) }
    ensures parts { (unwrap_or made.new (new_wire parts)).parts ≡ parts }
    ensures received { (unwrap_or made.new (new_wire parts)).received ≡ 0 }
    ensures sum { carried_sum (unwrap_or made.new (new_wire parts)) ≡ 0 }
    ensures cause { HasCause WireFault.Failed 0 0 (fault_alone result) }
{
    match MemoryWire::new(alloc, parts) {
        Ok(mut wire) => {
            let done = wire.send(from, to, mail);
            *made = Some(wire);
            done
        }
        Err(Memory) => Err((WireFault::Memory, mail)),
    }
}

impl Wire for LateWire {
    ghost use Rattle.std.specs.Prelude.{true};
    ghost use Rattle.cx_wire.specs.Memory.{sent_queue, carried_sum, carried_sum_fits};

    ghost tells = { true };

    ghost parts = { λ w. w.parts };

    ghost queue = { sent_queue };

    ghost received = { λ w. w.received };

    ghost sum = { carried_sum };

    ghost faults = { λ _. 0 };

    ghost sum_fits = { λ w _. carried_sum_fits w };

    fn send(&mut self, from: u32, to: u32, mail: Mail) -> Result<(), (WireFault, Mail)> {
        match &mut self.wire {
            Some(wire) => wire.send(from, to, mail),
            None => send_first(&mut self.wire, self.alloc, self.parts, from, to, mail),
        }
    }

    fn front(&self, from: u32, to: u32) -> Option<Head> {
        match &self.wire {
            Some(wire) => wire.front(from, to),
            None => None,
        }
    }

    fn receive(&mut self, from: u32, to: u32) -> Result<Mail, WireFault> {
        match &mut self.wire {
            Some(wire) => wire.receive(from, to),
            None => unreachable!(),
        }
    }
}
