//! A wire in memory.
ghost use Rattle.std.specs.Prelude.{◌≡◌, ℕ, ◌<◌, ◌+◌, ◌*◌, ◌^◌, ◌++◌, ◌∷◌, [], length, IfOk, OnOk, OnErr, IfErr, vec_len, slice_index_or, slice_set, replicate};
ghost use Rattle.cx_wire.specs.Memory.{new_wire, told_queue, bare_queue, carried_sum};
ghost use Rattle.cx_wire.specs.Messages.{IsCounted};

use crate::mail::{Head, Mail};
use crate::queue::Queue;
use crate::sum::sum_of;
use crate::wire::{Wire, WireFault};
use cx_text::Memory;
use std::alloc::Global;
use std::marker::Model;

/// A wire in memory. It never fails.
#[derive(Debug, Drop)]
pub struct MemoryWire {
    parts: u32,
    queues: Vec<Queue>,
    received: u64,
    sum: u64,
}

impl Model for MemoryWire {
    ghost use Rattle.cx_wire.specs.Memory.{Carried, IsCarried};

    ghost Value = { Carried };

    ghost view = { λ w. record {
      parts = w.parts;
      queues = w.queues.items;
      received = w.received;
      sum = w.sum;
    } };

    ghost invariant = { λ w. IsCarried (record {
      parts = w.parts;
      queues = w.queues.items;
      received = w.received;
      sum = w.sum;
    }) };
}

impl MemoryWire {
    /// A wire between so many parts, with empty queues, of which nothing was received.
    ///
    /// # Errors
    ///
    /// `Memory` when out of memory.
    pub fn new(alloc: Global, parts: u32) -> Result<Self, Memory>
        ensures new { IfOk result (λ wire. wire ≡ new_wire parts) }
        ensures told { IfOk result (λ wire. (a b : ℕ) → told_queue wire a b ≡ []) }
        ensures bare { IfOk result (λ wire. (a b : ℕ) → bare_queue wire a b ≡ []) }
    {
        let queues = no_messages(alloc, parts as usize * parts as usize)?;
        Ok(MemoryWire {
            parts,
            queues,
            received: 0,
            sum: 0,
        })
    }

    /// How many values were given out, up to 2^64 - 1.
    pub fn received(&self) -> u64
        ensures { result ≡ self.now.received }
    {
        self.received
    }

    /// The sum of the values that were given out, modulo 2^64.
    pub fn received_sum(&self) -> u64
        ensures { result ≡ carried_sum self.now }
    {
        self.sum
    }
}

/// So many empty queues.
fn no_messages(alloc: Global, count: usize) -> Result<Vec<Queue>, Memory>
    ensures { IfOk result (λ queues. queues.items ≡ replicate count []) }
{
    let mut queues = Vec::new(alloc);
    'queues: for _ in 0..count {
        queues.push(Queue::new(alloc))?;
    }
    Ok(queues)
}

/// The number of a pair.
#[tactic(auto, using(cx_grid::proofs::Places::radix))]
fn number(from: u32, to: u32, parts: u32) -> usize
    requires from { from < parts }
    requires to { to < parts }
    ensures value { result ≡ from * parts + to }
    ensures below { result < parts * parts }
{
    from as usize * parts as usize + to as usize
}

/// Adds a message to the queue of a number.
fn add_to(queues: &mut Vec<Queue>, at: usize, mail: Mail) -> Result<(), (WireFault, Mail)>
    requires at { at < vec_len queues.old }
    requires counted { IsCounted mail }
    ensures ok { OnOk result (queues.new.items
        ≡ slice_set queues.old.items at (slice_index_or queues.old.items at [] ++ mail ∷ [])) }
    ensures err { OnErr result (queues.new.items ≡ queues.old.items) }
    ensures back { IfErr result (λ e. e ≡ (WireFault.Memory, mail)) }
{
    let queue = &mut queues[at];
    match queue.add(mail) {
        Ok(()) => Ok(()),
        Err(mail) => Err((WireFault::Memory, mail)),
    }
}

/// Takes the message in front of the queue of a number.
fn take_from(queues: &mut Vec<Queue>, at: usize) -> Mail
    requires at { at < vec_len queues.old }
    requires some { 0 < length (slice_index_or queues.old.items at []) }
    ensures front { slice_index_or queues.old.items at []
        ≡ result ∷ slice_index_or queues.new.items at [] }
    ensures rest { queues.new.items
        ≡ slice_set queues.old.items at (slice_index_or queues.new.items at []) }
    ensures counted { IsCounted result }
{
    let queue = &mut queues[at];
    queue.take()
}

impl Wire for MemoryWire {
    ghost use Rattle.std.specs.Prelude.{true};
    ghost use Rattle.cx_wire.specs.Memory.{sent_queue, carried_sum, carried_sum_fits};

    ghost tells = { true };

    ghost parts = { λ w. w.parts };

    ghost queue = { sent_queue };

    ghost received = { λ w. w.received };

    ghost sum = { carried_sum };

    ghost faults = { λ _. 0 };

    ghost sum_fits = { λ w _. carried_sum_fits w };

    /// Adds mail to the queue from one part to the other.
    fn send(&mut self, from: u32, to: u32, mail: Mail) -> Result<(), (WireFault, Mail)> {
        let at = number(from, to, self.parts);
        add_to(&mut self.queues, at, mail)
    }

    /// The head of the first mail of the queue.
    fn front(&self, from: u32, to: u32) -> Option<Head> {
        self.queues[number(from, to, self.parts)].front()
    }

    /// Takes the first mail of the queue, and counts its values.
    fn receive(&mut self, from: u32, to: u32) -> Result<Mail, WireFault> {
        let at = number(from, to, self.parts);
        let mail = take_from(&mut self.queues, at);
        self.received = self.received.saturating_add(mail.head.count as u64);
        self.sum = self.sum.wrapping_add(sum_of(mail.values.as_slice()));
        Ok(mail)
    }
}
