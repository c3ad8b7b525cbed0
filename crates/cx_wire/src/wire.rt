//! What the calls of a wire do to its queues.
ghost use Rattle.std.specs.Prelude.{◌≡◌, ◌<◌, ◌+◌, ◌%◌, ◌^◌, ℕ, Bool, IsTrue, List as ListOf, length, OnOk, OnErr, IfOk, IfErr};
ghost use Rattle.cx_disk.specs.Cause.{HasCause};
ghost use Rattle.cx_wire.specs.Messages.{Sent, sent, front_head, IsCounted};
ghost use Rattle.cx_wire.specs.Queues.{Gains, Loses, SameQueues, fault_alone};
ghost use Rattle.cx_wire.specs.Received.{counted};
ghost use Rattle.cx_text.specs.Numbers.{word_sum};

use crate::mail::{Head, Mail};
use thiserror::Error;

/// Why a call of a wire did nothing.
#[derive(Clone, Copy, Debug, Error, PartialEq, Eq)]
pub enum WireFault {
    /// The wire failed. Its count of faults has risen in this call, or stands at 2^64 - 1.
    #[error("Failed")]
    Failed,
    /// Out of memory.
    #[error("Memory")]
    Memory,
}

/// A carrier of messages between parts, which are named by number. Each ordered pair of parts has one queue.
///
/// A wire counts the values that it gives out, and adds them up. It counts its failures too.
pub trait Wire {
    /// It tells the values of its messages. Their heads are known of every wire.
    ghost tells: { Bool };

    /// It serves the parts below this number.
    ghost parts: { Self → ℕ };

    /// The messages from one part to another, the first one in front.
    ghost queue: { Self → ℕ → ℕ → ListOf (Sent (IsTrue tells)) };

    /// How many values it has given out, up to the last number of 64 bits.
    ghost received: { Self → ℕ };

    /// The sum of these values, modulo 2^64.
    ghost sum: { Self → ℕ };

    /// How often it has failed, up to the last number of 64 bits.
    ghost faults: { Self → ℕ };

    /// Adds a message at the end of the queue from one part to another. After an error the mail comes back, and no queue has
    /// changed.
    ///
    /// # Errors
    ///
    /// `Failed`: the wire failed. `Memory`: out of memory.
    fn send(&mut self, from: u32, to: u32, mail: Mail) -> Result<(), (WireFault, Mail)>
        requires from { from < parts self.old }
        requires to { to < parts self.old }
        requires counted { IsCounted mail }
        ensures sent { OnOk result (Gains (queue self.old) (queue self.new) from to (sent mail)) }
        ensures unsent { OnErr result (SameQueues (queue self.old) (queue self.new)) }
        ensures back { IfErr result (λ e. e.1 ≡ mail) }
        ensures parts { parts self.new ≡ parts self.old }
        ensures received { received self.new ≡ received self.old }
        ensures sum { IsTrue tells → sum self.new ≡ sum self.old }
        ensures cause { HasCause WireFault.Failed
            (faults self.old) (faults self.new) (fault_alone result) };

    /// The head of the message in front of the queue from one part to another, or none where that queue is empty.
    fn front(&self, from: u32, to: u32) -> Option<Head>
        requires from { from < parts self.now }
        requires to { to < parts self.now }
        ensures { result ≡ front_head (queue self.now from to) };

    /// Takes the message in front of the queue from one part to another, which isn't empty. After an error nothing has changed
    /// but the count of failures.
    ///
    /// # Errors
    ///
    /// `Failed`: the wire failed.
    fn receive(&mut self, from: u32, to: u32) -> Result<Mail, WireFault>
        requires from { from < parts self.old }
        requires to { to < parts self.old }
        requires some { 0 < length (queue self.old from to) }
        ensures taken { IfOk result
            (λ mail. Loses (queue self.old) (queue self.new) from to (sent mail)) }
        ensures counted { IfOk result (λ mail. IsCounted mail) }
        ensures left { OnErr result (SameQueues (queue self.old) (queue self.new)) }
        ensures parts { parts self.new ≡ parts self.old }
        ensures received { IfOk result
            (λ mail. received self.new ≡ counted (received self.old) mail.head.count) }
        ensures added { IsTrue tells → IfOk result
            (λ mail. sum self.new ≡ (sum self.old + word_sum mail.values) % 2 ^ 64) }
        ensures same { OnErr result (received self.new ≡ received self.old) }
        ensures same_sum { IsTrue tells → OnErr result (sum self.new ≡ sum self.old) }
        ensures cause { HasCause WireFault.Failed (faults self.old) (faults self.new) result }
        ensures takes_no_memory { IfErr result (λ fault. fault ≡ WireFault.Failed) };

    /// A sum that is told is one of 64 bits.
    ghost sum_fits: { (wire : Self) → IsTrue tells → sum wire < 2 ^ 64 };
}
