//! What a batch prints and answers.
ghost use Rattle.std.specs.Prelude.{◌≤◌};
ghost use Rattle.cx_run.specs.Calls.{lent_sink};
ghost use Rattle.cx_several.specs.Texts.{IsPut, IsSaid};

use cx_run::Sink;
use cx_text::{Memory, Text};

/// A status, and what is printed with it.
#[derive(Debug, Drop)]
pub struct Reply {
    pub status: u8,
    pub text: Text,
}

/// Prints a reply and gives its status; want of memory in its place; 4 where the sink fails.
pub(crate) fn say<O: Sink>(out: &mut O, reply: Result<Reply, Memory>) -> u8
    ensures put { IsPut (lent_sink O.Sink out.old out.new) reply result }
    ensures later { O.faults out.old ≤ O.faults out.new }
{
    match reply {
        Ok(reply) => put(out, reply.text.as_slice(), reply.status),
        Err(Memory) => put(out, b"memory\n", 5),
    }
}

/// Prints a text. Where the sink fails the status is 4.
fn put<O: Sink>(out: &mut O, text: &[u8], status: u8) -> u8
    ensures said { IsSaid (lent_sink O.Sink out.old out.new) status text.now result }
    ensures later { O.faults out.old ≤ O.faults out.new }
{
    match out.put(text) {
        Ok(()) => status,
        Err(_) => 4,
    }
}
