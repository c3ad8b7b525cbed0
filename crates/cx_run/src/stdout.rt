//! Standard output, as a sink that tells no content.
ghost use Rattle.std.specs.Prelude.{◌≡◌, []};

use crate::sink::{Sink, SinkFault};
use std::marker::Model;

/// Standard output. Nothing is told of bytes. It fails where a piece that isn't empty is refused, or nothing of it is taken.
#[derive(Drop)]
pub struct StdoutSink<R> {
    rt: R,
    faults: u64,
}

impl<R> Model for StdoutSink<R> {
    ghost use Rattle.std.specs.Prelude.{ℕ};

    ghost Value = { ℕ };

    ghost view = { λ sink. sink.faults };
}

impl<R: Print + Drop> StdoutSink<R> {
    /// A sink that hasn't failed yet. Contracts see its count of faults.
    pub fn new(rt: R) -> Self
        ensures { result ≡ 0 }
    {
        StdoutSink { rt, faults: 0 }
    }
}

impl<R: Print + Drop> Sink for StdoutSink<R> {
    ghost tells = { ⊥ };

    ghost written = { λ _. [] };

    ghost faults = { λ sink. sink };

    /// Writes all bytes to standard output, in as many pieces as it takes.
    fn put(&mut self, bytes: &[u8]) -> Result<(), SinkFault> {
        let mut rest = bytes;
        'pieces: while !rest.is_empty() {
            match self.rt.write_some(rest) {
                Ok(count) if count > 0 => rest = &rest[count..],
                _ => {
                    self.faults = self.faults.saturating_add(1);
                    return Err(SinkFault::Failed);
                }
            }
        }
        Ok(())
    }
}
