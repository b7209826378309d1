//! A writer of the system as a sink.

ghost use Rattle.std.specs.Prelude.{◌≡◌, ℕ, None};

use kg_outside::{Failed, Sink};
use std::io::Write;

/// A writer as a sink. Nothing is known of its bytes. A writer that takes nothing has failed.
#[derive(Drop)]
pub struct Output<W> {
    writer: W,
    faults: u64,
}

impl<W> Output<W> {
    /// No fault is counted yet.
    pub fn new(writer: W) -> Output<W>
        ensures { result.faults ≡ 0 }
    {
        Output { writer, faults: 0 }
    }
}

impl<W: Write> Sink for Output<W> {
    ghost written = { λ _. None };

    ghost faults = { λ output. output.faults };

    ghost Beside = { ℕ };

    ghost beside = { λ _. 0 };

    fn write(&mut self, bytes: &[u8]) -> Result<usize, Failed> {
        match self.writer.write(bytes) {
            Ok(count) if count > 0 => Ok(count),
            _ => {
                self.faults = self.faults.saturating_add(1);
                Err(Failed)
            }
        }
    }
}
