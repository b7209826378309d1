//! A reader and a writer of the system as one connection.

ghost use Rattle.std.specs.Prelude.{◌≡◌, ℕ, None, refl};

use kg_outside::{Conn, Failed, Sink, Source};
use std::io::{Read, Write};

/// A reader and a writer as one connection. Nothing is known of their bytes. A writer that takes nothing has
/// failed.
#[derive(Drop)]
pub struct Streams<R, W> {
    reader: R,
    writer: W,
    read_faults: u64,
    write_faults: u64,
}

impl<R, W> Streams<R, W> {
    /// No fault is counted yet.
    pub fn new(reader: R, writer: W) -> Streams<R, W>
        ensures { (result.read_faults ≡ 0) × (result.write_faults ≡ 0) }
    {
        Streams {
            reader,
            writer,
            read_faults: 0,
            write_faults: 0,
        }
    }
}

impl<R: Read, W> Source for Streams<R, W> {
    ghost left = { λ _. None };

    ghost faults = { λ streams. streams.read_faults };

    ghost Beside = { ℕ };

    ghost beside = { λ streams. streams.write_faults };

    fn read(&mut self, room: &mut [u8]) -> Result<usize, Failed> {
        match self.reader.read(room) {
            Ok(count) => Ok(count),
            Err(_) => {
                self.read_faults = self.read_faults.saturating_add(1);
                Err(Failed)
            }
        }
    }
}

impl<R, W: Write> Sink for Streams<R, W> {
    ghost written = { λ _. None };

    ghost faults = { λ streams. streams.write_faults };

    ghost Beside = { ℕ };

    ghost beside = { λ streams. streams.read_faults };

    fn write(&mut self, bytes: &[u8]) -> Result<usize, Failed> {
        match self.writer.write(bytes) {
            Ok(count) if count > 0 => Ok(count),
            _ => {
                self.write_faults = self.write_faults.saturating_add(1);
                Err(Failed)
            }
        }
    }
}

impl<R: Read, W: Write> Conn for Streams<R, W> {
    ghost written_is_beside_reads = { λ a b same. refl };

    ghost sink_faults_are_beside_reads = { λ a b same. same };

    ghost left_is_beside_writes = { λ a b same. refl };

    ghost source_faults_are_beside_writes = { λ a b same. same };
}
