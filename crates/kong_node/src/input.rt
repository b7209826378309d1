//! A reader of the system as a source.

ghost use Rattle.std.specs.Prelude.{◌≡◌, ℕ, None};

use kg_outside::{Failed, Source};
use std::io::Read;

/// A reader as a source. Nothing is known of its bytes.
#[derive(Drop)]
pub struct Input<R> {
    reader: R,
    faults: u64,
}

impl<R> Input<R> {
    /// No fault is counted yet.
    pub fn new(reader: R) -> Input<R>
        ensures { result.faults ≡ 0 }
    {
        Input { reader, faults: 0 }
    }
}

impl<R: Read> Source for Input<R> {
    ghost left = { λ _. None };

    ghost faults = { λ input. input.faults };

    ghost Beside = { ℕ };

    ghost beside = { λ _. 0 };

    fn read(&mut self, room: &mut [u8]) -> Result<usize, Failed> {
        match self.reader.read(room) {
            Ok(count) => Ok(count),
            Err(_) => {
                self.faults = self.faults.saturating_add(1);
                Err(Failed)
            }
        }
    }
}
