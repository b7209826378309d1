//! A sink in memory that takes a few bytes a call.

ghost use Rattle.std.specs.Prelude.{◌≡◌, ◌<◌, ℕ, List as Sequence, Some, length, max, min, take};
ghost use Rattle.kg_outside.specs.Memory.{beside_sink};

use kg_outside::{Failed, MemSink, Sink};

/// A sink in memory that takes at most so many bytes a call.
#[derive(Drop)]
pub struct ShortSink {
    sink: MemSink,
    most: usize,
}

impl ShortSink {
    /// Takes at most so many bytes a call, and one at least.
    pub fn new(sink: MemSink, most: usize) -> ShortSink {
        ShortSink { sink, most }
    }

    /// The bytes written so far.
    pub fn written(&self) -> &[u8] {
        self.sink.written()
    }
}

impl Sink for ShortSink {
    ghost written = { λ s. Some s.sink.written };

    ghost faults = { λ s. s.sink.faults };

    ghost Beside = { Sequence ℕ × ℕ };

    ghost beside = { λ s. (beside_sink s.sink, s.most) };

    fn write(&mut self, bytes: &[u8]) -> Result<usize, Failed> {
        self.sink.write(front_of(bytes, self.most))
    }
}

// The first bytes, at most so many but one at least.
fn front_of(bytes: &[u8], most: usize) -> &[u8]
    ensures { result.now ≡ take (min (max most 1) (length bytes.now)) bytes.now }
{
    bytes.split_at(most.max(1).min(bytes.len())).0
}
