//! A sink in memory.

ghost use Rattle.std.specs.Prelude.{◌≡◌, ◌<◌, ℕ, [], List as Sequence, Some, IsErr, IfOk, length};
ghost use Rattle.kg_outside.specs.Causes.{HasCause};
ghost use Rattle.kg_outside.specs.Counts.{one_more};
ghost use Rattle.kg_outside.specs.Memory.{IsNextListed, beside_sink};
ghost use Rattle.kg_outside.specs.Moves.{Writes};

use crate::calls::Calls;
use crate::sink::Sink;
use crate::source::Failed;
use kg_text::{Bytes, List};
use std::alloc::Global;
use std::marker::Model;

/// A sink that keeps what is written, and fails at chosen calls.
#[derive(Debug, Drop)]
pub struct MemSink {
    bytes: Bytes,
    calls: Calls,
}

impl Model for MemSink {
    ghost use Rattle.kg_outside.specs.Memory.{MemorySink};

    ghost Value = { MemorySink };

    ghost view = { λ s. record {
      written = s.bytes;
      calls = s.calls.made;
      fails = s.calls.fails;
      faults = s.calls.faults;
    } };
}

impl MemSink {
    /// Has no bytes yet. The calls whose numbers from 1 are listed fail, and no others, as far as
    /// there is memory for the bytes. It takes no memory itself.
    pub fn new(alloc: Global, fails: List<u64>) -> MemSink
        ensures { result ≡ record { written = []; calls = 0; fails = fails; faults = 0 } }
    {
        MemSink {
            bytes: Bytes::new(alloc),
            calls: Calls::new(fails),
        }
    }

    /// The bytes written so far.
    pub fn written(&self) -> &[u8]
        ensures { result.now ≡ self.now.written }
    {
        self.bytes.as_slice()
    }
}

impl Sink for MemSink {
    ghost written = { λ s. Some s.written };

    ghost faults = { λ s. s.faults };

    ghost Beside = { Sequence ℕ };

    ghost beside = { beside_sink };

    /// Takes all of `bytes`. Where there is no memory for them it takes none, and counts that as a
    /// fault.
    fn write(&mut self, bytes: &[u8]) -> Result<usize, Failed>
        requires { 0 < length bytes.now }
        ensures bytes { Writes (Some self.old.written) (Some self.new.written) bytes.now result }
        ensures cause { HasCause self.old.faults self.new.faults result }
        ensures beside { beside_sink self.new ≡ beside_sink self.old }
        ensures count { IfOk result (λ n. n ≡ length bytes.now) }
        ensures listed { IsNextListed self.old.calls self.old.fails → IsErr result }
        ensures calls { self.new.calls ≡ one_more self.old.calls }
    {
        self.calls.begin()?;
        if self.bytes.extend_from_slice(bytes).is_err() {
            return Err(self.calls.fail());
        }
        Ok(bytes.len())
    }
}
