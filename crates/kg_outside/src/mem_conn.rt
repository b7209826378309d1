//! A connection in memory.

ghost use Rattle.std.specs.Prelude.{◌≡◌, ◌<◌, ◌↔◌, ℕ, List as Sequence, Some, IsErr, IfOk, length, min};
ghost use Rattle.std.proofs.Common.{ap};
ghost use Rattle.kg_outside.specs.Causes.{HasCause};
ghost use Rattle.kg_outside.specs.Counts.{one_more};
ghost use Rattle.kg_outside.specs.Memory.{IsNextListed, MemorySink, MemorySource, beside_reads, beside_writes};
ghost use Rattle.kg_outside.specs.Moves.{Reads, Writes};

use crate::conn::Conn;
use crate::mem_sink::MemSink;
use crate::mem_source::MemSource;
use crate::sink::Sink;
use crate::source::{Failed, Source};
use std::marker::Model;

/// A connection that reads from a source in memory and writes to a sink in memory.
#[derive(Debug, Drop)]
pub struct MemConn {
    source: MemSource,
    sink: MemSink,
}

impl Model for MemConn {
    ghost use Rattle.kg_outside.specs.Memory.{MemoryConn};

    ghost Value = { MemoryConn };

    ghost view = { λ c. record { source = c.source; sink = c.sink } };
}

impl MemConn {
    /// Reads from `source` and writes to `sink`.
    pub fn new(source: MemSource, sink: MemSink) -> MemConn
        ensures { result ≡ record { source = source; sink = sink } }
    {
        MemConn { source, sink }
    }

    /// The bytes written so far.
    pub fn written(&self) -> &[u8]
        ensures { result.now ≡ self.now.sink.written }
    {
        self.sink.written()
    }

    /// The source and the sink, as they are now.
    pub fn into_parts(self) -> (MemSource, MemSink)
        ensures source { result.0 ≡ self.source }
        ensures sink { result.1 ≡ self.sink }
    {
        let MemConn { source, sink } = self;
        (source, sink)
    }
}

impl Source for MemConn {
    ghost left = { λ c. Some c.source.left };

    ghost faults = { λ c. c.source.faults };

    ghost Beside = { (ℕ × Sequence ℕ) × MemorySink };

    ghost beside = { beside_reads };

    /// Reads from the source.
    fn read(&mut self, room: &mut [u8]) -> Result<usize, Failed>
        requires { 0 < length room.old }
        ensures bytes { Reads (Some self.old.source.left) (Some self.new.source.left)
            room.new result }
        ensures cause { HasCause self.old.source.faults self.new.source.faults result }
        ensures beside { beside_reads self.new ≡ beside_reads self.old }
        ensures count { IfOk result (λ n.
            n ≡ min (length room.new) (min self.old.source.piece (length self.old.source.left))) }
        ensures listed { IsErr result ↔ IsNextListed self.old.source.calls self.old.source.fails }
        ensures calls { self.new.source.calls ≡ one_more self.old.source.calls }
    {
        self.source.read(room)
    }
}

impl Sink for MemConn {
    ghost written = { λ c. Some c.sink.written };

    ghost faults = { λ c. c.sink.faults };

    ghost Beside = { Sequence ℕ × MemorySource };

    ghost beside = { beside_writes };

    /// Writes to the sink.
    fn write(&mut self, bytes: &[u8]) -> Result<usize, Failed>
        requires { 0 < length bytes.now }
        ensures bytes { Writes (Some self.old.sink.written) (Some self.new.sink.written)
            bytes.now result }
        ensures cause { HasCause self.old.sink.faults self.new.sink.faults result }
        ensures beside { beside_writes self.new ≡ beside_writes self.old }
        ensures count { IfOk result (λ n. n ≡ length bytes.now) }
        ensures listed { IsNextListed self.old.sink.calls self.old.sink.fails → IsErr result }
        ensures calls { self.new.sink.calls ≡ one_more self.old.sink.calls }
    {
        self.sink.write(bytes)
    }
}

impl Conn for MemConn {
    ghost written_is_beside_reads = { λ a b same. ap (λ beside. Some beside.1.written) same };

    ghost sink_faults_are_beside_reads = { λ a b same. ap (λ beside. beside.1.faults) same };

    ghost left_is_beside_writes = { λ a b same. ap (λ beside. Some beside.1.left) same };

    ghost source_faults_are_beside_writes = { λ a b same. ap (λ beside. beside.1.faults) same };
}
