//! A connection: bytes come from it and go to it.

ghost use Rattle.std.specs.Prelude.{◌≡◌};

use crate::sink::Sink;
use crate::source::Source;

/// A connection. Its two directions don't touch each other: a read leaves the bytes written and the
/// sink's count of faults, and a write leaves the bytes left and the source's count.
pub trait Conn: Source + Sink {
    ghost written_is_beside_reads: { (a b : Self) → Self.Source.beside a ≡ Self.Source.beside b
        → Self.written a ≡ Self.written b };

    ghost sink_faults_are_beside_reads: { (a b : Self) → Self.Source.beside a ≡ Self.Source.beside b
        → Self.Sink.faults a ≡ Self.Sink.faults b };

    ghost left_is_beside_writes: { (a b : Self) → Self.Sink.beside a ≡ Self.Sink.beside b
        → Self.left a ≡ Self.left b };

    ghost source_faults_are_beside_writes: { (a b : Self) → Self.Sink.beside a ≡ Self.Sink.beside b
        → Self.Source.faults a ≡ Self.Source.faults b };
}
