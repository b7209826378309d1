//! A source in memory.

ghost use Rattle.std.specs.Prelude.{◌≡◌, ◌<◌, ◌↔◌, ℕ, List as Sequence, Some, IsErr, IfOk, length, min, take};
ghost use Rattle.kg_outside.specs.Causes.{HasCause};
ghost use Rattle.kg_outside.specs.Counts.{one_more};
ghost use Rattle.kg_outside.specs.Memory.{IsNextListed, beside_source};
ghost use Rattle.kg_outside.specs.Moves.{Reads};

use crate::calls::Calls;
use crate::source::{Failed, Source};
use kg_text::{Bytes, List};
use std::marker::Model;

/// A source that gives the bytes of a list, and fails at chosen calls.
#[derive(Debug, Drop)]
pub struct MemSource {
    bytes: Bytes,
    place: usize,
    piece: usize,
    calls: Calls,
}

impl Model for MemSource {
    ghost use Rattle.std.specs.Prelude.{◌≤◌, ◌<◌, length, drop};
    ghost use Rattle.kg_outside.specs.Memory.{MemorySource};

    ghost Value = { MemorySource };

    ghost view = { λ s. record {
      left = drop s.place s.bytes;
      piece = s.piece;
      calls = s.calls.made;
      fails = s.calls.fails;
      faults = s.calls.faults;
    } };

    ghost invariant = { λ s. (s.place ≤ length s.bytes) × (0 < s.piece) };
}

impl MemSource {
    /// Gives these bytes, at most `piece` of them per call. The calls whose numbers from 1 are
    /// listed fail, and no others.
    pub fn new(bytes: Bytes, piece: usize, fails: List<u64>) -> MemSource
        requires { 0 < piece }
        ensures { result
            ≡ record { left = bytes; piece = piece; calls = 0; fails = fails; faults = 0 } }
    {
        MemSource {
            bytes,
            place: 0,
            piece,
            calls: Calls::new(fails),
        }
    }
}

impl Source for MemSource {
    ghost left = { λ s. Some s.left };

    ghost faults = { λ s. s.faults };

    ghost Beside = { ℕ × Sequence ℕ };

    ghost beside = { beside_source };

    /// Gives as many bytes as there are, as the room holds, and as a piece has.
    fn read(&mut self, room: &mut [u8]) -> Result<usize, Failed>
        requires { 0 < length room.old }
        ensures bytes { Reads (Some self.old.left) (Some self.new.left) room.new result }
        ensures cause { HasCause self.old.faults self.new.faults result }
        ensures beside { beside_source self.new ≡ beside_source self.old }
        ensures count { IfOk result (λ n.
            n ≡ min (length room.new) (min self.old.piece (length self.old.left))) }
        ensures listed { IsErr result ↔ IsNextListed self.old.calls self.old.fails }
        ensures calls { self.new.calls ≡ one_more self.old.calls }
    {
        self.calls.begin()?;
        let left = self.bytes.as_slice().split_at(self.place).1;
        let count = copy_front(room, left, self.piece);
        self.place += count;
        Ok(count)
    }
}

// Copies the front of `bytes` to the front of the room, as far as both go and at most `most` bytes,
// and answers how many.
fn copy_front(room: &mut [u8], bytes: &[u8], most: usize) -> usize
    ensures count { result ≡ min (length room.old) (min most (length bytes.now)) }
    ensures copied { take result room.new ≡ take result bytes.now }
{
    let count = room.len().min(most.min(bytes.len()));
    room.split_at_mut(count)
        .0
        .copy_from_slice(bytes.split_at(count).0);
    count
}
