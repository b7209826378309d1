//! Where bytes come from.

ghost use Rattle.std.specs.Prelude.{◌≡◌, ◌<◌, ℕ, List, Option, Some, codes, length};
ghost use Rattle.kg_outside.specs.Causes.{HasCause};
ghost use Rattle.kg_outside.specs.Moves.{Reads};

use std::error::Error;
use std::fmt;

/// The environment failed: a read, a write, or whatever else was asked of it.
#[derive(Clone, Copy, Debug, PartialEq, Eq, Hash)]
pub struct Failed;

impl fmt::Display for Failed {
    ghost output = { λ _. Some (codes "the environment failed") };

    fn fmt<W: fmt::Write>(&self, f: &mut fmt::Formatter<W>) -> fmt::Result {
        write!(f, "the environment failed")
    }
}

impl Error for Failed {}

/// Where bytes come from.
pub trait Source {
    /// The bytes that are left, where the source is observable.
    ghost left: { Self → Option (List ℕ) };

    /// How often it has failed. It never falls.
    ghost faults: { Self → ℕ };

    /// What else the object may hold.
    ghost Beside: { Type 0 };

    /// All else that the object holds. A read leaves it as it was.
    ghost beside: { Self → Beside };

    /// Moves the next bytes to the front of `room`, and answers how many. 0 is the end.
    fn read(&mut self, room: &mut [u8]) -> Result<usize, Failed>
        requires { 0 < length room.old }
        ensures bytes { Reads (left self.old) (left self.new) room.new result }
        ensures cause { HasCause (faults self.old) (faults self.new) result }
        ensures beside { beside self.new ≡ beside self.old };
}
