//! Where bytes go to.

ghost use Rattle.std.specs.Prelude.{◌≡◌, ◌<◌, ℕ, List, Option, length};
ghost use Rattle.kg_outside.specs.Causes.{HasCause};
ghost use Rattle.kg_outside.specs.Moves.{Writes};

use crate::source::Failed;

/// Where bytes go to.
pub trait Sink {
    /// The bytes written so far, where the sink is observable.
    ghost written: { Self → Option (List ℕ) };

    /// How often it has failed. It never falls.
    ghost faults: { Self → ℕ };

    /// What else the object may hold.
    ghost Beside: { Type 0 };

    /// All else that the object holds. A write leaves it as it was.
    ghost beside: { Self → Beside };

    /// Takes from one byte to all of `bytes`, from the front, and answers how many.
    fn write(&mut self, bytes: &[u8]) -> Result<usize, Failed>
        requires { 0 < length bytes.now }
        ensures bytes { Writes (written self.old) (written self.new) bytes.now result }
        ensures cause { HasCause (faults self.old) (faults self.new) result }
        ensures beside { beside self.new ≡ beside self.old };
}
