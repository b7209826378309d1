//! The clock.

ghost use Rattle.std.specs.Prelude.{ℕ, List, [], ◌∷◌, ◌++◌};

/// A clock, in milliseconds.
pub trait Clock {
    /// From the first state to the second these readings were made, in order. A clock of which
    /// nothing is known says so of each list.
    ghost reads: { Self → Self → List ℕ → Type 0 };

    /// Reads the clock.
    fn now(&mut self) -> u64
        ensures { reads self.old self.new (result ∷ []) };

    ghost reads_none: { (clock : Self) → reads clock clock [] };

    ghost reads_on: { (a b c : Self) (earlier later : List ℕ) → reads a b earlier → reads b c later
        → reads a c (earlier ++ later) };
}
