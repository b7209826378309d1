//! The source of ids.

ghost use Rattle.std.specs.Prelude.{ℕ, List, [], ◌∷◌, ◌++◌};

/// Where new ids come from, each as 16 bytes.
pub trait Ids {
    /// From the first state to the second these ids were drawn, in order. A source of which nothing
    /// is known says so of each list.
    ghost draws: { Self → Self → List (List ℕ) → Type 0 };

    /// Draws 16 bytes.
    fn draw(&mut self) -> [u8; 16]
        ensures { draws self.old self.new (result ∷ []) };

    ghost draws_none: { (ids : Self) → draws ids ids [] };

    ghost draws_on: { (a b c : Self) (earlier later : List (List ℕ)) → draws a b earlier → draws b c later
        → draws a c (earlier ++ later) };
}
