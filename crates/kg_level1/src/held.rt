//! A value with the position at which it holds and the end of its life.

ghost use Rattle.std.specs.Prelude.{◌≡◌};
ghost use Rattle.kg_level1.specs.Reading.{is_live};

use std::marker::Model;
use std::sync::Arc;

/// A value that a level answered.
#[derive(Drop)]
pub struct Held<V> {
    pub val: Arc<V>,
    /// A position at which the key has this value: so many commits are counted.
    pub at: u64,
    /// The reading of the clock, in milliseconds, at which the value's life ends. 0 where it has no end.
    pub expires: u64,
}

/// What a level keeps of a key. Contracts see the value and not its share.
#[derive(Drop)]
pub(crate) struct Stored<V> {
    pub(crate) val: Arc<V>,
    /// The position at which the value was read.
    pub(crate) stamp: u64,
    pub(crate) expires: u64,
}

impl<V> Model for Stored<V> {
    ghost use Rattle.std.specs.Arc.{arc_value};
    ghost use Rattle.kg_level1.specs.Entries.{Kept, kept_code};

    ghost Value = { Kept V };

    ghost coded = { kept_code V.code };

    ghost view = { λ stored. record { val = arc_value stored.val; stamp = stored.stamp; expires = stored.expires } };
}

impl<V> Stored<V> {
    /// Whether the entry's life goes on at this reading of the clock, in milliseconds.
    pub(crate) fn is_live(&self, now: u64) -> bool
        ensures { result ≡ is_live self.now now }
    {
        self.expires == 0 || now < self.expires
    }
}
