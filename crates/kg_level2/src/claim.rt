//! Claims, and what the table answers.

use kg_level1::Held;

/// The right to load a key's value, of which there is one at a time. It isn't `Drop`: it goes back to its table by
/// `settle`, `abandon` or `release`.
#[must_use]
pub struct Claim<K> {
    pub(crate) key: K,
    /// The table's position when the claim was taken.
    pub(crate) start: u64,
}

/// What a look-up gave.
pub enum Found<K, V> {
    /// A live value.
    Hit(Held<V>),
    /// None: the value is to be loaded, by this claim.
    Claimed(Claim<K>),
    /// The key is being loaded by worker `who`.
    Busy { who: u32 },
}

/// What became of a loaded value.
#[derive(Clone, Copy, Debug, PartialEq, Eq)]
pub enum Settled {
    /// It is kept until `expires`, a reading of the clock in milliseconds; 0 is without an end.
    Kept { expires: u64 },
    /// It isn't kept: commit number `by` touched the key after the value was read.
    Overtaken { by: u64 },
    /// It isn't kept, for want of memory.
    Unkept,
    /// It isn't kept: no claim on the key was out, or the value was read before the claim was taken.
    Stranger,
}

/// What is left of a key whose value couldn't be loaded.
#[derive(Drop)]
pub enum Abandoned<V> {
    /// The last value that was kept, with a new end of its life.
    Stale(Held<V>),
    /// No value, or none may be used past its life.
    Nothing,
    NoMemory,
}
