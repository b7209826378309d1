//! Keys that can be copied.

ghost use Rattle.std.specs.Prelude.{◌≡◌, IfOk, true, nat_eq};
ghost use Rattle.kg_text.specs.SameBytes.{same_bytes};

use crate::bytes::Bytes;
use crate::error::NoMemory;
use crate::text::Text;
use std::alloc::Global;
use std::hash::Hash;

/// What the cache levels need of a key: a copy equals its source, and keys that compare as equal
/// are the same.
pub trait CopyKey: Eq + Hash + Drop {
    /// A copy of the key.
    fn copy(&self, alloc: Global) -> Result<Self, NoMemory>
        ensures { IfOk result (λ key. key ≡ self.now) };

    ghost eq_is_same: { (x y : Self) → Self.eq x y ≡ true → x ≡ y };
}

impl CopyKey for Text {
    ghost eq_is_same = { same_bytes };

    fn copy(&self, alloc: Global) -> Result<Text, NoMemory> {
        Text::from_str(alloc, self.as_str())
    }
}

impl CopyKey for Bytes {
    ghost eq_is_same = { same_bytes };

    fn copy(&self, alloc: Global) -> Result<Bytes, NoMemory> {
        Bytes::from_slice(alloc, self.as_slice())
    }
}
