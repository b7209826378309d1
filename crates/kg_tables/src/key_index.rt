//! An index of rows by a key that only one of them should have.

ghost use Rattle.std.specs.Prelude.{◌≡◌, ◌<◌, ◌≤◌, Some, None, OnOk};
ghost use Rattle.indexmap.specs.IndexMap.{spare};
ghost use Rattle.std.specs.Option.{option_copied};
ghost use Rattle.kg_tables.specs.KeyIndexes.{holder_of, is_key, noted, forgotten, is_only};

use indexmap::IndexMap;
use kg_row_types::id::Id;
use kg_text::NoMemory;
use std::alloc::Global;
use std::hash::Hash;

/// Which rows have a key.
#[derive(Clone, Copy, Drop)]
pub(crate) enum Holder {
    /// The row with this id, and no other.
    Only(Id),
    /// Any number of rows.
    Several,
}

/// For each key of some row its holder. No row has a key that isn't there.
#[derive(Drop)]
pub(crate) struct KeyIndex<K: Eq + Hash> {
    pub(crate) holders: IndexMap<K, Holder>,
}

impl<K: Eq + Hash + Drop> KeyIndex<K> {
    /// No keys. It takes no memory.
    pub(crate) fn new(alloc: Global) -> KeyIndex<K>
        ensures { (key : K) → holder_of K.eq result key ≡ None }
    {
        KeyIndex {
            holders: IndexMap::new(alloc),
        }
    }

    /// Which rows have this key.
    pub(crate) fn holder(&self, key: &K) -> Option<Holder>
        ensures { result ≡ holder_of K.eq self.now key.now }
    {
        self.holders.get(key).copied()
    }

    /// Makes room for one more key.
    pub(crate) fn reserve(&mut self) -> Result<(), NoMemory>
        ensures room { OnOk result (0 < spare self.new.holders) }
        ensures same { (key : K) → holder_of K.eq self.new key ≡ holder_of K.eq self.old key }
    {
        self.holders.reserve(1)?;
        Ok(())
    }

    /// One more row has this key, if it is set.
    pub(crate) fn note(&mut self, set: Option<K>, id: Id)
        requires { 0 < spare self.old.holders }
        ensures { (key : K) → holder_of K.eq self.new key ≡ noted (is_key K.eq key set) id (holder_of K.eq self.old key) }
    {
        if let Some(key) = set {
            let holder = match self.holder(&key) {
                Some(_) => Holder::Several,
                None => Holder::Only(id),
            };
            let Ok(_) = self.holders.insert(key, holder) else {
                unreachable!()
            };
        }
    }

    /// The row doesn't have this key any more.
    pub(crate) fn forget(&mut self, set: Option<&K>, id: Id)
        ensures room { spare self.old.holders ≤ spare self.new.holders }
        ensures holders { (key : K) → holder_of K.eq self.new key ≡ forgotten (is_key K.eq key (option_copied set.entry)) id (holder_of K.eq self.old key) }
    {
        if let Some(key) = set {
            if is_only(self.holder(key), id) {
                self.holders.swap_remove(key);
            }
        }
    }

    /// The row has the new key in place of the old one.
    pub(crate) fn exchange(&mut self, old: Option<&K>, new: Option<K>, id: Id)
        requires { 0 < spare self.old.holders }
        ensures { (key : K) → holder_of K.eq self.new key ≡ noted (is_key K.eq key new) id (forgotten (is_key K.eq key (option_copied old.entry)) id (holder_of K.eq self.old key)) }
    {
        self.forget(old, id);
        self.note(new, id);
    }
}

fn is_only(holder: Option<Holder>, id: Id) -> bool
    ensures { result ≡ is_only id holder }
{
    match holder {
        Some(holder) => is_row(holder, id),
        None => false,
    }
}

fn is_row(holder: Holder, id: Id) -> bool
    ensures { result ≡ is_only id (Some holder) }
{
    match holder {
        Holder::Only(only) => id == only,
        Holder::Several => false,
    }
}
