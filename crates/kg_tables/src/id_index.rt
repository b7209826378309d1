//! The places of rows by their ids.

ghost use Rattle.std.specs.Prelude.{◌≡◌, ℕ, [], Option, Some, None, OnOk, OnErr, cond, is_some};
ghost use Rattle.std.specs.Option.{option_copied};
ghost use Rattle.std.specs.Ordering.{eq_by_cmp, nat_cmp};
ghost use Rattle.kg_tables.specs.PlaceIndexes.{place_at};

use indexmap::IndexMap;
use kg_row_types::id::Id;
use kg_text::NoMemory;
use std::alloc::Global;
use std::collections::BTreeMap;
use std::marker::Model;

/// The place of each row by its id. Contracts see the ids and their places in the order of ids. The place
/// of one id is found by its hash, which costs the same however many there are.
#[derive(Drop)]
pub(crate) struct IdIndex {
    ordered: BTreeMap<Id, u64>,
    /// The same places.
    hashed: IndexMap<Id, u64>,
}

impl Model for IdIndex {
    ghost use Rattle.std.specs.Prelude.{◌≡◌, ℕ, List, nat_eq};
    ghost use Rattle.indexmap.specs.IndexMap.{get};
    ghost use Rattle.kg_tables.specs.PlaceIndexes.{place_at};

    ghost Value = { List (ℕ × ℕ) };

    ghost view = { λ index. index.ordered.entries };

    ghost invariant = { λ index. (id : ℕ) → get nat_eq index.hashed id ≡ place_at index.ordered.entries id };
}

impl IdIndex {
    /// No places. It takes no memory.
    pub(crate) fn new(alloc: Global) -> IdIndex
        ensures { result ≡ [] }
    {
        IdIndex {
            ordered: BTreeMap::new(alloc),
            hashed: IndexMap::new(alloc),
        }
    }

    /// The places in the order of ids.
    pub(crate) fn in_order(&self) -> &BTreeMap<Id, u64>
        ensures { result.now.entries ≡ self.now }
    {
        &self.ordered
    }

    /// The place of this id.
    pub(crate) fn get(&self, id: &Id) -> Option<&u64>
        ensures value { option_copied result ≡ place_at self.now id.now }
    {
        self.hashed.get(id)
    }

    /// Whether the id has a place.
    pub(crate) fn contains_key(&self, id: &Id) -> bool
        ensures { result ≡ is_some (place_at self.now id.now) }
    {
        self.hashed.contains_key(id)
    }

    /// The id has this place from now on.
    pub(crate) fn insert(&mut self, id: Id, place: u64) -> Result<(), NoMemory>
        ensures updates { OnOk result ((other : ℕ) → place_at self.new other ≡ cond {A = Option ℕ} (eq_by_cmp nat_cmp id other) (Some place) (place_at self.old other)) }
        ensures err { OnErr result (self.new ≡ self.old) }
    {
        self.hashed.reserve(1)?;
        self.ordered.insert(id, place)?;
        let Ok(_) = self.hashed.insert(id, place) else {
            unreachable!()
        };
        Ok(())
    }

    /// The id has no place any more. It answers the one that it had.
    pub(crate) fn remove(&mut self, id: &Id) -> Option<u64>
        ensures value { result ≡ place_at self.old id.now }
        ensures updates { (other : ℕ) → place_at self.new other ≡ cond {A = Option ℕ} (eq_by_cmp nat_cmp id.now other) None (place_at self.old other) }
    {
        self.hashed.swap_remove(id);
        self.ordered.remove(id)
    }
}
