//! Which places hold rows that name a row.

ghost use Rattle.std.specs.Prelude.{◌≡◌, ◌&&◌, ◌==◌, true, false, not, ℕ, IfNone, IfSome, OnOk};
ghost use Rattle.kg_row_types.specs.RowChanges.{refers_to};
ghost use Rattle.kg_row_types.specs.declared.entity.Kind.{Kind as RowKind};
ghost use Rattle.kg_tables.specs.PlaceIndexes.{HasPlaces, is_listed, listed_in};
ghost use Rattle.kg_tables.specs.References.{refers};

use kg_row_types::entity::Kind;
use kg_row_types::id::Id;
use kg_row_types::plugin::Scope;
use kg_text::NoMemory;
use std::alloc::Global;
use std::collections::{BTreeSet, btree_set};

/// For each row that is named the places of the rows that name it. A place may be listed where no row
/// is, or one that doesn't name the row.
#[derive(Drop)]
pub(crate) struct PlaceIndex {
    pub(crate) pairs: BTreeSet<(Id, u64)>,
}

impl PlaceIndex {
    /// No places. It takes no memory.
    pub(crate) fn new(alloc: Global) -> PlaceIndex
        ensures { (id place : ℕ) → is_listed result id place ≡ false }
    {
        PlaceIndex {
            pairs: BTreeSet::new(alloc),
        }
    }

    /// The places below `end` that are listed for a row, in their order, each with the row's id.
    pub(crate) fn of(&self, id: Id, end: u64) -> btree_set::Range<'_, (Id, u64)>
        ensures { HasPlaces (is_listed self.now id) end result }
    {
        self.pairs.range((id, 0)..(id, end))
    }

    /// The row at this place names the row, if one is told.
    pub(crate) fn note(&mut self, named: Option<Id>, place: u64) -> Result<(), NoMemory>
        ensures listed { OnOk result ((id : ℕ) → refers_to id named ≡ true → is_listed self.new id place ≡ true) }
        ensures kept { (id at : ℕ) → is_listed self.old id at ≡ true → is_listed self.new id at ≡ true }
    {
        if let Some(id) = named {
            self.pairs.insert((id, place))?;
        }
        Ok(())
    }

    /// The row at this place doesn't name the one row any more, if it doesn't name it now.
    pub(crate) fn forget(&mut self, old: Option<Id>, now: Option<Id>, place: u64)
        ensures { (id at : ℕ) → (at == place && not (refers_to id now)) ≡ false → is_listed self.old id at ≡ true → is_listed self.new id at ≡ true }
    {
        if let Some(id) = old {
            if now != old {
                self.pairs.remove(&(id, place));
            }
        }
    }
}

/// Which places hold rows that name a service, a route or a consumer.
#[derive(Drop)]
pub(crate) struct Listing {
    pub(crate) of_services: PlaceIndex,
    pub(crate) of_routes: PlaceIndex,
    pub(crate) of_consumers: PlaceIndex,
}

impl Listing {
    /// No places. It takes no memory.
    pub(crate) fn new(alloc: Global) -> Listing
        ensures { (kind : RowKind) (id place : ℕ) → listed_in result kind id place ≡ false }
    {
        Listing {
            of_services: PlaceIndex::new(alloc),
            of_routes: PlaceIndex::new(alloc),
            of_consumers: PlaceIndex::new(alloc),
        }
    }

    /// The places below `end` that are listed for the row of this kind and id, in their order. None where
    /// no row of this kind is ever named.
    pub(crate) fn of(&self, kind: Kind, id: Id, end: u64) -> Option<btree_set::Range<'_, (Id, u64)>>
        ensures none { IfNone result ((place : ℕ) → listed_in self.now kind id place ≡ false) }
        ensures some { IfSome result (HasPlaces (listed_in self.now kind id) end) }
    {
        match kind {
            Kind::Service => Some(self.of_services.of(id, end)),
            Kind::Route => Some(self.of_routes.of(id, end)),
            Kind::Consumer => Some(self.of_consumers.of(id, end)),
            _ => None,
        }
    }

    /// What the row at this place names is listed.
    pub(crate) fn note(&mut self, named: &Scope, place: u64) -> Result<(), NoMemory>
        ensures listed { OnOk result ((kind : RowKind) (id : ℕ) → refers kind id named.now ≡ true → listed_in self.new kind id place ≡ true) }
        ensures kept { (kind : RowKind) (id at : ℕ) → listed_in self.old kind id at ≡ true → listed_in self.new kind id at ≡ true }
    {
        self.of_services.note(named.service, place)?;
        self.of_routes.note(named.route, place)?;
        self.of_consumers.note(named.consumer, place)
    }

    /// The row at this place doesn't name any more what `now` doesn't name.
    pub(crate) fn forget(&mut self, old: &Scope, now: &Scope, place: u64)
        ensures { (kind : RowKind) (id at : ℕ) → (at == place && not (refers kind id now.now)) ≡ false → listed_in self.old kind id at ≡ true → listed_in self.new kind id at ≡ true }
    {
        self.of_services.forget(old.service, now.service, place);
        self.of_routes.forget(old.route, now.route, place);
        self.of_consumers.forget(old.consumer, now.consumer, place);
    }
}
