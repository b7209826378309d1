//! The rows of one kind, found by id and by what they name.

ghost use Rattle.std.specs.Prelude.{◌≡◌, [], ◌∷◌, ◌++◌, ◌==◌, ◌<◌, false, IfNone, IfOk, IfSome, OnOk, OnErr, find, filter, length, map, nat_eq, not, take, None, if◌then◌else◌};
ghost use Rattle.std.specs.Option.{option_copied, option_to_list};
ghost use Rattle.std.specs.List.{list_any, IsDistinct};
ghost use Rattle.kg_row_types.specs.Tables.{replaced};
ghost use Rattle.kg_tables.specs.IdOrder.{ids_above};
ghost use Rattle.kg_tables.specs.Others.{is_other};
ghost use Rattle.kg_tables.specs.PlaceIndexes.{start_of};
ghost use Rattle.kg_tables.specs.References.{refers};
ghost use Rattle.std.specs.BTreeMap.Range.{entries_between};
ghost use Rattle.std.specs.List.Sorted.{IsStrictlySortedBy};
ghost use Rattle.std.specs.Map.{keys_of};
ghost use Rattle.std.specs.Ordering.{nat_cmp};
ghost use Rattle.std.specs.declared.ops.Bound.TheVariants.{Unbounded};

use crate::id_index::IdIndex;
use crate::listing::Listing;
use crate::row::{Row, is_other, no_references};
use crate::walk::{ListedRows, Steps, Walk};
use kg_row_types::entity::Kind;
use kg_row_types::id::Id;
use kg_text::{List, NoMemory};
use std::alloc::Global;
use std::collections::BTreeMap;
use std::marker::Model;
use std::ops::Bound;

/// The rows of one kind. Contracts see them as a list in the order of insertion. A row is found by its
/// id, and rows by a service, route or consumer that they name, in the logarithm of their number. Whether
/// an id is there costs the same however many rows there are.
#[derive(Drop)]
pub struct RowTable<T: Row> {
    /// By place: a row keeps its place, and a new one gets the next.
    rows: BTreeMap<u64, T>,
    places: IdIndex,
    listing: Listing,
    next: u64,
}

impl<T: Row> Model for RowTable<T> {
    ghost use Rattle.std.specs.Prelude.{List};
    ghost use Rattle.std.specs.Coded.{coded_list};
    ghost use Rattle.std.specs.Map.{values_of};
    ghost use Rattle.kg_tables.specs.PlaceIndexes.{IsTable, listed_in, place_at};
    ghost use Rattle.kg_tables.specs.References.{refers};

    ghost Value = { List T };

    ghost coded = { coded_list T.code };

    ghost view = { λ table. values_of table.rows.entries };

    ghost invariant = { λ table. IsTable T.number (λ kind id row. refers kind id (T.references row)) table.rows.entries (place_at table.places) (listed_in table.listing) table.next };
}

impl<T: Row> RowTable<T> {
    /// No rows. It takes no memory.
    pub fn new(alloc: Global) -> RowTable<T>
        ensures { result ≡ [] }
    {
        RowTable {
            rows: BTreeMap::new(alloc),
            places: IdIndex::new(alloc),
            listing: Listing::new(alloc),
            next: 0,
        }
    }

    pub fn len(&self) -> usize
        ensures { result ≡ length self.now }
    {
        self.rows.len()
    }

    /// No two rows have the same id: a law, for proofs.
    pub fn ids_differ(&self)
        ensures { IsDistinct nat_eq (map T.number self.now) }
    {
        let _len = self.rows.len(); // read for the proof alone
    }

    /// The row with this id, which is the only one.
    pub fn get(&self, id: Id) -> Option<&T>
        ensures first { option_copied result ≡ find (λ row. T.number row == id) self.now }
        ensures only { option_to_list (option_copied result) ≡ filter (λ row. T.number row == id) self.now }
    {
        self.rows.get(self.places.get(&id)?)
    }

    /// Whether there is a row with this id.
    pub fn contains(&self, id: Id) -> bool
        ensures { result ≡ list_any (λ row. T.number row == id) self.now }
    {
        self.places.contains_key(&id)
    }

    /// The row with this id, unless it is the one that is left out.
    pub(crate) fn other(&self, except: Option<Id>, id: Id) -> Option<&T>
        ensures { option_copied result ≡ (if is_other except id then find (λ row. T.number row == id) self.now else None) }
    {
        if is_other(except, id) {
            return self.get(id);
        }
        None
    }

    /// All rows.
    pub fn walk(&self) -> Walk<'_, T>
        ensures { result ≡ self.now }
    {
        Walk {
            steps: Steps::All(self.rows.values()),
        }
    }

    /// The rows that name the row of this kind and id.
    pub fn of(&self, kind: Kind, id: Id) -> Walk<'_, T>
        ensures { result ≡ filter (λ row. refers kind id (T.references row)) self.now }
    {
        let Some(pairs) = self.listing.of(kind, id, self.next) else {
            return Walk {
                steps: Steps::Nowhere,
            };
        };
        let listed = ListedRows {
            rows: &self.rows,
            pairs,
            kind,
            id,
        };
        Walk {
            steps: Steps::Listed(listed),
        }
    }

    /// The first row that names the row of this kind and id.
    pub fn first_of(&self, kind: Kind, id: Id) -> Option<&T>
        ensures { option_copied result ≡ find (λ row. refers kind id (T.references row)) self.now }
    {
        self.of(kind, id).next()
    }

    /// At most so many ids, the least first, of those above the offset, or of all.
    pub fn ids_above(
        &self,
        alloc: Global,
        offset: Option<Id>,
        most: usize,
    ) -> Result<List<Id>, NoMemory>
        ensures { IfOk result (λ ids. ids ≡ take most (ids_above offset (map T.number self.now))) }
    {
        first_ids(alloc, self.places.in_order(), start_of(offset), most)
    }

    /// Adds a row at the end.
    pub fn push(&mut self, row: T) -> Result<(), NoMemory>
        requires new { list_any (λ other. T.number other == T.number row) self.old ≡ false }
        ensures ok { OnOk result (self.new ≡ self.old ++ row ∷ []) }
        ensures err { OnErr result (self.new ≡ self.old) }
    {
        let place = self.next;
        // More rows than any memory has held.
        let Some(next) = place.checked_add(1) else {
            return Err(NoMemory);
        };
        let id = row.id();
        self.listing.note(&row.references(), place)?;
        self.places.insert(id, place)?;
        match self.rows.insert(place, row) {
            Ok(_) => {
                self.next = next;
                Ok(())
            }
            Err(_) => {
                self.places.remove(&id);
                Err(NoMemory)
            }
        }
    }

    /// Puts a row in the place of the one with its id, if there is one, and gives that one.
    pub fn replace(&mut self, row: T) -> Result<Option<T>, NoMemory>
        ensures old { IfOk result (λ old. old ≡ find (λ other. T.number other == T.number row) self.old) }
        ensures ok { OnOk result (self.new ≡ replaced (λ other. T.number other == T.number row) row self.old) }
        ensures err { OnErr result (self.new ≡ self.old) }
    {
        let Some(place) = self.places.get(&row.id()).copied() else {
            return Ok(None);
        };
        let references = row.references();
        self.listing.note(&references, place)?;
        let Ok(old) = self.rows.insert(place, row) else {
            unreachable!()
        };
        let Some(old) = old else { unreachable!() };
        self.listing.forget(&old.references(), &references, place);
        Ok(Some(old))
    }

    /// Takes out the row with this id, and gives it.
    pub fn remove(&mut self, id: Id) -> Option<T>
        ensures old { result ≡ find (λ row. T.number row == id) self.old }
        ensures left { self.new ≡ filter (λ row. not (T.number row == id)) self.old }
    {
        let place = self.places.remove(&id)?;
        let Some(row) = self.rows.remove(&place) else {
            unreachable!()
        };
        self.listing
            .forget(&row.references(), &no_references(), place);
        Some(row)
    }

    /// Takes out the rows that name the row of this kind and id.
    pub fn remove_of(&mut self, kind: Kind, id: Id)
        ensures { self.new ≡ filter (λ row. not (refers kind id (T.references row))) self.old }
    {
        while let Some(own) = self.first_id_of(kind, id) {
            drop(self.remove(own)); // let go by name: a short proof
        }
    }

    /// The id of the first row that names the row of this kind and id.
    pub(crate) fn first_id_of(&self, kind: Kind, id: Id) -> Option<Id>
        ensures none { IfNone result (filter (λ row. not (refers kind id (T.references row))) self.now ≡ self.now) }
        ensures one { IfSome result (λ own. filter (λ row. not (refers kind id (T.references row))) (filter (λ row. not (T.number row == own)) self.now) ≡ filter (λ row. not (refers kind id (T.references row))) self.now) }
        ensures fewer { IfSome result (λ own. length (filter (λ row. not (T.number row == own)) self.now) < length self.now) }
    {
        self.ids_differ(); // no other row goes with this one
        match self.first_of(kind, id) {
            Some(row) => Some(row.id()),
            None => None,
        }
    }
}

fn start_of(offset: Option<Id>) -> Bound<Id>
    ensures { result ≡ start_of offset }
{
    match offset {
        Some(id) => Bound::Excluded(id),
        None => Bound::Unbounded,
    }
}

fn first_ids(
    alloc: Global,
    places: &BTreeMap<Id, u64>,
    start: Bound<Id>,
    most: usize,
) -> Result<List<Id>, NoMemory>
    ensures ids { IfOk result (λ ids. ids ≡ keys_of (take most (entries_between nat_cmp start Unbounded places.now.entries))) }
    ensures order { IsStrictlySortedBy nat_cmp (keys_of places.now.entries) }
{
    let mut ids = List::new(alloc);
    let mut above = places.range((start, Bound::Unbounded));
    while ids.len() < most {
        let Some((id, _)) = above.next() else {
            break;
        };
        ids.push(*id)?;
    }
    Ok(ids)
}
