//! Rows that are still to come.

ghost use Rattle.std.specs.Prelude.{◌≡◌, [], ◌∷◌, MatchOption};
ghost use Rattle.std.specs.Iterator.{item_count, YieldsFirstRef};
ghost use Rattle.kg_tables.specs.PlaceIndexes.{rows_at};
ghost use Rattle.kg_tables.specs.References.{refers};

use crate::row::Row;
use kg_row_types::entity::Kind;
use kg_row_types::id::Id;
use std::collections::{BTreeMap, btree_map, btree_set};
use std::marker::Model;

/// Rows of a table, in the order of insertion. Contracts see the list of those that are still to come.
#[derive(Drop)]
pub struct Walk<'a, T: Row> {
    pub(crate) steps: Steps<'a, T>,
}

/// Where a walk takes its rows from.
#[derive(Drop)]
pub(crate) enum Steps<'a, T: Row> {
    All(btree_map::Values<'a, u64, T>),
    Listed(ListedRows<'a, T>),
    Nowhere,
}

impl<'a, T: Row> Model for Walk<'a, T> {
    ghost use Rattle.std.specs.Prelude.{List};
    ghost use Rattle.std.specs.Coded.{coded_list};
    ghost use Rattle.kg_tables.specs.Walks.{rows_of};

    ghost Value = { List T };

    ghost coded = { coded_list T.code };

    ghost view = { λ walk. rows_of walk.steps };
}

impl<'a, T: Row> Iterator for Walk<'a, T> {
    type Item = &'a T;

    ghost next_gives = { YieldsFirstRef (λ walk. walk) };

    ghost remaining = { item_count (λ walk. walk) };

    fn next(&mut self) -> Option<&'a T> {
        match &mut self.steps {
            Steps::All(rows) => rows.next(),
            Steps::Listed(rows) => rows.next(),
            Steps::Nowhere => None,
        }
    }
}

/// The rows at listed places that name a row, in the order of the places.
#[derive(Drop)]
pub(crate) struct ListedRows<'a, T: Row> {
    pub(crate) rows: &'a BTreeMap<u64, T>,
    pub(crate) pairs: btree_set::Range<'a, (Id, u64)>,
    pub(crate) kind: Kind,
    pub(crate) id: Id,
}

impl<'a, T: Row> Model for ListedRows<'a, T> {
    ghost use Rattle.std.specs.Prelude.{List};
    ghost use Rattle.std.specs.Coded.{coded_list};
    ghost use Rattle.kg_tables.specs.PlaceIndexes.{rows_at};
    ghost use Rattle.kg_tables.specs.References.{refers};

    ghost Value = { List T };

    ghost coded = { coded_list T.code };

    ghost view = { λ walk. rows_at (λ row. refers walk.kind walk.id (T.references row)) walk.rows.now.entries walk.pairs };
}

impl<'a, T: Row> Iterator for ListedRows<'a, T> {
    type Item = &'a T;

    ghost next_gives = { YieldsFirstRef (λ walk. walk) };

    ghost remaining = { item_count (λ walk. walk) };

    fn next(&mut self) -> Option<&'a T> {
        next_named(self.rows, &mut self.pairs, self.kind, self.id)
    }
}

fn next_named<'a, T: Row>(
    rows: &'a BTreeMap<u64, T>,
    pairs: &mut btree_set::Range<'_, (Id, u64)>,
    kind: Kind,
    id: Id,
) -> Option<&'a T>
    ensures { MatchOption result ((rows_at (λ row. refers kind id (T.references row)) rows.now.entries pairs.old ≡ []) × (rows_at (λ row. refers kind id (T.references row)) rows.now.entries pairs.new ≡ [])) (λ row. rows_at (λ row. refers kind id (T.references row)) rows.now.entries pairs.old ≡ row.now ∷ rows_at (λ row. refers kind id (T.references row)) rows.now.entries pairs.new) }
{
    while let Some((_, place)) = pairs.next() {
        if let Some(row) = rows.get(place) {
            if row.references().names(kind, id) {
                return Some(row);
            }
        }
    }
    None
}
