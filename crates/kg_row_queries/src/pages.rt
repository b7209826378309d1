//! Rows as they are asked for: one, or a page of them.

ghost use Rattle.std.specs.Prelude.{◌≡◌, ◌∷◌, ◌++◌, [], IfOk, OnOk, filter, fold, map, take};
ghost use Rattle.std.specs.BTreeSet.{insert_key};
ghost use Rattle.std.specs.List.{flat_map};
ghost use Rattle.std.specs.Ordering.{nat_cmp};
ghost use Rattle.std.specs.Option.{option_to_list};
ghost use Rattle.kg_tables.specs.IdOrder.{ids_above as in_order_above, is_above};
ghost use Rattle.kg_tables.specs.References.{refers};
ghost use Rattle.kg_row_queries.specs.Pages.{ids_above, page_in, page_of};
ghost use Rattle.kg_row_queries.specs.Selections.{found, row_with_id, rows_in, rows_under};

use crate::collection::{Collection, collection_of, row_in, selected_in};
use crate::select::{Parent, Select};
use kg_entities::{Entity, Id, Kind, Row, RowTable, Rows, Walk};
use kg_text::{List, NoMemory};
use std::alloc::Global;
use std::collections::BTreeSet;

/// Rows of a kind in the order of their ids, and whether more follow.
#[derive(Drop)]
pub struct Page {
    pub rows: List<Entity>,
    pub more: bool,
}

/// The row of a kind that is meant, among all of them or among those under a parent. There is none where
/// the parent is missing.
pub fn found(
    alloc: Global,
    rows: &Rows,
    kind: Kind,
    parent: &Option<Parent>,
    select: &Select,
) -> Result<Option<Entity>, NoMemory>
    ensures { IfOk result (λ row. row ≡ found kind parent.now select.now rows.now) }
{
    match collection_of(rows, parent) {
        Some(collection) => match selected_in(rows, kind, &collection, select) {
            // no `?` beside a copied row: a short proof
            Some(row) => match row.copy(alloc) {
                Ok(row) => Ok(Some(row)),
                Err(NoMemory) => Err(NoMemory),
            },
            None => Ok(None),
        },
        None => Ok(None),
    }
}

/// The first rows of a kind whose ids are above an offset, at most `size` of them in the order of their
/// ids, among all or among those under a parent. There is none where the parent is missing.
pub fn page_of(
    alloc: Global,
    rows: &Rows,
    kind: Kind,
    parent: &Option<Parent>,
    offset: Option<Id>,
    size: u32,
) -> Result<Option<Page>, NoMemory>
    ensures { IfOk result (λ page. page ≡ page_of kind parent.now offset size rows.now) }
{
    match collection_of(rows, parent) {
        // no `?` beside a page: a short proof
        Some(collection) => match page_in(alloc, rows, kind, &collection, offset, size) {
            Ok(page) => Ok(Some(page)),
            Err(NoMemory) => Err(NoMemory),
        },
        None => Ok(None),
    }
}

fn page_in(
    alloc: Global,
    rows: &Rows,
    kind: Kind,
    collection: &Collection,
    offset: Option<Id>,
    size: u32,
) -> Result<Page, NoMemory>
    ensures { IfOk result (λ page. page ≡ page_in kind offset size (rows_in collection.now rows.now)) }
{
    let most = size as usize;
    // one more than are shown tells whether more follow
    let ids = first_ids(alloc, rows, kind, collection, offset, most + 1)?;
    let shown = first(ids.as_slice(), most);
    Ok(Page {
        rows: rows_of(alloc, rows, kind, collection, shown)?,
        more: most < ids.len(),
    })
}

// The front part of a list, of at most so many members.
fn first(ids: &[Id], size: usize) -> &[Id]
    ensures { result.now ≡ take size ids.now }
{
    if size < ids.len() {
        return &ids[..size];
    }
    ids
}

fn rows_of(
    alloc: Global,
    rows: &Rows,
    kind: Kind,
    collection: &Collection,
    ids: &[Id],
) -> Result<List<Entity>, NoMemory>
    ensures { IfOk result (λ shown. shown ≡ flat_map (λ id. option_to_list (row_with_id kind id (rows_in collection.now rows.now))) ids.now) }
{
    let mut shown = List::new(alloc);
    match put_rows(alloc, rows, kind, collection, ids, &mut shown) {
        Ok(()) => Ok(shown),
        Err(NoMemory) => {
            drop(shown); // let go by name: a short proof
            Err(NoMemory)
        }
    }
}

fn put_rows(
    alloc: Global,
    rows: &Rows,
    kind: Kind,
    collection: &Collection,
    ids: &[Id],
    shown: &mut List<Entity>,
) -> Result<(), NoMemory>
    ensures { OnOk result (shown.new ≡ shown.old ++ flat_map (λ id. option_to_list (row_with_id kind id (rows_in collection.now rows.now))) ids.now) }
{
    for id in ids {
        put_row(alloc, rows, kind, collection, *id, shown)?;
    }
    Ok(())
}

fn put_row(
    alloc: Global,
    rows: &Rows,
    kind: Kind,
    collection: &Collection,
    id: Id,
    shown: &mut List<Entity>,
) -> Result<(), NoMemory>
    ensures { OnOk result (shown.new ≡ shown.old ++ option_to_list (row_with_id kind id (rows_in collection.now rows.now))) }
{
    match row_in(rows, kind, collection, id) {
        // no `?` beside a copied row: a short proof
        Some(row) => match row.copy(alloc) {
            Ok(row) => shown.push(row),
            Err(NoMemory) => Err(NoMemory),
        },
        None => Ok(()),
    }
}

// The first ids above the offset, from the least to the greatest.
fn first_ids(
    alloc: Global,
    rows: &Rows,
    kind: Kind,
    collection: &Collection,
    offset: Option<Id>,
    most: usize,
) -> Result<List<Id>, NoMemory>
    ensures { IfOk result (λ ids. ids ≡ take most (ids_above kind offset (rows_in collection.now rows.now))) }
{
    match collection {
        Collection::Anywhere => ids_of_all(alloc, rows, kind, offset, most),
        Collection::Under { kind: upper, id } => {
            ids_under(alloc, rows, kind, *upper, *id, offset, most)
        }
    }
}

fn ids_of_all(
    alloc: Global,
    rows: &Rows,
    kind: Kind,
    offset: Option<Id>,
    most: usize,
) -> Result<List<Id>, NoMemory>
    ensures { IfOk result (λ ids. ids ≡ take most (ids_above kind offset rows.now)) }
{
    match kind {
        Kind::Service => rows.services().ids_above(alloc, offset, most),
        Kind::Route => rows.routes().ids_above(alloc, offset, most),
        Kind::Consumer => rows.consumers().ids_above(alloc, offset, most),
        Kind::KeyCred => rows.key_creds().ids_above(alloc, offset, most),
        Kind::BasicCred => rows.basic_creds().ids_above(alloc, offset, most),
        Kind::Acl => rows.acls().ids_above(alloc, offset, most),
        Kind::Plugin => rows.plugins().ids_above(alloc, offset, most),
    }
}

fn ids_under(
    alloc: Global,
    rows: &Rows,
    kind: Kind,
    upper: Kind,
    above: Id,
    offset: Option<Id>,
    most: usize,
) -> Result<List<Id>, NoMemory>
    ensures { IfOk result (λ ids. ids ≡ take most (ids_above kind offset (rows_under upper above rows.now))) }
{
    match kind {
        Kind::Service => rows.services().ids_above(alloc, offset, most),
        Kind::Route => ids_below(alloc, rows.routes(), upper, above, offset, most),
        Kind::Consumer => rows.consumers().ids_above(alloc, offset, most),
        Kind::KeyCred => ids_below(alloc, rows.key_creds(), upper, above, offset, most),
        Kind::BasicCred => ids_below(alloc, rows.basic_creds(), upper, above, offset, most),
        Kind::Acl => ids_below(alloc, rows.acls(), upper, above, offset, most),
        Kind::Plugin => ids_below(alloc, rows.plugins(), upper, above, offset, most),
    }
}

// The first ids above the offset of the rows that stand under a row.
fn ids_below<T: Row>(
    alloc: Global,
    rows: &RowTable<T>,
    upper: Kind,
    above: Id,
    offset: Option<Id>,
    most: usize,
) -> Result<List<Id>, NoMemory>
    ensures { IfOk result (λ ids. ids ≡ take most (in_order_above offset (map T.number (filter (λ row. refers upper above (T.references row)) rows.now)))) }
{
    let mut ids = BTreeSet::new(alloc);
    put_ids(rows.of(upper, above), &offset, &mut ids)?;
    listed(alloc, ids, most)
}

fn put_ids<T: Row>(
    rows: Walk<'_, T>,
    offset: &Option<Id>,
    ids: &mut BTreeSet<Id>,
) -> Result<(), NoMemory>
    ensures { OnOk result (ids.new.keys ≡ fold (insert_key nat_cmp) ids.old.keys (filter (is_above offset.now) (map T.number rows.entry))) }
{
    for row in rows {
        put_id(row.id(), offset, ids)?;
    }
    Ok(())
}

// Puts the id among the others, where it is above the offset.
fn put_id(id: Id, offset: &Option<Id>, ids: &mut BTreeSet<Id>) -> Result<(), NoMemory>
    ensures { OnOk result (ids.new.keys ≡ fold (insert_key nat_cmp) ids.old.keys (filter (is_above offset.now) (id ∷ []))) }
{
    if is_above(offset, id) {
        ids.insert(id)?;
    }
    Ok(())
}

fn is_above(offset: &Option<Id>, id: Id) -> bool
    ensures { result ≡ is_above offset.now id }
{
    match offset {
        Some(last) => last.number() < id.number(),
        None => true,
    }
}

// The first ids of a set, at most so many.
fn listed(alloc: Global, ids: BTreeSet<Id>, most: usize) -> Result<List<Id>, NoMemory>
    ensures { IfOk result (λ list. list ≡ take most ids.keys) }
{
    let mut list = List::new(alloc);
    for id in ids {
        if list.len() == most {
            return Ok(list);
        }
        list.push(id)?;
    }
    Ok(list)
}
