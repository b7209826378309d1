//! The paths of the Admin API.

ghost use Rattle.std.specs.Prelude.{◌≡◌, IfOk, IfSome, map};
ghost use Rattle.kg_admin_paths.specs.Paths.{FitsPlace, item_at, item_under, list_at, list_under, nested_item_at, nested_list_at, place_at, place_of, row_at, segments_of};

use crate::lists::{item_kind_under, kind_listed, kind_listed_under};
use crate::word::select_at;
use kg_row_queries::{Parent, Select};
use kg_row_types::entity::Kind;
use kg_text::NoMemory;
use std::alloc::{AllocError, Global};

/// What a path means: the rows of a kind or one of them, among all or among those under a row.
#[derive(Drop)]
pub enum Place {
    List {
        kind: Kind,
        parent: Option<Parent>,
    },
    Item {
        kind: Kind,
        parent: Option<Parent>,
        select: Select,
    },
}

/// What a path in normal form means, which is given without its first slash. None: the Admin API has no
/// such path.
///
/// Words are percent-decoded; one that is empty or no UTF-8 then makes no path. A word that tells an id
/// selects by it, else by name, username or group; among keys it is left to the search which of both it
/// is.
pub fn place_of(alloc: Global, path: &[u8]) -> Result<Option<Place>, NoMemory>
    ensures place { IfOk result (λ place. place ≡ place_of path.now) }
    ensures fits { IfOk result (λ place. IfSome place FitsPlace) }
{
    let segments = segments_of(alloc, path)?;
    place_at(alloc, segments.as_slice())
}

fn segments_of<'a>(alloc: Global, path: &'a [u8]) -> Result<Vec<&'a [u8]>, AllocError>
    ensures { IfOk result (λ segments. map (λ segment. segment.now) segments.items ≡ segments_of path.now) }
{
    path.split(|b| *b == b'/').collect(alloc)
}

fn place_at(alloc: Global, segments: &[&[u8]]) -> Result<Option<Place>, NoMemory>
    ensures place { IfOk result (λ place. place ≡ place_at (map (λ segment. segment.now) segments.now)) }
    ensures fits { IfOk result (λ place. IfSome place FitsPlace) }
{
    match *segments {
        [list] => Ok(list_at(list)),
        [list, own] => item_at(alloc, list, own),
        [list, own, below] => nested_list_at(alloc, list, own, below),
        [list, own, below, word] => nested_item_at(alloc, list, own, below, word),
        _ => Ok(None),
    }
}

// `/services`
fn list_at(list: &[u8]) -> Option<Place>
    ensures place { result ≡ list_at list.now }
    ensures fits { IfSome result FitsPlace }
{
    match kind_listed(list) {
        Some(kind) => Some(Place::List { kind, parent: None }),
        None => None,
    }
}

// `/services/W`
fn item_at(alloc: Global, list: &[u8], own: &[u8]) -> Result<Option<Place>, NoMemory>
    ensures place { IfOk result (λ place. place ≡ item_at list.now own.now) }
    ensures fits { IfOk result (λ place. IfSome place FitsPlace) }
{
    match row_at(alloc, list, own)? {
        Some(row) => {
            let Parent { kind, select } = row;
            Ok(Some(Place::Item {
                kind,
                parent: None,
                select,
            }))
        }
        None => Ok(None),
    }
}

// `/services/W/routes`
fn nested_list_at(
    alloc: Global,
    list: &[u8],
    own: &[u8],
    below: &[u8],
) -> Result<Option<Place>, NoMemory>
    ensures place { IfOk result (λ place. place ≡ nested_list_at list.now own.now below.now) }
    ensures fits { IfOk result (λ place. IfSome place FitsPlace) }
{
    match row_at(alloc, list, own)? {
        Some(parent) => Ok(list_under(parent, below)),
        None => Ok(None),
    }
}

// `/consumers/W/acls/V`
fn nested_item_at(
    alloc: Global,
    list: &[u8],
    own: &[u8],
    below: &[u8],
    word: &[u8],
) -> Result<Option<Place>, NoMemory>
    ensures place { IfOk result (λ place. place ≡ nested_item_at list.now own.now below.now word.now) }
    ensures fits { IfOk result (λ place. IfSome place FitsPlace) }
{
    match row_at(alloc, list, own)? {
        Some(parent) => item_under(alloc, parent, below, word),
        None => Ok(None),
    }
}

// A row among all of its kind.
fn row_at(alloc: Global, list: &[u8], own: &[u8]) -> Result<Option<Parent>, NoMemory>
    ensures { IfOk result (λ row. row ≡ row_at list.now own.now) }
{
    let Some(kind) = kind_listed(list) else {
        return Ok(None);
    };
    match select_at(alloc, kind, own)? {
        Some(select) => Ok(Some(Parent { kind, select })),
        None => Ok(None),
    }
}

// The rows under a row.
fn list_under(parent: Parent, list: &[u8]) -> Option<Place>
    ensures place { result ≡ list_under parent list.now }
    ensures fits { IfSome result FitsPlace }
{
    match kind_listed_under(parent.kind, list) {
        Some(kind) => Some(Place::List {
            kind,
            parent: Some(parent),
        }),
        None => None,
    }
}

// A row among those under a row.
fn item_under(
    alloc: Global,
    parent: Parent,
    list: &[u8],
    own: &[u8],
) -> Result<Option<Place>, NoMemory>
    ensures place { IfOk result (λ place. place ≡ item_under parent list.now own.now) }
    ensures fits { IfOk result (λ place. IfSome place FitsPlace) }
{
    let Some(kind) = item_kind_under(parent.kind, list) else {
        return Ok(None);
    };
    match select_at(alloc, kind, own)? {
        Some(select) => Ok(Some(Place::Item {
            kind,
            parent: Some(parent),
            select,
        })),
        None => Ok(None),
    }
}
