//! The methods of the Admin API.

ghost use Rattle.std.specs.Prelude.{◌≡◌, IfSome};
ghost use Rattle.kg_admin_paths.specs.Paths.{FitsOperation, FitsPlace, operation_of};
ghost use Rattle.kg_rows.specs.Decision.{CanStandUnder};
ghost use Rattle.kg_admin_paths.specs.declared.place.Place.TheVariants.{List as ListOf, Item};

use crate::place::Place;
use kg_row_queries::{Parent, Select};
use kg_row_types::entity::Kind;

/// What a request asks for.
#[derive(Drop)]
pub enum Operation {
    /// A page of rows.
    Page {
        kind: Kind,
        parent: Option<Parent>,
    },
    /// A new row.
    Insert {
        kind: Kind,
        parent: Option<Parent>,
    },
    /// One row.
    Find {
        kind: Kind,
        parent: Option<Parent>,
        select: Select,
    },
    /// Some fields of a row are changed.
    Patch {
        kind: Kind,
        parent: Option<Parent>,
        select: Select,
    },
    /// All fields of a row are set; it is made where it is missing.
    Put {
        kind: Kind,
        parent: Option<Parent>,
        select: Select,
    },
    /// A row goes.
    Delete {
        kind: Kind,
        parent: Option<Parent>,
        select: Select,
    },
}

/// What a method asks for at a place. None: the place hasn't the method.
pub fn operation_of(place: Place, method: &[u8]) -> Option<Operation>
    ensures operation { result ≡ operation_of place method.now }
    ensures fits { FitsPlace place → IfSome result FitsOperation }
{
    match place {
        Place::List { kind, parent } => on_list(kind, parent, method),
        Place::Item {
            kind,
            parent,
            select,
        } => on_item(kind, parent, select, method),
    }
}

fn on_list(kind: Kind, parent: Option<Parent>, method: &[u8]) -> Option<Operation>
    ensures operation { result ≡ operation_of (ListOf kind parent) method.now }
    ensures fits { CanStandUnder kind parent → IfSome result FitsOperation }
{
    if method == b"GET".as_slice() {
        Some(Operation::Page { kind, parent })
    } else if method == b"POST".as_slice() {
        Some(Operation::Insert { kind, parent })
    } else {
        None
    }
}

fn on_item(kind: Kind, parent: Option<Parent>, select: Select, method: &[u8]) -> Option<Operation>
    ensures operation { result ≡ operation_of (Item kind parent select) method.now }
    ensures fits { CanStandUnder kind parent → IfSome result FitsOperation }
{
    if method == b"GET".as_slice() {
        Some(Operation::Find {
            kind,
            parent,
            select,
        })
    } else if method == b"PATCH".as_slice() {
        Some(Operation::Patch {
            kind,
            parent,
            select,
        })
    } else if method == b"PUT".as_slice() {
        Some(Operation::Put {
            kind,
            parent,
            select,
        })
    } else if method == b"DELETE".as_slice() {
        Some(Operation::Delete {
            kind,
            parent,
            select,
        })
    } else {
        None
    }
}
