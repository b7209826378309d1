//! The rows that a row names by where it stands: its parent, and its consumer.

ghost use Rattle.std.specs.Prelude.{◌≡◌};
ghost use Rattle.kg_row_queries.specs.RowRefs.{row_at};
ghost use Rattle.kg_rows.specs.References.{link_of, link_to, no_links, owner_of};

use kg_entities::{Id, Kind};
use kg_row_queries::{Collection, RowRef};
use kg_schema::Links;

/// The reference to the parent, if there is one.
pub fn link_of(collection: &Collection) -> Links
    ensures { result ≡ link_of collection.now }
{
    match collection {
        Collection::Anywhere => no_links(),
        Collection::Under { kind, id } => link_to(*kind, *id),
    }
}

/// No row is named.
pub fn no_links() -> Links
    ensures { result ≡ no_links }
{
    Links {
        service: None,
        route: None,
        consumer: None,
    }
}

// The reference by which a row stands under one of this kind and id.
fn link_to(kind: Kind, id: Id) -> Links
    ensures { result ≡ link_to kind id }
{
    match kind {
        Kind::Service => Links {
            service: Some(id),
            route: None,
            consumer: None,
        },
        Kind::Route => Links {
            service: None,
            route: Some(id),
            consumer: None,
        },
        Kind::Consumer => Links {
            service: None,
            route: None,
            consumer: Some(id),
        },
        Kind::KeyCred => no_links(),
        Kind::BasicCred => no_links(),
        Kind::Acl => no_links(),
        Kind::Plugin => no_links(),
    }
}

/// The consumer to whom a row belongs, if it is a credential or a membership.
pub fn owner_of(row: &RowRef<'_>) -> Option<Id>
    ensures { result ≡ owner_of (row_at row.now) }
{
    match row {
        RowRef::Service(_) => None,
        RowRef::Route(_) => None,
        RowRef::Consumer(_) => None,
        RowRef::KeyCred(row) => Some(row.consumer),
        RowRef::BasicCred(row) => Some(row.consumer),
        RowRef::Acl(row) => Some(row.consumer),
        RowRef::Plugin(_) => None,
    }
}
