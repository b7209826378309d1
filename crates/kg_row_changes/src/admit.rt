//! Which commands are allowed.

ghost use Rattle.std.specs.Prelude.{◌≡◌, ◌==◌};
ghost use Rattle.std.specs.List.{list_any};
ghost use Rattle.kg_row_changes.specs.Allowed.{has_if_set, has_scope, has_named_rows, is_unique, is_unused, is_consistent, has_room, is_allowed};

use crate::claims::claimed;
use kg_entities::{Entity, Id, Kind, Rows, Scope};
use kg_row_values::command::Command;

/// Whether the command is allowed at these rows: an inserted row's id is new and its kind has fewer
/// rows than the limit; an updated or deleted row is there; the rows that a row names are there; what
/// is unique is taken by no other row; no route leads to a deleted service. It takes no memory.
pub fn allowed(rows: &Rows, command: &Command, limit: u32) -> bool
    ensures { result ≡ is_allowed rows.now command.now limit }
{
    is_consistent(rows, command) && has_room(rows, command, limit)
}

fn is_consistent(rows: &Rows, command: &Command) -> bool
    ensures { result ≡ is_consistent rows.now command.now }
{
    match command {
        Command::Insert(new) => {
            !rows.contains(new.kind(), new.id())
                && has_named_rows(new, rows)
                && is_unique(new, rows)
        }
        Command::Update(new) => {
            rows.contains(new.kind(), new.id()) && has_named_rows(new, rows) && is_unique(new, rows)
        }
        Command::Delete { kind, id } => rows.contains(*kind, *id) && is_unused(*kind, *id, rows),
    }
}

fn has_room(rows: &Rows, command: &Command, limit: u32) -> bool
    ensures { result ≡ has_room rows.now command.now limit }
{
    match command {
        Command::Insert(new) => rows.count(new.kind()) < limit as usize,
        Command::Update(_) => true,
        Command::Delete { .. } => true,
    }
}

/// Does no route lead to what is to be deleted?
pub fn is_unused(kind: Kind, id: Id, rows: &Rows) -> bool
    ensures { result ≡ is_unused kind id rows.now }
{
    match kind {
        Kind::Service => !has_route_to(rows, id),
        Kind::Route => true,
        Kind::Consumer => true,
        Kind::KeyCred => true,
        Kind::BasicCred => true,
        Kind::Acl => true,
        Kind::Plugin => true,
    }
}

fn has_route_to(rows: &Rows, service: Id) -> bool
    ensures { result ≡ list_any (λ route. route.service == service) rows.now.routes }
{
    match rows.routes().first_of(Kind::Service, service) {
        Some(_) => true,
        None => false,
    }
}

fn has_named_rows(row: &Entity, rows: &Rows) -> bool
    ensures { result ≡ has_named_rows row.now rows.now }
{
    match row {
        Entity::Service(_) => true,
        Entity::Route(route) => rows.contains(Kind::Service, route.service),
        Entity::Consumer(_) => true,
        Entity::KeyCred(cred) => rows.contains(Kind::Consumer, cred.consumer),
        Entity::BasicCred(cred) => rows.contains(Kind::Consumer, cred.consumer),
        Entity::Acl(membership) => rows.contains(Kind::Consumer, membership.consumer),
        Entity::Plugin(plugin) => has_scope(plugin.scope, rows),
    }
}

fn has_scope(scope: Scope, rows: &Rows) -> bool
    ensures { result ≡ has_scope scope rows.now }
{
    has_if_set(Kind::Service, scope.service, rows)
        && has_if_set(Kind::Route, scope.route, rows)
        && has_if_set(Kind::Consumer, scope.consumer, rows)
}

fn has_if_set(kind: Kind, reference: Option<Id>, rows: &Rows) -> bool
    ensures { result ≡ has_if_set kind reference rows.now }
{
    match reference {
        Some(id) => rows.contains(kind, id),
        None => true,
    }
}

// No row of another id has what only one may have.
fn is_unique(row: &Entity, rows: &Rows) -> bool
    ensures { result ≡ is_unique row.now rows.now }
{
    match claimed(rows, row, &Some(row.id())) {
        Some(_) => false,
        None => true,
    }
}
