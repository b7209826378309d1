//! What only one row may have, and which other row has it.

ghost use Rattle.std.specs.Prelude.{◌≡◌, ◌==◌, ◌&&◌, [], ◌∷◌, filter, find, option_map};
ghost use Rattle.std.specs.Option.{option_copied};
ghost use Rattle.std.specs.Str.{bytes_eq};
ghost use Rattle.kg_row_types.specs.ValidRows.{same_membership};
ghost use Rattle.kg_row_types.specs.declared.entity.Entity.TheVariants as of_row;
ghost use Rattle.kg_tables.specs.Others.{is_other};
ghost use Rattle.kg_row_changes.specs.Claims.{claimed, first_taken, holder, id_holder, text_holder};

use kg_entities::{AclRow, Consumer, Entity, Id, Kind, Route, Row, Rows, Service};
use kg_tables::is_other;

type Claim = (&'static str, Id);

/// The first field, in byte order, that another row than the replaced one has, with that row's id.
pub fn claimed(rows: &Rows, row: &Entity, replaced: &Option<Id>) -> Option<Claim>
    ensures { option_map (λ claim. (claim.0.now, claim.1)) result ≡ claimed row.now replaced.now rows.now }
{
    match row {
        Entity::Service(service) => {
            let id = id_holder(rows, Kind::Service, service.id, *replaced);
            let name = service_name_holder(rows, *replaced, service);
            first("id", id, "name", name)
        }
        Entity::Route(route) => {
            let id = id_holder(rows, Kind::Route, route.id, *replaced);
            let name = route_name_holder(rows, *replaced, route);
            first("id", id, "name", name)
        }
        Entity::Consumer(consumer) => claimed_consumer(rows, consumer, replaced),
        Entity::KeyCred(cred) => {
            let id = id_holder(rows, Kind::KeyCred, cred.id, *replaced);
            let key = id_of(rows.other_with_key(*replaced, &cred.key));
            first("id", id, "key", key)
        }
        Entity::BasicCred(cred) => {
            let id = id_holder(rows, Kind::BasicCred, cred.id, *replaced);
            let username = id_of(rows.other_with_login(*replaced, &cred.username));
            first("id", id, "username", username)
        }
        Entity::Acl(membership) => {
            let group = group_holder(rows, *replaced, membership);
            let id = id_holder(rows, Kind::Acl, membership.id, *replaced);
            first("group", group, "id", id)
        }
        Entity::Plugin(plugin) => {
            let id = id_holder(rows, Kind::Plugin, plugin.id, *replaced);
            let name = id_of(rows.other_like(*replaced, plugin));
            first("id", id, "name", name)
        }
    }
}

fn claimed_consumer(rows: &Rows, consumer: &Consumer, replaced: &Option<Id>) -> Option<Claim>
    ensures { option_map (λ claim. (claim.0.now, claim.1)) result ≡ claimed (of_row.Consumer consumer.now) replaced.now rows.now }
{
    let id = id_holder(rows, Kind::Consumer, consumer.id, *replaced);
    let username = username_holder(rows, *replaced, consumer);
    match custom_id_holder(rows, *replaced, consumer) {
        Some(other) => Some(("custom_id", other)),
        None => first("id", id, "username", username),
    }
}

// The one field, if it is taken.
fn taken(field: &'static str, found: Option<Id>) -> Option<Claim>
    ensures { option_map (λ claim. (claim.0.now, claim.1)) result ≡ first_taken ((field.now, found) ∷ []) }
{
    match found {
        Some(id) => Some((field, id)),
        None => None,
    }
}

// The first of two fields that is taken.
fn first(
    field: &'static str,
    found: Option<Id>,
    later: &'static str,
    other: Option<Id>,
) -> Option<Claim>
    ensures { option_map (λ claim. (claim.0.now, claim.1)) result ≡ first_taken ((field.now, found) ∷ (later.now, other) ∷ []) }
{
    match found {
        Some(id) => Some((field, id)),
        None => taken(later, other),
    }
}

fn id_holder(rows: &Rows, kind: Kind, id: Id, replaced: Option<Id>) -> Option<Id>
    ensures { result ≡ id_holder kind id replaced rows.now }
{
    if is_other(replaced, id) && rows.contains(kind, id) {
        Some(id)
    } else {
        None
    }
}

// The id of the row that was found.
fn id_of<T: Row>(found: Option<&T>) -> Option<Id>
    ensures { result ≡ option_map T.number (option_copied found.entry) }
{
    match found {
        Some(row) => Some(row.id()),
        None => None,
    }
}

fn service_name_holder(rows: &Rows, replaced: Option<Id>, service: &Service) -> Option<Id>
    ensures { result ≡ text_holder (λ other. other.id) (λ other. other.name) replaced service.now.name rows.now.services }
{
    match &service.name {
        Some(text) => id_of(rows.other_service_named(replaced, text)),
        None => None,
    }
}

fn route_name_holder(rows: &Rows, replaced: Option<Id>, route: &Route) -> Option<Id>
    ensures { result ≡ text_holder (λ other. other.id) (λ other. other.name) replaced route.now.name rows.now.routes }
{
    match &route.name {
        Some(text) => id_of(rows.other_route_named(replaced, text)),
        None => None,
    }
}

fn username_holder(rows: &Rows, replaced: Option<Id>, consumer: &Consumer) -> Option<Id>
    ensures { result ≡ text_holder (λ other. other.id) (λ other. other.username) replaced consumer.now.username rows.now.consumers }
{
    match &consumer.username {
        Some(text) => id_of(rows.other_with_username(replaced, text)),
        None => None,
    }
}

fn custom_id_holder(rows: &Rows, replaced: Option<Id>, consumer: &Consumer) -> Option<Id>
    ensures { result ≡ text_holder (λ other. other.id) (λ other. other.custom_id) replaced consumer.now.custom_id rows.now.consumers }
{
    match &consumer.custom_id {
        Some(text) => id_of(rows.other_with_custom_id(replaced, text)),
        None => None,
    }
}

fn group_holder(rows: &Rows, replaced: Option<Id>, membership: &AclRow) -> Option<Id>
    ensures { result ≡ holder (λ other. other.id) replaced (λ other. same_membership other membership.now) rows.now.acls }
{
    id_of(other_in_group(rows, replaced, membership))
}

// The first other row of the consumer that is in the group.
fn other_in_group<'r>(
    rows: &'r Rows,
    replaced: Option<Id>,
    membership: &AclRow,
) -> Option<&'r AclRow>
    ensures { option_copied result ≡ find (λ other. is_other replaced other.id && bytes_eq other.group membership.now.group) (filter (λ row. row.consumer == membership.now.consumer) rows.now.acls) }
{
    rows.acls().of(Kind::Consumer, membership.consumer).find(|other| is_other(replaced, other.id)
        && other.group == membership.group)
}
