//! The rows at which the references of a body point.

ghost use Rattle.std.specs.Prelude.{◌≡◌, None, Some, IfOk, option_map};
ghost use Rattle.std.specs.Option.{option_or};
ghost use Rattle.serde_json.specs.View.{view};
ghost use Rattle.kg_row_types.specs.declared.entity.Kind.TheVariants as kind;
ghost use Rattle.kg_row_queries.specs.RowRefs.{row_at};
ghost use Rattle.kg_rows.specs.References.{contradicted_field, contradicts, dangling_field, fixed_links, is_dangling, is_missing, linked, links_in, links_of, target_id, target_if_set, targets_in};

use crate::links::{no_links, owner_of};
use kg_entities::{Entity, Id, Kind, Rows};
use kg_row_queries::RowRef;
use kg_schema::{Form, Links, ParentField, Reference};
use kg_text::NoMemory;
use std::alloc::Global;

/// At what a reference of a body points.
#[derive(Clone, Copy)]
pub enum Target {
    /// The body doesn't set the reference.
    Unset,
    /// No row has the name.
    Missing,
    /// The row of this id, which may be missing.
    Row(Id),
}

/// At what each reference of a body points.
#[derive(Clone, Copy)]
pub struct Targets {
    pub service: Target,
    pub route: Target,
    pub consumer: Target,
}

/// At what the references of a form's body point.
pub fn targets_in(alloc: Global, rows: &Rows, form: &Form) -> Result<Targets, NoMemory>
    ensures { IfOk result (λ targets. targets ≡ targets_in (view form.now.body) rows.now) }
{
    Ok(Targets {
        service: service_target(rows, &form.service(alloc)?),
        route: route_target(rows, &form.route(alloc)?),
        consumer: consumer_target(rows, &form.consumer(alloc)?),
    })
}

fn service_target(rows: &Rows, reference: &Option<Reference>) -> Target
    ensures { result ≡ target_if_set kind.Service rows.now reference.now }
{
    match reference {
        Some(Reference::Id(id)) => Target::Row(*id),
        Some(Reference::Name(text)) => match rows.service_named(text) {
            Some(found) => Target::Row(found.id),
            None => Target::Missing,
        },
        None => Target::Unset,
    }
}

fn route_target(rows: &Rows, reference: &Option<Reference>) -> Target
    ensures { result ≡ target_if_set kind.Route rows.now reference.now }
{
    match reference {
        Some(Reference::Id(id)) => Target::Row(*id),
        Some(Reference::Name(text)) => match rows.route_named(text) {
            Some(found) => Target::Row(found.id),
            None => Target::Missing,
        },
        None => Target::Unset,
    }
}

fn consumer_target(rows: &Rows, reference: &Option<Reference>) -> Target
    ensures { result ≡ target_if_set kind.Consumer rows.now reference.now }
{
    match reference {
        Some(Reference::Id(id)) => Target::Row(*id),
        Some(Reference::Name(text)) => match rows.consumer_with_username(text) {
            Some(found) => Target::Row(found.id),
            None => Target::Missing,
        },
        None => Target::Unset,
    }
}

/// The rows that a row of this id is to name: its parent, else the targets of its body.
pub fn links_in(own: Id, above: &Links, targets: &Targets) -> Links
    ensures { result ≡ links_in own above.now targets.now }
{
    Links {
        service: linked(own, above.service, targets.service),
        route: linked(own, above.route, targets.route),
        consumer: linked(own, above.consumer, targets.consumer),
    }
}

fn linked(own: Id, above: Option<Id>, target: Target) -> Option<Id>
    ensures { result ≡ linked own above target }
{
    match above {
        Some(id) => Some(id),
        None => target_id(own, target),
    }
}

fn target_id(own: Id, target: Target) -> Option<Id>
    ensures { result ≡ target_id own target }
{
    match target {
        Target::Unset => None,
        Target::Missing => Some(own),
        Target::Row(id) => Some(id),
    }
}

/// The rows that a row must name: its parent, and the consumer of a present credential or membership.
pub fn fixed_links(above: &Links, present: Option<RowRef<'_>>) -> Links
    ensures { result ≡ fixed_links above.now (option_map row_at present.entry) }
{
    match present {
        Some(row) => with_owner(above, owner_of(&row)),
        None => with_owner(above, None),
    }
}

fn with_owner(above: &Links, owner: Option<Id>) -> Links
    ensures { result ≡ record above.now { consumer = option_or above.now.consumer owner } }
{
    Links {
        service: above.service,
        route: above.route,
        consumer: match above.consumer {
            Some(id) => Some(id),
            None => owner,
        },
    }
}

/// The field in which the body names another row than the one that it must name.
pub fn contradicted_field(fixed: &Links, targets: &Targets) -> Option<ParentField>
    ensures { result ≡ contradicted_field fixed.now targets.now }
{
    if contradicts(fixed.consumer, targets.consumer) {
        return Some(ParentField::Consumer);
    }
    if contradicts(fixed.route, targets.route) {
        return Some(ParentField::Route);
    }
    if contradicts(fixed.service, targets.service) {
        return Some(ParentField::Service);
    }
    None
}

fn contradicts(fixed: Option<Id>, target: Target) -> bool
    ensures { result ≡ contradicts fixed target }
{
    match fixed {
        Some(fixed) => match target {
            Target::Unset => false,
            Target::Missing => true,
            Target::Row(id) => id != fixed,
        },
        None => false,
    }
}

/// The rows that a row names.
pub fn links_of(row: &Entity) -> Links
    ensures { result ≡ links_of row.now }
{
    match row {
        Entity::Service(_) => no_links(),
        Entity::Route(route) => Links {
            service: Some(route.service),
            route: None,
            consumer: None,
        },
        Entity::Consumer(_) => no_links(),
        Entity::KeyCred(cred) => of_consumer(cred.consumer),
        Entity::BasicCred(cred) => of_consumer(cred.consumer),
        Entity::Acl(membership) => of_consumer(membership.consumer),
        Entity::Plugin(plugin) => Links {
            service: plugin.scope.service,
            route: plugin.scope.route,
            consumer: plugin.scope.consumer,
        },
    }
}

fn of_consumer(id: Id) -> Links
    ensures { result ≡ record { service = None; route = None; consumer = Some id } }
{
    Links {
        service: None,
        route: None,
        consumer: Some(id),
    }
}

/// The first field, in byte order, in which a finished row names a row that isn't there.
pub fn dangling_field(
    rows: &Rows,
    above: &Links,
    targets: &Targets,
    named: &Links,
) -> Option<&'static str>
    ensures { option_map (λ field. field.now) result ≡ dangling_field rows.now above.now targets.now named.now }
{
    if is_dangling(
        rows,
        Kind::Consumer,
        above.consumer,
        targets.consumer,
        named.consumer,
    ) {
        return Some("consumer");
    }
    if is_dangling(rows, Kind::Route, above.route, targets.route, named.route) {
        return Some("route");
    }
    if is_dangling(
        rows,
        Kind::Service,
        above.service,
        targets.service,
        named.service,
    ) {
        return Some("service");
    }
    None
}

fn is_dangling(
    rows: &Rows,
    kind: Kind,
    above: Option<Id>,
    target: Target,
    named: Option<Id>,
) -> bool
    ensures { result ≡ is_dangling kind rows.now above target named }
{
    match named {
        Some(id) => is_missing(above, target) || !rows.contains(kind, id),
        None => false,
    }
}

fn is_missing(above: Option<Id>, target: Target) -> bool
    ensures { result ≡ is_missing above target }
{
    match above {
        Some(_) => false,
        None => match target {
            Target::Unset => false,
            Target::Missing => true,
            Target::Row(_) => false,
        },
    }
}
