//! Rows as objects of JSON (Kong Admin API, the entities' pages).

ghost use Rattle.std.specs.Prelude.{◌≡◌, IfOk, OnOk, drop, take};
ghost use Rattle.serde_json.specs.View.{members_view, view};
ghost use Rattle.kg_shown_rows.specs.Puts.{with_members};
ghost use Rattle.kg_shown_rows.specs.Shown.{acl_members, basic_members, consumer_members, key_members, plugin_members, route_members, row_members, service_members, shown};

mod config;
mod parts;

use crate::show::config::config_object;
use crate::show::parts::{
    put_flag, put_headers, put_id, put_link, put_number, put_protocols, put_reference, put_str,
    put_text, put_texts,
};
use kg_row_types::consumer::{AclRow, BasicCred, Consumer, KeyCred};
use kg_row_types::entity::Entity;
use kg_row_types::plugin::PluginRow;
use kg_row_types::route::Route;
use kg_row_types::service::Service;
use kg_text::NoMemory;
use serde_json::{Map, Value, put};
use std::alloc::{AllocError, Global};

/// The row as an object of JSON, as the Admin API shows it. What isn't set is null; members that have
/// one value only are left out, but for `protocol` and `path_handling`; `password` is what is stored of
/// it. The members are in byte order of their names.
pub fn show_entity(alloc: Global, row: &Entity) -> Result<Value, NoMemory>
    ensures { IfOk result (λ v. view v ≡ shown row.now) }
{
    Ok(row_object(alloc, row)?)
}

#[tactic(auto, using(crate::proofs::InByteOrder::row_in_order))]
fn row_object(alloc: Global, row: &Entity) -> Result<Value, AllocError>
    ensures { IfOk result (λ v. view v ≡ shown row.now) }
{
    let mut members = Map::new(alloc);
    put_row(alloc, &mut members, row)?;
    Ok(Value::from(members))
}

fn put_row(alloc: Global, members: &mut Map<String, Value>, row: &Entity) -> Result<(), AllocError>
    ensures { OnOk result (members_view members.new.entries ≡ with_members (row_members row.now) (members_view members.old.entries)) }
{
    match row {
        Entity::Service(service) => put_service(alloc, members, service),
        Entity::Route(route) => put_route(alloc, members, route),
        Entity::Consumer(consumer) => put_consumer(alloc, members, consumer),
        Entity::KeyCred(credential) => put_key(alloc, members, credential),
        Entity::BasicCred(credential) => put_basic(alloc, members, credential),
        Entity::Acl(row) => put_acl(alloc, members, row),
        Entity::Plugin(row) => put_plugin(alloc, members, row),
    }
}

fn put_service(
    alloc: Global,
    members: &mut Map<String, Value>,
    service: &Service,
) -> Result<(), AllocError>
    ensures { OnOk result (members_view members.new.entries ≡ with_members (service_members service.now) (members_view members.old.entries)) }
{
    put_number(alloc, members, "created_at", service.created_at)?;
    put_flag(alloc, members, "enabled", service.enabled)?;
    put_str(alloc, members, "host", service.host.as_str())?;
    put_id(alloc, members, "id", service.id)?;
    put_text(alloc, members, "name", &service.name)?;
    put_text(alloc, members, "path", &service.path)?;
    put_number(alloc, members, "port", u64::from(service.port))?;
    put_str(alloc, members, "protocol", "http")?;
    put_number(alloc, members, "retries", u64::from(service.retries))?;
    put_number(alloc, members, "updated_at", service.updated_at)
}

fn put_route(
    alloc: Global,
    members: &mut Map<String, Value>,
    route: &Route,
) -> Result<(), AllocError>
    ensures { OnOk result (members_view members.new.entries ≡ with_members (route_members route.now) (members_view members.old.entries)) }
{
    // in two parts: a short proof
    put_front_of_route(alloc, members, route)?;
    put_rest_of_route(alloc, members, route)
}

fn put_front_of_route(
    alloc: Global,
    members: &mut Map<String, Value>,
    route: &Route,
) -> Result<(), AllocError>
    ensures { OnOk result (members_view members.new.entries ≡ with_members (take 7 (route_members route.now)) (members_view members.old.entries)) }
{
    put_number(alloc, members, "created_at", route.created_at)?;
    put_headers(alloc, members, "headers", &route.headers)?;
    put_texts(alloc, members, "hosts", &route.hosts)?;
    put_id(alloc, members, "id", route.id)?;
    put_texts(alloc, members, "methods", &route.methods)?;
    put_text(alloc, members, "name", &route.name)?;
    put_str(alloc, members, "path_handling", "v0")
}

fn put_rest_of_route(
    alloc: Global,
    members: &mut Map<String, Value>,
    route: &Route,
) -> Result<(), AllocError>
    ensures { OnOk result (members_view members.new.entries ≡ with_members (drop 7 (route_members route.now)) (members_view members.old.entries)) }
{
    put_texts(alloc, members, "paths", &route.paths)?;
    put_flag(alloc, members, "preserve_host", route.preserve_host)?;
    put_protocols(alloc, members, "protocols", route.https)?;
    put(
        members,
        alloc,
        "regex_priority",
        Value::from(route.regex_priority),
    )?;
    put_reference(alloc, members, "service", route.service)?;
    put_flag(alloc, members, "strip_path", route.strip_path)?;
    put_number(alloc, members, "updated_at", route.updated_at)
}

fn put_consumer(
    alloc: Global,
    members: &mut Map<String, Value>,
    consumer: &Consumer,
) -> Result<(), AllocError>
    ensures { OnOk result (members_view members.new.entries ≡ with_members (consumer_members consumer.now) (members_view members.old.entries)) }
{
    put_number(alloc, members, "created_at", consumer.created_at)?;
    put_text(alloc, members, "custom_id", &consumer.custom_id)?;
    put_id(alloc, members, "id", consumer.id)?;
    put_number(alloc, members, "updated_at", consumer.updated_at)?;
    put_text(alloc, members, "username", &consumer.username)
}

fn put_key(
    alloc: Global,
    members: &mut Map<String, Value>,
    credential: &KeyCred,
) -> Result<(), AllocError>
    ensures { OnOk result (members_view members.new.entries ≡ with_members (key_members credential.now) (members_view members.old.entries)) }
{
    put_reference(alloc, members, "consumer", credential.consumer)?;
    put_number(alloc, members, "created_at", credential.created_at)?;
    put_id(alloc, members, "id", credential.id)?;
    put_str(alloc, members, "key", credential.key.as_str())
}

fn put_basic(
    alloc: Global,
    members: &mut Map<String, Value>,
    credential: &BasicCred,
) -> Result<(), AllocError>
    ensures { OnOk result (members_view members.new.entries ≡ with_members (basic_members credential.now) (members_view members.old.entries)) }
{
    put_reference(alloc, members, "consumer", credential.consumer)?;
    put_number(alloc, members, "created_at", credential.created_at)?;
    put_id(alloc, members, "id", credential.id)?;
    put_str(alloc, members, "password", credential.hash.as_str())?;
    put_str(alloc, members, "username", credential.username.as_str())
}

fn put_acl(alloc: Global, members: &mut Map<String, Value>, row: &AclRow) -> Result<(), AllocError>
    ensures { OnOk result (members_view members.new.entries ≡ with_members (acl_members row.now) (members_view members.old.entries)) }
{
    put_reference(alloc, members, "consumer", row.consumer)?;
    put_number(alloc, members, "created_at", row.created_at)?;
    put_str(alloc, members, "group", row.group.as_str())?;
    put_id(alloc, members, "id", row.id)
}

fn put_plugin(
    alloc: Global,
    members: &mut Map<String, Value>,
    row: &PluginRow,
) -> Result<(), AllocError>
    ensures { OnOk result (members_view members.new.entries ≡ with_members (plugin_members row.now) (members_view members.old.entries)) }
{
    put(members, alloc, "config", config_object(alloc, &row.config)?)?;
    put_link(alloc, members, "consumer", row.scope.consumer)?;
    put_number(alloc, members, "created_at", row.created_at)?;
    put_flag(alloc, members, "enabled", row.enabled)?;
    put_id(alloc, members, "id", row.id)?;
    put_str(alloc, members, "name", row.config.name().as_str())?;
    put_link(alloc, members, "route", row.scope.route)?;
    put_link(alloc, members, "service", row.scope.service)
}
