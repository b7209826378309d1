//! The rows as they stand before a body sets anything: the old one, or a new one with the defaults of
//! the table of its fields.

ghost use Rattle.std.specs.Prelude.{◌≡◌, IfOk};
ghost use Rattle.serde_json.specs.View.{view};
ghost use Rattle.kg_row_types.specs.Entities.{kind_of};
ghost use Rattle.kg_row_types.specs.declared.entity.Entity.TheVariants as row;
ghost use Rattle.kg_row_making.specs.Bases.{base_of};
ghost use Rattle.kg_row_making.specs.RowsBefore.{acl_before, basic_before, consumer_before, key_before, new_acl, new_basic, new_consumer, new_key, new_plugin, new_route, new_service, plugin_before, route_before, row_before, service_before};

use crate::base::{Base, Stamps};
use crate::defaults::default_config;
use kg_bodies::fields::named_plugin;
use kg_field_tables::default_value::{default_flag, default_https, default_integer, default_whole};
use kg_field_tables::table::Table;
use kg_row_types::consumer::{AclRow, BasicCred, Consumer, KeyCred};
use kg_row_types::entity::{Entity, Kind};
use kg_row_types::plugin::{PluginName, PluginRow, Scope};
use kg_row_types::route::Route;
use kg_row_types::service::Service;
use kg_text::{List, NoMemory, Text, TryClone};
use serde_json::Value;
use std::alloc::Global;

/// The row of a kind as it stands before the body sets anything.
pub fn row_before(
    alloc: Global,
    kind: Kind,
    body: &Value,
    base: &Base<'_>,
) -> Result<Entity, NoMemory>
    ensures before { IfOk result (λ made. made ≡ row_before kind (view body.now) (base_of base.now)) }
    ensures kind { IfOk result (λ made. kind_of made ≡ kind) }
{
    let stamps = base.stamps(body);
    match kind {
        Kind::Service => service_before(alloc, base, stamps),
        Kind::Route => route_before(alloc, base, stamps),
        Kind::Consumer => consumer_before(alloc, base, stamps),
        Kind::KeyCred => key_before(alloc, base, stamps),
        Kind::BasicCred => basic_before(alloc, base, stamps),
        Kind::Acl => acl_before(alloc, base, stamps),
        Kind::Plugin => plugin_before(alloc, base, stamps, body),
    }
}

// The old service, changed now; or a new one.
fn service_before(alloc: Global, base: &Base<'_>, stamps: Stamps) -> Result<Entity, NoMemory>
    ensures { IfOk result (λ made. made ≡ row.Service (service_before (base_of base.now) stamps)) }
{
    match base.service() {
        Some(old) => changed_service(alloc, old, stamps.updated_at),
        None => new_service(alloc, base, stamps),
    }
}

fn changed_service(alloc: Global, old: &Service, updated_at: u64) -> Result<Entity, NoMemory>
    ensures { IfOk result (λ made. made ≡ row.Service (record old.now { updated_at = updated_at })) }
{
    let mut service = old.try_clone(alloc)?;
    service.updated_at = updated_at;
    Ok(Entity::Service(service))
}

fn new_service(alloc: Global, base: &Base<'_>, stamps: Stamps) -> Result<Entity, NoMemory>
    ensures { IfOk result (λ made. made ≡ row.Service (new_service (base_of base.now) stamps)) }
{
    let name = base.given_text(alloc)?;
    Ok(Entity::Service(Service {
        id: stamps.id,
        name,
        host: Text::new(alloc),
        port: default_whole(Table::Service, "port") as u16,
        path: None,
        retries: default_whole(Table::Service, "retries") as u16,
        enabled: default_flag(Table::Service, "enabled"),
        created_at: stamps.created_at,
        updated_at: stamps.updated_at,
    }))
}

// The old route, changed now; or a new one.
fn route_before(alloc: Global, base: &Base<'_>, stamps: Stamps) -> Result<Entity, NoMemory>
    ensures { IfOk result (λ made. made ≡ row.Route (route_before (base_of base.now) stamps)) }
{
    match base.route() {
        Some(old) => changed_route(alloc, old, stamps.updated_at),
        None => new_route(alloc, base, stamps),
    }
}

fn changed_route(alloc: Global, old: &Route, updated_at: u64) -> Result<Entity, NoMemory>
    ensures { IfOk result (λ made. made ≡ row.Route (record old.now { updated_at = updated_at })) }
{
    let mut route = old.try_clone(alloc)?;
    route.updated_at = updated_at;
    Ok(Entity::Route(route))
}

fn new_route(alloc: Global, base: &Base<'_>, stamps: Stamps) -> Result<Entity, NoMemory>
    ensures { IfOk result (λ made. made ≡ row.Route (new_route (base_of base.now) stamps)) }
{
    let name = base.given_text(alloc)?;
    Ok(Entity::Route(Route {
        id: stamps.id,
        name,
        service: stamps.id,
        https: default_https(Table::Route, "protocols"),
        methods: List::new(alloc),
        hosts: List::new(alloc),
        paths: List::new(alloc),
        headers: List::new(alloc),
        regex_priority: default_integer(Table::Route, "regex_priority") as i32,
        strip_path: default_flag(Table::Route, "strip_path"),
        preserve_host: default_flag(Table::Route, "preserve_host"),
        created_at: stamps.created_at,
        updated_at: stamps.updated_at,
    }))
}

// The old consumer, changed now; or a new one.
fn consumer_before(alloc: Global, base: &Base<'_>, stamps: Stamps) -> Result<Entity, NoMemory>
    ensures { IfOk result (λ made. made ≡ row.Consumer (consumer_before (base_of base.now) stamps)) }
{
    match base.consumer() {
        Some(old) => changed_consumer(alloc, old, stamps.updated_at),
        None => new_consumer(alloc, base, stamps),
    }
}

fn changed_consumer(alloc: Global, old: &Consumer, updated_at: u64) -> Result<Entity, NoMemory>
    ensures { IfOk result (λ made. made ≡ row.Consumer (record old.now { updated_at = updated_at })) }
{
    let mut consumer = old.try_clone(alloc)?;
    consumer.updated_at = updated_at;
    Ok(Entity::Consumer(consumer))
}

fn new_consumer(alloc: Global, base: &Base<'_>, stamps: Stamps) -> Result<Entity, NoMemory>
    ensures { IfOk result (λ made. made ≡ row.Consumer (new_consumer (base_of base.now) stamps)) }
{
    let username = base.given_text(alloc)?;
    Ok(Entity::Consumer(Consumer {
        id: stamps.id,
        username,
        custom_id: None,
        created_at: stamps.created_at,
        updated_at: stamps.updated_at,
    }))
}

// The old credential, or a new one.
fn key_before(alloc: Global, base: &Base<'_>, stamps: Stamps) -> Result<Entity, NoMemory>
    ensures { IfOk result (λ made. made ≡ row.KeyCred (key_before (base_of base.now) stamps)) }
{
    match base.key() {
        Some(old) => Ok(Entity::KeyCred(old.try_clone(alloc)?)),
        None => new_key(alloc, base, stamps),
    }
}

fn new_key(alloc: Global, base: &Base<'_>, stamps: Stamps) -> Result<Entity, NoMemory>
    ensures { IfOk result (λ made. made ≡ row.KeyCred (new_key (base_of base.now) stamps)) }
{
    let key = base.given_or_empty(alloc)?;
    Ok(Entity::KeyCred(KeyCred {
        id: stamps.id,
        consumer: stamps.id,
        key,
        created_at: stamps.created_at,
    }))
}

// The old credential, or a new one.
fn basic_before(alloc: Global, base: &Base<'_>, stamps: Stamps) -> Result<Entity, NoMemory>
    ensures { IfOk result (λ made. made ≡ row.BasicCred (basic_before (base_of base.now) stamps)) }
{
    match base.basic() {
        Some(old) => Ok(Entity::BasicCred(old.try_clone(alloc)?)),
        None => new_basic(alloc, base, stamps),
    }
}

fn new_basic(alloc: Global, base: &Base<'_>, stamps: Stamps) -> Result<Entity, NoMemory>
    ensures { IfOk result (λ made. made ≡ row.BasicCred (new_basic (base_of base.now) stamps)) }
{
    let username = base.given_or_empty(alloc)?;
    Ok(Entity::BasicCred(BasicCred {
        id: stamps.id,
        consumer: stamps.id,
        username,
        hash: Text::new(alloc),
        created_at: stamps.created_at,
    }))
}

// The old membership, or a new one.
fn acl_before(alloc: Global, base: &Base<'_>, stamps: Stamps) -> Result<Entity, NoMemory>
    ensures { IfOk result (λ made. made ≡ row.Acl (acl_before (base_of base.now) stamps)) }
{
    match base.acl() {
        Some(old) => Ok(Entity::Acl(old.try_clone(alloc)?)),
        None => new_acl(alloc, base, stamps),
    }
}

fn new_acl(alloc: Global, base: &Base<'_>, stamps: Stamps) -> Result<Entity, NoMemory>
    ensures { IfOk result (λ made. made ≡ row.Acl (new_acl (base_of base.now) stamps)) }
{
    let group = base.given_or_empty(alloc)?;
    Ok(Entity::Acl(AclRow {
        id: stamps.id,
        consumer: stamps.id,
        group,
        created_at: stamps.created_at,
    }))
}

// The old plugin, or a new one.
fn plugin_before(
    alloc: Global,
    base: &Base<'_>,
    stamps: Stamps,
    body: &Value,
) -> Result<Entity, NoMemory>
    ensures { IfOk result (λ made. made ≡ row.Plugin (plugin_before (base_of base.now) stamps (view body.now))) }
{
    match base.plugin() {
        Some(old) => Ok(Entity::Plugin(old.try_clone(alloc)?)),
        None => new_plugin(alloc, stamps, body),
    }
}

// A new plugin with the config that its name has by default.
fn new_plugin(alloc: Global, stamps: Stamps, body: &Value) -> Result<Entity, NoMemory>
    ensures { IfOk result (λ made. made ≡ row.Plugin (new_plugin stamps (view body.now))) }
{
    let plugin = named_plugin(body);
    let config = default_config(alloc, plugin.unwrap_or(PluginName::Cors))?;
    Ok(Entity::Plugin(PluginRow {
        id: stamps.id,
        scope: Scope {
            service: None,
            route: None,
            consumer: None,
        },
        enabled: default_flag(Table::Plugin(plugin), "enabled"),
        config,
        created_at: stamps.created_at,
    }))
}
