//! The fields of every object that a body can have.

mod config;

ghost use Rattle.std.specs.Prelude.{◌≡◌, ◌≤◌};
ghost use Rattle.kg_field_tables.specs.FieldTables.{config_field, field_among, field_of, other_route_fields, other_service_fields, row_fields, table_of};
ghost use Rattle.kg_field_tables.specs.Depths.{depth_of, levels};

use crate::constant::{Constant, Phrase};
use crate::default_value::DefaultValue;
use crate::default_value::DefaultValue::Unset;
use crate::reference::Mention;
use crate::shape::Shape;
use crate::table::config::{config_table_field, request_edits_field, response_edits_field};
use kg_field_rules::text_kind::{Choice, TextKind};
use kg_row_types::entity::Kind;
use kg_row_types::plugin::PluginName;

/// The fields of one object. What hangs on the object's place is told by the variant.
#[derive(Clone, Copy)]
pub enum Table {
    Service,
    Route,
    Consumer,
    KeyCred,
    BasicCred,
    Acl,
    /// A plugin, with the name that the body gives.
    Plugin(Option<PluginName>),
    /// The config of a plugin.
    Config(PluginName),
    /// One object of lists of a request-transformer.
    RequestEdits(EditList),
    /// One object of lists of a response-transformer.
    ResponseEdits(EditList),
}

/// The objects of lists of a transformer.
#[derive(Clone, Copy)]
pub enum EditList {
    Remove,
    Rename,
    Replace,
    Add,
    Append,
}

/// What is taken under a name.
#[derive(Clone, Copy)]
pub enum Field {
    /// Nothing: there is no such field.
    Unknown,
    /// Any value, which is ignored.
    Dropped,
    /// One value alone.
    Fixed(Constant),
    /// What has this shape. A new row has this value where its body sets none.
    Judged(Shape, DefaultValue),
    /// An object with a table of its own.
    Inside(Table),
}

/// The table of a kind. A plugin's hangs on the name that the body gives.
pub fn table_of(kind: Kind, plugin: Option<PluginName>) -> Table
    ensures { result ≡ table_of kind plugin }
{
    match kind {
        Kind::Service => Table::Service,
        Kind::Route => Table::Route,
        Kind::Consumer => Table::Consumer,
        Kind::KeyCred => Table::KeyCred,
        Kind::BasicCred => Table::BasicCred,
        Kind::Acl => Table::Acl,
        Kind::Plugin => Table::Plugin(plugin),
    }
}

/// The field of this name.
pub fn field_of(table: Table, name: &str) -> Field
    ensures field { result ≡ field_of table name.now }
    ensures depth { depth_of result ≤ levels table }
{
    match table {
        Table::Service => service_field(name),
        Table::Route => route_field(name),
        Table::Consumer => consumer_field(name),
        Table::KeyCred => key_cred_field(name),
        Table::BasicCred => basic_cred_field(name),
        Table::Acl => acl_field(name),
        Table::Plugin(plugin) => plugin_field(plugin, name),
        Table::Config(plugin) => config_table_field(plugin, name),
        Table::RequestEdits(edits) => request_edits_field(edits, name),
        Table::ResponseEdits(edits) => response_edits_field(edits, name),
    }
}

// The id of a row, and its times, which the clock tells.
fn row_field(name: &str) -> Field
    ensures field { result ≡ field_among row_fields name.now }
    ensures depth { depth_of result ≡ 0 }
{
    match name {
        "id" => Field::Judged(Shape::Text(TextKind::Id), Unset),
        "created_at" | "updated_at" => Field::Dropped,
        _ => Field::Unknown,
    }
}

fn service_field(name: &str) -> Field
    ensures field { result ≡ field_of Table.Service name.now }
    ensures depth { depth_of result ≡ 0 }
{
    match name {
        "name" => Field::Judged(Shape::Text(TextKind::Name), Unset),
        "protocol" => Field::Fixed(Constant::Phrase(Phrase::Http)),
        "host" => Field::Judged(Shape::Text(TextKind::Host), Unset),
        "port" => Field::Judged(
            Shape::Whole {
                low: 1,
                high: 65_535,
            },
            DefaultValue::Whole(80),
        ),
        "path" => Field::Judged(Shape::Text(TextKind::Path), Unset),
        "retries" => Field::Judged(
            Shape::Whole {
                low: 0,
                high: 32_767,
            },
            DefaultValue::Whole(5),
        ),
        "enabled" => Field::Judged(Shape::Flag, DefaultValue::Flag(true)),
        "url" => Field::Judged(Shape::Text(TextKind::Url), Unset),
        _ => other_service_field(name),
    }
}

// Tags, timeouts and certificates, which a service has no use for. A function of its own, since a match over
// many texts takes the prover long.
fn other_service_field(name: &str) -> Field
    ensures field { result ≡ field_among other_service_fields name.now }
    ensures depth { depth_of result ≡ 0 }
{
    match name {
        "connect_timeout"
        | "read_timeout"
        | "write_timeout"
        | "tags"
        | "ca_certificates"
        | "client_certificate"
        | "tls_verify"
        | "tls_verify_depth" => Field::Dropped,
        _ => row_field(name),
    }
}

fn route_field(name: &str) -> Field
    ensures field { result ≡ field_of Table.Route name.now }
    ensures depth { depth_of result ≡ 0 }
{
    match name {
        "name" => Field::Judged(Shape::Text(TextKind::Name), Unset),
        "service" => Field::Judged(Shape::Reference(Mention::Name), Unset),
        "protocols" => Field::Judged(Shape::Protocols, DefaultValue::Https(true)),
        "methods" => Field::Judged(Shape::Texts(TextKind::Method), Unset),
        "hosts" => Field::Judged(Shape::Texts(TextKind::RouteHost), Unset),
        "paths" => Field::Judged(Shape::Texts(TextKind::RoutePath), Unset),
        "headers" => Field::Judged(Shape::Headers, Unset),
        "regex_priority" => Field::Judged(
            Shape::Integer {
                low: -1_000_000,
                high: 1_000_000,
            },
            DefaultValue::Integer(0),
        ),
        "strip_path" => Field::Judged(Shape::Flag, DefaultValue::Flag(true)),
        "preserve_host" => Field::Judged(Shape::Flag, DefaultValue::Flag(false)),
        _ => other_route_field(name),
    }
}

// How paths are joined, what other protocols ask for, tags and buffers. Apart as those of a service are.
fn other_route_field(name: &str) -> Field
    ensures field { result ≡ field_among other_route_fields name.now }
    ensures depth { depth_of result ≡ 0 }
{
    match name {
        "path_handling" => Field::Fixed(Constant::Phrase(Phrase::V0)),
        "snis" | "sources" | "destinations" => Field::Fixed(Constant::Nothing),
        "tags" | "request_buffering" | "response_buffering" | "https_redirect_status_code" => {
            Field::Dropped
        }
        _ => row_field(name),
    }
}

fn consumer_field(name: &str) -> Field
    ensures field { result ≡ field_of Table.Consumer name.now }
    ensures depth { depth_of result ≡ 0 }
{
    match name {
        "username" => Field::Judged(Shape::Text(TextKind::Username), Unset),
        "custom_id" => Field::Judged(Shape::Text(TextKind::FreeText), Unset),
        "tags" => Field::Dropped,
        _ => row_field(name),
    }
}

fn key_cred_field(name: &str) -> Field
    ensures field { result ≡ field_of Table.KeyCred name.now }
    ensures depth { depth_of result ≡ 0 }
{
    match name {
        "consumer" => Field::Judged(Shape::Reference(Mention::Username), Unset),
        "key" => Field::Judged(Shape::Text(TextKind::FreeText), Unset),
        "ttl" => Field::Fixed(Constant::Nothing),
        "tags" => Field::Dropped,
        _ => row_field(name),
    }
}

fn basic_cred_field(name: &str) -> Field
    ensures field { result ≡ field_of Table.BasicCred name.now }
    ensures depth { depth_of result ≡ 0 }
{
    match name {
        "consumer" => Field::Judged(Shape::Reference(Mention::Username), Unset),
        "username" | "password" => Field::Judged(Shape::Text(TextKind::FreeText), Unset),
        "tags" => Field::Dropped,
        _ => row_field(name),
    }
}

fn acl_field(name: &str) -> Field
    ensures field { result ≡ field_of Table.Acl name.now }
    ensures depth { depth_of result ≡ 0 }
{
    match name {
        "consumer" => Field::Judged(Shape::Reference(Mention::Username), Unset),
        "group" => Field::Judged(Shape::Text(TextKind::FreeText), Unset),
        "tags" => Field::Dropped,
        _ => row_field(name),
    }
}

fn plugin_field(plugin: Option<PluginName>, name: &str) -> Field
    ensures field { result ≡ field_of (Table.Plugin plugin) name.now }
    ensures depth { depth_of result ≤ 2 }
{
    match name {
        "name" => Field::Judged(Shape::OneOf(Choice::Plugin), Unset),
        "service" | "route" => Field::Judged(Shape::Reference(Mention::Name), Unset),
        "consumer" => Field::Judged(Shape::Reference(Mention::Username), Unset),
        "enabled" => Field::Judged(Shape::Flag, DefaultValue::Flag(true)),
        "config" => config_field(plugin),
        "ordering" => Field::Fixed(Constant::Nothing),
        "protocols" | "tags" | "instance_name" => Field::Dropped,
        _ => row_field(name),
    }
}

/// The config's field: where the plugin isn't known, an object of any kind.
pub fn config_field(plugin: Option<PluginName>) -> Field
    ensures field { result ≡ config_field plugin }
    ensures depth { depth_of result ≤ 2 }
{
    match plugin {
        Some(name) => Field::Inside(Table::Config(name)),
        None => Field::Judged(Shape::Object, Unset),
    }
}
