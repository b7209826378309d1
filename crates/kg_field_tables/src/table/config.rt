//! The fields of plugins' configs.

ghost use Rattle.std.specs.Prelude.{◌≡◌, ◌≤◌, codes};
ghost use Rattle.kg_row_types.specs.declared.plugin.PluginName.TheVariants as plugin;
ghost use Rattle.kg_field_tables.specs.FieldTables.{field_of, header_text_kind};
ghost use Rattle.kg_field_tables.specs.Depths.{depth_of};

use crate::constant::{Constant, Phrase};
use crate::default_value::DefaultValue::Unset;
use crate::default_value::{DefaultValue, TextList};
use crate::shape::Shape;
use crate::table::{EditList, Field, Table};
use kg_field_rules::text_kind::{Choice, TextKind};
use kg_row_types::config::{LimitBy, SizeUnit};
use kg_row_types::plugin::PluginName;

// The most that counts, sizes and times can be.
const MOST: u64 = 1_000_000_000;

/// The field of this name in the config of a plugin.
pub fn config_table_field(plugin: PluginName, name: &str) -> Field
    ensures field { result ≡ field_of (Table.Config plugin) name.now }
    ensures depth { depth_of result ≤ 1 }
{
    match plugin {
        PluginName::Cors => cors_field(name),
        PluginName::KeyAuth => key_auth_field(name),
        PluginName::BasicAuth => basic_auth_field(name),
        PluginName::IpRestriction => ip_restriction_field(name),
        PluginName::RequestSizeLimiting => size_limit_field(name),
        PluginName::Acl => acl_config_field(name),
        PluginName::RateLimiting => rate_limiting_field(name),
        PluginName::RequestTransformer => request_transformer_field(name),
        PluginName::ResponseTransformer => response_transformer_field(name),
        PluginName::RequestTermination => termination_field(name),
    }
}

fn cors_field(name: &str) -> Field
    ensures field { result ≡ field_of (Table.Config plugin.Cors) name.now }
    ensures depth { depth_of result ≡ 0 }
{
    match name {
        "origins" | "headers" | "exposed_headers" => Field::Judged(
            Shape::Texts(TextKind::FreeText),
            Unset,
        ),
        "methods" => Field::Judged(
            Shape::Texts(TextKind::Method),
            DefaultValue::Texts(TextList::Methods),
        ),
        "credentials" | "preflight_continue" => Field::Judged(
            Shape::Flag,
            DefaultValue::Flag(false),
        ),
        "max_age" => Field::Judged(Shape::Whole { low: 0, high: MOST }, Unset),
        "private_network" => Field::Fixed(Constant::Bit(false)),
        _ => Field::Unknown,
    }
}

fn key_auth_field(name: &str) -> Field
    ensures field { result ≡ field_of (Table.Config plugin.KeyAuth) name.now }
    ensures depth { depth_of result ≡ 0 }
{
    match name {
        "key_names" => Field::Judged(
            Shape::Texts(TextKind::Token),
            DefaultValue::Texts(TextList::KeyNames),
        ),
        "key_in_header" | "key_in_query" => Field::Judged(Shape::Flag, DefaultValue::Flag(true)),
        "hide_credentials" => Field::Judged(Shape::Flag, DefaultValue::Flag(false)),
        "anonymous" => Field::Judged(Shape::Text(TextKind::Anonymous), Unset),
        "key_in_body" => Field::Fixed(Constant::Bit(false)),
        "run_on_preflight" => Field::Fixed(Constant::Bit(true)),
        "realm" => Field::Fixed(Constant::Nothing),
        _ => Field::Unknown,
    }
}

fn basic_auth_field(name: &str) -> Field
    ensures field { result ≡ field_of (Table.Config plugin.BasicAuth) name.now }
    ensures depth { depth_of result ≡ 0 }
{
    match name {
        "hide_credentials" => Field::Judged(Shape::Flag, DefaultValue::Flag(false)),
        "anonymous" => Field::Judged(Shape::Text(TextKind::Anonymous), Unset),
        "realm" => Field::Fixed(Constant::Phrase(Phrase::Service)),
        _ => Field::Unknown,
    }
}

fn ip_restriction_field(name: &str) -> Field
    ensures field { result ≡ field_of (Table.Config plugin.IpRestriction) name.now }
    ensures depth { depth_of result ≡ 0 }
{
    match name {
        "allow" | "deny" => Field::Judged(Shape::Texts(TextKind::AddressBlock), Unset),
        "status" | "message" => Field::Fixed(Constant::Nothing),
        _ => Field::Unknown,
    }
}

fn size_limit_field(name: &str) -> Field
    ensures field { result ≡ field_of (Table.Config plugin.RequestSizeLimiting) name.now }
    ensures depth { depth_of result ≡ 0 }
{
    match name {
        "allowed_payload_size" => Field::Judged(
            Shape::Whole { low: 1, high: MOST },
            DefaultValue::Whole(128),
        ),
        "size_unit" => Field::Judged(
            Shape::OneOf(Choice::SizeUnit),
            DefaultValue::SizeUnit(SizeUnit::Megabytes),
        ),
        "require_content_length" => Field::Fixed(Constant::Bit(false)),
        _ => Field::Unknown,
    }
}

fn acl_config_field(name: &str) -> Field
    ensures field { result ≡ field_of (Table.Config plugin.Acl) name.now }
    ensures depth { depth_of result ≡ 0 }
{
    match name {
        "allow" | "deny" => Field::Judged(Shape::Texts(TextKind::FreeText), Unset),
        "hide_groups_header" => Field::Judged(Shape::Flag, DefaultValue::Flag(false)),
        "always_use_authenticated_groups" | "include_consumer_groups" => {
            Field::Fixed(Constant::Bit(false))
        }
        _ => Field::Unknown,
    }
}

fn rate_limiting_field(name: &str) -> Field
    ensures field { result ≡ field_of (Table.Config plugin.RateLimiting) name.now }
    ensures depth { depth_of result ≡ 0 }
{
    match name {
        "second" | "minute" | "hour" | "day" => {
            Field::Judged(Shape::Whole { low: 1, high: MOST }, Unset)
        }
        "month" | "year" => Field::Fixed(Constant::Nothing),
        "limit_by" => Field::Judged(
            Shape::OneOf(Choice::LimitBy),
            DefaultValue::LimitBy(LimitBy::Consumer),
        ),
        "policy" => Field::Fixed(Constant::Phrase(Phrase::Local)),
        "hide_client_headers" => Field::Judged(Shape::Flag, DefaultValue::Flag(false)),
        "error_code" => Field::Fixed(Constant::Number(429)),
        "error_message" => Field::Fixed(Constant::Phrase(Phrase::LimitExceeded)),
        "fault_tolerant" => Field::Dropped,
        _ => Field::Unknown,
    }
}

fn request_transformer_field(name: &str) -> Field
    ensures field { result ≡ field_of (Table.Config plugin.RequestTransformer) name.now }
    ensures depth { depth_of result ≤ 1 }
{
    match name {
        "remove" => Field::Inside(Table::RequestEdits(EditList::Remove)),
        "rename" => Field::Inside(Table::RequestEdits(EditList::Rename)),
        "replace" => Field::Inside(Table::RequestEdits(EditList::Replace)),
        "add" => Field::Inside(Table::RequestEdits(EditList::Add)),
        "append" => Field::Inside(Table::RequestEdits(EditList::Append)),
        "http_method" => Field::Fixed(Constant::Nothing),
        _ => Field::Unknown,
    }
}

fn response_transformer_field(name: &str) -> Field
    ensures field { result ≡ field_of (Table.Config plugin.ResponseTransformer) name.now }
    ensures depth { depth_of result ≤ 1 }
{
    match name {
        "remove" => Field::Inside(Table::ResponseEdits(EditList::Remove)),
        "rename" => Field::Inside(Table::ResponseEdits(EditList::Rename)),
        "replace" => Field::Inside(Table::ResponseEdits(EditList::Replace)),
        "add" => Field::Inside(Table::ResponseEdits(EditList::Add)),
        "append" => Field::Inside(Table::ResponseEdits(EditList::Append)),
        _ => Field::Unknown,
    }
}

fn termination_field(name: &str) -> Field
    ensures field { result ≡ field_of (Table.Config plugin.RequestTermination) name.now }
    ensures depth { depth_of result ≡ 0 }
{
    match name {
        "status_code" => Field::Judged(
            Shape::Whole {
                low: 200,
                high: 599,
            },
            DefaultValue::Whole(503),
        ),
        "message" | "content_type" => Field::Judged(Shape::Text(TextKind::FreeText), Unset),
        "body" => Field::Judged(Shape::Text(TextKind::LongText), Unset),
        "trigger" => Field::Fixed(Constant::Nothing),
        "echo" => Field::Fixed(Constant::Bit(false)),
        _ => Field::Unknown,
    }
}

fn header_text_kind(edits: EditList) -> TextKind
    ensures { result ≡ header_text_kind edits }
{
    match edits {
        EditList::Remove => TextKind::HeaderEdit,
        EditList::Rename => TextKind::HeaderRename,
        EditList::Replace => TextKind::HeaderEdit,
        EditList::Add => TextKind::HeaderEdit,
        EditList::Append => TextKind::HeaderEdit,
    }
}

/// The field of this name in an object of lists of a request-transformer.
pub fn request_edits_field(edits: EditList, name: &str) -> Field
    ensures field { result ≡ field_of (Table.RequestEdits edits) name.now }
    ensures depth { depth_of result ≡ 0 }
{
    match name {
        "headers" => Field::Judged(Shape::Texts(header_text_kind(edits)), Unset),
        "querystring" => Field::Judged(Shape::Texts(TextKind::Edit), Unset),
        "body" => Field::Fixed(Constant::Nothing),
        "uri" => uri_field(edits),
        _ => Field::Unknown,
    }
}

// Only a replacement can speak of the uri.
fn uri_field(edits: EditList) -> Field
    ensures field { result ≡ field_of (Table.RequestEdits edits) (codes "uri") }
    ensures depth { depth_of result ≡ 0 }
{
    match edits {
        EditList::Replace => Field::Fixed(Constant::Nothing),
        EditList::Remove => Field::Unknown,
        EditList::Rename => Field::Unknown,
        EditList::Add => Field::Unknown,
        EditList::Append => Field::Unknown,
    }
}

/// The field of this name in an object of lists of a response-transformer.
pub fn response_edits_field(edits: EditList, name: &str) -> Field
    ensures field { result ≡ field_of (Table.ResponseEdits edits) name.now }
    ensures depth { depth_of result ≡ 0 }
{
    match name {
        "headers" => Field::Judged(Shape::Texts(header_text_kind(edits)), Unset),
        "json" => Field::Fixed(Constant::Nothing),
        _ => Field::Unknown,
    }
}
