//! The configs of plugins as objects of JSON (Kong's page of each plugin).

ghost use Rattle.std.specs.Prelude.{◌≡◌, IfOk, OnOk};
ghost use Rattle.serde_json.specs.View.{members_view, view};
ghost use Rattle.kg_shown_rows.specs.Puts.{with_members};
ghost use Rattle.kg_shown_rows.specs.ShownConfigs.{basic_auth_members, config_members, cors_members, groups_members, ip_restriction_members, key_auth_members, limit_text, rate_limiting_members, request_transformer_members, response_transformer_members, shown_config, size_limit_members, termination_members, unit_text};

use crate::show::parts::{
    put_edits, put_flag, put_header_edits, put_number, put_option, put_str, put_text, put_texts,
};
use kg_row_types::config::{
    Acl, BasicAuth, Config, Cors, IpRestriction, KeyAuth, LimitBy, RateLimiting,
    RequestTransformer, ResponseTransformer, SizeLimit, SizeUnit, Termination,
};
use serde_json::{Map, Value};
use std::alloc::{AllocError, Global};

/// The config as an object.
#[tactic(auto, using(crate::proofs::InByteOrder::config_in_order))]
pub fn config_object(alloc: Global, config: &Config) -> Result<Value, AllocError>
    ensures { IfOk result (λ v. view v ≡ shown_config config.now) }
{
    let mut members = Map::new(alloc);
    put_config(alloc, &mut members, config)?;
    Ok(Value::from(members))
}

fn put_config(
    alloc: Global,
    members: &mut Map<String, Value>,
    config: &Config,
) -> Result<(), AllocError>
    ensures { OnOk result (members_view members.new.entries ≡ with_members (config_members config.now) (members_view members.old.entries)) }
{
    match config {
        Config::Cors(config) => put_cors(alloc, members, config),
        Config::KeyAuth(config) => put_key_auth(alloc, members, config),
        Config::BasicAuth(config) => put_basic_auth(alloc, members, config),
        Config::IpRestriction(config) => put_ip_restriction(alloc, members, config),
        Config::RequestSizeLimiting(config) => put_size_limit(alloc, members, config),
        Config::Acl(config) => put_groups(alloc, members, config),
        Config::RateLimiting(config) => put_rate_limiting(alloc, members, config),
        Config::RequestTransformer(config) => put_request_transformer(alloc, members, config),
        Config::ResponseTransformer(config) => put_response_transformer(alloc, members, config),
        Config::RequestTermination(config) => put_termination(alloc, members, config),
    }
}

fn limit_text(limit_by: LimitBy) -> &'static str
    ensures { result.now ≡ limit_text limit_by }
{
    match limit_by {
        LimitBy::Consumer => "consumer",
        LimitBy::Ip => "ip",
        LimitBy::Service => "service",
    }
}

fn unit_text(unit: SizeUnit) -> &'static str
    ensures { result.now ≡ unit_text unit }
{
    match unit {
        SizeUnit::Megabytes => "megabytes",
        SizeUnit::Kilobytes => "kilobytes",
        SizeUnit::Bytes => "bytes",
    }
}

fn put_cors(
    alloc: Global,
    members: &mut Map<String, Value>,
    config: &Cors,
) -> Result<(), AllocError>
    ensures { OnOk result (members_view members.new.entries ≡ with_members (cors_members config.now) (members_view members.old.entries)) }
{
    put_flag(alloc, members, "credentials", config.credentials)?;
    put_texts(alloc, members, "exposed_headers", &config.exposed_headers)?;
    put_texts(alloc, members, "headers", &config.headers)?;
    put_option(alloc, members, "max_age", config.max_age)?;
    put_texts(alloc, members, "methods", &config.methods)?;
    put_texts(alloc, members, "origins", &config.origins)?;
    put_flag(
        alloc,
        members,
        "preflight_continue",
        config.preflight_continue,
    )
}

fn put_key_auth(
    alloc: Global,
    members: &mut Map<String, Value>,
    config: &KeyAuth,
) -> Result<(), AllocError>
    ensures { OnOk result (members_view members.new.entries ≡ with_members (key_auth_members config.now) (members_view members.old.entries)) }
{
    put_text(alloc, members, "anonymous", &config.anonymous)?;
    put_flag(alloc, members, "hide_credentials", config.hide_credentials)?;
    put_flag(alloc, members, "key_in_header", config.key_in_header)?;
    put_flag(alloc, members, "key_in_query", config.key_in_query)?;
    put_texts(alloc, members, "key_names", &config.key_names)
}

fn put_basic_auth(
    alloc: Global,
    members: &mut Map<String, Value>,
    config: &BasicAuth,
) -> Result<(), AllocError>
    ensures { OnOk result (members_view members.new.entries ≡ with_members (basic_auth_members config.now) (members_view members.old.entries)) }
{
    put_text(alloc, members, "anonymous", &config.anonymous)?;
    put_flag(alloc, members, "hide_credentials", config.hide_credentials)
}

fn put_ip_restriction(
    alloc: Global,
    members: &mut Map<String, Value>,
    config: &IpRestriction,
) -> Result<(), AllocError>
    ensures { OnOk result (members_view members.new.entries ≡ with_members (ip_restriction_members config.now) (members_view members.old.entries)) }
{
    put_texts(alloc, members, "allow", &config.allow)?;
    put_texts(alloc, members, "deny", &config.deny)
}

fn put_size_limit(
    alloc: Global,
    members: &mut Map<String, Value>,
    config: &SizeLimit,
) -> Result<(), AllocError>
    ensures { OnOk result (members_view members.new.entries ≡ with_members (size_limit_members config.now) (members_view members.old.entries)) }
{
    put_number(
        alloc,
        members,
        "allowed_payload_size",
        config.allowed_payload_size,
    )?;
    put_str(alloc, members, "size_unit", unit_text(config.size_unit))
}

fn put_groups(
    alloc: Global,
    members: &mut Map<String, Value>,
    config: &Acl,
) -> Result<(), AllocError>
    ensures { OnOk result (members_view members.new.entries ≡ with_members (groups_members config.now) (members_view members.old.entries)) }
{
    put_texts(alloc, members, "allow", &config.allow)?;
    put_texts(alloc, members, "deny", &config.deny)?;
    put_flag(
        alloc,
        members,
        "hide_groups_header",
        config.hide_groups_header,
    )
}

fn put_rate_limiting(
    alloc: Global,
    members: &mut Map<String, Value>,
    config: &RateLimiting,
) -> Result<(), AllocError>
    ensures { OnOk result (members_view members.new.entries ≡ with_members (rate_limiting_members config.now) (members_view members.old.entries)) }
{
    put_option(alloc, members, "day", config.day)?;
    put_flag(
        alloc,
        members,
        "hide_client_headers",
        config.hide_client_headers,
    )?;
    put_option(alloc, members, "hour", config.hour)?;
    put_str(alloc, members, "limit_by", limit_text(config.limit_by))?;
    put_option(alloc, members, "minute", config.minute)?;
    put_option(alloc, members, "second", config.second)
}

fn put_request_transformer(
    alloc: Global,
    members: &mut Map<String, Value>,
    config: &RequestTransformer,
) -> Result<(), AllocError>
    ensures { OnOk result (members_view members.new.entries ≡ with_members (request_transformer_members config.now) (members_view members.old.entries)) }
{
    put_edits(alloc, members, "add", &config.add)?;
    put_edits(alloc, members, "append", &config.append)?;
    put_edits(alloc, members, "remove", &config.remove)?;
    put_edits(alloc, members, "rename", &config.rename)?;
    put_edits(alloc, members, "replace", &config.replace)
}

fn put_response_transformer(
    alloc: Global,
    members: &mut Map<String, Value>,
    config: &ResponseTransformer,
) -> Result<(), AllocError>
    ensures { OnOk result (members_view members.new.entries ≡ with_members (response_transformer_members config.now) (members_view members.old.entries)) }
{
    put_header_edits(alloc, members, "add", &config.add)?;
    put_header_edits(alloc, members, "append", &config.append)?;
    put_header_edits(alloc, members, "remove", &config.remove)?;
    put_header_edits(alloc, members, "rename", &config.rename)?;
    put_header_edits(alloc, members, "replace", &config.replace)
}

fn put_termination(
    alloc: Global,
    members: &mut Map<String, Value>,
    config: &Termination,
) -> Result<(), AllocError>
    ensures { OnOk result (members_view members.new.entries ≡ with_members (termination_members config.now) (members_view members.old.entries)) }
{
    put_text(alloc, members, "body", &config.body)?;
    put_text(alloc, members, "content_type", &config.content_type)?;
    put_text(alloc, members, "message", &config.message)?;
    put_number(alloc, members, "status_code", u64::from(config.status_code))
}
