//! The configs that bodies make for plugins.

ghost use Rattle.std.specs.Prelude.{◌≡◌, OnOk};
ghost use Rattle.serde_json.specs.View.{view};
ghost use Rattle.kg_bodies.specs.Settings.{inside};
ghost use Rattle.kg_field_tables.specs.declared.table.Table.TheVariants.{RequestEdits, ResponseEdits};
ghost use Rattle.kg_row_making.specs.FinishedConfigs.{are_none, basic_auth_over, config_over, cors_lists_over, cors_over, edits_over, groups_over, header_edits_over, ip_restriction_over, key_auth_over, rate_limiting_over, reply_over, request_transformer_over, response_transformer_over, set_edits_over, size_limit_over, termination_over};

use crate::member::member_or;
use crate::set::{narrow, set, set_list, set_option};
use kg_bodies::by_table::{text_in, texts_in, whole_in};
use kg_bodies::settings::{flag_at, limit_by_at, size_unit_at};
use kg_field_tables::table::{EditList, Table};
use kg_row_types::config::{
    Acl, BasicAuth, Config, Cors, Edits, IpRestriction, KeyAuth, RateLimiting, RequestTransformer,
    ResponseTransformer, SizeLimit, Termination,
};
use kg_row_types::plugin::PluginName;
use kg_text::{List, NoMemory, Text};
use serde_json::Value;
use std::alloc::Global;

/// Sets in a config what the body sets.
pub fn set_config(alloc: Global, config: &Value, target: &mut Config) -> Result<(), NoMemory>
    ensures { OnOk result (target.new ≡ config_over (view config.now) target.old) }
{
    match target {
        Config::Cors(target) => set_cors(alloc, config, target),
        Config::KeyAuth(target) => set_key_auth(alloc, config, target),
        Config::BasicAuth(target) => set_basic_auth(alloc, config, target),
        Config::IpRestriction(target) => set_ip_restriction(alloc, config, target),
        Config::RequestSizeLimiting(target) => set_size_limit(alloc, config, target),
        Config::Acl(target) => set_groups(alloc, config, target),
        Config::RateLimiting(target) => set_rate_limiting(alloc, config, target),
        Config::RequestTransformer(target) => set_request_transformer(alloc, config, target),
        Config::ResponseTransformer(target) => set_response_transformer(alloc, config, target),
        Config::RequestTermination(target) => set_termination(alloc, config, target),
    }
}

fn set_cors(alloc: Global, config: &Value, target: &mut Cors) -> Result<(), NoMemory>
    ensures { OnOk result (target.new ≡ cors_over (view config.now) target.old) }
{
    set_cors_lists(alloc, config, target)?;
    set(&mut target.credentials, flag_at("credentials", config));
    set_option(
        &mut target.max_age,
        whole_in(alloc, Table::Config(PluginName::Cors), "max_age", config)?,
    );
    set(
        &mut target.preflight_continue,
        flag_at("preflight_continue", config),
    );
    Ok(())
}

// Apart from the other settings: a short proof.
fn set_cors_lists(alloc: Global, config: &Value, target: &mut Cors) -> Result<(), NoMemory>
    ensures { OnOk result (target.new ≡ cors_lists_over (view config.now) target.old) }
{
    let table = Table::Config(PluginName::Cors);
    set_list(
        &mut target.origins,
        texts_in(alloc, table, "origins", config)?,
    );
    set_list(
        &mut target.methods,
        texts_in(alloc, table, "methods", config)?,
    );
    set_list(
        &mut target.headers,
        texts_in(alloc, table, "headers", config)?,
    );
    set_list(
        &mut target.exposed_headers,
        texts_in(alloc, table, "exposed_headers", config)?,
    );
    Ok(())
}

fn set_key_auth(alloc: Global, config: &Value, target: &mut KeyAuth) -> Result<(), NoMemory>
    ensures { OnOk result (target.new ≡ key_auth_over (view config.now) target.old) }
{
    let table = Table::Config(PluginName::KeyAuth);
    set_list(
        &mut target.key_names,
        texts_in(alloc, table, "key_names", config)?,
    );
    set(&mut target.key_in_header, flag_at("key_in_header", config));
    set(&mut target.key_in_query, flag_at("key_in_query", config));
    set(
        &mut target.hide_credentials,
        flag_at("hide_credentials", config),
    );
    set_option(
        &mut target.anonymous,
        text_in(alloc, table, "anonymous", config)?,
    );
    Ok(())
}

fn set_basic_auth(alloc: Global, config: &Value, target: &mut BasicAuth) -> Result<(), NoMemory>
    ensures { OnOk result (target.new ≡ basic_auth_over (view config.now) target.old) }
{
    let table = Table::Config(PluginName::BasicAuth);
    set(
        &mut target.hide_credentials,
        flag_at("hide_credentials", config),
    );
    set_option(
        &mut target.anonymous,
        text_in(alloc, table, "anonymous", config)?,
    );
    Ok(())
}

fn set_ip_restriction(
    alloc: Global,
    config: &Value,
    target: &mut IpRestriction,
) -> Result<(), NoMemory>
    ensures { OnOk result (target.new ≡ ip_restriction_over (view config.now) target.old) }
{
    let table = Table::Config(PluginName::IpRestriction);
    set_list(&mut target.allow, texts_in(alloc, table, "allow", config)?);
    set_list(&mut target.deny, texts_in(alloc, table, "deny", config)?);
    Ok(())
}

fn set_size_limit(alloc: Global, config: &Value, target: &mut SizeLimit) -> Result<(), NoMemory>
    ensures { OnOk result (target.new ≡ size_limit_over (view config.now) target.old) }
{
    let table = Table::Config(PluginName::RequestSizeLimiting);
    set(
        &mut target.allowed_payload_size,
        whole_in(alloc, table, "allowed_payload_size", config)?,
    );
    set(&mut target.size_unit, size_unit_at(config));
    Ok(())
}

fn set_groups(alloc: Global, config: &Value, target: &mut Acl) -> Result<(), NoMemory>
    ensures { OnOk result (target.new ≡ groups_over (view config.now) target.old) }
{
    let table = Table::Config(PluginName::Acl);
    set_list(&mut target.allow, texts_in(alloc, table, "allow", config)?);
    set_list(&mut target.deny, texts_in(alloc, table, "deny", config)?);
    set(
        &mut target.hide_groups_header,
        flag_at("hide_groups_header", config),
    );
    Ok(())
}

fn set_rate_limiting(
    alloc: Global,
    config: &Value,
    target: &mut RateLimiting,
) -> Result<(), NoMemory>
    ensures { OnOk result (target.new ≡ rate_limiting_over (view config.now) target.old) }
{
    let table = Table::Config(PluginName::RateLimiting);
    set_option(
        &mut target.second,
        whole_in(alloc, table, "second", config)?,
    );
    set_option(
        &mut target.minute,
        whole_in(alloc, table, "minute", config)?,
    );
    set_option(&mut target.hour, whole_in(alloc, table, "hour", config)?);
    set_option(&mut target.day, whole_in(alloc, table, "day", config)?);
    set(&mut target.limit_by, limit_by_at(config));
    set(
        &mut target.hide_client_headers,
        flag_at("hide_client_headers", config),
    );
    Ok(())
}

// Sets the lists of one step of a request's change. Where neither is set, the step isn't.
fn set_edits(alloc: Global, table: Table, step: &Value, target: &mut Edits) -> Result<(), NoMemory>
    ensures { OnOk result (target.new ≡ edits_over table (view step.now) target.old) }
{
    let headers = texts_in(alloc, table, "headers", step)?;
    let querystring = texts_in(alloc, table, "querystring", step)?;
    set_if_any(
        target,
        Edits {
            headers,
            querystring,
        },
    );
    Ok(())
}

fn set_if_any(target: &mut Edits, edits: Edits)
    ensures { target.new ≡ set_edits_over edits target.old }
{
    if !are_none(&edits) {
        *target = edits;
    }
}

fn are_none(edits: &Edits) -> bool
    ensures { result ≡ are_none edits.now }
{
    edits.headers.as_slice().is_empty() && edits.querystring.as_slice().is_empty()
}

// Sets one step of a request's change.
fn set_step(
    alloc: Global,
    edits: EditList,
    name: &str,
    config: &Value,
    target: &mut Edits,
) -> Result<(), NoMemory>
    ensures { OnOk result (target.new ≡ edits_over (RequestEdits edits) (inside name.now (view config.now)) target.old) }
{
    let null = Value::Null;
    let step = member_or(name, config, &null);
    set_edits(alloc, Table::RequestEdits(edits), step, target)
}

fn set_request_transformer(
    alloc: Global,
    config: &Value,
    target: &mut RequestTransformer,
) -> Result<(), NoMemory>
    ensures { OnOk result (target.new ≡ request_transformer_over (view config.now) target.old) }
{
    set_step(
        alloc,
        EditList::Remove,
        "remove",
        config,
        &mut target.remove,
    )?;
    set_step(
        alloc,
        EditList::Rename,
        "rename",
        config,
        &mut target.rename,
    )?;
    set_step(
        alloc,
        EditList::Replace,
        "replace",
        config,
        &mut target.replace,
    )?;
    set_step(alloc, EditList::Add, "add", config, &mut target.add)?;
    set_step(
        alloc,
        EditList::Append,
        "append",
        config,
        &mut target.append,
    )?;
    Ok(())
}

// Sets the list of one step of a reply's change.
fn set_header_edits(
    alloc: Global,
    edits: EditList,
    name: &str,
    config: &Value,
    target: &mut List<Text>,
) -> Result<(), NoMemory>
    ensures { OnOk result (target.new ≡ header_edits_over (ResponseEdits edits) (inside name.now (view config.now)) target.old) }
{
    let null = Value::Null;
    let step = member_or(name, config, &null);
    set_list(
        target,
        texts_in(alloc, Table::ResponseEdits(edits), "headers", step)?,
    );
    Ok(())
}

fn set_response_transformer(
    alloc: Global,
    config: &Value,
    target: &mut ResponseTransformer,
) -> Result<(), NoMemory>
    ensures { OnOk result (target.new ≡ response_transformer_over (view config.now) target.old) }
{
    set_header_edits(
        alloc,
        EditList::Remove,
        "remove",
        config,
        &mut target.remove,
    )?;
    set_header_edits(
        alloc,
        EditList::Rename,
        "rename",
        config,
        &mut target.rename,
    )?;
    set_header_edits(
        alloc,
        EditList::Replace,
        "replace",
        config,
        &mut target.replace,
    )?;
    set_header_edits(alloc, EditList::Add, "add", config, &mut target.add)?;
    set_header_edits(
        alloc,
        EditList::Append,
        "append",
        config,
        &mut target.append,
    )?;
    Ok(())
}

fn set_termination(alloc: Global, config: &Value, target: &mut Termination) -> Result<(), NoMemory>
    ensures { OnOk result (target.new ≡ termination_over (view config.now) target.old) }
{
    let table = Table::Config(PluginName::RequestTermination);
    set(
        &mut target.status_code,
        narrow(whole_in(alloc, table, "status_code", config)?),
    );
    set_reply(alloc, config, target)
}

// Apart from the status: a short proof.
fn set_reply(alloc: Global, config: &Value, target: &mut Termination) -> Result<(), NoMemory>
    ensures { OnOk result (target.new ≡ reply_over (view config.now) target.old) }
{
    let table = Table::Config(PluginName::RequestTermination);
    set_option(
        &mut target.message,
        text_in(alloc, table, "message", config)?,
    );
    set_option(&mut target.body, text_in(alloc, table, "body", config)?);
    set_option(
        &mut target.content_type,
        text_in(alloc, table, "content_type", config)?,
    );
    Ok(())
}
