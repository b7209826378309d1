//! The plugins that bodies make.

ghost use Rattle.std.specs.Prelude.{◌≡◌, OnOk, codes, fold};
ghost use Rattle.serde_json.specs.View.{view};
ghost use Rattle.kg_row_types.specs.ValidRows.{is_for_no_consumer};
ghost use Rattle.kg_row_making.specs.Bases.{base_of};
ghost use Rattle.kg_schema.specs.Between.{config_violations, groups_violations, has_both, has_neither, ip_restriction_violations, known_plugin_violations, config_field_violations, plugin_violations, rate_limiting_violations, termination_violations, unnamed_config_violations};
ghost use Rattle.kg_schema.specs.Finished.{plugin_over, scope_over};
ghost use Rattle.kg_field_rules.specs.Rules.{tell};
ghost use Rattle.kg_bodies.specs.Settings.{inside};

use crate::row::tell::tell_if;
use kg_bodies::fields::{judge_members, named_plugin};
use kg_bodies::settings::flag_at;
use kg_field_rules::rule::Rule;
use kg_field_rules::violations::Violations;
use kg_field_tables::table::Table;
use kg_row_making::base::{Base, Links};
use kg_row_making::config::set_config;
use kg_row_making::member::member_or;
use kg_row_making::set::set;
use kg_row_types::config::{Acl, Config, IpRestriction, RateLimiting, Termination};
use kg_row_types::plugin::{PluginName, PluginRow, Scope};
use kg_text::{List, NoMemory, Text};
use serde_json::Value;
use std::alloc::Global;

/// Sets in a plugin what the body sets, and the rows that it names.
pub fn set_plugin(
    alloc: Global,
    body: &Value,
    links: &Links,
    row: &mut PluginRow,
) -> Result<(), NoMemory>
    ensures { OnOk result (row.new ≡ plugin_over (view body.now) links.now row.old) }
{
    let null = Value::Null;
    row.scope = scope_over(links, row.scope);
    set(&mut row.enabled, flag_at("enabled", body));
    set_config(alloc, member_or("config", body, &null), &mut row.config)
}

fn scope_over(links: &Links, before: Scope) -> Scope
    ensures { result ≡ scope_over links.now before }
{
    Scope {
        service: links.service.or(before.service),
        route: links.route.or(before.route),
        consumer: links.consumer.or(before.consumer),
    }
}

/// Tells the rules between the fields of a plugin, and those of a config whose fields had to wait for
/// the old row's name.
pub fn tell_plugin(
    alloc: Global,
    violations: &mut Violations,
    body: &Value,
    base: &Base<'_>,
    plugin: &PluginRow,
) -> Result<(), NoMemory>
    ensures { OnOk result (violations.new ≡ fold tell violations.old (plugin_violations (view body.now) (base_of base.now) plugin.now)) }
{
    tell_unnamed_config(alloc, violations, body, base)?;
    if named_plugin(body).is_none() && base.old_plugin().is_none() {
        tell_if(alloc, violations, true, "name", Rule::Required)
    } else {
        tell_known(alloc, violations, plugin)
    }
}

fn tell_unnamed_config(
    alloc: Global,
    violations: &mut Violations,
    body: &Value,
    base: &Base<'_>,
) -> Result<(), NoMemory>
    ensures { OnOk result (violations.new ≡ fold tell violations.old (unnamed_config_violations (view body.now) (base_of base.now))) }
{
    match named_plugin(body) {
        Some(_) => Ok(()),
        None => match base.old_plugin() {
            Some(name) => tell_config_fields(alloc, violations, body, name),
            None => Ok(()),
        },
    }
}

fn tell_config_fields(
    alloc: Global,
    violations: &mut Violations,
    body: &Value,
    name: PluginName,
) -> Result<(), NoMemory>
    ensures { OnOk result (violations.new ≡ fold tell violations.old (config_field_violations (inside (codes "config") (view body.now)) name)) }
{
    let null = Value::Null;
    match member_or("config", body, &null).as_object() {
        Some(members) => judge_members(alloc, members, Table::Config(name), "config.", violations),
        None => Ok(()),
    }
}

fn tell_known(
    alloc: Global,
    violations: &mut Violations,
    plugin: &PluginRow,
) -> Result<(), NoMemory>
    ensures { OnOk result (violations.new ≡ fold tell violations.old (known_plugin_violations plugin.now)) }
{
    let barred = is_for_no_consumer(&plugin.config) && plugin.scope.consumer.is_some();
    tell_if(alloc, violations, barred, "consumer", Rule::Fixed)?;
    tell_config(alloc, violations, &plugin.config)
}

// Does the plugin run before a consumer is known, or make one known?
fn is_for_no_consumer(config: &Config) -> bool
    ensures { result ≡ is_for_no_consumer config.now }
{
    match config {
        Config::Cors(_) => true,
        Config::KeyAuth(_) => true,
        Config::BasicAuth(_) => true,
        Config::IpRestriction(_) => false,
        Config::RequestSizeLimiting(_) => false,
        Config::Acl(_) => true,
        Config::RateLimiting(_) => false,
        Config::RequestTransformer(_) => false,
        Config::ResponseTransformer(_) => false,
        Config::RequestTermination(_) => false,
    }
}

fn tell_config(alloc: Global, violations: &mut Violations, config: &Config) -> Result<(), NoMemory>
    ensures { OnOk result (violations.new ≡ fold tell violations.old (config_violations config.now)) }
{
    match config {
        Config::Acl(config) => tell_groups(alloc, violations, config),
        Config::IpRestriction(config) => tell_ip_restriction(alloc, violations, config),
        Config::RateLimiting(config) => tell_rate_limiting(alloc, violations, config),
        Config::RequestTermination(config) => tell_termination(alloc, violations, config),
        Config::Cors(_) => Ok(()),
        Config::KeyAuth(_) => Ok(()),
        Config::BasicAuth(_) => Ok(()),
        Config::RequestSizeLimiting(_) => Ok(()),
        Config::RequestTransformer(_) => Ok(()),
        Config::ResponseTransformer(_) => Ok(()),
    }
}

fn has_both(a: &List<Text>, b: &List<Text>) -> bool
    ensures { result ≡ has_both a.now b.now }
{
    !a.as_slice().is_empty() && !b.as_slice().is_empty()
}

fn has_neither(a: &List<Text>, b: &List<Text>) -> bool
    ensures { result ≡ has_neither a.now b.now }
{
    a.as_slice().is_empty() && b.as_slice().is_empty()
}

fn tell_groups(alloc: Global, violations: &mut Violations, config: &Acl) -> Result<(), NoMemory>
    ensures { OnOk result (violations.new ≡ fold tell violations.old (groups_violations config.now)) }
{
    let both = has_both(&config.allow, &config.deny);
    tell_if(alloc, violations, both, "config.allow", Rule::Exclusive)?;
    let neither = has_neither(&config.allow, &config.deny);
    tell_if(alloc, violations, neither, "config.allow", Rule::Required)
}

fn tell_ip_restriction(
    alloc: Global,
    violations: &mut Violations,
    config: &IpRestriction,
) -> Result<(), NoMemory>
    ensures { OnOk result (violations.new ≡ fold tell violations.old (ip_restriction_violations config.now)) }
{
    let neither = has_neither(&config.allow, &config.deny);
    tell_if(alloc, violations, neither, "config.allow", Rule::Required)
}

fn tell_rate_limiting(
    alloc: Global,
    violations: &mut Violations,
    config: &RateLimiting,
) -> Result<(), NoMemory>
    ensures { OnOk result (violations.new ≡ fold tell violations.old (rate_limiting_violations config.now)) }
{
    let unlimited = config.second.is_none()
        && config.minute.is_none()
        && config.hour.is_none()
        && config.day.is_none();
    tell_if(
        alloc,
        violations,
        unlimited,
        "config.minute",
        Rule::Required,
    )
}

fn tell_termination(
    alloc: Global,
    violations: &mut Violations,
    config: &Termination,
) -> Result<(), NoMemory>
    ensures { OnOk result (violations.new ≡ fold tell violations.old (termination_violations config.now)) }
{
    let both = config.message.is_some() && config.body.is_some();
    tell_if(alloc, violations, both, "config.message", Rule::Exclusive)?;
    let bare = config.content_type.is_some() && config.body.is_none();
    tell_if(alloc, violations, bare, "config.body", Rule::Required)
}
