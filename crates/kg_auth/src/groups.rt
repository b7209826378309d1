//! acl: the groups of consumers that may use a service.

ghost use Rattle.std.specs.Prelude.{◌≡◌, IfOk, Ok, OnOk};
ghost use Rattle.std.specs.List.{list_any};
ghost use Rattle.std.specs.Str.{bytes_eq};
ghost use Rattle.kg_context.specs.Given.{value_in};
ghost use Rattle.kg_context.specs.Rule.{KeepsWhereAsked, access, after_step};
ghost use Rattle.kg_context.specs.declared.context.ReqCtx.{ReqCtx as Context};
ghost use Rattle.kg_auth.specs.AclRule.{acl, groups_in, is_one_listed, judged, may_pass, with_groups};

use kg_context::{AccessStep, Given, ReqCtx, add_value, joined};
use kg_message::message;
use kg_row_types::config::Acl;
use kg_row_types::key::Key;
use kg_row_types::value::Value;
use kg_text::{NoMemory, Text};
use std::alloc::Global;

/// Runs the plugin in access (Kong Gateway manual, "ACL"): it asks for the groups of the request's consumer, and
/// ends the request with 403 where they may not pass, with 401 where there is no consumer. After `NoMemory` the
/// context is to be dropped.
pub fn acl(
    alloc: Global,
    config: &Acl,
    ctx: &mut ReqCtx,
    given: &Given,
) -> Result<AccessStep, NoMemory>
    ensures step { IfOk result (λ step. access (acl config.now ctx.old) (value_in given.now) ≡ after_step step ctx.new) }
    ensures kept { IfOk result (λ step. KeepsWhereAsked ctx.old step ctx.new) }
    ensures same { OnOk result (ctx.new.request ≡ ctx.old.request) }
{
    let key = match &ctx.consumer {
        Some(consumer) => Key::Acls(consumer.id),
        None => return Ok(AccessStep::End(message(alloc, 401, b"Unauthorized")?)),
    };
    match given.get(&key) {
        None => Ok(AccessStep::Ask(key)),
        Some(value) => judge(alloc, config, groups_in(value), ctx),
    }
}

fn judge(
    alloc: Global,
    config: &Acl,
    groups: &[Text],
    ctx: &mut ReqCtx,
) -> Result<AccessStep, NoMemory>
    ensures step { IfOk result (λ step. after_step step ctx.new ≡ Ok (judged config.now groups.now ctx.old)) }
    ensures kept { IfOk result (λ step. (before : Context) → KeepsWhereAsked before step ctx.new) }
    ensures same { OnOk result (ctx.new.request ≡ ctx.old.request) }
{
    if may_pass(config, groups) {
        tell_groups(alloc, config, groups, ctx)?;
        Ok(AccessStep::Pass)
    } else {
        Ok(AccessStep::End(message(alloc, 403, b"You cannot consume this service")?))
    }
}

fn may_pass(config: &Acl, groups: &[Text]) -> bool
    ensures { result ≡ may_pass config.now groups.now }
{
    if config.allow.is_empty() {
        !is_one_listed(groups, config.deny.as_slice())
    } else {
        is_one_listed(groups, config.allow.as_slice())
    }
}

// Is one of the groups listed?
fn is_one_listed(groups: &[Text], listed: &[Text]) -> bool
    ensures { result ≡ is_one_listed groups.now listed.now }
{
    groups.iter().any(|group| is_listed(group, listed))
}

fn is_listed(group: &Text, listed: &[Text]) -> bool
    ensures { result ≡ list_any (bytes_eq group.now) listed.now }
{
    listed.iter().any(|one| group.as_bytes() == one.as_bytes())
}

// Tells the upstream the groups, unless there are none or the plugin hides them.
fn tell_groups(
    alloc: Global,
    config: &Acl,
    groups: &[Text],
    ctx: &mut ReqCtx,
) -> Result<(), NoMemory>
    ensures { OnOk result (ctx.new ≡ with_groups config.now groups.now ctx.old) }
{
    if config.hide_groups_header || groups.is_empty() {
        return Ok(());
    }
    let value = joined(alloc, b", ", groups)?;
    add_value(alloc, &mut ctx.headers, b"x-consumer-groups", value)
}

// The groups that a value tells.
fn groups_in(value: &Value) -> &[Text]
    ensures { result.now ≡ groups_in value.now }
{
    match value {
        Value::Acls(groups) => groups.as_slice(),
        _ => &[],
    }
}
