//! The plugins that ask for the values of keys.

ghost use Rattle.std.specs.Prelude.{◌≡◌, IfOk};
ghost use Rattle.kg_auth.specs.AclRule.{acl};
ghost use Rattle.kg_auth.specs.KeyAuth.{key_auth};
ghost use Rattle.kg_basic.specs.BasicAuth.{basic_auth};
ghost use Rattle.kg_course.specs.Steps.{RunsRule, settled};

use crate::want::Want;
use kg_auth::{acl, key_auth};
use kg_basic::basic_auth;
use kg_context::{AccessStep, Given, ReqCtx};
use kg_row_types::config::{Acl, BasicAuth, KeyAuth};
use kg_text::NoMemory;
use std::alloc::Global;

/// Runs key-auth: nothing is lacking, or the value of this key, and the request is as before.
pub fn run_key_auth(
    alloc: Global,
    config: &KeyAuth,
    given: &Given,
    ctx: &mut ReqCtx,
) -> Result<Option<Want>, NoMemory>
    ensures { IfOk result (λ lacking. RunsRule (key_auth config.now) given.now ctx.old lacking ctx.new) }
{
    let step = key_auth(alloc, config, ctx, given)?;
    Ok(settle(step, ctx))
}

/// Runs basic-auth likewise.
pub fn run_basic_auth(
    alloc: Global,
    config: &BasicAuth,
    given: &Given,
    ctx: &mut ReqCtx,
) -> Result<Option<Want>, NoMemory>
    ensures { IfOk result (λ lacking. RunsRule (basic_auth config.now) given.now ctx.old lacking ctx.new) }
{
    let step = basic_auth(alloc, config, ctx, given)?;
    Ok(settle(step, ctx))
}

/// Runs acl likewise.
pub fn run_acl(
    alloc: Global,
    config: &Acl,
    given: &Given,
    ctx: &mut ReqCtx,
) -> Result<Option<Want>, NoMemory>
    ensures { IfOk result (λ lacking. RunsRule (acl config.now) given.now ctx.old lacking ctx.new) }
{
    let step = acl(alloc, config, ctx, given)?;
    Ok(settle(step, ctx))
}

// What a plugin's step leaves: what is lacking, or a request that goes on or ends.
fn settle(step: AccessStep, ctx: &mut ReqCtx) -> Option<Want>
    ensures { settled step ctx.old ≡ (result, ctx.new) }
{
    match step {
        AccessStep::Ask(key) => Some(Want::Entity(key)),
        AccessStep::Pass => None,
        AccessStep::End(reply) => {
            ctx.end = Some(reply);
            None
        }
    }
}
