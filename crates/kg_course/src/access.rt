//! One row in the phase access.

ghost use Rattle.std.specs.Prelude.{◌≡◌, IfOk, OnOk};
ghost use Rattle.kg_row_types.specs.ValidRows.{IsValidPlugin};
ghost use Rattle.kg_guard.specs.Guards.{IsValidGuard, guarded};
ghost use Rattle.kg_course.specs.Phases.{access, after_guard};
ghost use Rattle.kg_course.specs.Walks.{Runs};

use crate::asking::{run_acl, run_basic_auth, run_key_auth};
use crate::limiting::run_rate_limiting;
use crate::moment::Moment;
use crate::walk::Walk;
use crate::want::Want;
use kg_context::{Given, ReqCtx};
use kg_guard::{GuardConfig, guard};
use kg_limit::Verdict;
use kg_row_types::config::Config;
use kg_row_types::plugin::PluginRow;
use kg_text::{List, NoMemory};
use kg_transform::transform_request;
use std::alloc::Global;

/// Runs a row: nothing is lacking, or this, and the walk is as before. After `NoMemory` the walk is to be dropped.
pub fn access(
    alloc: Global,
    row: &PluginRow,
    moment: Moment,
    given: &Given,
    verdicts: &List<Verdict>,
    walk: &mut Walk,
) -> Result<Option<Want>, NoMemory>
    requires { IsValidPlugin row.now }
    ensures { IfOk result (λ lacking. Runs (access moment row.now) given.now verdicts.now walk.old lacking walk.new) }
{
    match &row.config {
        Config::Cors(config) => {
            run_guard(alloc, &GuardConfig::Cors(config), &mut walk.ctx)?;
            Ok(None)
        }
        Config::KeyAuth(config) => run_key_auth(alloc, config, given, &mut walk.ctx),
        Config::BasicAuth(config) => run_basic_auth(alloc, config, given, &mut walk.ctx),
        Config::IpRestriction(config) => {
            run_guard(alloc, &GuardConfig::IpRestriction(config), &mut walk.ctx)?;
            Ok(None)
        }
        Config::RequestSizeLimiting(config) => {
            run_guard(
                alloc,
                &GuardConfig::RequestSizeLimiting(config),
                &mut walk.ctx,
            )?;
            Ok(None)
        }
        Config::Acl(config) => run_acl(alloc, config, given, &mut walk.ctx),
        Config::RateLimiting(config) => run_rate_limiting(
            alloc, config, row.id, moment, verdicts, walk,
        ),
        Config::RequestTransformer(config) => {
            transform_request(alloc, config, &mut walk.ctx)?;
            Ok(None)
        }
        Config::ResponseTransformer(_) => Ok(None),
        Config::RequestTermination(config) => {
            run_guard(
                alloc,
                &GuardConfig::RequestTermination(config),
                &mut walk.ctx,
            )?;
            Ok(None)
        }
    }
}

// Runs a guard, which may end the request.
fn run_guard(alloc: Global, config: &GuardConfig<'_>, ctx: &mut ReqCtx) -> Result<(), NoMemory>
    requires { IsValidGuard config.now }
    ensures { OnOk result (ctx.new ≡ after_guard (guarded config.now ctx.old)) }
{
    match guard(alloc, config, ctx)? {
        Some(reply) => ctx.end = Some(reply),
        None => {}
    }
    Ok(())
}
