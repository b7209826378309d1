//! The plugin that asks for verdicts on hits.

ghost use Rattle.std.specs.Prelude.{◌≡◌, IfOk, List as Sequence, OnOk};
ghost use Rattle.kg_context.specs.Given.{Answer};
ghost use Rattle.kg_course.specs.Phases.{judged, limits_shown, rate_limiting};
ghost use Rattle.kg_course.specs.Walks.{Runs, limit_of};

use crate::moment::Moment;
use crate::walk::Walk;
use crate::want::Want;
use kg_context::ReqCtx;
use kg_limit::{Hit, Verdict, hit_of, limit_headers, refusal};
use kg_message::Response;
use kg_row_types::config::RateLimiting;
use kg_row_types::id::Id;
use kg_text::{List, NoMemory};
use std::alloc::Global;

/// Runs rate-limiting at the row of this id: the request is counted, and refused where it isn't let through; or the
/// verdict on its hit is lacking.
pub fn run_rate_limiting(
    alloc: Global,
    config: &RateLimiting,
    id: Id,
    moment: Moment,
    verdicts: &List<Verdict>,
    walk: &mut Walk,
) -> Result<Option<Want>, NoMemory>
    ensures { IfOk result (λ lacking. (given : Sequence Answer) → Runs (rate_limiting config.now moment id) given verdicts.now walk.old lacking walk.new) }
{
    let hit = hit_of(alloc, config, id, &walk.ctx, moment.time, moment.who)?;
    match verdicts.get(0) {
        Some(verdict) => {
            walk.limit = Some(hit);
            judge(alloc, verdict, &mut walk.ctx)?;
            Ok(None)
        }
        None => Ok(Some(Want::Count(hit))),
    }
}

// Refuses a request that isn't let through.
fn judge(alloc: Global, verdict: &Verdict, ctx: &mut ReqCtx) -> Result<(), NoMemory>
    ensures { OnOk result (ctx.new ≡ judged verdict.now ctx.old) }
{
    if !verdict.let_through {
        ctx.end = Some(refusal(alloc)?);
    }
    Ok(())
}

/// Tells the client its limits, if its request was counted and the plugin doesn't hide them. After `NoMemory` the
/// reply is to be dropped.
pub fn show_limits(
    alloc: Global,
    config: &RateLimiting,
    counted: &Option<Hit>,
    verdicts: &List<Verdict>,
    reply: &mut Response,
) -> Result<(), NoMemory>
    ensures { OnOk result (reply.new ≡ limits_shown config.now (limit_of counted.now verdicts.now) reply.old) }
{
    if config.hide_client_headers {
        return Ok(());
    }
    match counted {
        Some(hit) => match verdicts.get(0) {
            Some(verdict) => limit_headers(alloc, hit, verdict, reply),
            None => Ok(()),
        },
        None => Ok(()),
    }
}
