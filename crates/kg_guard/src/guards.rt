//! The four guards by their configs.

ghost use Rattle.std.specs.Prelude.{◌≡◌, IfOk};
ghost use Rattle.kg_guard.specs.Guards.{IsValidGuard, guarded};

use crate::cors::cors;
use crate::ip_restriction::ip_restriction;
use crate::request_size::request_size_limiting;
use crate::termination::request_termination;
use kg_context::ReqCtx;
use kg_message::Response;
use kg_row_types::config::{Cors, IpRestriction, SizeLimit, Termination};
use kg_text::NoMemory;
use std::alloc::Global;

/// A guard's config.
#[derive(Clone, Copy)]
pub enum GuardConfig<'a> {
    Cors(&'a Cors),
    IpRestriction(&'a IpRestriction),
    RequestSizeLimiting(&'a SizeLimit),
    RequestTermination(&'a Termination),
}

/// Runs a guard in access: the reply, where it ends the request. After `NoMemory` the context is to be dropped.
pub fn guard(
    alloc: Global,
    config: &GuardConfig<'_>,
    ctx: &mut ReqCtx,
) -> Result<Option<Response>, NoMemory>
    requires { IsValidGuard config.now }
    ensures { IfOk result (λ end. guarded config.now ctx.old ≡ (end, ctx.new)) }
{
    match *config {
        GuardConfig::Cors(config) => Ok(cors(alloc, config, ctx)),
        GuardConfig::IpRestriction(config) => ip_restriction(alloc, config, ctx),
        GuardConfig::RequestSizeLimiting(config) => request_size_limiting(alloc, config, ctx),
        GuardConfig::RequestTermination(config) => Ok(Some(request_termination(alloc, config)?)),
    }
}
