//! cors in access: preflight requests are answered.

ghost use Rattle.std.specs.Prelude.{◌≡◌};
ghost use Rattle.kg_guard.specs.Cors.{cors, ends_preflight, is_preflight, preflight_reply};

use kg_context::ReqCtx;
use kg_message::{Headers, Request, Response};
use kg_row_types::config::Cors;
use kg_text::Bytes;
use std::alloc::Global;

/// The reply, where the plugin ends the request. It takes no memory.
pub fn cors(alloc: Global, config: &Cors, ctx: &mut ReqCtx) -> Option<Response>
    ensures { cors config.now ctx.old ≡ (result, ctx.new) }
{
    if ends_preflight(config, &ctx.request) {
        ctx.preflight = true;
        Some(preflight_reply(alloc))
    } else {
        None
    }
}

fn ends_preflight(config: &Cors, request: &Request) -> bool
    ensures { result ≡ ends_preflight config.now request.now }
{
    !config.preflight_continue && is_preflight(request)
}

// Does the request ask what its origin may do?
fn is_preflight(request: &Request) -> bool
    ensures { result ≡ is_preflight request.now }
{
    request.method.as_slice() == b"OPTIONS".as_slice()
        && request.headers.has(b"origin")
        && request.headers.has(b"access-control-request-method")
}

fn preflight_reply(alloc: Global) -> Response
    ensures { result ≡ preflight_reply }
{
    Response {
        status: 200,
        headers: Headers::new(alloc),
        body: Bytes::new(alloc),
    }
}
