//! The message that goes upstream, and the reply that its answer becomes.

ghost use Rattle.std.specs.Prelude.{◌≡◌, ◌++◌, IfOk, OnOk};
ghost use Rattle.kg_context.specs.Context.{pairs_of};
ghost use Rattle.kg_context.specs.Echo.{echo_of};
ghost use Rattle.kg_context.specs.declared.upstream.Upstream.TheVariants.{Answered};
ghost use Rattle.kg_upstream.specs.UpstreamMessage.{as_it_came, bad_gateway, bytes_to, is_head, message_bytes, passed_on, reply_of, same_pairs, up_request, upstream_query, written};

use crate::host::message_text;
use crate::way::Way;
use kg_context::{ReqCtx, UpRequest, Upstream, echo_of, pairs_of};
use kg_message::{Request, Response, end_to_end, message};
use kg_outside::Target;
use kg_text::{Bytes, List, NoMemory, Pair, TryClone, query_text};
use std::alloc::Global;

/// The message for a request as the plugins leave it.
#[tactic(auto, unfolding(crate::specs::UpstreamMessage::up_request))]
pub fn up_request(alloc: Global, way: &Way, ctx: &ReqCtx) -> Result<UpRequest, NoMemory>
    ensures { IfOk result (λ message. message ≡ up_request way.now ctx.now) }
{
    let bytes = message_bytes(alloc, way, ctx)?;
    Ok(UpRequest {
        target: copy_of(alloc, &way.target)?,
        retries: way.retries,
        bytes,
        head_only: is_head(&ctx.request),
    })
}

fn copy_of(alloc: Global, target: &Target) -> Result<Target, NoMemory>
    ensures { IfOk result (λ copy. copy ≡ target.now) }
{
    Ok(Target {
        host: target.host.try_clone(alloc)?,
        port: target.port,
    })
}

fn message_bytes(alloc: Global, way: &Way, ctx: &ReqCtx) -> Result<Bytes, NoMemory>
    ensures { IfOk result (λ bytes. bytes ≡ message_bytes way.now ctx.now) }
{
    if ctx.request.query.is_none() && ctx.query.is_empty() {
        return bytes_to(alloc, way, way.path.as_slice(), ctx);
    }
    let mut target = way.path.try_clone(alloc)?;
    put_query(alloc, &ctx.request.query, &ctx.query, &mut target)?;
    bytes_to(alloc, way, target.as_slice(), ctx)
}

// The bytes of the message with this path and query.
fn bytes_to(alloc: Global, way: &Way, target: &[u8], ctx: &ReqCtx) -> Result<Bytes, NoMemory>
    ensures { IfOk result (λ bytes. bytes ≡ bytes_to target.now way.now ctx.now) }
{
    message_text(
        alloc,
        way.preserve_host,
        way.target.host.as_bytes(),
        way.target.port,
        target,
        &ctx.request,
        &ctx.headers,
    )
}

fn is_head(request: &Request) -> bool
    ensures { result ≡ is_head request.now }
{
    request.method.as_slice() == b"HEAD".as_slice()
}

// ---- the query

// Writes the query: as it came, where no plugin changed its pairs.
fn put_query(
    alloc: Global,
    query: &Option<Bytes>,
    pairs: &List<Pair>,
    out: &mut Bytes,
) -> Result<(), NoMemory>
    ensures { OnOk result (out.new ≡ out.old ++ upstream_query query.now pairs.now) }
{
    if has_same_pairs(alloc, query, pairs)? {
        put_as_it_came(query, out)
    } else {
        put_written(alloc, pairs, out)
    }
}

fn has_same_pairs(
    alloc: Global,
    query: &Option<Bytes>,
    pairs: &List<Pair>,
) -> Result<bool, NoMemory>
    ensures { IfOk result (λ same. same ≡ same_pairs pairs.now (pairs_of query.now)) }
{
    let came = pairs_of(alloc, query)?;
    Ok(*pairs == came)
}

/// Writes the query behind its `?`, as it came, if there is one.
pub fn put_as_it_came(query: &Option<Bytes>, out: &mut Bytes) -> Result<(), NoMemory>
    ensures { OnOk result (out.new ≡ out.old ++ as_it_came query.now) }
{
    match query {
        Some(query) => {
            out.push(b'?')?;
            out.extend_from_slice(query.as_slice())
        }
        None => Ok(()),
    }
}

fn put_written(alloc: Global, pairs: &List<Pair>, out: &mut Bytes) -> Result<(), NoMemory>
    ensures { OnOk result (out.new ≡ out.old ++ written pairs.now) }
{
    if pairs.is_empty() {
        return Ok(());
    }
    let text = query_text(alloc, pairs)?;
    out.push(b'?')?;
    out.extend_from_slice(text.as_slice())
}

// ---- the reply

/// The reply that an upstream's answer becomes.
pub fn reply_of(alloc: Global, answer: &Upstream) -> Result<Response, NoMemory>
    ensures { IfOk result (λ reply. reply ≡ reply_of answer.now) }
{
    match answer {
        Upstream::Answered(response) => passed_on(alloc, response),
        Upstream::Fault => bad_gateway(alloc),
        Upstream::NotHttp => bad_gateway(alloc),
    }
}

fn passed_on(alloc: Global, response: &Response) -> Result<Response, NoMemory>
    ensures { IfOk result (λ reply. reply ≡ passed_on response.now) }
{
    Ok(Response {
        status: response.status,
        headers: end_to_end(alloc, &response.headers)?,
        body: response.body.try_clone(alloc)?,
    })
}

/// As `reply_of`, of the echo's answer to this message, which isn't copied.
pub fn reply_by_echo(alloc: Global, message: Bytes) -> Result<Response, NoMemory>
    ensures { IfOk result (λ reply. reply ≡ reply_of (Answered (echo_of message))) }
{
    echo_of(alloc, message)
}

#[tactic(auto, unfolding(crate::specs::UpstreamMessage::bad_gateway))]
fn bad_gateway(alloc: Global) -> Result<Response, NoMemory>
    ensures { IfOk result (λ reply. reply ≡ bad_gateway) }
{
    message(
        alloc,
        502,
        b"An invalid response was received from the upstream server",
    )
}
