//! A request on its way through the phases.

ghost use Rattle.std.specs.Prelude.{◌≡◌, IfOk};
ghost use Rattle.kg_context.specs.Context.{pairs_of, started};

use crate::client_fields::upstream_fields;
use kg_message::{Headers, Request, Response};
use kg_row_types::consumer::{BasicCred, Consumer, KeyCred};
use kg_row_types::id::Id;
use kg_text::{Bytes, List, NoMemory, Pair, query_pairs};
use std::alloc::Global;

/// What a consumer was known by.
#[derive(Drop)]
pub enum Credential {
    Key(KeyCred),
    Basic(BasicCred),
}

/// A request at its route, and what the plugins have made of it so far.
#[derive(Drop)]
pub struct ReqCtx {
    /// The client's request. Nothing changes it.
    pub request: Request,
    /// The id of the service that the route leads to.
    pub service: Id,
    /// The id of the route that takes the request.
    pub route: Id,
    /// The fields that go upstream, besides those that the gateway states itself.
    pub headers: Headers,
    /// The pairs of the query that goes upstream.
    pub query: List<Pair>,
    /// Who sent the request, where that is known.
    pub consumer: Option<Consumer>,
    /// What the consumer was known by; nothing, where it stands for requests without a credential.
    pub credential: Option<Credential>,
    /// Whether the plugin cors ended the request as a preflight.
    pub preflight: bool,
    /// The reply of the plugin that ended the request, if one did.
    pub end: Option<Response>,
}

impl ReqCtx {
    /// A request at its route, before the first plugin.
    pub fn start(
        alloc: Global,
        service: Id,
        route: Id,
        request: Request,
    ) -> Result<ReqCtx, NoMemory>
        ensures { IfOk result (λ ctx. ctx ≡ started service route request) }
    {
        let headers = upstream_fields(alloc, &request.headers)?;
        let query = pairs_of(alloc, &request.query)?;
        Ok(ReqCtx {
            request,
            service,
            route,
            headers,
            query,
            consumer: None,
            credential: None,
            preflight: false,
            end: None,
        })
    }
}

/// The pairs of a query. Without a query it takes no memory.
pub fn pairs_of(alloc: Global, query: &Option<Bytes>) -> Result<List<Pair>, NoMemory>
    ensures { IfOk result (λ pairs. pairs ≡ pairs_of query.now) }
{
    match query {
        Some(query) => query_pairs(alloc, query.as_slice()),
        None => Ok(List::new(alloc)),
    }
}
