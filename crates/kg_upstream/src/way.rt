//! What is kept of a request's choice.

ghost use Rattle.std.specs.Prelude.{◌≡◌, IfOk, option_map};
ghost use Rattle.kg_router.specs.Best.{best_choice};
ghost use Rattle.kg_router.specs.Found.{choice_at};
ghost use Rattle.kg_upstream.specs.UpstreamMessage.{way_of};

use crate::upstream_path::path_for;
use kg_message::Request;
use kg_outside::Target;
use kg_router::{Choice, RouterGen};
use kg_row_types::id::Id;
use kg_text::{Bytes, NoMemory, TryClone};
use std::alloc::Global;

/// Where a request goes. It owns all that it tells, so that nothing of the router is borrowed.
#[derive(Drop)]
pub struct Way {
    pub service: Id,
    pub route: Id,
    /// Whom to call.
    pub target: Target,
    /// How many further dials follow one that failed.
    pub retries: u16,
    /// Whether the upstream sees the client's Host, and not that of the service.
    pub preserve_host: bool,
    /// The path that it is asked for.
    pub path: Bytes,
}

/// The way of the best route that takes the request, if one does.
pub fn way_to(alloc: Global, router: &RouterGen, request: &Request) -> Result<Option<Way>, NoMemory>
    ensures { IfOk result (λ way. way ≡ option_map (λ choice. way_of choice request.now) (best_choice router.now.services router.now.routes request.now)) }
{
    match router.find(alloc, request)? {
        Some(choice) => Ok(Some(way_of(alloc, &choice, request)?)),
        None => Ok(None),
    }
}

/// The way of a request at its choice.
pub fn way_of(alloc: Global, choice: &Choice<'_>, request: &Request) -> Result<Way, NoMemory>
    ensures { IfOk result (λ way. way ≡ way_of (choice_at choice.now) request.now) }
{
    let service = choice.service;
    Ok(Way {
        service: service.id,
        route: choice.route.id,
        target: Target {
            host: service.host.try_clone(alloc)?,
            port: service.port,
        },
        retries: service.retries,
        preserve_host: choice.route.preserve_host,
        path: path_for(alloc, choice, request)?,
    })
}
