//! The message of a request that no plugin touches.

ghost use Rattle.std.specs.Prelude.{◌≡◌, IfOk};
ghost use Rattle.kg_router.specs.Found.{choice_at};
ghost use Rattle.kg_direct.specs.Untouched.{straight_message};

use kg_context::upstream_fields;
use kg_message::Request;
use kg_router::Choice;
use kg_text::{Bytes, NoMemory};
use kg_upstream::{message_text, path_for, put_as_it_came};
use std::alloc::Global;

/// The message for a request at this choice: the client's own, with the path and the Host that the upstream sees.
pub fn straight_message(
    alloc: Global,
    choice: &Choice<'_>,
    request: &Request,
) -> Result<Bytes, NoMemory>
    ensures { IfOk result (λ bytes. bytes ≡ straight_message (choice_at choice.now) request.now) }
{
    let mut target = path_for(alloc, choice, request)?;
    put_as_it_came(&request.query, &mut target)?;
    let headers = upstream_fields(alloc, &request.headers)?;
    let service = choice.service;
    message_text(
        alloc,
        choice.route.preserve_host,
        service.host.as_bytes(),
        service.port,
        target.as_slice(),
        request,
        &headers,
    )
}
