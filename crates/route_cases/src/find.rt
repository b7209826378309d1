//! The route that a request takes.

use crate::ids::put_id;
use crate::request::{Asked, set_request};
use crate::state::State;
use case_lines::{Args, put};
use kg_message::Request;
use kg_router::{Choice, RouterGen};
use kg_text::NoMemory;
use std::alloc::Global;

/// Adds, for a request with this method, host, fields and path, the ids of the route that takes it and of its
/// service, and how many bytes of the path it takes.
pub fn put_found(
    alloc: Global,
    out: &mut String,
    state: &mut State,
    args: &Args,
) -> Result<(), NoMemory> {
    let asked = Asked {
        method: args.text(0),
        host: args.at(1),
        fields: args.text(2),
        path: args.text(3),
    };
    set_request(alloc, &mut state.request, asked)?;
    match state.routes.router(alloc, &state.services) {
        Ok(router) => {
            let told = put_choice(alloc, out, &router, &state.request);
            drop(router);
            told
        }
        Err(NoMemory) => put(out, "no memory"),
    }
}

fn put_choice(
    alloc: Global,
    out: &mut String,
    router: &RouterGen,
    request: &Request,
) -> Result<(), NoMemory> {
    match router.find(alloc, request)? {
        Some(choice) => put_parts(alloc, out, choice),
        None => put(out, "none"),
    }
}

fn put_parts(alloc: Global, out: &mut String, choice: Choice<'_>) -> Result<(), NoMemory> {
    put_id(alloc, out, choice.route.id)?;
    put(out, " ")?;
    put_id(alloc, out, choice.service.id)?;
    write!(out, " {}", choice.cut)?;
    Ok(())
}
