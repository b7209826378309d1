//! What a line gives.

use crate::copies::put_copy;
use crate::fits::put_fits;
use crate::ids::put_id_answer;
use crate::order::put_order;
use crate::state::State;
use crate::table::put_router_answer;
use case_lines::{Args, Line, args_of, line_of, put, put_unknown};
use kg_text::NoMemory;
use std::alloc::Global;

/// Adds what a line gives.
pub fn put_answer(
    alloc: Global,
    out: &mut String,
    state: &mut State,
    text: &str,
) -> Result<(), NoMemory> {
    let line = line_of(text);
    match line.subject {
        "id" | "copy" | "route" => put_case(alloc, out, state, line),
        "router" => put_router_answer(alloc, out, state, line.call, &args_of(alloc, line.rest)?),
        _ => put(out, text),
    }
}

fn put_case(
    alloc: Global,
    out: &mut String,
    state: &mut State,
    line: Line<'_>,
) -> Result<(), NoMemory> {
    let args = args_of(alloc, line.rest)?;
    match line.subject {
        "id" => put_id_answer(alloc, out, line.call, &args),
        "copy" => put_copy(alloc, out, line.call, &args),
        _ => put_route_answer(alloc, out, state, line.call, &args),
    }
}

fn put_route_answer(
    alloc: Global,
    out: &mut String,
    state: &mut State,
    call: &str,
    args: &Args,
) -> Result<(), NoMemory> {
    match call {
        "fits" => put_fits(alloc, out, &mut state.request, args),
        "order" => put_order(alloc, out, args),
        _ => put_unknown(out),
    }
}
