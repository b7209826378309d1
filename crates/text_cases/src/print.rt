//! Replies and upstream messages as bytes.

use crate::messages::status_of;
use crate::requests::set_request;
use crate::state::State;
use case_lines::{Args, put, put_bytes, put_unknown};
use kg_message::{Headers, Request, Response, message};
use kg_print::connection::{Keeping, keeping_of};
use kg_print::reply::render_response;
use kg_print::upstream::render_request;
use kg_text::{Bytes, NoMemory};
use std::alloc::Global;

pub fn put_print_answer(
    alloc: Global,
    out: &mut String,
    state: &mut State,
    call: &str,
    args: &Args,
) -> Result<(), NoMemory> {
    match call {
        "keeping" => put_keeping(alloc, out, &mut state.request, args),
        "upstream" => put_upstream(alloc, out, state, args),
        "reply" => put_own_reply(alloc, out, args),
        "bare" => put_bare_reply(alloc, out, args),
        _ => put_unknown(out),
    }
}

// What the reply to the request says of the connection, and what the last one says.
fn put_keeping(
    alloc: Global,
    out: &mut String,
    request: &mut Request,
    args: &Args,
) -> Result<(), NoMemory> {
    set_request(alloc, request, args, 0)?;
    put(out, word_of(keeping_of(false, request)))?;
    put(out, ", ")?;
    put(out, word_of(keeping_of(true, request)))
}

fn word_of(keeping: Keeping) -> &'static str {
    match keeping {
        Keeping::Silent => "silent",
        Keeping::Close => "close",
        Keeping::Alive => "alive",
    }
}

fn keeping_named(name: &str) -> Keeping {
    match name {
        "close" => Keeping::Close,
        "alive" => Keeping::Alive,
        _ => Keeping::Silent,
    }
}

// The upstream message with this method, target and host for the request of the other arguments, with the
// fields of the lines before.
fn put_upstream(
    alloc: Global,
    out: &mut String,
    state: &mut State,
    args: &Args,
) -> Result<(), NoMemory> {
    set_request(alloc, &mut state.request, args, 3)?;
    put_sent(alloc, out, &state.request, &state.fields, args)
}

fn put_sent(
    alloc: Global,
    out: &mut String,
    request: &Request,
    fields: &Headers,
    args: &Args,
) -> Result<(), NoMemory> {
    let text = render_request(alloc, args.at(0), args.at(1), args.at(2), request, fields)?;
    put_bytes(out, text.as_slice())
}

// The gateway's reply with this status and text, to a HEAD or another request.
fn put_own_reply(alloc: Global, out: &mut String, args: &Args) -> Result<(), NoMemory> {
    let reply = message(alloc, status_of(args), args.at(3))?;
    let told = put_rendered(alloc, out, &reply, args);
    drop(reply);
    told
}

// The reply with this status and body, and no fields of its own.
fn put_bare_reply(alloc: Global, out: &mut String, args: &Args) -> Result<(), NoMemory> {
    let body = Bytes::from_slice(alloc, args.at(3))?;
    let reply = Response {
        status: status_of(args),
        headers: Headers::new(alloc),
        body,
    };
    let told = put_rendered(alloc, out, &reply, args);
    drop(reply);
    told
}

fn put_rendered(
    alloc: Global,
    out: &mut String,
    reply: &Response,
    args: &Args,
) -> Result<(), NoMemory> {
    let bodiless = args.text(1) == "HEAD";
    let text = render_response(alloc, reply, bodiless, keeping_named(args.text(2)))?;
    put_bytes(out, text.as_slice())
}
