//! Parts of messages, and the gateway's own replies.

use crate::fields::put_fields;
use case_lines::{Args, put, put_bytes, put_number, put_truth, put_unknown};
use kg_message::{Response, has_element, message, trim_blanks};
use kg_text::NoMemory;
use std::alloc::Global;

pub fn put_message_answer(
    alloc: Global,
    out: &mut String,
    call: &str,
    args: &Args,
) -> Result<(), NoMemory> {
    match call {
        "reply" => put_own_reply(alloc, out, args),
        "element" => put_truth(out, has_element(args.at(0), args.at(1))),
        "trim" => put_bytes(out, trim_blanks(args.at(0))),
        _ => put_unknown(out),
    }
}

fn put_own_reply(alloc: Global, out: &mut String, args: &Args) -> Result<(), NoMemory> {
    let reply = message(alloc, status_of(args), args.at(1))?;
    let told = put_reply(out, &reply);
    drop(reply);
    told
}

/// The status that the first argument tells.
pub fn status_of(args: &Args) -> u16 {
    args.text(0).parse().unwrap_or(500)
}

// The status, the fields and the body.
fn put_reply(out: &mut String, reply: &Response) -> Result<(), NoMemory> {
    put_number(out, u64::from(reply.status))?;
    put(out, " ")?;
    put_fields(out, &reply.headers)?;
    put(out, " ")?;
    put_bytes(out, reply.body.as_slice())
}
