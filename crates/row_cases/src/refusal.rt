//! Refusals, as the Admin API tells them.

use case_lines::{put, put_bytes, put_number};
use kg_declare::refusal_response;
use kg_message::Response;
use kg_rows::Refusal;
use kg_text::NoMemory;
use std::alloc::Global;

/// Adds the status and the body of the reply to a refusal.
pub fn put_refusal(alloc: Global, out: &mut String, refusal: &Refusal) -> Result<(), NoMemory> {
    let response = refusal_response(alloc, refusal)?;
    let told = put_reply(out, &response);
    drop(response); // let go by name: a short proof
    told
}

/// Adds a reply's status and body.
pub fn put_reply(out: &mut String, response: &Response) -> Result<(), NoMemory> {
    put_number(out, u64::from(response.status))?;
    put(out, " ")?;
    put_bytes(out, response.body.as_slice())
}
