//! What a request wants, as it is printed.

use case_lines::{put, put_bytes};
use kg_context::UpRequest;
use kg_message::Response;
use kg_text::NoMemory;
use kg_visit::Want;

/// Adds `upstream HOST PORT RETRIES MESSAGE`, with `head` before the message where its answer has no body; or
/// `done STATUS` with the fields and the body, if it has any.
pub fn put_want(out: &mut String, want: &Want) -> Result<(), NoMemory> {
    match want {
        Want::Upstream(message) => put_message(out, message),
        Want::Done(response) => put_response(out, response),
        Want::Entity(_) => put(out, "a value"),
        Want::Count(_) => put(out, "a verdict"),
    }
}

fn put_message(out: &mut String, message: &UpRequest) -> Result<(), NoMemory> {
    let head = if message.head_only { "head " } else { "" };
    let host = message.target.host.as_str();
    write!(
        out,
        "upstream {host} {} {} {head}",
        message.target.port, message.retries
    )?;
    put_bytes(out, message.bytes.as_slice())
}

fn put_response(out: &mut String, response: &Response) -> Result<(), NoMemory> {
    write!(out, "done {}", response.status)?;
    for field in response.headers.as_slice() {
        put(out, " | ")?;
        put(out, field.name.as_str())?;
        put(out, ": ")?;
        put_bytes(out, field.value.as_slice())?;
    }
    put_body(out, response.body.as_slice())
}

fn put_body(out: &mut String, body: &[u8]) -> Result<(), NoMemory> {
    if body.is_empty() {
        return Ok(());
    }
    put(out, " | = ")?;
    put_bytes(out, body)
}
