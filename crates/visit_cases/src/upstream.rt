//! The upstream's answer of a line.

use crate::request::add_field;
use case_lines::Args;
use kg_context::Upstream;
use kg_message::{Headers, Response};
use kg_text::{Bytes, NoMemory};
use std::alloc::Global;

// Where the answer begins among the parts of a line.
const STATUS: usize = 2;

// Where its last part may stand.
const LAST: usize = 7;

/// The answer of `fault`, `not http`, or a status, fields and a body.
pub fn answer_of(alloc: Global, args: &Args) -> Result<Upstream, NoMemory> {
    match args.text(STATUS) {
        "fault" => Ok(Upstream::Fault),
        "not http" => Ok(Upstream::NotHttp),
        status => Ok(Upstream::Answered(response_of(alloc, status.parse().unwrap_or(200), args)?)),
    }
}

fn response_of(alloc: Global, status: u16, args: &Args) -> Result<Response, NoMemory> {
    let mut response = Response {
        status,
        headers: Headers::new(alloc),
        body: Bytes::new(alloc),
    };
    for place in STATUS + 1..=LAST {
        set_part(alloc, args.text(place), &mut response)?;
    }
    Ok(response)
}

fn set_part(alloc: Global, part: &str, response: &mut Response) -> Result<(), NoMemory> {
    if let Some(body) = part.strip_prefix("= ") {
        response.body = Bytes::from_slice(alloc, body.as_bytes())?;
        return Ok(());
    }
    match part.split_once(": ") {
        Some((name, value)) => add_field(alloc, &mut response.headers, name, value),
        None => Ok(()),
    }
}
