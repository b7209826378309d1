//! The head of a request, as its parts.

ghost use Rattle.std.specs.Prelude.{◌≡◌, [], IsTrue, IfOk, Ok, unwrap_or, codes, take, map};
ghost use Rattle.httparse.specs.Spans.{IsRequestWithin, header_bytes};
ghost use Rattle.kg_text.specs.Paths.{normal_form};
ghost use Rattle.kg_message.specs.HeaderLists.{first_value};
ghost use Rattle.kg_wire.specs.Messages.{header_of, request_with};
ghost use Rattle.kg_wire.specs.ReadingSteps.{HaveTokens, head_at};
ghost use Rattle.kg_wire.specs.Targets.{is_target, target_path, target_query};

use crate::checks::is_framed;
use crate::target::{path_len, target_query};
use httparse::spans::{HeaderSpan, RequestSpans};
use kg_message::{Headers, Request};
use kg_text::{Bytes, Name, NoMemory, Text, into_normal_form};
use std::alloc::Global;

/// The head of a request, copied out of the bytes that were read. Nothing of it was checked yet but
/// the grammar of a head.
#[derive(Drop)]
pub struct Head {
    pub method: Bytes,
    pub target: Bytes,
    /// The version is 1.`minor`.
    pub minor: u8,
    pub headers: Headers,
}

/// Copies a head out of the bytes that it was read from. The room tells where its fields are.
pub fn copy_head(
    alloc: Global,
    held: &[u8],
    room: &[HeaderSpan],
    spans: &RequestSpans,
) -> Result<Head, NoMemory>
    requires within { IsRequestWithin held.now room.now spans.now }
    requires names { HaveTokens held.now (take spans.now.headers room.now) }
    ensures { IfOk result (λ head. head ≡ head_at held.now room.now spans.now) }
{
    Ok(Head {
        method: Bytes::from_slice(alloc, spans.method.of(held))?,
        target: Bytes::from_slice(alloc, spans.path.of(held))?,
        minor: spans.version,
        headers: copy_headers(alloc, held, room, spans)?,
    })
}

fn copy_headers(
    alloc: Global,
    held: &[u8],
    room: &[HeaderSpan],
    spans: &RequestSpans,
) -> Result<Headers, NoMemory>
    requires within { IsRequestWithin held.now room.now spans.now }
    requires names { HaveTokens held.now (take spans.now.headers room.now) }
    ensures { IfOk result (λ headers. headers ≡ map header_of (map (header_bytes held.now) (take spans.now.headers room.now))) }
{
    let mut headers = Headers::with_capacity(alloc, spans.headers)?;
    let fields = room.split_at(spans.headers).0;
    for field in fields {
        let name = Name::of_token(alloc, field.name.of(held))?;
        let value = Bytes::from_slice(alloc, field.value.of(held))?;
        headers.add(alloc, name, value)?;
    }
    Ok(headers)
}

/// Makes the request of a head that passes all checks and of a body. `address` is the client's.
pub fn make_request(
    alloc: Global,
    head: Head,
    body: Bytes,
    address: [u8; 4],
) -> Result<Request, NoMemory>
    requires { IsTrue (is_target head.target) }
    ensures { IfOk result (λ request. request ≡ request_with address head body) }
{
    let framed = is_framed(&head);
    let Head {
        method,
        target,
        minor,
        headers,
    } = head;
    match parts_of(alloc, target, &headers) {
        Ok(Parts { path, query, host }) => Ok(Request {
            method,
            path,
            query,
            minor,
            host,
            headers,
            body,
            framed,
            address,
        }),
        Err(error) => {
            // let go by name: a short proof
            drop(method);
            drop(headers);
            drop(body);
            Err(error)
        }
    }
}

// What a request has beside the parts of its head.
#[derive(Drop)]
struct Parts {
    path: Text,
    query: Option<Bytes>,
    host: Bytes,
}

fn parts_of(alloc: Global, target: Bytes, headers: &Headers) -> Result<Parts, NoMemory>
    requires { IsTrue (is_target target) }
    ensures path { IfOk result (λ parts. normal_form (target_path target) ≡ Ok parts.path) }
    ensures query { IfOk result (λ parts. parts.query ≡ target_query target) }
    ensures host { IfOk result (λ parts. parts.host ≡ unwrap_or (first_value (codes "host") headers.now) []) }
{
    let query = query_of(alloc, target.as_slice())?;
    let host = host_of(alloc, headers)?;
    let path = path_of(alloc, target)?;
    Ok(Parts { path, query, host })
}

fn query_of(alloc: Global, target: &[u8]) -> Result<Option<Bytes>, NoMemory>
    ensures { IfOk result (λ query. query ≡ target_query target.now) }
{
    match target_query(target) {
        Some(query) => Ok(Some(Bytes::from_slice(alloc, query)?)),
        None => Ok(None),
    }
}

fn host_of(alloc: Global, headers: &Headers) -> Result<Bytes, NoMemory>
    ensures { IfOk result (λ host. host ≡ unwrap_or (first_value (codes "host") headers.now) []) }
{
    match headers.first(b"host") {
        Some(host) => Ok(Bytes::from_slice(alloc, host)?),
        None => Ok(Bytes::new(alloc)),
    }
}

// The normal form of a target's path. A path that is its own normal form isn't copied.
fn path_of(alloc: Global, target: Bytes) -> Result<Text, NoMemory>
    requires { IsTrue (is_target target) }
    ensures { IfOk result (λ text. normal_form (target_path target) ≡ Ok text) }
{
    into_normal_form(alloc, cut_path(target))
}

// What stands before the first `?`.
fn cut_path(mut target: Bytes) -> Bytes
    ensures { result ≡ target_path target }
{
    let len = path_len(target.as_slice());
    target.truncate(len);
    target
}
