//! Which route a request takes, by what is sent upstream.

use crate::whole::status_of;
use case_lines::{Args, put_bytes};
use kg_outside::{MemSink, MemSource, StillClock};
use kg_text::{Bytes, List, NoMemory};
use std::alloc::Global;
use std::str::from_utf8;

/// Adds, of a service with this path and these routes, the first line of what a GET for this path with these
/// further fields sends upstream; the status of the reply where it sends nothing.
pub fn put_routed(alloc: Global, out: &mut String, args: &Args) -> Result<(), NoMemory> {
    let mut source = MemSource::new(declared(alloc, args)?, 4096, List::new(alloc));
    let mut sink = MemSink::new(alloc, List::new(alloc));
    status_of(alloc, "dry", &mut source, &mut sink, &mut StillClock(0))?;
    put_bytes(out, first_sent(text_of(sink.written())).as_bytes())
}

fn text_of(bytes: &[u8]) -> &str {
    from_utf8(bytes).unwrap_or("")
}

fn declared(alloc: Global, args: &Args) -> Result<Bytes, NoMemory> {
    let mut bytes = Bytes::new(alloc);
    put_declaration(&mut bytes, args.at(0), args.at(1))?;
    put_get(&mut bytes, args.at(2), args.at(3))?;
    Ok(bytes)
}

fn put_declaration(bytes: &mut Bytes, service: &[u8], routes: &[u8]) -> Result<(), NoMemory> {
    bytes.extend_from_slice(b"{\"_format_version\":\"3.0\",\"services\":[{")?;
    bytes.extend_from_slice(b"\"url\":\"http://up.example:81")?;
    bytes.extend_from_slice(service)?;
    bytes.extend_from_slice(b"\",\"routes\":[")?;
    bytes.extend_from_slice(routes)?;
    bytes.extend_from_slice(b"]}]}\n")
}

fn put_get(bytes: &mut Bytes, path: &[u8], fields: &[u8]) -> Result<(), NoMemory> {
    bytes.extend_from_slice(b"GET ")?;
    bytes.extend_from_slice(path)?;
    bytes.extend_from_slice(b" HTTP/1.1\r\n")?;
    bytes.extend_from_slice(fields)?;
    bytes.extend_from_slice(b"\r\n")
}

// The line behind the head of the reply: the echo's body begins with what was sent.
fn first_sent(text: &str) -> &str {
    match text.split_once("\r\n\r\n") {
        Some((head, body)) => line_of(head, body),
        None => text,
    }
}

fn line_of<'a>(head: &'a str, body: &'a str) -> &'a str {
    match body.split_once("\r\n") {
        Some((line, _)) => line,
        None => status_of_head(head),
    }
}

fn status_of_head(head: &str) -> &str {
    match head.split_once("\r\n") {
        Some((line, _)) => line,
        None => head,
    }
}
