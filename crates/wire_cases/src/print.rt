//! Requests, and how their reading ends, as they are printed.

use case_lines::{put, put_bytes, put_value};
use kg_message::{Header, Headers, Request};
use kg_text::{Bytes, NoMemory};
use kg_wire::ReadError;

// How many fields are printed at most; of more only the number is.
const MOST_FIELDS: usize = 20;

/// Adds why the next request could not be had.
pub fn put_end(out: &mut String, error: ReadError) -> Result<(), NoMemory> {
    match error {
        ReadError::Bad { at } => put_counted(out, "bad at ", at),
        ReadError::Cut { have } => put_counted(out, "cut after ", have),
        ReadError::HeadTooLarge => put(out, "head too large"),
        ReadError::BodyTooLarge => put(out, "body too large"),
        ReadError::ReadFault => put(out, "fault"),
        ReadError::NoMemory => Err(NoMemory),
    }
}

fn put_counted(out: &mut String, text: &'static str, number: u64) -> Result<(), NoMemory> {
    write!(out, "{text}{number}")?;
    Ok(())
}

/// Adds the method, the path and the query, the version, the host, the fields, and the body where its length
/// is stated.
pub fn put_request(out: &mut String, request: &Request) -> Result<(), NoMemory> {
    put_line(out, request)?;
    put_bytes(out, request.host.as_slice())?;
    put(out, " ")?;
    put_fields(out, &request.headers)?;
    put_body(out, request.framed, request.body.as_slice())?;
    put(out, ", ")
}

fn put_line(out: &mut String, request: &Request) -> Result<(), NoMemory> {
    put_bytes(out, request.method.as_slice())?;
    put(out, " ")?;
    put_bytes(out, request.path.as_bytes())?;
    put_query(out, &request.query)?;
    write!(out, " 1.{} ", request.minor)?;
    Ok(())
}

fn put_query(out: &mut String, query: &Option<Bytes>) -> Result<(), NoMemory> {
    match query {
        Some(query) => {
            put(out, "?")?;
            put_bytes(out, query.as_slice())
        }
        None => Ok(()),
    }
}

fn put_fields(out: &mut String, fields: &Headers) -> Result<(), NoMemory> {
    if fields.len() > MOST_FIELDS {
        return put_field_count(out, fields.len());
    }
    for field in fields.as_slice() {
        put_field(out, field)?;
    }
    Ok(())
}

fn put_field_count(out: &mut String, count: usize) -> Result<(), NoMemory> {
    write!(out, "{count} fields")?;
    Ok(())
}

fn put_field(out: &mut String, field: &Header) -> Result<(), NoMemory> {
    put(out, "[")?;
    put(out, field.name.as_str())?;
    put(out, ": ")?;
    put_value(out, field.value.as_slice())?;
    put(out, "]")
}

fn put_body(out: &mut String, framed: bool, body: &[u8]) -> Result<(), NoMemory> {
    if !framed {
        return Ok(());
    }
    put(out, " {")?;
    put_value(out, body)?;
    put(out, "}")
}
