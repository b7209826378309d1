//! Requests as lines write them.

use kg_message::{Headers, Request};
use kg_text::{Bytes, Name, NoMemory, Text, TextError};
use std::alloc::Global;

/// A request without fields and body.
pub fn blank_request(alloc: Global) -> Request {
    Request {
        method: Bytes::new(alloc),
        path: Text::new(alloc),
        query: None,
        minor: 1,
        host: Bytes::new(alloc),
        headers: Headers::new(alloc),
        body: Bytes::new(alloc),
        framed: false,
        address: [127, 0, 0, 1],
    }
}

/// What a line says of a request.
#[derive(Clone, Copy)]
pub struct Asked<'a> {
    pub method: &'a str,
    pub host: &'a [u8],
    /// Each as `name=value`, with a comma between two.
    pub fields: &'a str,
    pub path: &'a str,
}

/// Makes this the request that is asked for.
pub fn set_request(alloc: Global, request: &mut Request, asked: Asked<'_>) -> Result<(), NoMemory> {
    request.method = Bytes::from_slice(alloc, asked.method.as_bytes())?;
    request.host = Bytes::from_slice(alloc, asked.host)?;
    request.path = Text::from_str(alloc, asked.path)?;
    request.headers = Headers::new(alloc);
    put_fields(alloc, &mut request.headers, asked.fields)
}

fn put_fields(alloc: Global, headers: &mut Headers, fields: &str) -> Result<(), NoMemory> {
    for field in fields.split(',') {
        match field.split_once('=') {
            Some((name, value)) => put_field(alloc, headers, name, value)?,
            None => {}
        }
    }
    Ok(())
}

fn put_field(
    alloc: Global,
    headers: &mut Headers,
    name: &str,
    value: &str,
) -> Result<(), NoMemory> {
    match Name::of(alloc, name.as_bytes()) {
        Ok(name) => headers.add(alloc, name, Bytes::from_slice(alloc, value.as_bytes())?),
        Err(TextError::Bad { .. }) => Ok(()),
        Err(TextError::NoMemory) => Err(NoMemory),
    }
}
