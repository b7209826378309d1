//! The request of a line.

use case_lines::Args;
use kg_message::{Headers, Request};
use kg_text::{Bytes, Name, NoMemory, Text, TextError};
use std::alloc::Global;

// Where the fields begin among the parts of a line.
const FIELDS: usize = 2;

// Where the last of them may stand.
const LAST: usize = 7;

/// A request of version 1.1 with this method and path, the Host `x` and nothing else.
pub fn request_of(alloc: Global, method: &str, path: &str) -> Result<Request, NoMemory> {
    let mut headers = Headers::new(alloc);
    add_field(alloc, &mut headers, "host", "x")?;
    Ok(Request {
        method: Bytes::from_slice(alloc, method.as_bytes())?,
        path: Text::from_str(alloc, path)?,
        query: None,
        minor: 1,
        host: Bytes::from_slice(alloc, b"x")?,
        headers,
        body: Bytes::new(alloc),
        framed: false,
        address: [127, 0, 0, 1],
    })
}

/// The same with the method, the path and the query, and the further fields of a line.
pub fn request_with(alloc: Global, args: &Args) -> Result<Request, NoMemory> {
    let (path, query) = target_of(args.text(1));
    let mut request = request_of(alloc, args.text(0), path)?;
    match set_rest(alloc, &mut request, query, args) {
        Ok(()) => Ok(request),
        Err(e) => {
            drop(request); // let go by name: a short proof
            Err(e)
        }
    }
}

fn target_of(target: &str) -> (&str, Option<&str>) {
    match target.split_once('?') {
        Some((path, query)) => (path, Some(query)),
        None => (target, None),
    }
}

fn set_rest(
    alloc: Global,
    request: &mut Request,
    query: Option<&str>,
    args: &Args,
) -> Result<(), NoMemory> {
    if let Some(query) = query {
        request.query = Some(Bytes::from_slice(alloc, query.as_bytes())?);
    }
    for place in FIELDS..=LAST {
        match args.text(place).split_once(": ") {
            Some((name, value)) => add_field(alloc, &mut request.headers, name, value)?,
            None => {}
        }
    }
    Ok(())
}

/// Adds a field, if its name is one.
pub fn add_field(
    alloc: Global,
    headers: &mut Headers,
    name: &str,
    value: &str,
) -> Result<(), NoMemory> {
    match Name::of(alloc, name.as_bytes()) {
        Ok(name) => headers.add(alloc, name, Bytes::from_slice(alloc, value.as_bytes())?),
        Err(TextError::Bad { .. }) => Ok(()),
        Err(TextError::NoMemory) => Err(NoMemory),
    }
}
