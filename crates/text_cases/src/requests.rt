//! Requests, as far as what is printed tells of them.

ghost use Rattle.std.specs.Prelude.{◌<◌};

use case_lines::Args;
use kg_message::{Headers, Request};
use kg_text::{Bytes, Name, NoMemory, TextError};
use std::alloc::Global;

/// Gives the request the version, the host, the fields, and the body if there is one: the arguments from
/// `index` on. A field is `Name: value`, and each but the first stands behind a line feed.
pub fn set_request(
    alloc: Global,
    request: &mut Request,
    args: &Args,
    index: usize,
) -> Result<(), NoMemory>
    requires { index < 8 }
{
    request.minor = args.text(index).parse().unwrap_or(1);
    request.host = Bytes::from_slice(alloc, args.at(index + 1))?;
    request.headers = Headers::new(alloc);
    add_fields(alloc, &mut request.headers, args.text(index + 2))?;
    request.framed = args.has(index + 3);
    request.body = Bytes::from_slice(alloc, args.at(index + 3))?;
    Ok(())
}

fn add_fields(alloc: Global, headers: &mut Headers, lines: &str) -> Result<(), NoMemory> {
    for line in lines.split('\n') {
        match line.split_once(": ") {
            Some((name, value)) => add_field(alloc, headers, name, value)?,
            None => {}
        }
    }
    Ok(())
}

fn add_field(
    alloc: Global,
    headers: &mut Headers,
    name: &str,
    value: &str,
) -> Result<(), NoMemory> {
    match Name::of(alloc, name.as_bytes()) {
        Ok(name) => headers.add(alloc, name, Bytes::from_slice(alloc, value.as_bytes())?),
        Err(TextError::Bad { .. }) => Ok(()),
        Err(TextError::NoMemory) => Err(NoMemory),
    }
}
