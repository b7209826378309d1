//! The path that the upstream is asked for.

ghost use Rattle.std.specs.Prelude.{◌≡◌, ◌++◌, IfOk, OnOk};
ghost use Rattle.kg_router.specs.Found.{choice_at};
ghost use Rattle.kg_upstream.specs.UpstreamPath.{base_of, joined_path, path_for, rest_of, slash_joined, without_first_slash, without_last_slash};

use kg_message::Request;
use kg_router::Choice;
use kg_row_types::service::Service;
use kg_text::{Bytes, NoMemory};
use std::alloc::Global;

/// The path that the upstream is asked for: the service's path joined with what is left of the request's.
pub fn path_for(alloc: Global, choice: &Choice<'_>, request: &Request) -> Result<Bytes, NoMemory>
    ensures { IfOk result (λ path. path ≡ path_for (choice_at choice.now) request.now) }
{
    let base = base_path(choice.service);
    let rest = rest_of(choice, request.path.as_bytes());
    let room = base.len().saturating_add(rest.len()).saturating_add(1);
    let mut path = Bytes::with_capacity(alloc, room)?;
    put_path(&mut path, base, rest)?;
    Ok(path)
}

// Writes the service's path joined with what is left of the request's.
fn put_path(out: &mut Bytes, base: &[u8], rest: &[u8]) -> Result<(), NoMemory>
    ensures { OnOk result (out.new ≡ out.old ++ joined_path base.now rest.now) }
{
    if rest.is_empty() {
        out.extend_from_slice(base)
    } else {
        put_joined(out, base, rest)
    }
}

// Writes the base and the rest with one `/` between them.
fn put_joined(out: &mut Bytes, base: &[u8], rest: &[u8]) -> Result<(), NoMemory>
    ensures { OnOk result (out.new ≡ out.old ++ slash_joined base.now rest.now) }
{
    out.extend_from_slice(without_last_slash(base))?;
    out.push(b'/')?;
    out.extend_from_slice(without_first_slash(rest))
}

// The service's path, or `/`.
fn base_path(service: &Service) -> &[u8]
    ensures { result.now ≡ base_of service.now }
{
    match &service.path {
        Some(path) => path.as_bytes(),
        None => b"/",
    }
}

// What is left of the request's path.
fn rest_of<'a>(choice: &Choice<'_>, path: &'a [u8]) -> &'a [u8]
    ensures { result.now ≡ rest_of (choice_at choice.now) path.now }
{
    if choice.route.strip_path {
        path.get(choice.cut..).unwrap_or(b"")
    } else {
        path
    }
}

fn without_last_slash(path: &[u8]) -> &[u8]
    ensures { result.now ≡ without_last_slash path.now }
{
    path.strip_suffix(b"/").unwrap_or(path)
}

fn without_first_slash(path: &[u8]) -> &[u8]
    ensures { result.now ≡ without_first_slash path.now }
{
    path.strip_prefix(b"/").unwrap_or(path)
}
