//! Fields that concern one connection alone (RFC 9110, section 7.6.1).

ghost use Rattle.std.specs.Prelude.{◌≡◌, IfOk};
ghost use Rattle.std.specs.List.{list_any};
ghost use Rattle.kg_message.specs.HeaderLists.{is_named};
ghost use Rattle.kg_message.specs.HopByHop.{connection_names, end_to_end, is_among, is_hop_by_hop, passes};

use crate::header::Header;
use crate::headers::Headers;
use kg_text::{NoMemory, TryClone};
use std::alloc::Global;

// The names that always concern one connection alone.
const CONNECTION_NAMES: [&str; 7] = [
    "connection",
    "keep-alive",
    "proxy-connection",
    "te",
    "trailer",
    "transfer-encoding",
    "upgrade",
];

/// A copy of the fields of a message that are passed on: those that don't concern one connection alone.
/// Content-Length isn't among them, since whoever prints the message states it anew.
pub fn end_to_end(alloc: Global, headers: &Headers) -> Result<Headers, NoMemory>
    ensures { IfOk result (λ kept. kept ≡ end_to_end headers.now) }
{
    let mut kept = Headers::with_capacity(alloc, headers.len())?;
    for field in headers.as_slice() {
        if passes(headers, field) {
            kept.add(
                alloc,
                field.name.try_clone(alloc)?,
                field.value.try_clone(alloc)?,
            )?;
        }
    }
    Ok(kept)
}

fn passes(headers: &Headers, field: &Header) -> bool
    ensures { result ≡ passes headers.now field.now }
{
    !(is_hop_by_hop(headers, field) || field.name.same(b"content-length"))
}

/// Does the field, one of a message with these headers, concern one connection alone? So do those with
/// seven fixed names, and those that a Connection field lists.
pub fn is_hop_by_hop(headers: &Headers, field: &Header) -> bool
    ensures { result ≡ is_hop_by_hop headers.now field.now }
{
    is_among(&CONNECTION_NAMES, field) || headers.lists(b"connection", field.name.bytes())
}

/// Has the field one of these names, given in any case?
pub fn is_among(names: &[&str], field: &Header) -> bool
    ensures { result ≡ list_any (λ name. is_named name.now field.now) names.now }
{
    names.iter().any(|name| field.name.same(name.as_bytes()))
}
