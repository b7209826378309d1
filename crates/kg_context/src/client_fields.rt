//! The client's fields that the gateway passes on.

ghost use Rattle.std.specs.Prelude.{◌≡◌, IfOk};
ghost use Rattle.kg_context.specs.UpstreamFields.{goes_upstream, is_stated, upstream_fields};

use kg_message::{Header, Headers, is_among, is_hop_by_hop};
use kg_text::{NoMemory, TryClone};
use std::alloc::Global;

// `expect`, which the gateway answers itself, and what it states anew of the message, the client and the
// consumer.
const STATED_NAMES: [&str; 13] = [
    "host",
    "content-length",
    "expect",
    "x-forwarded-for",
    "x-forwarded-proto",
    "x-forwarded-host",
    "x-real-ip",
    "x-consumer-id",
    "x-consumer-custom-id",
    "x-consumer-username",
    "x-consumer-groups",
    "x-credential-identifier",
    "x-anonymous-consumer",
];

// Memory for fields that plugins add: those of a consumer with a credential, and of its groups.
const ADDED_FIELDS: usize = 5;

/// A copy of those of a client's fields that the gateway passes on, with memory for those of a consumer.
pub fn upstream_fields(alloc: Global, headers: &Headers) -> Result<Headers, NoMemory>
    ensures { IfOk result (λ fields. fields ≡ upstream_fields headers.now) }
{
    let room = headers.len().saturating_add(ADDED_FIELDS);
    let mut fields = Headers::with_capacity(alloc, room)?;
    for field in headers.as_slice() {
        if goes_upstream(headers, field) {
            fields.add(
                alloc,
                field.name.copy(alloc)?,
                field.value.try_clone(alloc)?,
            )?;
        }
    }
    Ok(fields)
}

fn goes_upstream(headers: &Headers, field: &Header) -> bool
    ensures { result ≡ goes_upstream headers.now field.now }
{
    !is_stated(field) && !is_hop_by_hop(headers, field)
}

// States the gateway this field itself, or answers it?
fn is_stated(field: &Header) -> bool
    ensures { result ≡ is_stated field.now }
{
    is_among(&STATED_NAMES, field)
}
