//! The echo that stands for every upstream of a dry run.

ghost use Rattle.std.specs.Prelude.{◌≡◌, IfOk};
ghost use Rattle.kg_context.specs.Echo.{echo_of};

use kg_message::{Headers, Response};
use kg_text::{Bytes, NoMemory};
use std::alloc::Global;

/// The echo's answer to a message: the whole message as text.
pub fn echo_of(alloc: Global, message: Bytes) -> Result<Response, NoMemory>
    ensures { IfOk result (λ response. response ≡ echo_of message) }
{
    Ok(Response {
        status: 200,
        headers: Headers::content_type(alloc, b"text/plain")?,
        body: message,
    })
}
