//! The gateway's own replies.

ghost use Rattle.std.specs.Prelude.{◌≡◌, IfOk};
ghost use Rattle.std.specs.Str.Lossy.{utf8_lossy};
ghost use Rattle.serde_json.specs.View.{view};
ghost use Rattle.serde_json.specs.Written.{compact_text};
ghost use Rattle.kg_message.specs.GatewayMessage.{gateway_message, message_object};

use crate::headers::Headers;
use crate::response::Response;
use kg_text::{Bytes, NoMemory};
use serde_json::{Value, json};
use std::alloc::{AllocError, Global};
use std::str::from_utf8;

/// The reply with this status, whose body is an object of JSON with the text as its `message`. The text
/// is read as UTF-8: what isn't UTF-8 in it is replaced by U+FFFD, as `String::from_utf8_lossy` does.
pub fn message(alloc: Global, status: u16, text: &[u8]) -> Result<Response, NoMemory>
    ensures { IfOk result (λ response. response ≡ gateway_message status text.now) }
{
    Ok(Response {
        status,
        headers: Headers::content_type(alloc, b"application/json; charset=utf-8")?,
        body: message_body(alloc, text)?,
    })
}

// Only bytes that are no UTF-8 are copied.
fn message_body(alloc: Global, text: &[u8]) -> Result<Bytes, NoMemory>
    ensures { IfOk result (λ body. body ≡ compact_text (message_object (utf8_lossy text.now))) }
{
    match from_utf8(text) {
        Ok(valid) => body_with(alloc, valid),
        Err(_) => body_with(alloc, String::from_utf8_lossy(alloc, text)?.as_str()),
    }
}

fn body_with(alloc: Global, text: &str) -> Result<Bytes, NoMemory>
    ensures { IfOk result (λ body. body ≡ compact_text (message_object text.now)) }
{
    let body = message_object(alloc, text)?.to_string(alloc)?;
    Ok(Bytes::from_vec(body.into_bytes()))
}

fn message_object(alloc: Global, text: &str) -> Result<Value, AllocError>
    ensures { IfOk result (λ object. view object ≡ message_object text.now) }
{
    json!(in alloc; {"message": text})
}
