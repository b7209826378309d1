//! request-termination: every request ends with one reply.

ghost use Rattle.std.specs.Prelude.{◌≡◌, IfOk, unwrap_or};
ghost use Rattle.std.specs.Option.{option_copied};
ghost use Rattle.kg_guard.specs.RequestTermination.{json_type, known_message, numbered_message, reply_with_body, reply_with_message, request_termination, status_message};

use itoa::Buffer;
use kg_message::{Headers, Response, message};
use kg_row_types::config::Termination;
use kg_text::{Bytes, NoMemory, Text};
use std::alloc::Global;

/// The reply: the body, where one is told, or the gateway's message.
pub fn request_termination(alloc: Global, config: &Termination) -> Result<Response, NoMemory>
    ensures { IfOk result (λ response. response ≡ request_termination config.now) }
{
    match &config.body {
        Some(body) => reply_with_body(alloc, config.status_code, &config.content_type, body),
        None => reply_with_message(alloc, config.status_code, &config.message),
    }
}

fn reply_with_body(
    alloc: Global,
    status: u16,
    told: &Option<Text>,
    body: &Text,
) -> Result<Response, NoMemory>
    ensures { IfOk result (λ response. response ≡ reply_with_body status told.now body.now) }
{
    Ok(Response {
        status,
        headers: Headers::content_type(alloc, type_of(told))?,
        body: Bytes::from_slice(alloc, body.as_bytes())?,
    })
}

fn type_of(told: &Option<Text>) -> &[u8]
    ensures { result.now ≡ unwrap_or told.now json_type }
{
    match told {
        Some(text) => text.as_bytes(),
        None => b"application/json; charset=utf-8",
    }
}

fn reply_with_message(alloc: Global, status: u16, told: &Option<Text>) -> Result<Response, NoMemory>
    ensures { IfOk result (λ response. response ≡ reply_with_message status told.now) }
{
    match told {
        Some(text) => message(alloc, status, text.as_bytes()),
        None => {
            let text = status_message(alloc, status)?;
            message(alloc, status, text.as_slice())
        }
    }
}

// The message of a status for which none is told.
fn status_message(alloc: Global, status: u16) -> Result<Bytes, NoMemory>
    ensures { IfOk result (λ text. text ≡ status_message status) }
{
    match known_message(status) {
        Some(text) => Bytes::from_slice(alloc, text.as_bytes()),
        None => numbered(alloc, status),
    }
}

// The table of the statuses that have a message of their own.
fn known_message(status: u16) -> Option<&'static str>
    ensures { option_copied result ≡ known_message status }
{
    match status {
        401 => Some("Unauthorized"),
        403 => Some("Forbidden"),
        404 => Some("Not found"),
        405 => Some("Method not allowed"),
        500 => Some("An unexpected error occurred"),
        502 => Some("Bad gateway"),
        503 => Some("Service unavailable"),
        _ => None,
    }
}

fn numbered(alloc: Global, status: u16) -> Result<Bytes, NoMemory>
    ensures { IfOk result (λ text. text ≡ numbered_message status) }
{
    let mut text = Bytes::from_slice(alloc, b"Status ")?;
    text.extend_from_slice(Buffer::new().format(status).as_bytes())?;
    Ok(text)
}
