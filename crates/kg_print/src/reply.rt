//! Printing a reply.

ghost use Rattle.std.specs.Prelude.{◌≡◌, ◌++◌, IfOk, OnOk, codes, decimal};
ghost use Rattle.kg_print.specs.FieldLines.{field_lines, line_end};
ghost use Rattle.kg_print.specs.ReplyText.{has_body, keeping_fields, phrase, reply_text};

use crate::connection::Keeping;
use crate::lines::{put_alive, put_body, put_close, put_fields, put_stated_length, room_for};
use http::StatusCode;
use itoa::Buffer;
use kg_message::Response;
use kg_text::{Bytes, NoMemory};
use std::alloc::Global;

/// The reply as bytes of HTTP/1.1. `bodiless` says that the request was by HEAD: its reply has no
/// length and no body, as one of status 204 or 304.
pub fn render_response(
    alloc: Global,
    response: &Response,
    bodiless: bool,
    keeping: Keeping,
) -> Result<Bytes, NoMemory>
    ensures { IfOk result (λ bytes. bytes ≡ reply_text response.now bodiless keeping) }
{
    let has_body = has_body(bodiless, response.status);
    let mut out = room_for(alloc, &response.headers, &response.body)?;
    put_status_line(&mut out, response.status)?;
    put_fields(&mut out, &response.headers)?;
    put_stated_length(&mut out, has_body, &response.body)?;
    put_keeping(&mut out, keeping)?;
    put_body(&mut out, has_body, &response.body)?;
    Ok(out)
}

fn has_body(bodiless: bool, status: u16) -> bool
    ensures { result ≡ has_body bodiless status }
{
    !(bodiless || status == 204 || status == 304)
}

fn put_status_line(out: &mut Bytes, status: u16) -> Result<(), NoMemory>
    ensures { OnOk result (out.new ≡ out.old ++ codes "HTTP/1.1 " ++ decimal status ++ codes " " ++ phrase status ++ line_end) }
{
    out.extend_from_slice(b"HTTP/1.1 ")?;
    out.extend_from_slice(Buffer::new().format(status).as_bytes())?;
    out.extend_from_slice(b" ")?;
    out.extend_from_slice(phrase(status).as_bytes())?;
    out.extend_from_slice(b"\r\n")
}

// The phrase that the standard gives to a status; nothing where it gives none.
#[tactic(auto, using(crate::proofs::PhraseLemmas::no_phrase), unfolding(crate::specs::ReplyText::phrase))]
fn phrase(status: u16) -> &'static str
    ensures { result.now ≡ phrase status }
{
    match StatusCode::from_u16(status) {
        Ok(code) => code.canonical_reason().unwrap_or(""),
        Err(_) => "",
    }
}

fn put_keeping(out: &mut Bytes, keeping: Keeping) -> Result<(), NoMemory>
    ensures { OnOk result (out.new ≡ out.old ++ field_lines (keeping_fields keeping)) }
{
    match keeping {
        Keeping::Silent => Ok(()),
        Keeping::Close => put_close(out),
        Keeping::Alive => put_alive(out),
    }
}
