//! Printing an upstream message.

ghost use Rattle.std.specs.Prelude.{◌≡◌, ◌++◌, IfOk, OnOk, codes, decimal};
ghost use Rattle.std.specs.List.{flat_map};
ghost use Rattle.std.specs.Net.Text.{ipv4_text};
ghost use Rattle.kg_print.specs.FieldLines.{field_line, field_lines};
ghost use Rattle.kg_print.specs.UpstreamText.{client_fields, forwarded_fields, forwarded_for, forwarded_value, upstream_text};

use crate::lines::{put_body, put_close, put_field, put_fields, put_stated_length, room_for};
use itoa::Buffer;
use kg_message::{Header, Headers, Request};
use kg_text::{Bytes, NoMemory};
use std::alloc::Global;

/// The message that is sent upstream, as bytes of HTTP/1.1: of `request` come the fields that tell of
/// the client, and the body; `headers` are the further fields.
pub fn render_request(
    alloc: Global,
    method: &[u8],
    target: &[u8],
    host: &[u8],
    request: &Request,
    headers: &Headers,
) -> Result<Bytes, NoMemory>
    ensures { IfOk result (λ bytes. bytes ≡ upstream_text method.now target.now host.now request.now headers.now) }
{
    let mut out = room_for(alloc, headers, &request.body)?;
    put_request_line(&mut out, method, target)?;
    put_field(&mut out, b"host", host)?;
    put_fields(&mut out, headers)?;
    put_client_fields(&mut out, request)?;
    put_stated_length(&mut out, request.framed, &request.body)?;
    put_close(&mut out)?;
    put_body(&mut out, true, &request.body)?;
    Ok(out)
}

fn put_request_line(out: &mut Bytes, method: &[u8], target: &[u8]) -> Result<(), NoMemory>
    ensures { OnOk result (out.new ≡ out.old ++ method.now ++ codes " " ++ target.now ++ codes " HTTP/1.1\r\n") }
{
    out.extend_from_slice(method)?;
    out.extend_from_slice(b" ")?;
    out.extend_from_slice(target)?;
    out.extend_from_slice(b" HTTP/1.1\r\n")
}

// Writes the fields that tell of the client.
fn put_client_fields(out: &mut Bytes, request: &Request) -> Result<(), NoMemory>
    ensures { OnOk result (out.new ≡ out.old ++ field_lines (client_fields request.now)) }
{
    put_forwarded(
        out,
        &request.headers,
        request.host.as_slice(),
        request.address,
    )
}

// The parts are handed in apart: a short proof.
fn put_forwarded(
    out: &mut Bytes,
    headers: &Headers,
    host: &[u8],
    address: [u8; 4],
) -> Result<(), NoMemory>
    ensures { let text = ipv4_text address in
        OnOk result (out.new ≡ out.old ++ field_lines (forwarded_fields (forwarded_for headers.now text) host.now text)) }
{
    put_forwarded_for(out, headers, address)?;
    put_scheme(out)?;
    put_field(out, b"x-forwarded-host", host)?;
    put_real_ip(out, address)?;
    Ok(())
}

// Writes the client's values of x-forwarded-for and then its address, joined by a comma and a space.
fn put_forwarded_for(out: &mut Bytes, headers: &Headers, address: [u8; 4]) -> Result<(), NoMemory>
    ensures { let value = forwarded_for headers.now (ipv4_text address) in
        OnOk result (out.new ≡ out.old ++ field_line (record { name = codes "x-forwarded-for"; value = value })) }
{
    out.extend_from_slice(b"x-forwarded-for: ")?;
    put_forwarded_values(out, headers)?;
    put_address(out, address)?;
    out.extend_from_slice(b"\r\n")?;
    Ok(())
}

// Writes the client's values of x-forwarded-for, each with a comma and a space behind it.
fn put_forwarded_values(out: &mut Bytes, headers: &Headers) -> Result<(), NoMemory>
    ensures { OnOk result (out.new ≡ out.old ++ flat_map forwarded_value headers.now) }
{
    for field in headers.as_slice() {
        put_forwarded_value(out, field)?;
    }
    Ok(())
}

fn put_forwarded_value(out: &mut Bytes, field: &Header) -> Result<(), NoMemory>
    ensures { OnOk result (out.new ≡ out.old ++ forwarded_value field.now) }
{
    if field.name.same(b"x-forwarded-for") {
        out.extend_from_slice(field.value.as_slice())?;
        out.extend_from_slice(b", ")?;
    }
    Ok(())
}

#[tactic(auto, unfolding(crate::specs::FieldLines::field_line))]
fn put_scheme(out: &mut Bytes) -> Result<(), NoMemory>
    ensures { OnOk result (out.new ≡ out.old ++ field_line (record { name = codes "x-forwarded-proto"; value = codes "http" })) }
{
    out.extend_from_slice(b"x-forwarded-proto: http\r\n")
}

fn put_real_ip(out: &mut Bytes, address: [u8; 4]) -> Result<(), NoMemory>
    ensures { OnOk result (out.new ≡ out.old ++ field_line (record { name = codes "x-real-ip"; value = ipv4_text address })) }
{
    out.extend_from_slice(b"x-real-ip: ")?;
    put_address(out, address)?;
    out.extend_from_slice(b"\r\n")?;
    Ok(())
}

// Writes an address in dotted decimal.
fn put_address(out: &mut Bytes, address: [u8; 4]) -> Result<(), NoMemory>
    ensures { OnOk result (out.new ≡ out.old ++ ipv4_text address) }
{
    let [first, second, third, fourth] = address;
    put_octet(out, first)?;
    out.push(b'.')?;
    put_octet(out, second)?;
    out.push(b'.')?;
    put_octet(out, third)?;
    out.push(b'.')?;
    put_octet(out, fourth)
}

fn put_octet(out: &mut Bytes, octet: u8) -> Result<(), NoMemory>
    ensures { OnOk result (out.new ≡ out.old ++ decimal octet) }
{
    out.extend_from_slice(Buffer::new().format(octet).as_bytes())
}
