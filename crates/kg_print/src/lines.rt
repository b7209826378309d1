//! The lines that all printed messages share.

ghost use Rattle.std.specs.Prelude.{◌≡◌, [], ◌∷◌, ◌++◌, IfOk, OnOk, codes, if◌then◌else◌};
ghost use Rattle.kg_print.specs.FieldLines.{connection, content_length, field_line, field_lines, line_end, stated_length};

use itoa::Buffer;
use kg_message::Headers;
use kg_text::{Bytes, NoMemory};
use std::alloc::Global;

// Memory for a first line and for the fields that are stated besides those of a list.
const HEAD_ROOM: usize = 512;

// How many bytes of a field line are neither name nor value: `: ` and the line's end.
const LINE_MARKS: usize = 4;

/// An empty buffer, with memory for a first line, these fields and the few that are stated besides, and
/// this body.
pub fn room_for(alloc: Global, headers: &Headers, body: &Bytes) -> Result<Bytes, NoMemory>
    ensures { IfOk result (λ out. out ≡ []) }
{
    let head = HEAD_ROOM.saturating_add(fields_len(headers));
    let room = Vec::with_capacity(alloc, head.saturating_add(body.len()))?;
    Ok(Bytes::from_vec(room))
}

// How many bytes the lines of these fields have, as far as a `usize` holds it.
fn fields_len(headers: &Headers) -> usize {
    let mut len: usize = 0;
    for field in headers.as_slice() {
        len = len
            .saturating_add(field.name.bytes().len())
            .saturating_add(field.value.len())
            .saturating_add(LINE_MARKS);
    }
    len
}

/// Writes the field that says that the connection ends.
#[tactic(auto, unfolding(crate::specs::FieldLines::field_line))]
pub fn put_close(out: &mut Bytes) -> Result<(), NoMemory>
    ensures { OnOk result (out.new ≡ out.old ++ field_lines (connection (codes "close") ∷ [])) }
{
    out.extend_from_slice(b"connection: close\r\n")
}

/// Writes the field that says that the connection is kept.
#[tactic(auto, unfolding(crate::specs::FieldLines::field_line))]
pub fn put_alive(out: &mut Bytes) -> Result<(), NoMemory>
    ensures { OnOk result (out.new ≡ out.old ++ field_lines (connection (codes "keep-alive") ∷ [])) }
{
    out.extend_from_slice(b"connection: keep-alive\r\n")
}

/// Ends the head, and writes the body where there is one.
pub fn put_body(out: &mut Bytes, has_body: bool, body: &Bytes) -> Result<(), NoMemory>
    ensures { OnOk result (out.new ≡ out.old ++ line_end ++ (if has_body then body.now else [])) }
{
    out.extend_from_slice(b"\r\n")?;
    if has_body {
        out.extend_from_slice(body.as_slice())?;
    }
    Ok(())
}

/// Writes the field that tells a body's length, where it is stated.
pub fn put_stated_length(out: &mut Bytes, is_stated: bool, body: &Bytes) -> Result<(), NoMemory>
    ensures { OnOk result (out.new ≡ out.old ++ field_lines (stated_length is_stated body.now)) }
{
    if is_stated {
        put_length(out, body)?;
    }
    Ok(())
}

fn put_length(out: &mut Bytes, body: &Bytes) -> Result<(), NoMemory>
    ensures { OnOk result (out.new ≡ out.old ++ field_lines (content_length body.now ∷ [])) }
{
    put_field(
        out,
        b"content-length",
        Buffer::new().format(body.len()).as_bytes(),
    )
}

/// Writes the fields of a list, in their order.
pub fn put_fields(out: &mut Bytes, headers: &Headers) -> Result<(), NoMemory>
    ensures { OnOk result (out.new ≡ out.old ++ field_lines headers.now) }
{
    for field in headers.as_slice() {
        put_field(out, field.name.bytes(), field.value.as_slice())?;
    }
    Ok(())
}

/// Writes one field.
#[tactic(auto, unfolding(crate::specs::FieldLines::field_line))]
pub fn put_field(out: &mut Bytes, name: &[u8], value: &[u8]) -> Result<(), NoMemory>
    ensures { OnOk result (out.new ≡ out.old ++ field_line (record { name = name.now; value = value.now })) }
{
    out.extend_from_slice(name)?;
    out.extend_from_slice(b": ")?;
    out.extend_from_slice(value)?;
    out.extend_from_slice(b"\r\n")
}
