//! The reply to a request that no plugin touches, where an echo answers it.

ghost use Rattle.std.specs.Prelude.{◌≡◌, ◌++◌, not, codes, IfOk, OnOk};
ghost use Rattle.kg_context.specs.Echo.{echo_of};
ghost use Rattle.kg_context.specs.declared.upstream.Upstream.TheVariants.{Answered};
ghost use Rattle.kg_print.specs.FieldLines.{field_lines};
ghost use Rattle.kg_print.specs.ReplyText.{keeping_fields, reply_text};
ghost use Rattle.kg_upstream.specs.UpstreamMessage.{reply_of};
ghost use Rattle.kg_direct.specs.EchoText.{head_start};

use itoa::Buffer;
use kg_print::connection::Keeping;
use kg_print::lines::{put_alive, put_body, put_close, put_stated_length};
use kg_text::{Bytes, NoMemory};
use std::alloc::Global;

// Memory for what stands before the body.
const HEAD_ROOM: usize = 128;

/// The text of the reply that the echo of a message becomes, where no plugin changes it: what `render_response` prints
/// of `reply_by_echo`, without the reply between them. `bodiless` says that the request was by HEAD.
pub fn echo_text(
    alloc: Global,
    message: &Bytes,
    bodiless: bool,
    keeping: Keeping,
) -> Result<Bytes, NoMemory>
    ensures { IfOk result (λ text. text ≡ reply_text (reply_of (Answered (echo_of message.now))) bodiless keeping) }
{
    let room = HEAD_ROOM.saturating_add(message.len());
    let mut out = Bytes::from_vec(Vec::with_capacity(alloc, room)?);
    put_head_start(&mut out)?;
    put_stated_length(&mut out, !bodiless, message)?;
    put_keeping(&mut out, keeping)?;
    put_body(&mut out, !bodiless, message)?;
    Ok(out)
}

// Writes the status line and the type of the body.
#[tactic(auto, unfolding(crate::specs::EchoText::head_start))]
fn put_head_start(out: &mut Bytes) -> Result<(), NoMemory>
    ensures { OnOk result (out.new ≡ out.old ++ head_start) }
{
    out.extend_from_slice(b"HTTP/1.1 ")?;
    out.extend_from_slice(Buffer::new().format(200u16).as_bytes())?;
    out.extend_from_slice(b" OK\r\ncontent-type: text/plain\r\n")
}

fn put_keeping(out: &mut Bytes, keeping: Keeping) -> Result<(), NoMemory>
    ensures { OnOk result (out.new ≡ out.old ++ field_lines (keeping_fields keeping)) }
{
    match keeping {
        Keeping::Silent => Ok(()),
        Keeping::Close => put_close(out),
        Keeping::Alive => put_alive(out),
    }
}
