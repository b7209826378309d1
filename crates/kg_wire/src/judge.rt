//! What the bytes at hand are: a whole head, the beginning of one, or neither.

ghost use Rattle.std.specs.Prelude.{◌≡◌, ◌≤◌, ◌<◌, List, None, IfOk, IfSome, OnOk, length};
ghost use Rattle.httparse.specs.Grammar.{NeverHasRequest};
ghost use Rattle.httparse.specs.declared.spans.HeaderSpan.{HeaderSpan as ASpan};
ghost use Rattle.kg_wire.specs.ReadingSteps.{Judges};

use crate::open_target::ends_in_target;
use httparse::spans::{EMPTY_HEADER_SPAN, HeaderSpan, RequestSpans, parse_request};
use httparse::{Error, Status};
use kg_text::NoMemory;

/// The length of the longest head, in bytes.
pub const MOST_HEAD: usize = 65_536;

// No head within its limit has more fields, since each takes three bytes at least.
const MOST_FIELDS: usize = 21_845;

/// As many fields as most heads have at most.
pub const FIRST_FIELDS: usize = 64;

/// What some bytes begin with.
pub enum Judged {
    /// A whole head within its limit.
    Whole(RequestSpans),
    /// No whole head yet, but one may come.
    Open,
    /// Bytes that are refused, whatever follows.
    Never,
}

/// Judges the bytes from the first one of a message on. The room, which grows as it has to, tells where
/// the fields of a whole head are.
pub fn judge(held: &[u8], room: &mut Vec<HeaderSpan>) -> Result<Judged, NoMemory>
    ensures { IfOk result (Judges held.now room.new.items) }
{
    loop {
        if let Some(judged) = judge_within(held, room.as_mut_slice()) {
            return Ok(judged);
        }
        widen(room)?;
    }
}

// Judges the bytes, if the fields of a head that may stand there have room.
fn judge_within(held: &[u8], room: &mut [HeaderSpan]) -> Option<Judged>
    ensures some { IfSome result (Judges held.now room.new) }
    ensures none { result ≡ None → length room.new < MOST_FIELDS }
{
    if held.is_empty() {
        return Some(Judged::Open);
    }
    match parse_request(held, room) {
        Ok(Status::Complete(spans)) => {
            if spans.len <= MOST_HEAD {
                Some(Judged::Whole(spans))
            } else {
                Some(Judged::Never)
            }
        }
        Ok(Status::Partial) => {
            if held.len() < MOST_HEAD {
                Some(Judged::Open)
            } else {
                Some(Judged::Never)
            }
        }
        Err(error) => match error {
            Error::TooManyHeaders => {
                if room.len() < MOST_FIELDS {
                    None
                } else {
                    Some(Judged::Never)
                }
            }
            _ => Some(judge_invalid(held)),
        },
    }
}

// Judges bytes that no head begins with: they are refused, unless they end in a target.
fn judge_invalid(held: &[u8]) -> Judged
    requires some { 0 < length held.now }
    requires never { NeverHasRequest held.now }
    ensures { (room : List ASpan) → Judges held.now room result }
{
    if held.len() >= MOST_HEAD {
        return Judged::Never;
    }
    if ends_in_target(held) {
        Judged::Open
    } else {
        Judged::Never
    }
}

// Gives the room space for more fields.
fn widen(room: &mut Vec<HeaderSpan>) -> Result<(), NoMemory>
    requires { length room.old.items < MOST_FIELDS }
    ensures { OnOk result ((length room.old.items < length room.new.items) × (length room.new.items ≤ MOST_FIELDS)) }
{
    let len = MOST_FIELDS.min(4 * room.len() + FIRST_FIELDS);
    room.resize(len, EMPTY_HEADER_SPAN)?;
    Ok(())
}
