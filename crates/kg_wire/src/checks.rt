//! What a head must pass beside the grammar, and the length of the body that it states.

ghost use Rattle.std.specs.Prelude.{◌≡◌, IsAscii, codes};
ghost use Rattle.std.specs.List.{list_all};
ghost use Rattle.std.specs.Char.{is_ascii_digit};
ghost use Rattle.kg_message.specs.HeaderLists.{values_named};
ghost use Rattle.kg_wire.specs.Checks.{body_len, has_host, is_framed, is_length, length_of, passes_checks, stated_length};

use crate::head::Head;
use crate::target::is_target;
use kg_message::Headers;
use std::str::from_utf8;

/// The length in bytes of the body that follows a head, if the head passes all checks. It may be past
/// the limit.
pub fn body_len(head: &Head) -> Option<u64>
    ensures { result ≡ body_len head.now }
{
    if passes_checks(head) {
        stated_length(&head.headers)
    } else {
        None
    }
}

/// Does the head state how long the body is?
pub fn is_framed(head: &Head) -> bool
    ensures { result ≡ is_framed head.now }
{
    head.headers.count(b"content-length") > 0
}

fn passes_checks(head: &Head) -> bool
    ensures { result ≡ passes_checks head.now }
{
    is_target(head.target.as_slice())
        && has_host(head)
        && head.headers.count(b"transfer-encoding") == 0
}

// Has it one Host, or is it of version 1.0 and has none?
fn has_host(head: &Head) -> bool
    ensures { result ≡ has_host head.now }
{
    match head.headers.count(b"host") {
        0 => head.minor == 0,
        1 => true,
        _ => false,
    }
}

// What the Content-Length fields say of a body.
fn stated_length(headers: &Headers) -> Option<u64>
    ensures { result ≡ stated_length (values_named (codes "content-length") headers.now) }
{
    match headers.first(b"content-length") {
        Some(value) => {
            if headers.count(b"content-length") == 1 {
                length_of(value)
            } else {
                None
            }
        }
        None => Some(0),
    }
}

// The number that 1 to 19 digits give.
fn length_of(value: &[u8]) -> Option<u64>
    ensures { result ≡ length_of value.now }
{
    if !is_length(value) {
        return None;
    }
    digits_str(value).parse().ok()
}

fn is_length(value: &[u8]) -> bool
    ensures { result ≡ is_length value.now }
{
    !value.is_empty() && value.len() <= 19 && are_digits(value)
}

fn are_digits(value: &[u8]) -> bool
    ensures { result ≡ list_all is_ascii_digit value.now }
{
    value.iter().all(|b| b.is_ascii_digit())
}

fn digits_str(value: &[u8]) -> &str
    requires { IsAscii value.now }
    ensures { result.now ≡ value.now }
{
    match from_utf8(value) {
        Ok(text) => text,
        Err(_) => unreachable!(),
    }
}
