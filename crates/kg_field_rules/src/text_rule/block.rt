//! IPv4 addresses and blocks of them.

ghost use Rattle.std.specs.Prelude.{◌≡◌, ◌==◌, ◌<◌, ◌≤◌, ◌+◌, ◌^◌, ◌&&◌, ◌||◌, drop, IfOk, Some, None, if◌then◌else◌, length, map, nat_lt, nat_le, IsTrue};
ghost use Rattle.std.specs.List.{before_first, list_all, list_any, slice_split};
ghost use Rattle.std.specs.Char.{is_ascii_digit};
ghost use Rattle.std.specs.Str.Parse.{digits_value};
ghost use Rattle.kg_text.specs.Paths.{slash};
ghost use Rattle.kg_row_types.specs.ConfigTexts.{after_first, has_ipv4_block_form, is_decimal_within, is_ipv4, is_ipv4_block};

use crate::parts::{are_digits, number_of, split_before};
use kg_text::NoMemory;
use std::alloc::{AllocError, Global};

/// An IPv4 address, or a block: an address, `/` and 0 to 32.
pub fn is_ipv4_block(alloc: Global, text: &[u8]) -> Result<bool, NoMemory>
    ensures { IfOk result (λ is. is ≡ is_ipv4_block text.now) }
{
    if text.is_empty() || text.len() > 255 {
        return Ok(false);
    }
    has_ipv4_block_form(alloc, text)
}

fn has_ipv4_block_form(alloc: Global, text: &[u8]) -> Result<bool, NoMemory>
    ensures { IfOk result (λ has. has ≡ has_ipv4_block_form text.now) }
{
    let (address, behind) = split_before(b'/', text);
    Ok(is_ipv4(alloc, address)? && is_length(behind))
}

// Nothing, or `/` and 0 to 32.
fn is_length(behind: &[u8]) -> bool
    ensures { result ≡ (length behind.now == 0 || is_decimal_within 32 (drop 1 behind.now)) }
{
    match behind {
        [] => true,
        [_, digits @ ..] => is_decimal_within(32, digits),
    }
}

fn is_ipv4(alloc: Global, text: &[u8]) -> Result<bool, AllocError>
    ensures { IfOk result (λ is. is ≡ is_ipv4 text.now) }
{
    Ok(are_four_octets(parts_of(alloc, text)?.as_slice()))
}

fn are_four_octets(parts: &[&[u8]]) -> bool
    ensures { result ≡ (length parts.now == 4 && list_all (λ part. is_decimal_within 255 part.now) parts.now) }
{
    parts.len() == 4 && are_octets(parts)
}

fn are_octets(parts: &[&[u8]]) -> bool
    ensures { result ≡ list_all (λ part. is_decimal_within 255 part.now) parts.now }
{
    parts.iter().all(|part| is_decimal_within(255, part))
}

fn parts_of<'a>(alloc: Global, text: &'a [u8]) -> Result<Vec<&'a [u8]>, AllocError>
    ensures { IfOk result (λ parts. map (λ part. part.now) parts.items ≡ slice_split (λ b. b == 0x2E) text.now) }
{
    text.split(|b| *b == b'.').collect(alloc)
}

// A decimal number without a leading zero, up to a most.
fn is_decimal_within(most: u16, text: &[u8]) -> bool
    ensures { result ≡ is_decimal_within most text.now }
{
    if text.is_empty() || text.len() > 3 || !are_digits(text) {
        return false;
    }
    if text.len() > 1 && text[0] == b'0' {
        return false;
    }
    match number_of(text) {
        Some(n) => n <= most,
        None => false,
    }
}
