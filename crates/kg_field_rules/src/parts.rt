//! Parts of texts: what stands before a byte and behind it, and decimal numbers.

ghost use Rattle.std.specs.Prelude.{◌≡◌, ◌==◌, ◌<◌, ◌≤◌, IfOk, IsTrue, length, nat_le, option_map, position};
ghost use Rattle.std.specs.List.{before_first, list_all, position_or_len};
ghost use Rattle.std.specs.Char.{is_ascii_digit};
ghost use Rattle.std.specs.Str.{IsAscii};
ghost use Rattle.std.specs.Str.Parse.{digits_value};
ghost use Rattle.kg_field_rules.specs.Urls.{from_first, only_if};

use kg_text::{NoMemory, Text};
use std::alloc::Global;

/// What stands before the first `b`, and what stands from there on.
pub fn split_before(b: u8, text: &[u8]) -> (&[u8], &[u8])
    ensures front { result.0.now ≡ before_first (λ c. c == b) text.now }
    ensures back { result.1.now ≡ from_first (λ c. c == b) text.now }
{
    text.split_at(len_before(b, text))
}

fn len_before(b: u8, text: &[u8]) -> usize
    ensures value { result ≡ position_or_len (λ c. c == b) text.now }
    ensures within { result ≤ length text.now }
{
    first_of(b, text).unwrap_or(text.len())
}

fn first_of(b: u8, text: &[u8]) -> Option<usize>
    ensures { result ≡ position (λ c. c == b) text.now }
{
    text.iter().position(|c| *c == b)
}

/// Decimal digits alone?
pub fn are_digits(text: &[u8]) -> bool
    ensures { result ≡ list_all is_ascii_digit text.now }
{
    text.iter().all(|b| b.is_ascii_digit())
}

/// The number that decimal digits tell, if it is below 2^16.
pub fn number_of(digits: &[u8]) -> Option<u16>
    requires some { 0 < length digits.now }
    requires digits { IsTrue (list_all is_ascii_digit digits.now) }
    ensures { result ≡ only_if (λ n. nat_le n 65535) (digits_value 10 digits.now) }
{
    ascii_str(digits).parse().ok()
}

/// A copy of ASCII bytes as text.
pub fn text_of(alloc: Global, bytes: &[u8]) -> Result<Text, NoMemory>
    requires { IsAscii bytes.now }
    ensures { IfOk result (λ text. text ≡ bytes.now) }
{
    Text::from_str(alloc, ascii_str(bytes))
}

fn ascii_str(bytes: &[u8]) -> &str
    requires { IsAscii bytes.now }
    ensures { result.now ≡ bytes.now }
{
    match str::from_utf8(bytes) {
        Ok(text) => text,
        Err(_) => unreachable!(),
    }
}
