//! Hosts (RFC 9110, section 7.2; RFC 3986, section 3.2.2).

ghost use Rattle.std.specs.Prelude.{◌≡◌, ◌≤◌, ◌-◌, IfOk, length};
ghost use Rattle.std.specs.List.{suffix_len};
ghost use Rattle.std.specs.Char.{is_ascii_digit};
ghost use Rattle.std.specs.Str.{str_to_ascii_lowercase};
ghost use Rattle.kg_text.specs.Hosts.{has_host_form, host_part, host_of, is_host_byte, is_host};

use crate::bytes::Bytes;
use crate::error::NoMemory;
use std::alloc::Global;

/// The host that the value of a Host field tells: without a last colon and the digits behind it,
/// and with ASCII letters in lower case.
pub fn host_of(alloc: Global, value: &[u8]) -> Result<Bytes, NoMemory>
    ensures { IfOk result (λ host. host ≡ host_of value.now) }
{
    Ok(Bytes::from_vec(host_part(value).to_ascii_lowercase(alloc)?))
}

/// The value of a Host field without a last colon and the digits behind it, as it came.
pub fn host_part(value: &[u8]) -> &[u8]
    ensures { result.now ≡ host_part value.now }
{
    let end = value.len() - digits_len(value);
    if end > 0 && value[end - 1] == b':' {
        &value[..end - 1]
    } else {
        value
    }
}

// How many digits stand at the end.
fn digits_len(value: &[u8]) -> usize
    ensures count { result ≡ suffix_len is_ascii_digit value.now }
    ensures within { result ≤ length value.now }
{
    value
        .iter()
        .rev()
        .take_while(|b| b.is_ascii_digit())
        .count()
}

/// Can this be the host of a service: 1 to 255 letters, digits, `.`, `-` and `_`?
pub fn is_host(host: &[u8]) -> bool
    ensures { result ≡ is_host host.now }
{
    !host.is_empty() && host.len() <= 255 && has_host_form(host)
}

/// Are these letters, digits, `.`, `-` and `_` alone?
pub fn has_host_form(text: &[u8]) -> bool
    ensures { result ≡ has_host_form text.now }
{
    text.iter().all(|b| is_host_byte(*b))
}

/// A letter, a digit, `.`, `-` or `_`.
pub fn is_host_byte(b: u8) -> bool
    ensures { result ≡ is_host_byte b }
{
    b.is_ascii_alphanumeric() || b".-_".contains(&b)
}
