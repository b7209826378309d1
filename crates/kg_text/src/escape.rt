//! The escapes of a path (RFC 3986, section 2.1).

ghost use Rattle.std.specs.Prelude.{◌≡◌, [], ◌∷◌, ◌++◌, ◌↔◌, ◌<◌, IsTrue, IfOk, OnOk, MatchOption};
ghost use Rattle.std.specs.Char.{digit_value, is_digit};
ghost use Rattle.kg_text.specs.Paths.{percent_sign, is_unreserved, escaped_byte, normal_escape, normal_escapes};
ghost use Rattle.kg_text.specs.Escapes.{SplitsEscape};

use std::alloc::{AllocError, Global};

/// A copy in which each escape is in normal form.
pub fn with_normal_escapes(alloc: Global, path: &[u8]) -> Result<Vec<u8>, AllocError>
    ensures { IfOk result (λ v. v.items ≡ normal_escapes path.now) }
{
    let mut out = Vec::with_capacity(alloc, path.len())?;
    let mut rest = path;
    while let Some((first, tail)) = rest.split_first() {
        rest = match split_escape(rest) {
            Some((high, low, after)) => {
                push_escape(&mut out, high, low)?;
                after
            }
            None => {
                out.push(*first)?;
                tail
            }
        };
    }
    Ok(out)
}

/// Is each escape in normal form?
pub fn has_normal_escapes(path: &[u8]) -> bool
    ensures { IsTrue result ↔ (normal_escapes path.now ≡ path.now) }
{
    let mut rest = path;
    while let Some((_, tail)) = rest.split_first() {
        rest = match split_escape(rest) {
            Some((high, low, after)) => {
                if !is_normal_escape(high, low) {
                    return false;
                }
                after
            }
            None => tail,
        };
    }
    true
}

// The two digits of the escape at the front, and what stands after it.
fn split_escape(bytes: &[u8]) -> Option<(u8, u8, &[u8])>
    ensures { SplitsEscape bytes.now result }
{
    match bytes {
        [b'%', high, low, rest @ ..] if high.is_ascii_hexdigit() && low.is_ascii_hexdigit() => {
            Some((*high, *low, rest))
        }
        _ => None,
    }
}

fn push_escape(out: &mut Vec<u8>, high: u8, low: u8) -> Result<(), AllocError>
    requires high { IsTrue (is_digit high 16) }
    requires low { IsTrue (is_digit low 16) }
    ensures { OnOk result (out.new.items ≡ out.old.items ++ normal_escape high low) }
{
    let byte = escaped_byte(high, low);
    if is_unreserved(byte) {
        out.push(byte)?;
    } else {
        out.extend_from_slice(&[b'%', high.to_ascii_uppercase(), low.to_ascii_uppercase()])?;
    }
    Ok(())
}

fn is_normal_escape(high: u8, low: u8) -> bool
    requires high { IsTrue (is_digit high 16) }
    requires low { IsTrue (is_digit low 16) }
    ensures { IsTrue result ↔ (normal_escape high low ≡ percent_sign ∷ high ∷ low ∷ []) }
{
    !is_unreserved(escaped_byte(high, low))
        && !high.is_ascii_lowercase()
        && !low.is_ascii_lowercase()
}

fn escaped_byte(high: u8, low: u8) -> u8
    requires high { IsTrue (is_digit high 16) }
    requires low { IsTrue (is_digit low 16) }
    ensures { result ≡ escaped_byte high low }
{
    16 * hex_value(high) + hex_value(low)
}

fn hex_value(digit: u8) -> u8
    requires { IsTrue (is_digit digit 16) }
    ensures value { result ≡ digit_value digit }
    ensures within { result < 16 }
{
    match digit {
        b'0'..=b'9' => digit - b'0',
        b'A'..=b'F' => digit - b'A' + 10,
        _ => digit - b'a' + 10,
    }
}

fn is_unreserved(b: u8) -> bool
    ensures { result ≡ is_unreserved b }
{
    b.is_ascii_alphanumeric() || b"-._~".contains(&b)
}
