//! The normal form of a path (RFC 3986, sections 6.2.2.1 to 6.2.2.3).

ghost use Rattle.std.specs.Prelude.{◌≡◌, ◌==◌, ◌↔◌, ◌≤◌, IsTrue, IsAscii, IfOk, length, slice_index};
ghost use Rattle.std.specs.List.{list_all, prefix_len};
ghost use Rattle.kg_text.specs.Paths.{slash, is_path_byte, is_path, path_len, normal_escapes, without_dots, normal_form};
ghost use Rattle.kg_text.specs.Reading.{Gives};

use crate::bytes::Bytes;
use crate::error::{NoMemory, TextError};
use crate::escape::{has_normal_escapes, with_normal_escapes};
use crate::segment::{is_dot_free, without_dots};
use crate::text::Text;
use std::alloc::{AllocError, Global};

/// Brings a path into normal form: an escape of an unreserved byte becomes the byte, any other
/// gets upper-case digits, and empty, `.` and `..` segments are resolved.
///
/// `Bad` tells the first byte that can't stand in a path, and `NoMemory` that the copy couldn't be
/// made. The normal form of a normal form may be another path.
pub fn normalise(alloc: Global, path: &[u8]) -> Result<Text, TextError>
    ensures form { Gives result (normal_form path.now) }
    ensures path { IfOk result (λ text. IsTrue (is_path text)) }
    ensures within { IfOk result (λ text. length text ≤ length path.now) }
{
    if is_normal(path) {
        return Ok(text_of(Vec::from_slice(alloc, path)?));
    }
    if !is_path(path) {
        return Err(TextError::Bad { at: path_len(path) });
    }
    Ok(text_of(rewritten(alloc, path)?))
}

/// The normal form of bytes that are known to be a path. A path that is its own normal form isn't copied.
pub fn into_normal_form(alloc: Global, path: Bytes) -> Result<Text, NoMemory>
    requires { IsTrue (is_path path) }
    ensures { IfOk result (λ text. normal_form path ≡ Ok text) }
{
    if is_same_form(path.as_slice()) {
        return Ok(text_of(path.into_vec()));
    }
    Ok(changed_form(alloc, path.as_slice())?)
}

/// Is this a path, and its own normal form? It takes no memory.
pub fn is_normal(path: &[u8]) -> bool
    ensures { IsTrue result ↔ (normal_form path.now ≡ Ok path.now) }
{
    is_path(path) && is_same_form(path)
}

// Is a path its own normal form?
fn is_same_form(path: &[u8]) -> bool
    requires { IsTrue (is_path path.now) }
    ensures { IsTrue result ↔ (normal_form path.now ≡ Ok path.now) }
{
    has_normal_escapes(path) && is_dot_free(path)
}

// The normal form of a path that may be another.
fn changed_form(alloc: Global, path: &[u8]) -> Result<Text, AllocError>
    requires { IsTrue (is_path path.now) }
    ensures { IfOk result (λ text. normal_form path.now ≡ Ok text) }
{
    Ok(text_of(rewritten(alloc, path)?))
}

/// Does the text begin with `/`, and are its further bytes 0x21 to 0x7E without `?` and `#`?
pub fn is_path(path: &[u8]) -> bool
    ensures { result ≡ is_path path.now }
{
    begins_with_slash(path) && are_path_bytes(path)
}

// How many bytes from the front a path can begin with.
fn path_len(path: &[u8]) -> usize
    ensures { result ≡ path_len path.now }
{
    if begins_with_slash(path) {
        path_bytes_len(path)
    } else {
        0
    }
}

fn begins_with_slash(path: &[u8]) -> bool
    ensures { result ≡ (slice_index path.now 0 == slash) }
{
    path.first() == Some(&b'/')
}

fn are_path_bytes(path: &[u8]) -> bool
    ensures { result ≡ list_all is_path_byte path.now }
{
    path.iter().all(|b| is_path_byte(*b))
}

fn path_bytes_len(path: &[u8]) -> usize
    ensures { result ≡ prefix_len is_path_byte path.now }
{
    path.iter().take_while(|b| is_path_byte(**b)).count()
}

fn is_path_byte(b: u8) -> bool
    ensures { result ≡ is_path_byte b }
{
    b.is_ascii_graphic() && !b"?#".contains(&b)
}

// The normal form by its two steps, for a path that may need them.
fn rewritten(alloc: Global, path: &[u8]) -> Result<Vec<u8>, AllocError>
    requires { IsTrue (is_path path.now) }
    ensures { IfOk result (λ v. v.items ≡ without_dots (normal_escapes path.now)) }
{
    let escaped = with_normal_escapes(alloc, path)?;
    without_dots(alloc, escaped.as_slice())
}

fn text_of(ascii: Vec<u8>) -> Text
    requires { IsAscii ascii.items }
    ensures { result ≡ ascii.items }
{
    let Ok(text) = String::from_utf8(ascii) else {
        unreachable!()
    };
    Text::from_string(text)
}
