//! The segments of a path (RFC 3986, sections 3.3 and 5.2.4).

ghost use Rattle.std.specs.Prelude.{◌≡◌, [], ◌∷◌, ◌++◌, ◌==◌, ◌↔◌, ◌<◌, ◌≤◌, IsTrue, IfOk, OnOk, if◌then◌else◌, length, not};
ghost use Rattle.std.specs.List.{before_last, suffix_len};
ghost use Rattle.kg_text.specs.Paths.{slash, is_path, is_idle, is_parent, is_dropped, without_dots};
ghost use Rattle.kg_text.specs.Segments.{further, is_dots};

use std::alloc::{AllocError, Global};

/// A copy without empty, `.` and `..` segments.
pub fn without_dots(alloc: Global, path: &[u8]) -> Result<Vec<u8>, AllocError>
    requires { 0 < length path.now }
    ensures { IfOk result (λ v. v.items ≡ without_dots path.now) }
{
    let mut out = Vec::with_capacity(alloc, path.len())?;
    let mut ends_open = true;
    for segment in path[1..].split(is_slash) {
        ends_open = take_further(&mut out, segment)?;
    }
    close(&mut out, ends_open)?;
    Ok(out)
}

/// Has the path no `.` and no `..` segment, and no empty one but the last?
pub fn is_dot_free(path: &[u8]) -> bool
    requires { IsTrue (is_path path.now) }
    ensures { IsTrue result ↔ (without_dots path.now ≡ path.now) }
{
    let mut ended = false;
    for segment in path[1..].split(is_slash) {
        if ended || is_dots(segment) {
            return false;
        }
        ended = segment.is_empty();
    }
    true
}

// A path that ends open ends in a slash.
fn close(out: &mut Vec<u8>, ends_open: bool) -> Result<(), AllocError>
    ensures { OnOk result (out.new.items ≡ out.old.items ++ (if ends_open then slash ∷ [] else [])) }
{
    if ends_open {
        out.push(b'/')?;
    }
    Ok(())
}

// Takes the path one segment further, and tells whether that segment is dropped.
fn take_further(out: &mut Vec<u8>, segment: &[u8]) -> Result<bool, AllocError>
    ensures ok { OnOk result (out.new.items ≡ further out.old.items segment.now) }
    ensures dropped { IfOk result (λ dropped. dropped ≡ is_dropped segment.now) }
{
    if is_idle(segment) {
        return Ok(true);
    }
    if is_parent(segment) {
        drop_last(out);
        return Ok(true);
    }
    out.push(b'/')?;
    out.extend_from_slice(segment)?;
    Ok(false)
}

fn is_slash(b: &u8) -> bool
    ensures { result ≡ (b.now == slash) }
{
    *b == b'/'
}

// Takes off the last slash and what stands after it.
fn drop_last(out: &mut Vec<u8>)
    ensures { out.new.items ≡ before_last (λ b. b == slash) out.old.items }
{
    let tail = len_after_slash(out.as_slice());
    out.truncate((out.len() - tail).saturating_sub(1));
}

// How many bytes stand after the last slash.
fn len_after_slash(path: &[u8]) -> usize
    ensures value { result ≡ suffix_len (λ b. not (b == slash)) path.now }
    ensures within { result ≤ length path.now }
{
    path.iter().rev().take_while(|b| **b != b'/').count()
}

fn is_idle(segment: &[u8]) -> bool
    ensures { result ≡ is_idle segment.now }
{
    segment.is_empty() || segment == b".".as_slice()
}

fn is_parent(segment: &[u8]) -> bool
    ensures { result ≡ is_parent segment.now }
{
    segment == b"..".as_slice()
}

fn is_dots(segment: &[u8]) -> bool
    ensures { result ≡ is_dots segment.now }
{
    segment == b".".as_slice() || is_parent(segment)
}
