//! How names, hosts, methods and free texts are spelled.

ghost use Rattle.std.specs.Prelude.{◌≡◌, ◌==◌, ◌-◌, ◌≤◌, ◌&&◌, length, nat_eq, drop, take, codes};
ghost use Rattle.std.specs.List.{list_all, list_any, starts_with, ends_with};
ghost use Rattle.std.specs.Char.{is_ascii_uppercase, is_control};
ghost use Rattle.std.specs.Str.{chars};
ghost use Rattle.kg_text.specs.Hosts.{has_host_form};
ghost use Rattle.kg_row_types.specs.TextForms.{has_method_form, has_name_form, has_no_controls, has_route_host_form, has_username_form, has_wildcard_form, is_normal_path, is_one_of};

use kg_row_types::id::Id;
use kg_text::{has_host_form, is_normal};

/// Letters, digits, `.`, `-`, `_` and `~`, and no id.
pub fn has_name_form(text: &[u8]) -> bool
    ensures { result ≡ has_name_form text.now }
{
    are_all_of(text, b".-_~") && Id::parse(text).is_none()
}

fn are_all_of(text: &[u8], marks: &[u8]) -> bool
    ensures { result ≡ list_all (is_one_of marks.now) text.now }
{
    text.iter().all(|b| is_one_of(*b, marks))
}

// A letter, a digit or one of these marks.
fn is_one_of(b: u8, marks: &[u8]) -> bool
    ensures { result ≡ is_one_of marks.now b }
{
    b.is_ascii_alphanumeric() || is_mark(b, marks)
}

fn is_mark(b: u8, marks: &[u8]) -> bool
    ensures { result ≡ list_any (λ mark. mark == b) marks.now }
{
    marks.iter().any(|mark| *mark == b)
}

/// No control characters (Unicode's general category Cc).
pub fn has_no_controls(text: &str) -> bool
    ensures { result ≡ has_no_controls text.now }
{
    !has_controls(text)
}

fn has_controls(text: &str) -> bool
    ensures { result ≡ list_any is_control (chars text.now) }
{
    text.chars().any(|c| c.is_control())
}

/// No control characters, and no id.
pub fn has_username_form(text: &str) -> bool
    ensures { result ≡ has_username_form text.now }
{
    has_no_controls(text) && Id::parse(text.as_bytes()).is_none()
}

/// A host, or one with `*` as its leftmost or rightmost label.
pub fn has_route_host_form(text: &[u8]) -> bool
    ensures { result ≡ has_route_host_form text.now }
{
    has_host_form(text) || has_wildcard_form(text)
}

fn has_wildcard_form(text: &[u8]) -> bool
    ensures { result ≡ has_wildcard_form text.now }
{
    text == b"*".as_slice() || is_wildcard_in_front(text) || is_wildcard_behind(text)
}

fn is_wildcard_in_front(text: &[u8]) -> bool
    ensures { result ≡ (starts_with nat_eq text.now (codes "*.") && has_host_form (drop 1 text.now)) }
{
    match text {
        [b'*', rest @ ..] => rest.starts_with(b".") && has_host_form(rest),
        _ => false,
    }
}

fn is_wildcard_behind(text: &[u8]) -> bool
    ensures { result ≡ (ends_with nat_eq text.now (codes ".*") && has_host_form (take (length text.now - 1) text.now)) }
{
    text.ends_with(b".*") && has_host_form(without_last(text))
}

fn without_last(text: &[u8]) -> &[u8]
    ensures { result.now ≡ take (length text.now - 1) text.now }
{
    match text {
        [front @ .., _] => front,
        [] => text,
    }
}

/// A path, and its own normal form.
pub fn is_normal_path(path: &[u8]) -> bool
    ensures { result ≡ is_normal_path path.now }
{
    is_normal(path)
}

/// Letters in upper case.
pub fn has_method_form(text: &[u8]) -> bool
    ensures { result ≡ has_method_form text.now }
{
    text.iter().all(|b| b.is_ascii_uppercase())
}
