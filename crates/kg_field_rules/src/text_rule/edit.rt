//! Members of a transformer's lists: `name`, or `name:value`.

ghost use Rattle.std.specs.Prelude.{◌≡◌, ◌==◌, slice_index};
ghost use Rattle.std.specs.Str.{str_eq_ignore_ascii_case};
ghost use Rattle.kg_row_types.specs.ConfigTexts.{after_first, colon, edit_name, edit_value, has_edit_form, has_header_edit_form, has_header_rename_form, has_template, is_barred};

use crate::parts::split_before;
use crate::text_rule::forms::has_no_controls;
use kg_text::is_token;

/// A member whose name isn't barred, and whose value holds no template.
pub fn has_edit_form(text: &str) -> bool
    ensures { result ≡ has_edit_form text.now }
{
    has_no_controls(text)
        && !is_barred(edit_name(text.as_bytes()))
        && !has_template(edit_value(text.as_bytes()))
}

/// A member in a list of headers: its name is a token.
pub fn has_header_edit_form(text: &str) -> bool
    ensures { result ≡ has_header_edit_form text.now }
{
    has_edit_form(text) && is_token(edit_name(text.as_bytes()))
}

/// A renaming of headers: its value is a name too.
pub fn has_header_rename_form(text: &str) -> bool
    ensures { result ≡ has_header_rename_form text.now }
{
    has_header_edit_form(text)
        && is_token(edit_value(text.as_bytes()))
        && !is_barred(edit_value(text.as_bytes()))
}

// What stands before the first colon.
fn edit_name(text: &[u8]) -> &[u8]
    ensures { result.now ≡ edit_name text.now }
{
    split_before(b':', text).0
}

// What stands behind it: nothing, where there is none.
fn edit_value(text: &[u8]) -> &[u8]
    ensures { result.now ≡ edit_value text.now }
{
    match split_before(b':', text).1 {
        [] => b"",
        [_, value @ ..] => value,
    }
}

// The names that no transformer touches.
fn is_barred(name: &[u8]) -> bool
    ensures { result ≡ is_barred name.now }
{
    name.eq_ignore_ascii_case(b"host")
        || name.eq_ignore_ascii_case(b"content-length")
        || name.eq_ignore_ascii_case(b"connection")
        || name.eq_ignore_ascii_case(b"transfer-encoding")
}

// Does a template begin somewhere?
#[tactic(auto, using(crate::proofs::TextLemmas::template_at))]
fn has_template(text: &[u8]) -> bool
    ensures { result ≡ has_template text.now }
{
    match text {
        [first, rest @ ..] => (*first == b'$' && is_open(rest)) || has_template(rest),
        [] => false,
    }
}

fn is_open(behind: &[u8]) -> bool
    ensures { result ≡ (slice_index behind.now 0 == 0x28) }
{
    behind.first() == Some(&b'(')
}
