//! Comma lists in the values of fields (RFC 9110, section 5.6.1).

ghost use Rattle.std.specs.Prelude.{◌≡◌, reverse};
ghost use Rattle.std.specs.Str.{str_eq_ignore_ascii_case};
ghost use Rattle.httparse.specs.Grammar.{skip_ows, trim_ows};
ghost use Rattle.kg_message.specs.CommaLists.{has_element};

use httparse::is_space_or_tab;

/// Is this an element of the comma list? Elements are compared without the blanks round each, and in
/// any case.
pub fn has_element(element: &[u8], value: &[u8]) -> bool
    ensures { result ≡ has_element element.now value.now }
{
    value
        .split(|b| *b == b',')
        .any(|one| is_same(trim_blanks(one), element))
}

// Are the texts the same, in any case?
fn is_same(one: &[u8], other: &[u8]) -> bool
    ensures { result ≡ str_eq_ignore_ascii_case one.now other.now }
{
    one.eq_ignore_ascii_case(other)
}

/// The text without the blanks at its ends. A blank is a space or a tab.
#[tactic(auto, unfolding(httparse::specs::Grammar::trim_ows))]
pub fn trim_blanks(text: &[u8]) -> &[u8]
    ensures { result.now ≡ trim_ows text.now }
{
    trim_end(trim_start(text))
}

fn trim_start(mut text: &[u8]) -> &[u8]
    ensures { result.now ≡ skip_ows text.now }
{
    while let [first, rest @ ..] = text
        && is_space_or_tab(*first)
    {
        text = rest;
    }
    text
}

fn trim_end(mut text: &[u8]) -> &[u8]
    ensures { result.now ≡ reverse (skip_ows (reverse text.now)) }
{
    while let [rest @ .., last] = text
        && is_space_or_tab(*last)
    {
        text = rest;
    }
    text
}
