//! The headers that a route asks for.

ghost use Rattle.std.specs.Prelude.{◌≡◌};
ghost use Rattle.std.specs.List.{list_any, list_all};
ghost use Rattle.std.specs.Str.{str_eq_ignore_ascii_case};
ghost use Rattle.kg_match.specs.Fits.{field_fits, header_fits};

use kg_message::Header;
use kg_row_types::route::HeaderTest;
use kg_text::Text;

/// Is each of these headers among the fields with one of its values?
pub fn headers_fit(tests: &[HeaderTest], fields: &[Header]) -> bool
    ensures { result ≡ list_all (header_fits fields.now) tests.now }
{
    tests.iter().all(|test| header_fits(test, fields))
}

fn header_fits(test: &HeaderTest, fields: &[Header]) -> bool
    ensures { result ≡ header_fits fields.now test.now }
{
    fields.iter().any(|field| field_fits(test, field))
}

fn field_fits(test: &HeaderTest, field: &Header) -> bool
    ensures { result ≡ field_fits test.now field.now }
{
    field.name == test.name && is_one_of(field.value.as_slice(), test.values.as_slice())
}

fn is_one_of(value: &[u8], wanted: &[Text]) -> bool
    ensures { result ≡ list_any (λ one. str_eq_ignore_ascii_case one value.now) wanted.now }
{
    wanted.iter().any(|one| is_same(one.as_bytes(), value))
}

// Are the texts the same, in any case?
fn is_same(one: &[u8], other: &[u8]) -> bool
    ensures { result ≡ str_eq_ignore_ascii_case one.now other.now }
{
    one.eq_ignore_ascii_case(other)
}
