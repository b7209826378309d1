//! The methods of a route.

ghost use Rattle.std.specs.Prelude.{◌≡◌};
ghost use Rattle.std.specs.List.{list_any};
ghost use Rattle.std.specs.Str.{bytes_eq};
ghost use Rattle.kg_match.specs.Attributes.{fits_where};

use kg_text::Text;

/// Are no methods set, or is one of them this method?
pub fn methods_fit(methods: &[Text], method: &[u8]) -> bool
    ensures { result ≡ fits_where (λ wanted. bytes_eq wanted method.now) methods.now }
{
    methods.is_empty() || has(methods, method)
}

fn has(methods: &[Text], method: &[u8]) -> bool
    ensures { result ≡ list_any (λ wanted. bytes_eq wanted method.now) methods.now }
{
    methods.iter().any(|wanted| wanted.as_bytes() == method)
}
