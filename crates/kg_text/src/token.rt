//! Tokens (RFC 9110, section 5.6.2).

ghost use Rattle.std.specs.Prelude.{◌≡◌};
ghost use Rattle.std.specs.List.{prefix_len};
ghost use Rattle.kg_text.specs.Names.{is_tchar, is_token};

/// Is this a token: one or more bytes that may stand in one, and no others?
pub fn is_token(text: &[u8]) -> bool
    ensures { result ≡ is_token text.now }
{
    !text.is_empty() && token_len(text) == text.len()
}

/// How many bytes from the front may stand in a token.
pub fn token_len(text: &[u8]) -> usize
    ensures { result ≡ prefix_len is_tchar text.now }
{
    text.iter().take_while(|b| is_tchar(**b)).count()
}

/// Is this a tchar: a letter, a digit or one of fifteen marks?
pub fn is_tchar(b: u8) -> bool
    ensures { result ≡ is_tchar b }
{
    b.is_ascii_alphanumeric() || b"!#$%&'*+-.^_`|~".contains(&b)
}
