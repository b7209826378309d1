//! Letters in lower case.

ghost use Rattle.std.specs.Prelude.{◌≡◌, ◌↔◌, IsTrue};
ghost use Rattle.std.specs.Str.{str_to_ascii_lowercase};

/// Is `lower` what `raw` is with its ASCII letters in lower case?
pub fn is_lower_case_of(lower: &[u8], raw: &[u8]) -> bool
    ensures { IsTrue result ↔ (lower.now ≡ str_to_ascii_lowercase raw.now) }
{
    lower.len() == raw.len()
        && lower
            .iter()
            .zip(raw)
            .all(|(a, b)| *a == b.to_ascii_lowercase())
}
