//! Values that are the only ones of their fields.

ghost use Rattle.std.specs.Prelude.{◌≡◌};
ghost use Rattle.kg_field_tables.specs.BrokenRules.{is_constant, phrase_text};
ghost use Rattle.serde_json.specs.View.{view};

use serde_json::Value;

/// The only value that a field takes, beside not being set.
#[derive(Clone, Copy)]
pub enum Constant {
    /// None: the field is never set.
    Nothing,
    Bit(bool),
    Number(u64),
    Phrase(Phrase),
}

/// A fixed text.
#[derive(Clone, Copy)]
pub enum Phrase {
    /// The protocol of services.
    Http,
    /// How paths are joined.
    V0,
    /// Where counters stand.
    Local,
    /// The realm of basic-auth.
    Service,
    /// The message of rate-limiting.
    LimitExceeded,
}

impl Phrase {
    pub fn text(self) -> &'static str
        ensures { result.now ≡ phrase_text self }
    {
        match self {
            Phrase::Http => "http",
            Phrase::V0 => "v0",
            Phrase::Local => "local",
            Phrase::Service => "service",
            Phrase::LimitExceeded => "API rate limit exceeded",
        }
    }
}

/// Is the value this one?
pub fn is_constant(constant: Constant, value: &Value) -> bool
    ensures { result ≡ is_constant constant (view value.now) }
{
    match constant {
        Constant::Nothing => false,
        Constant::Bit(bit) => match value.as_bool() {
            Some(b) => b == bit,
            None => false,
        },
        Constant::Number(number) => match value.as_u64() {
            Some(n) => n == number,
            None => false,
        },
        Constant::Phrase(phrase) => match value.as_str() {
            Some(text) => phrase.text() == text,
            None => false,
        },
    }
}
