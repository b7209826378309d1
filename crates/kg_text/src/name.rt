//! The name of a header field (RFC 9110, section 5.1).

ghost use Rattle.std.specs.Prelude.{◌≡◌, ◌↔◌, IsTrue, IfOk, length, nat_eq};
ghost use Rattle.std.specs.Str.{str_to_ascii_lowercase};
ghost use Rattle.std.specs.Cmp.Lexicographic.{pointwise, nat_list_eq_equiv};
ghost use Rattle.std.specs.Cmp.{partial_equiv_from_equiv};
ghost use Rattle.kg_text.specs.Names.{is_token, name_of};
ghost use Rattle.kg_text.specs.Reading.{Gives};

use crate::case::is_lower_case_of;
use crate::error::{NoMemory, TextError};
use crate::token::token_len;
use std::alloc::Global;
use std::marker::Model;
use std::str;

/// The name of a header field, kept in lower case. Contracts see it as its bytes.
#[derive(Debug, Drop)]
pub struct Name {
    raw: Vec<u8>,
}

impl Model for Name {
    ghost use Rattle.std.specs.Prelude.{List, ℕ};
    ghost use Rattle.kg_text.specs.Names.{IsName};

    ghost Value = { List ℕ };

    ghost view = { λ name. name.raw.items };

    ghost invariant = { λ name. IsName name.raw.items };
}

impl Name {
    /// Reads a name in any case. `Bad` tells the first byte that can't stand in a name.
    pub fn of(alloc: Global, raw: &[u8]) -> Result<Name, TextError>
        ensures { Gives result (name_of raw.now) }
    {
        let at = token_len(raw);
        if raw.is_empty() || at < raw.len() {
            return Err(TextError::Bad { at });
        }
        Ok(Name::of_token(alloc, raw)?)
    }

    /// The name of a text that is known to be a token.
    pub fn of_token(alloc: Global, raw: &[u8]) -> Result<Name, NoMemory>
        requires { IsTrue (is_token raw.now) }
        ensures { IfOk result (λ name. name ≡ str_to_ascii_lowercase raw.now) }
    {
        Ok(Name {
            raw: raw.to_ascii_lowercase(alloc)?,
        })
    }

    /// A copy of the name.
    pub fn copy(&self, alloc: Global) -> Result<Name, NoMemory>
        ensures { IfOk result (λ name. name ≡ self.now) }
    {
        Ok(Name {
            raw: Vec::from_slice(alloc, self.raw.as_slice())?,
        })
    }

    /// The bytes, in lower case.
    pub fn bytes(&self) -> &[u8]
        ensures { result.now ≡ self.now }
    {
        self.raw.as_slice()
    }

    /// The bytes as a `str`.
    pub fn as_str(&self) -> &str
        ensures { result.now ≡ self.now }
    {
        match str::from_utf8(self.raw.as_slice()) {
            Ok(text) => text,
            Err(_) => unreachable!(),
        }
    }

    /// Is this the name that `raw` spells, in any case?
    pub fn same(&self, raw: &[u8]) -> bool
        ensures { IsTrue result ↔ (self.now ≡ str_to_ascii_lowercase raw.now) }
    {
        is_lower_case_of(self.raw.as_slice(), raw)
    }
}

impl PartialEq for Name {
    ghost eq = { pointwise nat_eq };

    ghost laws = { partial_equiv_from_equiv nat_list_eq_equiv };

    fn eq(&self, other: &Name) -> bool {
        self.bytes() == other.bytes()
    }
}

impl Eq for Name {
    ghost laws = { nat_list_eq_equiv };
}
