//! Ids of rows: UUIDs (RFC 9562).

ghost use Rattle.std.specs.Prelude.{◌≡◌, ℕ, ◌<◌, ◌≤◌, ◌^◌, ◌++◌, IfOk, OnOk, Some, length};
ghost use Rattle.std.specs.Int.{to_be_bytes, w128};
ghost use Rattle.uuid.specs.Text.{hyphenated_text, lower};
ghost use Rattle.std.specs.Str.{bytes_eq};
ghost use Rattle.kg_row_types.specs.Ids.{id_of, printed, drawn_id};
ghost use Rattle.kg_row_types.specs.Lookups.{printed_id_of};

use kg_text::{Bytes, NoMemory, Text};
use std::alloc::Global;
use std::marker::Model;
use uuid::fmt::Hyphenated;
use uuid::{Builder, Uuid};

/// The id of a row, a UUID. Contracts see it as the number below 2^128 that its 16 bytes spell,
/// the most significant byte first. Ids are ordered as these numbers.
#[derive(Clone, Copy, Debug, PartialEq, Eq, PartialOrd, Ord, Hash)]
pub struct Id {
    number: u128,
}

impl Model for Id {
    ghost use Rattle.std.specs.Prelude.{ℕ};

    ghost Value = { ℕ };

    ghost view = { λ id. id.number };

    ghost inverse = { λ n. record { number = n } };
}

impl Id {
    /// The id that a text tells: 32 hexadecimal digits, hyphenated or not, in braces, or after
    /// `urn:uuid:`, in any case.
    #[tactic(auto, unfolding(crate::specs::Ids::id_of))]
    pub fn parse(text: &[u8]) -> Option<Id>
        ensures { result ≡ id_of text.now }
    {
        match Uuid::try_parse_ascii(text) {
            Ok(uuid) => Some(Id {
                number: uuid.as_u128(),
            }),
            Err(_) => None,
        }
    }

    /// The id that is printed as this text.
    pub fn of_printed(text: &[u8]) -> Option<Id>
        ensures { result ≡ printed_id_of text.now }
    {
        match Id::parse(text) {
            Some(id) if id.is_printed_as(text) => Some(id),
            _ => None,
        }
    }

    /// The id of version 4 that 16 random bytes give: all their bits but the six of the version
    /// and the variant.
    #[tactic(auto, unfolding(crate::specs::Ids::drawn_id))]
    pub fn from_drawn(bytes: [u8; 16]) -> Id
        ensures { result ≡ drawn_id bytes }
    {
        Id {
            number: Builder::from_random_bytes(bytes).into_uuid().as_u128(),
        }
    }

    /// The id as a number.
    pub fn number(self) -> u128
        ensures value { result ≡ self }
        ensures within { self < 2 ^ 128 }
    {
        self.number
    }

    /// The id printed: hyphenated, in lower case.
    pub fn to_text(self, alloc: Global) -> Result<Text, NoMemory>
        ensures { IfOk result (λ text. text ≡ printed self) }
    {
        let mut buffer = Uuid::encode_buffer();
        let form = self.uuid().hyphenated();
        Text::from_str(alloc, in_lower_case(&form, &mut buffer))
    }

    /// Writes the printed id at the end of `out`.
    #[tactic(auto, unfolding(crate::specs::Ids::printed))]
    pub fn put_printed(self, out: &mut Bytes) -> Result<(), NoMemory>
        ensures { OnOk result (out.new ≡ out.old ++ printed self) }
    {
        let mut buffer = Uuid::encode_buffer();
        let form = self.uuid().hyphenated();
        out.extend_from_slice(in_lower_case(&form, &mut buffer).as_bytes())
    }

    /// The printed id as bytes: hyphenated, in lower case.
    pub fn to_bytes(self, alloc: Global) -> Result<Bytes, NoMemory>
        ensures { IfOk result (λ bytes. bytes ≡ printed self) }
    {
        let mut bytes = Bytes::with_capacity(alloc, 36)?;
        self.put_printed(&mut bytes)?;
        Ok(bytes)
    }

    /// Whether this is the printed id.
    #[tactic(auto, unfolding(crate::specs::Ids::printed))]
    pub fn is_printed_as(self, text: &[u8]) -> bool
        ensures { result ≡ bytes_eq (printed self) text.now }
    {
        let mut buffer = Uuid::encode_buffer();
        let form = self.uuid().hyphenated();
        in_lower_case(&form, &mut buffer).as_bytes() == text
    }

    fn uuid(self) -> Uuid
        ensures { result ≡ to_be_bytes w128 self }
    {
        Uuid::from_u128(self.number)
    }
}

fn in_lower_case<'b>(form: &Hyphenated, buffer: &'b mut [u8]) -> &'b str
    requires { 36 ≤ length buffer.old }
    ensures { result.now ≡ hyphenated_text lower form.now }
{
    form.encode_lower(buffer)
}

/// A printed id is read back as the same id: a law, for proofs.
pub fn printed_id_is_read_back()
    ensures { (id : ℕ) → id < 2 ^ 128 → id_of (printed id) ≡ Some id }
{}
