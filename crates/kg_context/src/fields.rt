//! Fields that the gateway adds, and texts that are joined in their values.

ghost use Rattle.std.specs.Prelude.{◌≡◌, ◌++◌, IfOk, IsTrue, OnOk};
ghost use Rattle.std.specs.List.{flat_map};
ghost use Rattle.std.specs.Str.{str_to_ascii_lowercase};
ghost use Rattle.kg_text.specs.Names.{is_token};
ghost use Rattle.kg_message.specs.HeaderLists.{added};
ghost use Rattle.kg_context.specs.Fields.{field, joined};

use kg_message::Headers;
use kg_text::{Bytes, Name, NoMemory, Text};
use std::alloc::Global;

/// Adds a field of a copy of this value at the end. The name is a token, and is kept in lower case.
pub fn add_field(
    alloc: Global,
    headers: &mut Headers,
    name: &[u8],
    value: &[u8],
) -> Result<(), NoMemory>
    requires { IsTrue (is_token name.now) }
    ensures { OnOk result (headers.new ≡ added (field (str_to_ascii_lowercase name.now) value.now) headers.old) }
{
    add_value(alloc, headers, name, Bytes::from_slice(alloc, value)?)
}

/// Adds a field of this value at the end. The name is a token, and is kept in lower case.
pub fn add_value(
    alloc: Global,
    headers: &mut Headers,
    name: &[u8],
    value: Bytes,
) -> Result<(), NoMemory>
    requires { IsTrue (is_token name.now) }
    ensures { OnOk result (headers.new ≡ added (field (str_to_ascii_lowercase name.now) value) headers.old) }
{
    headers.add(alloc, Name::of_token(alloc, name)?, value)
}

/// The texts with a separator between each two.
pub fn joined(alloc: Global, separator: &[u8], texts: &[Text]) -> Result<Bytes, NoMemory>
    ensures { IfOk result (λ text. text ≡ joined separator.now texts.now) }
{
    match texts {
        [] => Ok(Bytes::new(alloc)),
        [first, rest @ ..] => {
            let mut text = Bytes::from_slice(alloc, first.as_bytes())?;
            put_behind(&mut text, separator, rest)?;
            Ok(text)
        }
    }
}

// Writes the texts, a separator before each.
fn put_behind(out: &mut Bytes, separator: &[u8], texts: &[Text]) -> Result<(), NoMemory>
    ensures { OnOk result (out.new ≡ out.old ++ flat_map (λ text. separator.now ++ text) texts.now) }
{
    for text in texts {
        out.extend_from_slice(separator)?;
        out.extend_from_slice(text.as_bytes())?;
    }
    Ok(())
}
