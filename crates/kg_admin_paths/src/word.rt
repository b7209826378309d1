//! Words of a path, which name rows.

ghost use Rattle.std.specs.Prelude.{◌≡◌, IfOk};
ghost use Rattle.kg_admin_paths.specs.Paths.{select_at, select_of, text_of, word_of};

use kg_row_queries::Select;
use kg_row_types::entity::Kind;
use kg_row_types::id::Id;
use kg_text::{NoMemory, Text};
use percent_encoding::percent_decode;
use std::alloc::Global;
use std::str::from_utf8;

/// How a segment of a path selects a row of a kind. None: it is empty, or no UTF-8 when it is
/// percent-decoded.
pub fn select_at(alloc: Global, kind: Kind, segment: &[u8]) -> Result<Option<Select>, NoMemory>
    ensures { IfOk result (λ select. select ≡ select_at kind segment.now) }
{
    match word_of(alloc, segment)? {
        Some(word) => Ok(Some(select_of(kind, word))),
        None => Ok(None),
    }
}

fn select_of(kind: Kind, word: Text) -> Select
    ensures { result ≡ select_of kind word }
{
    if kind == Kind::KeyCred {
        return Select::Word(word);
    }
    match Id::parse(word.as_bytes()) {
        Some(id) => Select::Id(id),
        None => Select::Word(word),
    }
}

fn word_of(alloc: Global, segment: &[u8]) -> Result<Option<Text>, NoMemory>
    ensures { IfOk result (λ word. word ≡ word_of segment.now) }
{
    if segment.is_empty() {
        return Ok(None);
    }
    let mut bytes = Vec::new(alloc);
    percent_decode(segment).append_to(&mut bytes)?;
    text_of(alloc, bytes.as_slice())
}

fn text_of(alloc: Global, bytes: &[u8]) -> Result<Option<Text>, NoMemory>
    ensures { IfOk result (λ text. text ≡ text_of bytes.now) }
{
    match from_utf8(bytes) {
        Ok(text) => Ok(Some(Text::from_str(alloc, text)?)),
        Err(_) => Ok(None),
    }
}
