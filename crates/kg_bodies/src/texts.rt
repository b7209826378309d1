//! Lists of texts.

ghost use Rattle.std.specs.Prelude.{◌≡◌, IfOk, map};
ghost use Rattle.std.specs.Str.{str_to_ascii_lowercase};
ghost use Rattle.serde_json.specs.View.{items_view, view};
ghost use Rattle.kg_row_types.specs.TextForms.{are_distinct};
ghost use Rattle.kg_field_tables.specs.Judging.{each_text, texts_of};
ghost use Rattle.kg_field_rules.specs.TextRules.{stored};

use kg_field_rules::text_kind::TextKind;
use kg_row_types::id::Id;
use kg_text::{List, NoMemory, Text};
use serde_json::Value;
use std::alloc::{AllocError, Global};
use std::collections::HashSet;

/// The texts of a list, if it is one and each of its items is a text.
pub fn texts_of(alloc: Global, value: &Value) -> Result<Option<List<Text>>, NoMemory>
    ensures { IfOk result (λ found. found ≡ texts_of (view value.now)) }
{
    match value.as_array() {
        Some(items) => each_text(alloc, items.as_slice()),
        None => Ok(None),
    }
}

fn each_text(alloc: Global, items: &[Value]) -> Result<Option<List<Text>>, NoMemory>
    ensures { IfOk result (λ found. found ≡ each_text (items_view items.now)) }
{
    let mut texts = List::new(alloc);
    for item in items {
        match item.as_str() {
            Some(text) => texts.push(Text::from_str(alloc, text)?)?,
            None => return Ok(None),
        }
    }
    Ok(Some(texts))
}

/// What is stored of each text.
pub fn stored_texts(
    alloc: Global,
    text_kind: TextKind,
    texts: &[Text],
) -> Result<List<Text>, NoMemory>
    ensures { IfOk result (λ all. all ≡ map (stored text_kind) texts.now) }
{
    let mut all = List::new(alloc);
    for text in texts {
        all.push(stored(alloc, text_kind, text.as_str())?)?;
    }
    Ok(all)
}

/// What is stored of a text.
pub fn stored(alloc: Global, text_kind: TextKind, text: &str) -> Result<Text, NoMemory>
    ensures { IfOk result (λ now. now ≡ stored text_kind text.now) }
{
    match text_kind {
        TextKind::RouteHost => lower_case(alloc, text),
        TextKind::Anonymous => match Id::parse(text.as_bytes()) {
            Some(id) => id.to_text(alloc),
            None => Text::from_str(alloc, text),
        },
        // each kind by itself, as the proof takes them
        TextKind::Id => Text::from_str(alloc, text),
        TextKind::Name => Text::from_str(alloc, text),
        TextKind::FreeText => Text::from_str(alloc, text),
        TextKind::LongText => Text::from_str(alloc, text),
        TextKind::Username => Text::from_str(alloc, text),
        TextKind::Host => Text::from_str(alloc, text),
        TextKind::Path => Text::from_str(alloc, text),
        TextKind::RoutePath => Text::from_str(alloc, text),
        TextKind::Url => Text::from_str(alloc, text),
        TextKind::Method => Text::from_str(alloc, text),
        TextKind::Token => Text::from_str(alloc, text),
        TextKind::AddressBlock => Text::from_str(alloc, text),
        TextKind::Edit => Text::from_str(alloc, text),
        TextKind::HeaderEdit => Text::from_str(alloc, text),
        TextKind::HeaderRename => Text::from_str(alloc, text),
    }
}

/// The text in lower case.
pub fn lower_case(alloc: Global, text: &str) -> Result<Text, NoMemory>
    ensures { IfOk result (λ lower. lower ≡ str_to_ascii_lowercase text.now) }
{
    Ok(Text::from_string(text.to_ascii_lowercase(alloc)?))
}

/// Does no text stand twice?
pub fn are_distinct(alloc: Global, texts: &[Text]) -> Result<bool, NoMemory>
    ensures { IfOk result (λ distinct. distinct ≡ are_distinct texts.now) }
{
    Ok(are_distinct_strs(alloc, as_strs(alloc, texts)?.as_slice())?)
}

fn as_strs<'a>(alloc: Global, texts: &'a [Text]) -> Result<Vec<&'a str>, AllocError>
    ensures { IfOk result (λ strs. map (λ str. str.now) strs.items ≡ texts.now) }
{
    let mut strs = Vec::new(alloc);
    for text in texts {
        strs.push(text.as_str())?;
    }
    Ok(strs)
}

fn are_distinct_strs(alloc: Global, texts: &[&str]) -> Result<bool, NoMemory>
    ensures { IfOk result (λ distinct. distinct ≡ are_distinct (map (λ text. text.now) texts.now)) }
{
    let mut seen = HashSet::new(alloc);
    for text in texts {
        if !seen.insert(*text)? {
            return Ok(false);
        }
    }
    Ok(true)
}
