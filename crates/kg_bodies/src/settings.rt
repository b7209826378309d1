//! What a body sets, field by field. A value that breaks a rule of its field sets nothing.

ghost use Rattle.std.specs.Prelude.{◌≡◌, ◌≤◌, ◌≤ℤ◌, IfOk, IfSome, option_map};
ghost use Rattle.serde_json.specs.View.{view};
ghost use Rattle.kg_bodies.specs.Settings.{flag_at, https_at, id_at, integer_at, limit_by_at, reference_at, size_unit_at, text_at, texts_at, url_at, value_at, whole_at};

use crate::judge::{has_text, is_set, judged, reference_of};
use crate::texts::{stored, stored_texts, texts_of};
use kg_field_rules::text_kind::TextKind;
use kg_field_rules::url::{Url, read_url};
use kg_field_tables::reference::{Mention, Reference};
use kg_field_tables::shape::Shape;
use kg_row_types::config::{LimitBy, SizeUnit};
use kg_row_types::id::Id;
use kg_text::{List, NoMemory, Text};
use serde_json::Value;
use std::alloc::Global;

/// The value of the member of this name, if it is set and breaks no rule of the shape.
pub fn value_at<'v>(
    alloc: Global,
    shape: Shape,
    name: &str,
    body: &'v Value,
) -> Result<Option<&'v Value>, NoMemory>
    ensures { IfOk result (λ found. option_map (λ value. view value.now) found ≡ value_at shape name.now (view body.now)) }
{
    match body.get(name) {
        Some(value) => {
            if !is_set(value) {
                return Ok(None);
            }
            match judged(alloc, shape, value)? {
                Some(_) => Ok(None),
                None => Ok(Some(value)),
            }
        }
        None => Ok(None),
    }
}

/// A text, as it is stored.
pub fn text_at(
    alloc: Global,
    text_kind: TextKind,
    name: &str,
    body: &Value,
) -> Result<Option<Text>, NoMemory>
    ensures { IfOk result (λ found. found ≡ text_at text_kind name.now (view body.now)) }
{
    match value_at(alloc, Shape::Text(text_kind), name, body)?.and_then(Value::as_str) {
        Some(text) => Ok(Some(stored(alloc, text_kind, text)?)),
        None => Ok(None),
    }
}

/// The texts of a list, as they are stored: none where it isn't set.
pub fn texts_at(
    alloc: Global,
    text_kind: TextKind,
    name: &str,
    body: &Value,
) -> Result<List<Text>, NoMemory>
    ensures { IfOk result (λ found. found ≡ texts_at text_kind name.now (view body.now)) }
{
    match value_at(alloc, Shape::Texts(text_kind), name, body)? {
        Some(value) => match texts_of(alloc, value)? {
            Some(texts) => stored_texts(alloc, text_kind, texts.as_slice()),
            None => Ok(List::new(alloc)),
        },
        None => Ok(List::new(alloc)),
    }
}

/// A whole number from low to high.
pub fn whole_at(
    alloc: Global,
    low: u64,
    high: u64,
    name: &str,
    body: &Value,
) -> Result<Option<u64>, NoMemory>
    ensures value { IfOk result (λ found. found ≡ whole_at low high name.now (view body.now)) }
    ensures within { IfOk result (λ found. IfSome found (λ n. (low ≤ n) × (n ≤ high))) }
{
    Ok(value_at(alloc, Shape::Whole { low, high }, name, body)?.and_then(Value::as_u64))
}

/// An integer from low to high.
pub fn integer_at(
    alloc: Global,
    low: i64,
    high: i64,
    name: &str,
    body: &Value,
) -> Result<Option<i64>, NoMemory>
    ensures value { IfOk result (λ found. found ≡ integer_at low high name.now (view body.now)) }
    ensures within { IfOk result (λ found. IfSome found (λ n. (low ≤ℤ n) × (n ≤ℤ high))) }
{
    Ok(value_at(alloc, Shape::Integer { low, high }, name, body)?.and_then(Value::as_i64))
}

/// True or false.
pub fn flag_at(name: &str, body: &Value) -> Option<bool>
    ensures { result ≡ flag_at name.now (view body.now) }
{
    body.get(name).and_then(Value::as_bool)
}

/// The id of the row itself.
pub fn id_at(body: &Value) -> Option<Id>
    ensures { result ≡ id_at (view body.now) }
{
    match body.get("id").and_then(Value::as_str) {
        Some(text) => Id::parse(text.as_bytes()),
        None => None,
    }
}

/// A row of another kind.
pub fn reference_at(
    alloc: Global,
    how: Mention,
    name: &str,
    body: &Value,
) -> Result<Option<Reference>, NoMemory>
    ensures { IfOk result (λ found. found ≡ reference_at how name.now (view body.now)) }
{
    match body.get(name) {
        Some(value) => Ok(reference_of(alloc, how, value)?.ok()),
        None => Ok(None),
    }
}

/// The parts of a service's url.
pub fn url_at(alloc: Global, body: &Value) -> Result<Option<Url>, NoMemory>
    ensures { IfOk result (λ found. found ≡ url_at (view body.now)) }
{
    match body.get("url").and_then(Value::as_str) {
        Some(text) => read_url(alloc, text.as_bytes()),
        None => Ok(None),
    }
}

/// What a size is counted in.
pub fn size_unit_at(body: &Value) -> Option<SizeUnit>
    ensures { result ≡ size_unit_at (view body.now) }
{
    match body.get("size_unit").and_then(Value::as_str) {
        Some(text) => match text {
            "megabytes" => Some(SizeUnit::Megabytes),
            "kilobytes" => Some(SizeUnit::Kilobytes),
            "bytes" => Some(SizeUnit::Bytes),
            _ => None,
        },
        None => None,
    }
}

/// Whose requests are counted together.
pub fn limit_by_at(body: &Value) -> Option<LimitBy>
    ensures { result ≡ limit_by_at (view body.now) }
{
    match body.get("limit_by").and_then(Value::as_str) {
        Some(text) => match text {
            "consumer" => Some(LimitBy::Consumer),
            "ip" => Some(LimitBy::Ip),
            "service" => Some(LimitBy::Service),
            _ => None,
        },
        None => None,
    }
}

/// Whether the protocols of a route name `https` beside `http`.
pub fn https_at(alloc: Global, body: &Value) -> Result<Option<bool>, NoMemory>
    ensures { IfOk result (λ found. found ≡ https_at (view body.now)) }
{
    match value_at(alloc, Shape::Protocols, "protocols", body)? {
        Some(value) => match texts_of(alloc, value)? {
            Some(texts) => Ok(Some(has_text("https", texts.as_slice()))),
            None => Ok(None),
        },
        None => Ok(None),
    }
}
