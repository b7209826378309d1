//! Which rule a value breaks, by the shape of its field.

pub mod headers;

ghost use Rattle.std.specs.Prelude.{◌≡◌, ◌==◌, IfOk, Some, None, if◌then◌else◌, option_map, length};
ghost use Rattle.std.specs.Str.{bytes_eq};
ghost use Rattle.kg_field_rules.specs.declared.rule.Rule.TheVariants.{WrongType};
ghost use Rattle.std.specs.List.{list_all, list_any};
ghost use Rattle.serde_json.specs.View.{members_view, number_view, view};
ghost use Rattle.kg_field_rules.specs.Choices.{is_choice};
ghost use Rattle.kg_field_tables.specs.Judging.{by_id, by_member, by_name, by_text, integer_rule, is_set, judged, list_rule, only, protocols_rule, reference_of, set_members, shape_rule, whole_rule};
ghost use Rattle.kg_field_rules.specs.TextRules.{choice_rule, has_form, is_longer, text_rule};

use crate::judge::headers::headers_rule;
use crate::texts::{are_distinct, stored_texts, texts_of};
use kg_field_rules::rule::Rule;
use kg_field_rules::text_kind::{Choice, TextKind};
use kg_field_rules::text_rule::{choice_rule, has_form, is_choice, is_longer, text_rule};
use kg_field_tables::reference::{Mention, Reference};
use kg_field_tables::shape::Shape;
use kg_row_types::id::Id;
use kg_text::{List, NoMemory, Text};
use serde_json::{Map, Number, Value};
use std::alloc::Global;

/// The rule that a value breaks.
pub fn judged(alloc: Global, shape: Shape, value: &Value) -> Result<Option<Rule>, NoMemory>
    ensures { IfOk result (λ rule. rule ≡ judged shape (view value.now)) }
{
    if is_set(value) {
        shape_rule(alloc, shape, value)
    } else {
        Ok(None)
    }
}

/// null and the empty list count as not set.
pub fn is_set(value: &Value) -> bool
    ensures { result ≡ is_set (view value.now) }
{
    match value.as_array() {
        Some(items) => !items.is_empty(),
        None => !value.is_null(),
    }
}

fn shape_rule(alloc: Global, shape: Shape, value: &Value) -> Result<Option<Rule>, NoMemory>
    ensures { IfOk result (λ rule. rule ≡ shape_rule shape (view value.now)) }
{
    match shape {
        Shape::Text(text_kind) => match value.as_str() {
            Some(text) => text_rule(alloc, text_kind, text),
            None => Ok(Some(Rule::WrongType)),
        },
        Shape::Texts(text_kind) => match texts_of(alloc, value)? {
            Some(texts) => list_rule(alloc, text_kind, &texts),
            None => Ok(Some(Rule::WrongType)),
        },
        Shape::OneOf(choice) => match value.as_str() {
            Some(text) => Ok(choice_rule(choice, text)),
            None => Ok(Some(Rule::WrongType)),
        },
        Shape::Protocols => match texts_of(alloc, value)? {
            Some(texts) => protocols_rule(alloc, &texts),
            None => Ok(Some(Rule::WrongType)),
        },
        Shape::Whole { low, high } => match value.as_number() {
            Some(number) => Ok(whole_rule(low, high, number)),
            None => Ok(Some(Rule::WrongType)),
        },
        Shape::Integer { low, high } => match value.as_number() {
            Some(number) => Ok(integer_rule(low, high, number)),
            None => Ok(Some(Rule::WrongType)),
        },
        Shape::Flag => Ok(wrong_unless(value.is_boolean())),
        Shape::Reference(how) => match reference_of(alloc, how, value)? {
            Ok(_) => Ok(None),
            Err(rule) => Ok(Some(rule)),
        },
        Shape::Headers => match value.as_object() {
            Some(members) => headers_rule(alloc, members),
            None => Ok(Some(Rule::WrongType)),
        },
        Shape::Object => Ok(wrong_unless(value.is_object())),
    }
}

fn wrong_unless(fits: bool) -> Option<Rule>
    ensures { result ≡ (if fits then None else Some WrongType) }
{
    if fits { None } else { Some(Rule::WrongType) }
}

/// The first rule that a list of texts breaks.
#[tactic(auto, using(crate::proofs::ListLemmas::list_steps))]
pub fn list_rule(
    alloc: Global,
    text_kind: TextKind,
    texts: &List<Text>,
) -> Result<Option<Rule>, NoMemory>
    ensures { IfOk result (λ rule. rule ≡ list_rule text_kind texts.now) }
{
    if is_any_empty(texts.as_slice()) {
        return Ok(Some(Rule::Empty));
    }
    if texts.len() > 64 || is_any_longer(text_kind, texts.as_slice()) {
        return Ok(Some(Rule::OutOfRange));
    }
    if !have_form(alloc, text_kind, texts.as_slice())? {
        return Ok(Some(Rule::Syntax));
    }
    let stored = stored_texts(alloc, text_kind, texts.as_slice())?;
    if are_distinct(alloc, stored.as_slice())? {
        Ok(None)
    } else {
        Ok(Some(Rule::Repeated))
    }
}

fn is_any_empty(texts: &[Text]) -> bool
    ensures { result ≡ list_any (λ text. length text == 0) texts.now }
{
    texts.iter().any(|text| text.len() == 0)
}

fn is_any_longer(text_kind: TextKind, texts: &[Text]) -> bool
    ensures { result ≡ list_any (is_longer text_kind) texts.now }
{
    texts.iter().any(|text| is_longer(text_kind, text.as_str()))
}

fn have_form(alloc: Global, text_kind: TextKind, texts: &[Text]) -> Result<bool, NoMemory>
    ensures { IfOk result (λ all. all ≡ list_all (has_form text_kind) texts.now) }
{
    for text in texts {
        if !has_form(alloc, text_kind, text.as_str())? {
            return Ok(false);
        }
    }
    Ok(true)
}

#[tactic(auto, using(crate::proofs::ListLemmas::protocols_steps))]
fn protocols_rule(alloc: Global, texts: &List<Text>) -> Result<Option<Rule>, NoMemory>
    ensures { IfOk result (λ rule. rule ≡ protocols_rule texts.now) }
{
    if texts.len() > 64 {
        return Ok(Some(Rule::OutOfRange));
    }
    if !are_protocols(texts.as_slice()) || !has_text("http", texts.as_slice()) {
        return Ok(Some(Rule::OneOf));
    }
    if are_distinct(alloc, texts.as_slice())? {
        Ok(None)
    } else {
        Ok(Some(Rule::Repeated))
    }
}

fn are_protocols(texts: &[Text]) -> bool
    ensures { result ≡ list_all (is_choice Choice.Protocol) texts.now }
{
    texts
        .iter()
        .all(|text| is_choice(Choice::Protocol, text.as_str()))
}

/// Does the text stand among these?
pub fn has_text(wanted: &str, texts: &[Text]) -> bool
    ensures { result ≡ list_any (bytes_eq wanted.now) texts.now }
{
    texts.iter().any(|text| wanted == text.as_str())
}

fn whole_rule(low: u64, high: u64, number: &Number) -> Option<Rule>
    ensures { result ≡ whole_rule low high (number_view number.now) }
{
    if number.is_f64() {
        return Some(Rule::WrongType);
    }
    match number.as_u64() {
        Some(n) => {
            if low <= n && n <= high {
                None
            } else {
                Some(Rule::OutOfRange)
            }
        }
        None => Some(Rule::OutOfRange),
    }
}

fn integer_rule(low: i64, high: i64, number: &Number) -> Option<Rule>
    ensures { result ≡ integer_rule low high (number_view number.now) }
{
    if number.is_f64() {
        return Some(Rule::WrongType);
    }
    match number.as_i64() {
        Some(n) => {
            if low <= n && n <= high {
                None
            } else {
                Some(Rule::OutOfRange)
            }
        }
        None => Some(Rule::OutOfRange),
    }
}

/// The row that a value names, or the rule that the value breaks.
pub fn reference_of(
    alloc: Global,
    how: Mention,
    value: &Value,
) -> Result<Result<Reference, Rule>, NoMemory>
    ensures { IfOk result (λ found. found ≡ reference_of how (view value.now)) }
{
    match value {
        Value::String(text) => by_text(alloc, how, text.as_str()),
        Value::Object(members) => match only_set(members) {
            Some((name, value)) => by_member(alloc, how, name, value),
            None => Ok(Err(Rule::WrongType)),
        },
        Value::Null => Ok(Err(Rule::WrongType)),
        Value::Bool(_) => Ok(Err(Rule::WrongType)),
        Value::Number(_) => Ok(Err(Rule::WrongType)),
        Value::Array(_) => Ok(Err(Rule::WrongType)),
    }
}

// The only member that is set, with its name.
fn only_set(members: &Map<String, Value>) -> Option<(&str, &Value)>
    ensures { option_map (λ found. (found.0.now, view found.1.now)) result ≡ only (set_members (members_view members.now.entries)) }
{
    let mut found = None;
    for (name, value) in members.iter() {
        if is_set(value) {
            match found {
                Some(_) => return None,
                None => found = Some((name.as_str(), value)),
            }
        }
    }
    found
}

// The row that a member names.
fn by_member(
    alloc: Global,
    how: Mention,
    name: &str,
    value: &Value,
) -> Result<Result<Reference, Rule>, NoMemory>
    ensures { IfOk result (λ found. found ≡ by_member how (name.now, view value.now)) }
{
    let text = match value.as_str() {
        Some(text) => text,
        None => return Ok(Err(Rule::WrongType)),
    };
    if name == "id" {
        Ok(by_id(text))
    } else if name == how.member() {
        by_name(alloc, how, text)
    } else {
        Ok(Err(Rule::WrongType))
    }
}

fn by_text(alloc: Global, how: Mention, text: &str) -> Result<Result<Reference, Rule>, NoMemory>
    ensures { IfOk result (λ found. found ≡ by_text how text.now) }
{
    match Id::parse(text.as_bytes()) {
        Some(id) => Ok(Ok(Reference::Id(id))),
        None => by_name(alloc, how, text),
    }
}

fn by_id(text: &str) -> Result<Reference, Rule>
    ensures { result ≡ by_id text.now }
{
    if text.is_empty() {
        return Err(Rule::Empty);
    }
    match Id::parse(text.as_bytes()) {
        Some(id) => Ok(Reference::Id(id)),
        None => Err(Rule::Syntax),
    }
}

fn by_name(alloc: Global, how: Mention, text: &str) -> Result<Result<Reference, Rule>, NoMemory>
    ensures { IfOk result (λ found. found ≡ by_name how text.now) }
{
    match text_rule(alloc, how.text_kind(), text)? {
        Some(rule) => Ok(Err(rule)),
        None => Ok(Ok(Reference::Name(Text::from_str(alloc, text)?))),
    }
}
