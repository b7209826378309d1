//! The headers that a route asks for.

ghost use Rattle.std.specs.Prelude.{◌≡◌, IfOk, flat_map, map};
ghost use Rattle.std.specs.Str.{str_to_ascii_lowercase};
ghost use Rattle.serde_json.specs.View.{members_view, view};
ghost use Rattle.kg_field_rules.specs.Rules.{first_by_rank};
ghost use Rattle.kg_field_tables.specs.Judging.{header_breaks, header_rule, headers_rule, is_header, set_members, values_breaks};

use crate::judge::{is_set, list_rule};
use crate::texts::{are_distinct, lower_case, texts_of};
use kg_field_rules::rule::{Rule, sooner};
use kg_field_rules::text_kind::TextKind;
use kg_text::{List, NoMemory, Text, is_token};
use serde_json::{Map, Value};
use std::alloc::Global;

/// The first rule that an object of headers breaks. A header whose list isn't set isn't there.
#[tactic(auto, using(kg_field_rules::proofs::RuleLemmas::first_of_both))]
pub fn headers_rule(alloc: Global, members: &Map<String, Value>) -> Result<Option<Rule>, NoMemory>
    ensures { IfOk result (λ rule. rule ≡ headers_rule (members_view members.now.entries)) }
{
    let rule = each_header_rule(alloc, members)?;
    let names = lower_names(alloc, members)?;
    if are_distinct(alloc, names.as_slice())? {
        Ok(sooner(rule, None))
    } else {
        Ok(sooner(rule, Some(Rule::Repeated)))
    }
}

// The first rule that a header breaks by itself.
#[tactic(auto, using(kg_field_rules::proofs::RuleLemmas::first_of_both, kg_field_rules::proofs::RuleLemmas::sooner_assoc, kg_field_rules::proofs::RuleLemmas::sooner_none))]
fn each_header_rule(alloc: Global, members: &Map<String, Value>) -> Result<Option<Rule>, NoMemory>
    ensures { IfOk result (λ rule. rule ≡ first_by_rank (flat_map (λ header. header_breaks header.0 header.1) (set_members (members_view members.now.entries)))) }
{
    let mut rule = None;
    for (name, value) in members.iter() {
        if is_set(value) {
            rule = sooner(rule, header_rule(alloc, name.as_str(), value)?);
        }
    }
    Ok(rule)
}

/// The first rule that one header breaks whose list is set.
pub fn header_rule(alloc: Global, name: &str, value: &Value) -> Result<Option<Rule>, NoMemory>
    ensures { IfOk result (λ rule. rule ≡ header_rule name.now (view value.now)) }
{
    let rule = values_rule(alloc, value)?;
    if is_header(alloc, name)? {
        Ok(rule)
    } else {
        Ok(sooner(Some(Rule::Syntax), rule))
    }
}

fn values_rule(alloc: Global, value: &Value) -> Result<Option<Rule>, NoMemory>
    ensures { IfOk result (λ rule. rule ≡ first_by_rank (values_breaks (view value.now))) }
{
    match texts_of(alloc, value)? {
        Some(texts) => list_rule(alloc, TextKind::FreeText, &texts),
        None => Ok(Some(Rule::WrongType)),
    }
}

fn is_header(alloc: Global, name: &str) -> Result<bool, NoMemory>
    ensures { IfOk result (λ is. is ≡ is_header name.now) }
{
    Ok(is_token(name.as_bytes()) && lower_case(alloc, name)?.as_str() != "host")
}

// The names of the headers whose lists are set, in lower case and in the order of the members.
fn lower_names(alloc: Global, members: &Map<String, Value>) -> Result<List<Text>, NoMemory>
    ensures { IfOk result (λ names. names ≡ map (λ header. str_to_ascii_lowercase header.0) (set_members (members_view members.now.entries))) }
{
    let mut names = List::new(alloc);
    for (name, value) in members.iter() {
        if is_set(value) {
            names.push(lower_case(alloc, name.as_str())?)?;
        }
    }
    Ok(names)
}
