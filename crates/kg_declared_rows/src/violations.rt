//! What is wrong with the declaration's object itself, and the lists of rows in it.

ghost use Rattle.std.specs.Prelude.{◌≡◌, IfOk, OnOk, fold, is_some, map, option_map};
ghost use Rattle.std.specs.List.{list_all};
ghost use Rattle.serde_json.specs.Find.{as_object, get_member};
ghost use Rattle.serde_json.specs.View.{items_view, members_view, view};
ghost use Rattle.kg_field_tables.specs.BrokenRules.{told};
ghost use Rattle.kg_field_rules.specs.Rules.{in_order, tell};
ghost use Rattle.kg_declared_rows.specs.Violations.{each_object, has_version, list_rule, member_violations, member_rule, own_violations, rows_at, rows_in, version_violations, version_rule};
ghost use Rattle.kg_declared_rows.specs.Rows.{without};
ghost use Rattle.kg_declared_rows.specs.SeenRows.{AddsObject};

use kg_field_rules::rule::Rule;
use kg_field_rules::violations::Violations;
use kg_text::{NoMemory, Text};
use serde_json::{Map, Value};
use std::alloc::Global;

/// The violations of the declaration's own members.
pub fn own_violations(
    alloc: Global,
    declaration: &Map<String, Value>,
) -> Result<Violations, NoMemory>
    ensures { IfOk result (λ violations. violations ≡ in_order (own_violations (members_view declaration.now.entries))) }
{
    let mut violations = Violations::new(alloc);
    tell_members(alloc, declaration, &mut violations)?;
    tell_version(alloc, declaration, &mut violations)?;
    Ok(violations)
}

// Tells that the version of the format has to be set.
fn tell_version(
    alloc: Global,
    declaration: &Map<String, Value>,
    violations: &mut Violations,
) -> Result<(), NoMemory>
    ensures { OnOk result (violations.new ≡ fold tell violations.old (version_violations (members_view declaration.now.entries))) }
{
    if has_version(declaration) {
        Ok(())
    } else {
        tell_rule(alloc, "_format_version", Rule::Required, violations)
    }
}

// Tells that this member breaks the rule.
fn tell_rule(
    alloc: Global,
    name: &str,
    rule: Rule,
    violations: &mut Violations,
) -> Result<(), NoMemory>
    ensures { OnOk result (violations.new ≡ tell violations.old (name.now, rule)) }
{
    violations.tell(Text::from_str(alloc, name)?, rule)
}

fn tell_members(
    alloc: Global,
    members: &Map<String, Value>,
    violations: &mut Violations,
) -> Result<(), NoMemory>
    ensures { OnOk result (violations.new ≡ fold tell violations.old (member_violations (members_view members.now.entries))) }
{
    for (name, value) in members.iter() {
        tell_member(alloc, name.as_str(), value, violations)?;
    }
    Ok(())
}

fn tell_member(
    alloc: Global,
    name: &str,
    value: &Value,
    violations: &mut Violations,
) -> Result<(), NoMemory>
    ensures { OnOk result (violations.new ≡ fold tell violations.old (told name.now (member_rule name.now (view value.now)))) }
{
    match member_rule(name, value) {
        Some(rule) => tell_rule(alloc, name, rule, violations),
        None => Ok(()),
    }
}

// The rule that a member of the declaration breaks.
fn member_rule(name: &str, value: &Value) -> Option<Rule>
    ensures { result ≡ member_rule name.now (view value.now) }
{
    match name {
        "_format_version" => version_rule(value),
        "_transform" | "_info" | "_comment" => None,
        "services"
        | "routes"
        | "consumers"
        | "keyauth_credentials"
        | "basicauth_credentials"
        | "acls"
        | "plugins" => list_rule(value),
        _ => Some(Rule::Unknown),
    }
}

fn version_rule(value: &Value) -> Option<Rule>
    ensures { result ≡ version_rule (view value.now) }
{
    if value.is_null() {
        return None;
    }
    match value.as_str() {
        Some("1.1" | "2.1" | "3.0") => None,
        Some(_) => Some(Rule::OneOf),
        None => Some(Rule::WrongType),
    }
}

fn list_rule(value: &Value) -> Option<Rule>
    ensures { result ≡ list_rule (view value.now) }
{
    if value.is_null() {
        return None;
    }
    match value.as_array() {
        Some(items) if lists_objects(items.as_slice()) => None,
        _ => Some(Rule::WrongType),
    }
}

fn lists_objects(items: &[Value]) -> bool
    ensures { result ≡ is_some (each_object (items_view items.now)) }
{
    are_objects(items) // apart: the proof has to look at each item
}

fn are_objects(items: &[Value]) -> bool
    ensures { result ≡ list_all (λ item. is_some (as_object (view item))) items.now }
{
    items.iter().all(|item| item.is_object())
}

fn has_version(declaration: &Map<String, Value>) -> bool
    ensures { result ≡ has_version (members_view declaration.now.entries) }
{
    match member(declaration, "_format_version") {
        Some(value) => !value.is_null(),
        None => false,
    }
}

fn member<'m>(members: &'m Map<String, Value>, name: &str) -> Option<&'m Value>
    ensures { option_map (λ value. view value.now) result ≡ get_member name.now (members_view members.now.entries) }
{
    members.get(name)
}

/// Takes out the rows that a member lists: `None` where it isn't a list of objects.
pub fn take_rows(
    alloc: Global,
    members: &mut Map<String, Value>,
    name: &str,
) -> Result<Option<Vec<Map<String, Value>>>, NoMemory>
    ensures rows { IfOk result (λ found. option_map (λ rows. map (λ row. members_view row.entries) rows.items) found ≡ rows_at name.now (members_view members.old.entries)) }
    ensures left { members_view members.new.entries ≡ without name.now (members_view members.old.entries) }
{
    match take_member(members, name) {
        Some(value) => rows_in(alloc, value),
        None => Ok(Some(Vec::new(alloc))),
    }
}

fn take_member(members: &mut Map<String, Value>, name: &str) -> Option<Value>
    ensures value { option_map view result ≡ get_member name.now (members_view members.old.entries) }
    ensures left { members_view members.new.entries ≡ without name.now (members_view members.old.entries) }
{
    members.remove(name)
}

fn rows_in(alloc: Global, value: Value) -> Result<Option<Vec<Map<String, Value>>>, NoMemory>
    ensures { IfOk result (λ found. option_map (λ rows. map (λ row. members_view row.entries) rows.items) found ≡ rows_in (view value)) }
{
    match value {
        Value::Null => Ok(Some(Vec::new(alloc))),
        Value::Array(items) => each_object(alloc, items),
        Value::Bool(_) => Ok(None),
        Value::Number(_) => Ok(None),
        Value::String(_) => Ok(None),
        Value::Object(_) => Ok(None),
    }
}

fn each_object(
    alloc: Global,
    items: Vec<Value>,
) -> Result<Option<Vec<Map<String, Value>>>, NoMemory>
    ensures { IfOk result (λ found. option_map (λ rows. map (λ row. members_view row.entries) rows.items) found ≡ each_object (items_view items.items)) }
{
    let mut rows = Vec::new(alloc);
    for item in items {
        if !add_object(item, &mut rows)? {
            return Ok(None);
        }
    }
    Ok(Some(rows))
}

// Adds the value, if it is an object, and tells whether it is one.
fn add_object(item: Value, rows: &mut Vec<Map<String, Value>>) -> Result<bool, NoMemory>
    ensures { IfOk result (AddsObject (as_object (view item)) (map (λ row. members_view row.entries) rows.old.items) (map (λ row. members_view row.entries) rows.new.items)) }
{
    match item {
        Value::Object(row) => {
            rows.push(row)?;
            Ok(true)
        }
        other => {
            // let go by name: a short proof
            drop(other);
            Ok(false)
        }
    }
}
