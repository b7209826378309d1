//! The rules that the fields of a body break, each judged by itself.

ghost use Rattle.std.specs.Prelude.{◌≡◌, ◌+◌, ◌++◌, IfOk, IfSome, OnOk, fold};
ghost use Rattle.serde_json.specs.View.{members_view, view};
ghost use Rattle.kg_field_tables.specs.Accepted.{AcceptsMembers};
ghost use Rattle.kg_field_tables.specs.BrokenRules.{violations_in, violations_inside, field_violations, field_rule, named_plugin, object_rule, table_inside, told};
ghost use Rattle.kg_field_tables.specs.Depths.{depth_of, levels};
ghost use Rattle.kg_field_rules.specs.Rules.{in_order, tell};

use crate::judge::{is_set, judged};
use kg_field_rules::rule::Rule;
use kg_field_rules::violations::Violations;
use kg_field_tables::constant::is_constant;
use kg_field_tables::table::{Field, Table, field_of, table_of};
use kg_row_types::entity::Kind;
use kg_row_types::plugin::PluginName;
use kg_text::{NoMemory, Text};
use serde_json::{Map, Value};
use std::alloc::Global;

/// The violations of the fields of a body.
pub fn field_violations(alloc: Global, kind: Kind, body: &Value) -> Result<Violations, NoMemory>
    ensures { IfOk result (λ violations. violations ≡ in_order (field_violations kind (view body.now))) }
{
    let mut violations = Violations::new(alloc);
    if let Some(members) = body.as_object() {
        let table = table_of(kind, named_plugin(body));
        judge_members(alloc, members, table, "", &mut violations)?;
    }
    Ok(violations)
}

/// The plugin that a body names, if there is one of that name.
pub fn named_plugin(body: &Value) -> Option<PluginName>
    ensures { result ≡ named_plugin (view body.now) }
{
    match body.get("name").and_then(Value::as_str) {
        Some(name) => PluginName::named(name),
        None => None,
    }
}

/// Tells the violations of an object's members, whose paths have `front` in front.
#[cycle(judging)]
pub fn judge_members(
    alloc: Global,
    members: &Map<String, Value>,
    table: Table,
    front: &str,
    violations: &mut Violations,
) -> Result<(), NoMemory>
    ensures ok { OnOk result (violations.new ≡ fold tell violations.old (violations_in (members_view members.now.entries) table front.now)) }
{
    for (name, value) in members.iter() {
        let field = field_of(table, name.as_str());
        let path = joined(alloc, front, name.as_str())?;
        judge_member(alloc, value, field, path.as_str(), violations)?;
    }
    Ok(())
}

/// Tells the violations of the value of one field, and of what stands inside it.
#[cycle(judging)]
#[tactic(auto, using(crate::proofs::InsideLemmas::no_object, crate::proofs::InsideLemmas::no_table, crate::proofs::InsideLemmas::table_of_members))]
pub fn judge_member(
    alloc: Global,
    value: &Value,
    field: Field,
    path: &str,
    violations: &mut Violations,
) -> Result<(), NoMemory>
    ensures ok { OnOk result (violations.new ≡ fold tell violations.old (told path.now (field_rule field (view value.now)) ++ violations_inside (view value.now) field path.now)) }
{
    tell_rule(alloc, value, field, path, violations)?;
    match table_inside(field) {
        Some(table) => match value.as_object() {
            Some(members) => {
                let front = joined(alloc, path, ".")?;
                judge_members(alloc, members, table, front.as_str(), violations)
            }
            None => Ok(()),
        },
        None => Ok(()),
    }
}

// Tells the rule that the value of a field breaks, if it breaks one.
fn tell_rule(
    alloc: Global,
    value: &Value,
    field: Field,
    path: &str,
    violations: &mut Violations,
) -> Result<(), NoMemory>
    ensures { OnOk result (violations.new ≡ fold tell violations.old (told path.now (field_rule field (view value.now)))) }
{
    match field_rule(alloc, field, value)? {
        Some(rule) => violations.tell(Text::from_str(alloc, path)?, rule),
        None => Ok(()),
    }
}

// The table that stands inside a field.
fn table_inside(field: Field) -> Option<Table>
    ensures value { result ≡ table_inside field }
    ensures depth { IfSome result (λ table. depth_of field ≡ levels table + 1) }
{
    match field {
        Field::Inside(table) => Some(table),
        Field::Unknown => None,
        Field::Dropped => None,
        Field::Fixed(_) => None,
        Field::Judged(_, _) => None,
    }
}

fn joined(alloc: Global, front: &str, name: &str) -> Result<Text, NoMemory>
    ensures { IfOk result (λ text. text ≡ front.now ++ name.now) }
{
    let mut text = String::from_str(alloc, front)?;
    text.push_str(name)?;
    Ok(Text::from_string(text))
}

/// The rule that the value of a field breaks.
pub fn field_rule(alloc: Global, field: Field, value: &Value) -> Result<Option<Rule>, NoMemory>
    ensures { IfOk result (λ rule. rule ≡ field_rule field (view value.now)) }
{
    match field {
        Field::Unknown => Ok(Some(Rule::Unknown)),
        Field::Dropped => Ok(None),
        Field::Fixed(constant) => {
            if is_set(value) && !is_constant(constant, value) {
                Ok(Some(Rule::Fixed))
            } else {
                Ok(None)
            }
        }
        Field::Judged(shape, _) => judged(alloc, shape, value),
        Field::Inside(_) => Ok(object_rule(value)),
    }
}

// An object, if it is set.
fn object_rule(value: &Value) -> Option<Rule>
    ensures { result ≡ object_rule (view value.now) }
{
    if is_set(value) && !value.is_object() {
        Some(Rule::WrongType)
    } else {
        None
    }
}

/// Each member of an object without violations is accepted, by itself and inside: a law, for proofs.
pub fn members_of_an_unbroken_object_are_accepted()
    ensures { AcceptsMembers }
{}
