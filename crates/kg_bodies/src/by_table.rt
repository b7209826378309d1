//! What a body sets, by the table of its fields: which texts and numbers a field takes stands there
//! alone.

ghost use Rattle.std.specs.Prelude.{◌≡◌, [], IfOk, IfSome, codes};
ghost use Rattle.serde_json.specs.View.{view};
ghost use Rattle.kg_row_types.specs.declared.entity.Kind.TheVariants as kind;
ghost use Rattle.kg_field_tables.specs.BrokenRules.{field_violations};
ghost use Rattle.kg_field_tables.specs.FieldTables.{field_of};
ghost use Rattle.kg_field_tables.specs.declared.table.Table.TheVariants as table;
ghost use Rattle.kg_bodies.specs.TableSettings.{IsIntegerWithin, IsWithin, integer_in, text_in, texts_in, whole_in};

use crate::settings::{integer_at, text_at, texts_at, whole_at};
use crate::texts::{stored_texts, texts_of};
use kg_field_rules::text_kind::TextKind;
use kg_field_tables::shape::Shape;
use kg_field_tables::table::{Field, Table, field_of};
use kg_text::{List, NoMemory, Text};
use serde_json::Value;
use std::alloc::Global;

/// The text of the field of this name, as it is stored.
#[tactic(auto, unfolding(crate::specs::TableSettings::text_in))]
pub fn text_in(
    alloc: Global,
    table: Table,
    name: &str,
    body: &Value,
) -> Result<Option<Text>, NoMemory>
    ensures { IfOk result (λ found. found ≡ text_in table name.now (view body.now)) }
{
    match field_of(table, name) {
        Field::Judged(Shape::Text(text_kind), _) => text_at(alloc, text_kind, name, body),
        _ => Ok(None),
    }
}

/// The texts of the list of this name, as they are stored: none where it isn't set.
#[tactic(auto, unfolding(crate::specs::TableSettings::texts_in))]
pub fn texts_in(
    alloc: Global,
    table: Table,
    name: &str,
    body: &Value,
) -> Result<List<Text>, NoMemory>
    ensures { IfOk result (λ found. found ≡ texts_in table name.now (view body.now)) }
{
    match field_of(table, name) {
        Field::Judged(Shape::Texts(text_kind), _) => texts_at(alloc, text_kind, name, body),
        _ => Ok(List::new(alloc)),
    }
}

/// The paths of a route, as they are stored. They were judged with the body, and aren't judged again.
#[tactic(auto, unfolding(crate::specs::TableSettings::texts_in), using(crate::proofs::AcceptedLemmas::paths_accepted))]
pub fn paths_at(alloc: Global, body: &Value) -> Result<List<Text>, NoMemory>
    requires { field_violations kind.Route (view body.now) ≡ [] }
    ensures { IfOk result (λ found. found ≡ texts_in table.Route (codes "paths") (view body.now)) }
{
    match body.get("paths") {
        Some(value) => match texts_of(alloc, value)? {
            Some(texts) => stored_texts(alloc, TextKind::RoutePath, texts.as_slice()),
            None => Ok(List::new(alloc)),
        },
        None => Ok(List::new(alloc)),
    }
}

/// The whole number of the field of this name, within the field's bounds.
#[tactic(auto, unfolding(crate::specs::TableSettings::whole_in))]
pub fn whole_in(
    alloc: Global,
    table: Table,
    name: &str,
    body: &Value,
) -> Result<Option<u64>, NoMemory>
    ensures value { IfOk result (λ found. found ≡ whole_in table name.now (view body.now)) }
    ensures within { IfOk result (λ found. IfSome found (IsWithin (field_of table name.now))) }
{
    match field_of(table, name) {
        Field::Judged(Shape::Whole { low, high }, _) => whole_at(alloc, low, high, name, body),
        _ => Ok(None),
    }
}

/// The integer of the field of this name, within the field's bounds.
#[tactic(auto, unfolding(crate::specs::TableSettings::integer_in))]
pub fn integer_in(
    alloc: Global,
    table: Table,
    name: &str,
    body: &Value,
) -> Result<Option<i64>, NoMemory>
    ensures value { IfOk result (λ found. found ≡ integer_in table name.now (view body.now)) }
    ensures within { IfOk result (λ found. IfSome found (IsIntegerWithin (field_of table name.now))) }
{
    match field_of(table, name) {
        Field::Judged(Shape::Integer { low, high }, _) => integer_at(alloc, low, high, name, body),
        _ => Ok(None),
    }
}
