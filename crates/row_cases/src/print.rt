//! Rows and values, printed.

use crate::path::{Target, target_of};
use case_lines::{put, split};
use kg_entities::{BasicCred, Consumer, Entity, Id, Key, KeyCred, Rows, Value};
use kg_rows::{Select, found, value_of};
use kg_schema::show_entity;
use kg_text::{List, NoMemory, Text};
use std::alloc::Global;

/// Adds a row, as the Admin API shows it.
pub fn put_row(alloc: Global, out: &mut String, row: &Entity) -> Result<(), NoMemory> {
    let shown = show_entity(alloc, row)?;
    let text = shown.to_string(alloc);
    drop(shown); // let go by name: a short proof
    put(out, text?.as_str())
}

/// Adds the row that a path names.
pub fn put_shown(alloc: Global, out: &mut String, rows: &Rows, path: &str) -> Result<(), NoMemory> {
    let target = target_of(alloc, path)?;
    let told = put_target(alloc, out, rows, &target);
    drop(target); // let go by name: a short proof
    told
}

fn put_target(
    alloc: Global,
    out: &mut String,
    rows: &Rows,
    target: &Option<Target>,
) -> Result<(), NoMemory> {
    match target {
        Some(target) => match &target.select {
            Some(select) => put_found(alloc, out, rows, target, select),
            None => put(out, "no such path"),
        },
        None => put(out, "no such path"),
    }
}

fn put_found(
    alloc: Global,
    out: &mut String,
    rows: &Rows,
    target: &Target,
    select: &Select,
) -> Result<(), NoMemory> {
    let row = found(alloc, rows, target.kind, &target.parent, select)?;
    let told = put_row_or_none(alloc, out, &row);
    drop(row); // let go by name: a short proof
    told
}

fn put_row_or_none(alloc: Global, out: &mut String, row: &Option<Entity>) -> Result<(), NoMemory> {
    match row {
        Some(row) => put_row(alloc, out, row),
        None => put(out, "none"),
    }
}

/// Adds the value of a key.
pub fn put_key_value(
    alloc: Global,
    out: &mut String,
    rows: &Rows,
    line: &str,
) -> Result<(), NoMemory> {
    let (question, text) = split(line, " ");
    let key = key_of(alloc, question, text)?;
    let told = put_value_of(alloc, out, rows, &key);
    drop(key); // let go by name: a short proof
    told
}

fn key_of(alloc: Global, question: &str, text: &str) -> Result<Option<Key>, NoMemory> {
    match question {
        "cred" => Ok(Some(Key::Cred(Text::from_str(alloc, text)?))),
        "basic" => Ok(Some(Key::Basic(Text::from_str(alloc, text)?))),
        "named" => Ok(Some(Key::Named(Text::from_str(alloc, text)?))),
        "consumer" => Ok(consumer_key(text)),
        "acls" => Ok(acls_key(text)),
        _ => Ok(None),
    }
}

fn consumer_key(text: &str) -> Option<Key> {
    match Id::parse(text.as_bytes()) {
        Some(id) => Some(Key::Consumer(id)),
        None => None,
    }
}

fn acls_key(text: &str) -> Option<Key> {
    match Id::parse(text.as_bytes()) {
        Some(id) => Some(Key::Acls(id)),
        None => None,
    }
}

fn put_value_of(
    alloc: Global,
    out: &mut String,
    rows: &Rows,
    key: &Option<Key>,
) -> Result<(), NoMemory> {
    match key {
        Some(key) => put_value(alloc, out, value_of(alloc, rows, key)?),
        None => put(out, "no such key"),
    }
}

fn put_value(alloc: Global, out: &mut String, value: Value) -> Result<(), NoMemory> {
    match value {
        Value::Cred(row) => put_own_row(alloc, out, key_row(row)),
        Value::Basic(row) => put_own_row(alloc, out, login_row(row)),
        Value::Consumer(row) => put_own_row(alloc, out, consumer_row(row)),
        Value::Acls(groups) => put_own_groups(out, groups),
    }
}

fn put_own_row(alloc: Global, out: &mut String, row: Option<Entity>) -> Result<(), NoMemory> {
    let told = put_row_or_none(alloc, out, &row);
    drop(row); // let go by name: a short proof
    told
}

fn key_row(row: Option<KeyCred>) -> Option<Entity> {
    match row {
        Some(row) => Some(Entity::KeyCred(row)),
        None => None,
    }
}

fn login_row(row: Option<BasicCred>) -> Option<Entity> {
    match row {
        Some(row) => Some(Entity::BasicCred(row)),
        None => None,
    }
}

fn consumer_row(row: Option<Consumer>) -> Option<Entity> {
    match row {
        Some(row) => Some(Entity::Consumer(row)),
        None => None,
    }
}

fn put_own_groups(out: &mut String, groups: List<Text>) -> Result<(), NoMemory> {
    let told = put_groups(out, groups.as_slice());
    drop(groups); // let go by name: a short proof
    told
}

// The groups, with a blank between two.
fn put_groups(out: &mut String, groups: &[Text]) -> Result<(), NoMemory> {
    for group in groups {
        if !out.is_empty() {
            put(out, " ")?;
        }
        put(out, group.as_str())?;
    }
    Ok(())
}
