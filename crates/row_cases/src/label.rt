//! Short names of keys, ids and rows.

use case_lines::put;
use kg_entities::{Entity, GenKey, Id, Key};
use kg_rows::Touched;
use kg_text::{NoMemory, Text};
use std::alloc::Global;

// What the ids that are drawn begin with, before two digits.
const DRAWN: &str = "00000000-0000-4000-8000-0000000000";

fn short(text: &str) -> &str {
    match text.strip_prefix(DRAWN) {
        Some(digits) => digits,
        None => text,
    }
}

/// Adds an id, by its last two digits if it is one of the first that are drawn.
pub fn put_id(alloc: Global, out: &mut String, id: Id) -> Result<(), NoMemory> {
    let printed = id.to_text(alloc)?;
    put(out, short(printed.as_str()))
}

/// Adds the touched keys and generations in byte order, each after a blank.
pub fn put_touched(alloc: Global, out: &mut String, touched: &Touched) -> Result<(), NoMemory> {
    let mut labels = Vec::new(alloc);
    let told = put_sorted(alloc, out, &mut labels, touched);
    drop(labels); // let go by name: a short proof
    told
}

fn put_sorted(
    alloc: Global,
    out: &mut String,
    labels: &mut Vec<String>,
    touched: &Touched,
) -> Result<(), NoMemory> {
    put_labels(alloc, labels, touched)?;
    labels.sort()?;
    put_each(out, labels.as_slice())
}

fn put_labels(alloc: Global, labels: &mut Vec<String>, touched: &Touched) -> Result<(), NoMemory> {
    for key in touched.keys.as_slice() {
        labels.push(key_label(alloc, key)?)?;
    }
    for generation in touched.gens.as_slice() {
        labels.push(String::from_str(alloc, generation_label(generation))?)?;
    }
    Ok(())
}

fn key_label(alloc: Global, key: &Key) -> Result<String, NoMemory> {
    let mut label = String::new(alloc);
    put_key(alloc, &mut label, key)?;
    Ok(label)
}

fn put_key(alloc: Global, out: &mut String, key: &Key) -> Result<(), NoMemory> {
    match key {
        Key::Cred(text) => put_worded(out, "cred:", text.as_str()),
        Key::Basic(text) => put_worded(out, "basic:", text.as_str()),
        Key::Named(text) => put_worded(out, "named:", short(text.as_str())),
        Key::Consumer(id) => put_numbered(alloc, out, "consumer:", *id),
        Key::Acls(id) => put_numbered(alloc, out, "acls:", *id),
    }
}

fn put_worded(out: &mut String, kind: &'static str, text: &str) -> Result<(), NoMemory> {
    put(out, kind)?;
    put(out, text)
}

fn put_numbered(
    alloc: Global,
    out: &mut String,
    kind: &'static str,
    id: Id,
) -> Result<(), NoMemory> {
    put(out, kind)?;
    put_id(alloc, out, id)
}

fn generation_label(generation: &GenKey) -> &'static str {
    match generation {
        GenKey::Router => "router",
        GenKey::Plugins => "plugins",
    }
}

fn put_each(out: &mut String, labels: &[String]) -> Result<(), NoMemory> {
    for label in labels {
        put(out, " ")?;
        put(out, label.as_str())?;
    }
    Ok(())
}

/// What a row is called.
pub fn row_label(row: &Entity) -> &str {
    match row {
        Entity::Service(row) => name_of(&row.name),
        Entity::Route(row) => name_of(&row.name),
        Entity::Consumer(row) => name_of(&row.username),
        Entity::KeyCred(row) => row.key.as_str(),
        Entity::BasicCred(row) => row.username.as_str(),
        Entity::Acl(row) => row.group.as_str(),
        Entity::Plugin(row) => row.config.name().as_str(),
    }
}

fn name_of(name: &Option<Text>) -> &str {
    match name {
        Some(text) => text.as_str(),
        None => "-",
    }
}
