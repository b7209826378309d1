//! Ids, and the names of plugins.

use case_lines::{Args, put, put_unknown};
use kg_password::hash_of;
use kg_row_types::id::Id;
use kg_row_types::plugin::PluginName;
use kg_text::NoMemory;
use std::alloc::Global;
use std::cmp::Ordering;

pub fn put_id_answer(
    alloc: Global,
    out: &mut String,
    call: &str,
    args: &Args,
) -> Result<(), NoMemory> {
    match call {
        "parse" => put_some_id(alloc, out, Id::parse(args.at(0))),
        "printed" => put_some_id(alloc, out, Id::of_printed(args.at(0))),
        "drawn" => put_id(alloc, out, drawn(args.text(0))),
        "number" => put_number(out, Id::parse(args.at(0))),
        "order" => put(out, order_of(Id::parse(args.at(0)), Id::parse(args.at(1)))),
        "hash" => put_hash(alloc, out, Id::parse(args.at(0)), args.at(1)),
        "plugin" => put_plugin(out, args.text(0)),
        _ => put_unknown(out),
    }
}

/// The id that is drawn with fifteen zeros and then this byte.
pub fn drawn(last: &str) -> Id {
    let last = last.parse().unwrap_or(0);
    Id::from_drawn([0, 0, 0, 0, 0, 0, 0, 0, 0, 0, 0, 0, 0, 0, 0, last])
}

/// Adds an id as it is printed.
pub fn put_id(alloc: Global, out: &mut String, id: Id) -> Result<(), NoMemory> {
    let text = id.to_text(alloc)?;
    put(out, text.as_str())
}

fn put_some_id(alloc: Global, out: &mut String, id: Option<Id>) -> Result<(), NoMemory> {
    match id {
        Some(id) => put_id(alloc, out, id),
        None => put(out, "none"),
    }
}

fn put_number(out: &mut String, id: Option<Id>) -> Result<(), NoMemory> {
    match id {
        Some(id) => {
            write!(out, "{}", id.number())?;
            Ok(())
        }
        None => put(out, "none"),
    }
}

// Adds what is stored of a password of the consumer with this id.
fn put_hash(
    alloc: Global,
    out: &mut String,
    consumer: Option<Id>,
    password: &[u8],
) -> Result<(), NoMemory> {
    match consumer {
        Some(consumer) => {
            let hash = hash_of(alloc, consumer, password)?;
            put(out, hash.as_str())
        }
        None => put(out, "none"),
    }
}

fn order_of(first: Option<Id>, second: Option<Id>) -> &'static str {
    match first.cmp(&second) {
        Ordering::Less => "less",
        Ordering::Equal => "equal",
        Ordering::Greater => "greater",
    }
}

fn put_plugin(out: &mut String, name: &str) -> Result<(), NoMemory> {
    match PluginName::named(name) {
        Some(plugin) => {
            write!(out, "{} {}", plugin.as_str(), plugin.priority())?;
            Ok(())
        }
        None => put(out, "none"),
    }
}
