//! Lists of header fields.

use crate::changes::put_change;
use case_lines::{Args, put, put_found, put_number, put_truth, put_unknown, put_value};
use kg_message::{Header, Headers, end_to_end, is_among, is_hop_by_hop};
use kg_text::{Name, NoMemory, TextError};
use std::alloc::Global;

pub fn put_fields_answer(
    alloc: Global,
    out: &mut String,
    fields: &mut Headers,
    call: &str,
    args: &Args,
) -> Result<(), NoMemory> {
    match call {
        "none" => put_none(alloc, out, fields),
        "add" | "set" | "replace" | "rename" | "remove" => {
            put_named_change(alloc, out, fields, call, args)
        }
        "at" | "first" | "media_type" => put_value_answer(out, fields, call, args),
        "end_to_end" => put_fields(out, &end_to_end(alloc, fields)?),
        _ => put_asked(out, fields, call, args),
    }
}

fn put_none(alloc: Global, out: &mut String, fields: &mut Headers) -> Result<(), NoMemory> {
    *fields = Headers::new(alloc);
    put(out, "none")
}

fn put_named_change(
    alloc: Global,
    out: &mut String,
    fields: &mut Headers,
    call: &str,
    args: &Args,
) -> Result<(), NoMemory> {
    match Name::of(alloc, args.at(0)) {
        Ok(name) => put_change(alloc, out, fields, call, name, args.at(1)),
        Err(TextError::Bad { .. }) => put(out, "no name"),
        Err(TextError::NoMemory) => Err(NoMemory),
    }
}

fn put_value_answer(
    out: &mut String,
    fields: &Headers,
    call: &str,
    args: &Args,
) -> Result<(), NoMemory> {
    match call {
        "at" => put_found(out, value_at(fields, args.number(0))),
        "first" => put_found(out, fields.first(args.at(0))),
        _ => put_found(out, fields.media_type()),
    }
}

fn value_at(fields: &Headers, index: usize) -> Option<&[u8]> {
    match fields.at(index) {
        Some(field) => Some(field.value.as_slice()),
        None => None,
    }
}

fn put_asked(out: &mut String, fields: &Headers, call: &str, args: &Args) -> Result<(), NoMemory> {
    match call {
        "len" => put_count(out, fields.len()),
        "count" => put_count(out, fields.count(args.at(0))),
        "has" => put_truth(out, fields.has(args.at(0))),
        "lists" => put_truth(out, fields.lists(args.at(0), args.at(1))),
        "among" => put_truth(out, some_is_among(fields, args.text(0), args.text(1))),
        "hops" => put_hops(out, fields),
        _ => put_unknown(out),
    }
}

/// Adds a number of fields.
pub fn put_count(out: &mut String, count: usize) -> Result<(), NoMemory> {
    put_number(out, u64::try_from(count).unwrap_or(u64::MAX))
}

// Has some field one of these two names?
fn some_is_among(fields: &Headers, first: &str, second: &str) -> bool {
    fields
        .as_slice()
        .iter()
        .any(|field| is_among(&[first, second], field))
}

// The fields that are meant for one hop alone.
fn put_hops(out: &mut String, fields: &Headers) -> Result<(), NoMemory> {
    for field in fields.as_slice() {
        if is_hop_by_hop(fields, field) {
            put_field(out, field)?;
        }
    }
    Ok(())
}

/// Adds the fields, each as `[name: value]`.
pub fn put_fields(out: &mut String, fields: &Headers) -> Result<(), NoMemory> {
    for field in fields.as_slice() {
        put_field(out, field)?;
    }
    Ok(())
}

fn put_field(out: &mut String, field: &Header) -> Result<(), NoMemory> {
    put(out, "[")?;
    put(out, field.name.as_str())?;
    put(out, ": ")?;
    put_value(out, field.value.as_slice())?;
    put(out, "]")
}
