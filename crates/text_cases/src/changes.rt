//! Changes of lists of header fields.

use crate::fields::{put_count, put_fields};
use case_lines::put;
use kg_message::Headers;
use kg_text::{Bytes, Name, NoMemory, TextError};
use std::alloc::Global;

/// Makes the change, and adds what it answers and the fields after it.
pub fn put_change(
    alloc: Global,
    out: &mut String,
    fields: &mut Headers,
    call: &str,
    name: Name,
    value: &[u8],
) -> Result<(), NoMemory> {
    match call {
        "add" => add(alloc, fields, name, value)?,
        "set" => set(alloc, fields, name, value)?,
        "replace" => put_replaced(alloc, out, fields, name, value)?,
        "rename" => put_renamed(alloc, out, fields, name, value)?,
        _ => put_removed(out, fields, name)?,
    }
    put_fields(out, fields)
}

fn add(alloc: Global, fields: &mut Headers, name: Name, value: &[u8]) -> Result<(), NoMemory> {
    match Bytes::from_slice(alloc, value) {
        Ok(value) => fields.add(alloc, name, value),
        Err(NoMemory) => Err(NoMemory),
    }
}

fn set(alloc: Global, fields: &mut Headers, name: Name, value: &[u8]) -> Result<(), NoMemory> {
    match Bytes::from_slice(alloc, value) {
        Ok(value) => fields.set(alloc, name, value),
        Err(NoMemory) => Err(NoMemory),
    }
}

fn put_replaced(
    alloc: Global,
    out: &mut String,
    fields: &mut Headers,
    name: Name,
    value: &[u8],
) -> Result<(), NoMemory> {
    let some = fields.replace(name.bytes(), Bytes::from_slice(alloc, value)?);
    put(out, if some { "replaced, " } else { "not there, " })
}

// The fields of this name get the name that the value spells.
fn put_renamed(
    alloc: Global,
    out: &mut String,
    fields: &mut Headers,
    name: Name,
    value: &[u8],
) -> Result<(), NoMemory> {
    match Name::of(alloc, value) {
        Ok(new) => put_counted(out, fields.rename(alloc, name.bytes(), &new)?),
        Err(TextError::Bad { .. }) => put(out, "no name, "),
        Err(TextError::NoMemory) => Err(NoMemory),
    }
}

fn put_removed(out: &mut String, fields: &mut Headers, name: Name) -> Result<(), NoMemory> {
    put_counted(out, fields.remove(name.bytes()))
}

fn put_counted(out: &mut String, count: usize) -> Result<(), NoMemory> {
    put_count(out, count)?;
    put(out, ", ")
}
