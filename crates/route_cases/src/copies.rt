//! Copies of keys and values.

use case_lines::{Args, put_truth, put_unknown};
use kg_row_types::key::{GenKey, Key};
use kg_row_types::value::Value;
use kg_text::{CopyKey, List, NoMemory, Text, TryClone};
use std::alloc::Global;

pub fn put_copy(alloc: Global, out: &mut String, call: &str, args: &Args) -> Result<(), NoMemory> {
    match call {
        "key" => put_truth(out, is_key_copied(alloc, args.text(0))?),
        "generation" => put_truth(out, is_copied(alloc, &GenKey::Router)?),
        "groups" => put_truth(out, are_groups_copied(alloc, args.text(0))?),
        _ => put_unknown(out),
    }
}

fn is_copied<K: CopyKey>(alloc: Global, key: &K) -> Result<bool, NoMemory> {
    Ok(key.copy(alloc)? == *key)
}

fn is_key_copied(alloc: Global, name: &str) -> Result<bool, NoMemory> {
    is_copied(alloc, &Key::Named(Text::from_str(alloc, name)?))
}

// The value of a consumer in these groups, with a comma between two: no value where they are none.
fn are_groups_copied(alloc: Global, groups: &str) -> Result<bool, NoMemory> {
    let texts = texts_of(alloc, groups)?;
    match copy_of_value(alloc, &texts, groups.is_empty())? {
        Some(Value::Acls(copied)) => Ok(copied == texts),
        other => {
            drop(other);
            Ok(false)
        }
    }
}

// A copy of the value of these groups, where it is as empty as is meant.
fn copy_of_value(alloc: Global, texts: &List<Text>, none: bool) -> Result<Option<Value>, NoMemory> {
    let value = Value::Acls(texts.try_clone(alloc)?);
    let copy = value.copy(alloc);
    let same = value.is_none() == none;
    drop(value);
    match copy {
        Ok(copy) => Ok(if same { Some(copy) } else { None }),
        Err(NoMemory) => Err(NoMemory),
    }
}

fn texts_of(alloc: Global, groups: &str) -> Result<List<Text>, NoMemory> {
    let mut texts = List::new(alloc);
    for group in groups.split(',') {
        if !group.is_empty() {
            texts.push(Text::from_str(alloc, group)?)?;
        }
    }
    Ok(texts)
}
