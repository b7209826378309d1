//! Copies, which equal what they are copies of.

use case_lines::{Args, put_truth, put_unknown};
use kg_message::message;
use kg_text::{Bytes, CopyKey, List, Name, NoMemory, Text, TextError, TryClone};
use std::alloc::Global;

pub fn put_copy(alloc: Global, out: &mut String, call: &str, args: &Args) -> Result<(), NoMemory> {
    let equal = match call {
        "text" => is_copied(alloc, &Text::from_str(alloc, args.text(0))?)?,
        "bytes" => is_copied(alloc, &Bytes::from_slice(alloc, args.at(0))?)?,
        "texts" => are_texts_copied(alloc, args.text(0))?,
        "names" => are_names_copied(alloc, args.at(0))?,
        "reply" => is_reply_copied(alloc, args.at(0))?,
        _ => return put_unknown(out),
    };
    put_truth(out, equal)
}

fn is_copied<K: CopyKey>(alloc: Global, key: &K) -> Result<bool, NoMemory> {
    Ok(key.copy(alloc)? == *key)
}

fn is_cloned<T: TryClone + PartialEq>(alloc: Global, value: &T) -> Result<bool, NoMemory> {
    Ok(value.try_clone(alloc)? == *value)
}

// A text, and none.
fn are_texts_copied(alloc: Global, text: &str) -> Result<bool, NoMemory> {
    let mut texts = List::new(alloc);
    texts.push(Some(Text::from_str(alloc, text)?))?;
    texts.push(None)?;
    is_cloned(alloc, &texts)
}

fn are_names_copied(alloc: Global, raw: &[u8]) -> Result<bool, NoMemory> {
    match Name::of(alloc, raw) {
        Ok(name) => is_name_copied(alloc, name),
        Err(TextError::Bad { .. }) => Ok(false),
        Err(TextError::NoMemory) => Err(NoMemory),
    }
}

fn is_name_copied(alloc: Global, name: Name) -> Result<bool, NoMemory> {
    let mut names = List::new(alloc);
    names.push(name)?;
    is_cloned(alloc, &names)
}

fn is_reply_copied(alloc: Global, text: &[u8]) -> Result<bool, NoMemory> {
    let reply = message(alloc, 404, text)?;
    let same = is_cloned(alloc, &reply);
    drop(reply);
    same
}
