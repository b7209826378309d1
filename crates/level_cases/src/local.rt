//! Calls of a worker's level.

use crate::words::{key, number, part, put_held, put_mark, room, touched, value, word};
use case_lines::{Args, put, put_number, put_unknown};
use kg_level1::Local;
use kg_text::{NoMemory, Text};
use std::alloc::Global;

/// Adds what each of the calls gives, behind none. A call is `get KEY NOW`, `put KEY VALUE STAMP END`,
/// `sync FROM LISTS` or `jump TO`.
pub fn put_local(alloc: Global, out: &mut String, args: &Args) -> Result<(), NoMemory> {
    let mut level = Local::new(alloc, room(args, 0), part(args, 1, 0))?;
    let mut is_first = true;
    for call in args.text(2).split(", ") {
        put_mark(out, is_first)?;
        is_first = false;
        put_local_answer(alloc, out, &mut level, call)?;
    }
    Ok(())
}

/// Adds what a call gives.
pub fn put_local_answer(
    alloc: Global,
    out: &mut String,
    level: &mut Local<Text, Text>,
    call: &str,
) -> Result<(), NoMemory> {
    match word(call, 0) {
        "get" => put_got(alloc, out, level, call),
        "put" => keep(alloc, out, level, call),
        "sync" => sync(alloc, out, level, call),
        "jump" => {
            level.jump(number(call, 1));
            put_number(out, level.pos())
        }
        _ => put_unknown(out),
    }
}

fn put_got(
    alloc: Global,
    out: &mut String,
    level: &mut Local<Text, Text>,
    call: &str,
) -> Result<(), NoMemory> {
    let key = key(alloc, call, 1)?;
    match level.get(alloc, &key, number(call, 2))? {
        Some(held) => put_held(out, &held),
        None => put(out, "none"),
    }
}

fn keep(
    alloc: Global,
    out: &mut String,
    level: &mut Local<Text, Text>,
    call: &str,
) -> Result<(), NoMemory> {
    let key = key(alloc, call, 1)?;
    let value = value(alloc, call, 2)?;
    level.put(alloc, key, value, number(call, 3), number(call, 4))?;
    put(out, "kept")
}

fn sync(
    alloc: Global,
    out: &mut String,
    level: &mut Local<Text, Text>,
    call: &str,
) -> Result<(), NoMemory> {
    let lists = touched(alloc, call, 2)?;
    let from = number(call, 1);
    if from > level.pos() || lists.len() as u64 > u64::MAX - from {
        return put(out, "not allowed");
    }
    level.sync(from, &lists);
    put_number(out, level.pos())
}
