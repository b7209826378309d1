//! Many calls of one kind, to be measured.

ghost use Rattle.std.specs.Prelude.{◌≤◌};

use crate::words::{part, room};
use case_lines::{Args, put_number, put_unknown};
use kg_level1::Local;
use kg_level2::{Found, Table};
use kg_text::{List, NoMemory, Text};
use std::alloc::Global;
use std::sync::Arc;

/// Adds how many of so many calls found what they look for, in a level or a table with so many entries.
pub fn put_many(alloc: Global, out: &mut String, args: &Args) -> Result<(), NoMemory> {
    let (room, entries, calls) = (room(args, 1), part(args, 2, 1), part(args, 3, 0));
    let found = match args.text(0) {
        "keys" => keys(alloc, entries, calls)?,
        "get" => gets(alloc, room, entries, calls)?,
        "put" => puts(alloc, room, entries, calls)?,
        "sync" => syncs(alloc, room, entries, calls)?,
        "lookup" => lookups(alloc, room, entries, calls, 0)?,
        "settle" => lookups(alloc, room, entries, calls, 1)?,
        _ => return put_unknown(out),
    };
    put_number(out, found)
}

fn numbered(alloc: Global, number: u64) -> Result<Text, NoMemory> {
    let text = format!(in alloc; "key{number}")?;
    Text::from_str(alloc, text.as_str())
}

// Makes keys alone, as the other calls do beside their own work.
fn keys(alloc: Global, entries: u64, calls: u64) -> Result<u64, NoMemory>
    requires { 1 ≤ entries }
{
    let mut made: u64 = 0;
    for call in 0..calls {
        if !numbered(alloc, call % entries)?.as_str().is_empty() {
            made = made.saturating_add(1);
        }
    }
    Ok(made)
}

fn filled(alloc: Global, room: u32, entries: u64) -> Result<Local<Text, Text>, NoMemory>
    requires { 1 ≤ room }
{
    let mut level = Local::new(alloc, room, 0)?;
    let value = Arc::new(alloc, numbered(alloc, 0)?)?;
    for entry in 0..entries {
        let share = Arc::try_clone(&value)?;
        level.put(alloc, numbered(alloc, entry)?, share, 0, 0)?;
    }
    Ok(level)
}

fn gets(alloc: Global, room: u32, entries: u64, calls: u64) -> Result<u64, NoMemory>
    requires room { 1 ≤ room }
    requires entries { 1 ≤ entries }
{
    let mut level = filled(alloc, room, entries)?;
    let mut hits: u64 = 0;
    for call in 0..calls {
        let key = numbered(alloc, call % entries)?;
        if level.get(alloc, &key, 0)?.is_some() {
            hits = hits.saturating_add(1);
        }
    }
    Ok(hits)
}

fn puts(alloc: Global, room: u32, entries: u64, calls: u64) -> Result<u64, NoMemory>
    requires room { 1 ≤ room }
    requires entries { 1 ≤ entries }
{
    let mut level = filled(alloc, room, entries)?;
    let value = Arc::new(alloc, numbered(alloc, 0)?)?;
    for call in 0..calls {
        let share = Arc::try_clone(&value)?;
        level.put(alloc, numbered(alloc, call % entries)?, share, 0, 0)?;
    }
    Ok(calls)
}

// Each sync is told of one commit, which touches one key.
fn syncs(alloc: Global, room: u32, entries: u64, calls: u64) -> Result<u64, NoMemory>
    requires room { 1 ≤ room }
    requires entries { 1 ≤ entries }
{
    let mut level = filled(alloc, room, entries)?;
    for call in 0..calls {
        let mut keys = List::new(alloc);
        keys.push(numbered(alloc, call % entries)?)?;
        let mut lists = List::new(alloc);
        lists.push(keys)?;
        if level.pos() < u64::MAX {
            level.sync(level.pos(), &lists);
        }
    }
    Ok(level.pos())
}

// Looks keys up that are there from the second round on, and where a life is 1 never: they are settled then.
fn lookups(alloc: Global, room: u32, entries: u64, calls: u64, life: u64) -> Result<u64, NoMemory>
    requires room { 1 ≤ room }
    requires entries { 1 ≤ entries }
{
    let mut table = Table::new(alloc, room, 0, life, 0, 0)?;
    let value = Arc::new(alloc, numbered(alloc, 0)?)?;
    let mut hits: u64 = 0;
    for call in 0..entries.saturating_add(calls) {
        if is_hit(alloc, &mut table, &value, call % entries, call)? {
            hits = hits.saturating_add(1);
        }
    }
    Ok(hits)
}

// Looks a key up; one that isn't there is loaded.
fn is_hit(
    alloc: Global,
    table: &mut Table<Text, Text>,
    value: &Arc<Text>,
    number: u64,
    now: u64,
) -> Result<bool, NoMemory> {
    let key = numbered(alloc, number)?;
    let share = Arc::try_clone(value)?;
    match table.lookup(alloc, &key, 0, now, 1)? {
        Found::Hit(held) => {
            drop(held);
            Ok(true)
        }
        Found::Claimed(claim) => {
            let _settled = table.settle(claim, share, false, 0, now);
            Ok(false)
        }
        Found::Busy { who: _ } => Ok(false),
    }
}
