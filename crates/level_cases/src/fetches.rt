//! Two workers' fetches over one table.

use crate::driven::Driven;
use crate::table::catch_up;
use crate::words::{key, number, part, put_mark, room, word};
use case_lines::{Args, put, put_number, put_unknown};
use kg_level2::Table;
use kg_text::{NoMemory, Text};
use std::alloc::Global;
use std::mem;

// The table, and the fetch of each worker.
struct Fetches {
    table: Table<Text, Text>,
    first: Option<Driven>,
    second: Option<Driven>,
}

/// Adds what each of the calls gives, behind none. A call is `begin W KEY POS`, `turn W NOW` with what a load gives,
/// `end W`, `catchup FROM LISTS` or `jump TO`.
pub fn put_fetches(alloc: Global, out: &mut String, args: &Args) -> Result<(), NoMemory> {
    let (ttl, neg_ttl, stale) = (part(args, 2, 0), part(args, 3, 0), part(args, 4, 0));
    let mut fetches = Fetches {
        table: Table::new(alloc, room(args, 0), part(args, 1, 0), ttl, neg_ttl, stale)?,
        first: None,
        second: None,
    };
    let told = put_calls(alloc, out, &mut fetches, args.text(5));
    let closed = close(alloc, fetches);
    told?;
    closed
}

fn put_calls(
    alloc: Global,
    out: &mut String,
    fetches: &mut Fetches,
    calls: &str,
) -> Result<(), NoMemory> {
    let mut is_first = true;
    for call in calls.split(", ") {
        put_mark(out, is_first)?;
        is_first = false;
        put_call(alloc, out, fetches, call)?;
    }
    Ok(())
}

fn put_call(
    alloc: Global,
    out: &mut String,
    fetches: &mut Fetches,
    call: &str,
) -> Result<(), NoMemory> {
    match (word(call, 0), word(call, 1)) {
        ("catchup", _) => catch_up(alloc, out, &mut fetches.table, call),
        ("jump", _) => {
            fetches.table.jump(number(call, 1));
            put_number(out, fetches.table.pos())
        }
        (_, "1") => put_step(alloc, out, &mut fetches.table, &mut fetches.first, call),
        (_, _) => put_step(alloc, out, &mut fetches.table, &mut fetches.second, call),
    }
}

fn put_step(
    alloc: Global,
    out: &mut String,
    table: &mut Table<Text, Text>,
    seat: &mut Option<Driven>,
    call: &str,
) -> Result<(), NoMemory> {
    match word(call, 0) {
        "begin" => {
            let begun = Driven::begin(key(alloc, call, 2)?, number(call, 3));
            end(out, table, mem::replace(seat, Some(begun)))
        }
        "turn" => match seat {
            Some(driven) => driven.turn(alloc, out, table, call),
            None => put(out, "no fetch"),
        },
        "end" => end(out, table, mem::replace(seat, None)),
        _ => put_unknown(out),
    }
}

fn end(
    out: &mut String,
    table: &mut Table<Text, Text>,
    seat: Option<Driven>,
) -> Result<(), NoMemory> {
    match seat {
        Some(driven) => driven.end(out, table),
        None => put(out, "begun"),
    }
}

// Ends what goes on.
fn close(alloc: Global, fetches: Fetches) -> Result<(), NoMemory> {
    let Fetches {
        mut table,
        first,
        second,
    } = fetches;
    let mut rest = String::new(alloc);
    let first = end(&mut rest, &mut table, first);
    let second = end(&mut rest, &mut table, second);
    first?;
    second
}
