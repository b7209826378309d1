//! Hits, and the verdicts on them.

use case_lines::{Args, put, put_bytes, put_number, put_unknown, split};
use kg_limit::{Hit, Limits, Verdict, Window, Windows, limit_headers};
use kg_message::{Headers, Response};
use kg_row_types::id::Id;
use kg_text::{Bytes, NoMemory};
use std::alloc::Global;

/// Adds what becomes of hits that come one after another, behind none.
pub fn put_limits(
    alloc: Global,
    out: &mut String,
    call: &str,
    args: &Args,
) -> Result<(), NoMemory> {
    match call {
        "hits" => put_hits(alloc, out, args.text(0), args.text(1)),
        "many" => put_many(alloc, out, args),
        _ => put_unknown(out),
    }
}

// Adds each verdict, with what a client is told of it.
fn put_hits(alloc: Global, out: &mut String, limits: &str, hits: &str) -> Result<(), NoMemory> {
    let mut windows = Windows::new(alloc);
    let mut is_first = true;
    for hit in hits.split(", ") {
        if !is_first {
            put(out, " -> ")?;
        }
        is_first = false;
        put_hit(alloc, out, &mut windows, limits, hit)?;
    }
    Ok(())
}

fn put_hit(
    alloc: Global,
    out: &mut String,
    windows: &mut Windows,
    limits: &str,
    text: &str,
) -> Result<(), NoMemory> {
    let hit = hit_of(alloc, limits, text)?;
    let verdict = judge(alloc, windows, &hit)?;
    put_verdict(alloc, out, &hit, &verdict)
}

fn judge(alloc: Global, windows: &mut Windows, hit: &Hit) -> Result<Verdict, NoMemory> {
    windows.reserve(alloc, hit)?;
    Ok(windows.hit(hit))
}

fn put_verdict(
    alloc: Global,
    out: &mut String,
    hit: &Hit,
    verdict: &Verdict,
) -> Result<(), NoMemory> {
    let through = if verdict.let_through {
        "let through"
    } else {
        "refused"
    };
    write!(out, "{} at {} {through}", verdict.place, verdict.time)?;
    let mut response = Response {
        status: 200,
        headers: Headers::new(alloc),
        body: Bytes::new(alloc),
    };
    limit_headers(alloc, hit, verdict, &mut response)?;
    put_fields(out, &response.headers)
}

fn put_fields(out: &mut String, headers: &Headers) -> Result<(), NoMemory> {
    for field in headers.as_slice() {
        put(out, " | ")?;
        put(out, field.name.as_str())?;
        put(out, ": ")?;
        put_bytes(out, field.value.as_slice())?;
    }
    Ok(())
}

// The hit that is written as the number of its row, its identity and its reading.
fn hit_of(alloc: Global, limits: &str, text: &str) -> Result<Hit, NoMemory> {
    let (row, rest) = split(text, " ");
    let (identity, now) = split(rest, " ");
    let limits = limits_of(limits);
    hit_with(
        alloc,
        row,
        identity.as_bytes(),
        limits,
        now.parse().unwrap_or(0),
    )
}

fn hit_with(
    alloc: Global,
    row: &str,
    identity: &[u8],
    limits: Limits,
    now: u64,
) -> Result<Hit, NoMemory> {
    match Bytes::from_slice(alloc, identity) {
        Ok(identity) => Ok(Hit {
            row: row_of(row),
            identity,
            limits,
            now,
            who: 1,
        }),
        Err(NoMemory) => {
            drop(limits); // let go by name: a short proof
            Err(NoMemory)
        }
    }
}

fn row_of(number: &str) -> Id {
    let last = number.parse().unwrap_or(0);
    Id::from_drawn([0, 0, 0, 0, 0, 0, 0, 0, 0, 0, 0, 0, 0, 0, 0, last])
}

// The limits that are written as windows, each with its number: the first four.
fn limits_of(text: &str) -> Limits {
    let mut limits = Limits::new();
    for limit in text.split(", ") {
        let (window, number) = split(limit, " ");
        match window_of(window) {
            Some(window) if !limits.is_full() => {
                limits.push((window, number.parse().unwrap_or(0)));
            }
            _ => {}
        }
    }
    limits
}

fn window_of(word: &str) -> Option<Window> {
    match word {
        "second" => Some(Window::Second),
        "minute" => Some(Window::Minute),
        "hour" => Some(Window::Hour),
        "day" => Some(Window::Day),
        _ => None,
    }
}

// Adds how many are let through of so many hits of so many identities in turn, so many milliseconds apart.
fn put_many(alloc: Global, out: &mut String, args: &Args) -> Result<(), NoMemory> {
    let mut windows = Windows::new(alloc);
    let mut through: u64 = 0;
    for place in 0..number_of(args, 0) {
        if is_through(alloc, &mut windows, place, args)? {
            through = through.saturating_add(1);
        }
    }
    put_number(out, through)
}

fn number_of(args: &Args, index: usize) -> u64 {
    args.text(index).parse().unwrap_or(0)
}

fn is_through(
    alloc: Global,
    windows: &mut Windows,
    place: u64,
    args: &Args,
) -> Result<bool, NoMemory> {
    let identity = place % number_of(args, 1).max(1);
    let now = place.saturating_mul(number_of(args, 2));
    let limits = limits_of(args.text(3));
    let hit = hit_with(alloc, "1", &identity.to_be_bytes(), limits, now)?;
    let verdict = judge(alloc, windows, &hit)?;
    Ok(verdict.let_through)
}
