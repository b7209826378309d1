//! What each line gives.

use crate::check::Tally;
use crate::history::put_history_told;
use crate::hits::hits_shared;
use crate::seats::work_together;
use crate::told::{put_full, put_planned, put_told};
use crate::work::Work;
use case_lines::{Args, args_of, line_of, put, put_number, put_unknown};
use kg_limit::Hit;
use kg_rows::Command;
use kg_text::NoMemory;
use std::alloc::Global;
use std::marker::Brand;
use std::sync::Wait;
use std::thread::Threads;

/// Adds what a line gives.
pub fn put_answer<R: Wait + Clone + Drop + Threads + Send + Sync + 'static>(
    rt: &R,
    alloc: Global,
    out: &mut String,
    text: &str,
) -> Result<(), NoMemory> {
    let line = line_of(text);
    match line.subject {
        "history" => put_history_told(alloc, out),
        "store" => put_store(rt, alloc, out, line.call, &args_of(alloc, line.rest)?),
        "hits" => put_hits(rt, alloc, out, &args_of(alloc, line.rest)?),
        _ => put(out, text),
    }
}

fn put_store<R: Wait + Clone + Drop + Threads + Send + Sync + 'static>(
    rt: &R,
    alloc: Global,
    out: &mut String,
    call: &str,
    args: &Args,
) -> Result<(), NoMemory> {
    match call {
        "told" => put_told(rt, alloc, out),
        "full" => put_full(rt, alloc, out),
        "planned" => put_planned(rt, alloc, out, args),
        "services" => put_together(rt, alloc, out, args, Work::Services),
        "consumers" => put_together(rt, alloc, out, args, Work::Consumers),
        "meanwhile" => put_together(rt, alloc, out, args, Work::Meanwhile),
        "looks" => put_together(rt, alloc, out, args, Work::Looks),
        "loads" => put_together(rt, alloc, out, args, Work::Loads(args.number(2) as u64)),
        _ => put_unknown(out),
    }
}

// Adds what so many threads with a seat each come to.
fn put_together<R: Wait + Clone + Drop + Threads + Send + Sync + 'static>(
    rt: &R,
    alloc: Global,
    out: &mut String,
    args: &Args,
    work: Work,
) -> Result<(), NoMemory> {
    let seats = args.number(0).clamp(1, 64) as u32;
    let blank = kg_history::make::<Command>(alloc, seats as usize)?;
    let tally = work_together::<Brand, R>(rt, alloc, blank, seats, args.number(1) as u64, work)?;
    put_tally(out, &tally)
}

fn put_tally(out: &mut String, tally: &Tally) -> Result<(), NoMemory> {
    put(out, "learned")?;
    for length in &tally.learned {
        write!(out, " {length}")?;
    }
    put(out, ", looked at")?;
    for length in &tally.looked {
        write!(out, " {length}")?;
    }
    write!(out, ": {} answers, {} wrong", tally.answers, tally.wrong)?;
    Ok(())
}

fn put_hits<R: Wait + Clone + Drop + Threads + Send + Sync + 'static>(
    rt: &R,
    alloc: Global,
    out: &mut String,
    args: &Args,
) -> Result<(), NoMemory> {
    let blank = kg_history::make::<Hit>(alloc, 1)?;
    let (threads, turns, limit) = (args.number(0), args.number(1), args.number(2));
    let judged = hits_shared::<Brand, R>(rt, alloc, blank, threads, turns, limit as u64)?;
    put_number(out, judged.let_through)?;
    put(out, " let through, ")?;
    put_number(out, judged.wrong)?;
    put(out, " places wrong, ")?;
    put_number(out, judged.seen)?;
    put(out, " seen")
}
