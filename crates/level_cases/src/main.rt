//! Reads calls of the cache levels, one run of them a line, and prints what each gives: `stdin` beside this folder has
//! the cases, `stdout` what must be printed. How a line is written is said by `case_lines`; a line of another subject is
//! printed as it is.
//!
//! | Line | Prints |
//! |---|---|
//! | `level local ROOM POS` and calls | what each call of a worker's level gives |
//! | `level table ROOM POS TTL NEG_TTL STALE` and calls | the same of the shared table, by two workers |
//! | `level fetch ROOM POS TTL NEG_TTL STALE` and calls | the same of two workers' fetches over the shared table |
//! | `level twin local SEED CALLS`, or `table` | the first of so many calls that lists which are searched whole answer otherwise |
//! | `level many CALL ROOM ENTRIES CALLS` | how many such calls found what they look for, with so many entries |
//!
//! The parts of a line stand after ` | `, calls after `, `, and the words of a call after one blank. Touched keys stand
//! as `a+b/c`, the lists of two commits.
#![tactic(auto)]

mod dice;
mod draw;
mod driven;
mod fetches;
mod local;
mod many;
mod plain_level;
mod plain_table;
mod table;
mod twin;
mod words;

use crate::fetches::put_fetches;
use crate::local::put_local;
use crate::many::put_many;
use crate::table::put_table;
use crate::twin::put_twin;
use case_lines::{Args, args_of, line_of, put, put_unknown};
use kg_text::NoMemory;
use std::alloc::Global;
use std::io;

fn main(rt: HostRuntime) -> io::Result<()> {
    for line in rt.lines(rt.alloc()) {
        let mut out = String::new(rt.alloc());
        match put_answer(rt.alloc(), &mut out, line?.as_str()) {
            Ok(()) => println!(rt; "{out}")?,
            Err(NoMemory) => println!(rt; "no memory")?,
        }
    }
    Ok(())
}

// Adds what a line gives.
fn put_answer(alloc: Global, out: &mut String, text: &str) -> Result<(), NoMemory> {
    let line = line_of(text);
    match line.subject {
        "level" => put_level(alloc, out, line.call, &args_of(alloc, line.rest)?),
        _ => put(out, text),
    }
}

fn put_level(alloc: Global, out: &mut String, call: &str, args: &Args) -> Result<(), NoMemory> {
    match call {
        "local" => put_local(alloc, out, args),
        "table" => put_table(alloc, out, args),
        "fetch" => put_fetches(alloc, out, args),
        "twin" => put_twin(alloc, out, args),
        "many" => put_many(alloc, out, args),
        _ => put_unknown(out),
    }
}
