//! Reads cases of hits, one a line, and prints what becomes of them: `stdin` beside this folder has the cases, `stdout`
//! what must be printed. How a line is written is said by `case_lines`; a line of another subject is printed as it
//! is.
//!
//! | Line | Prints |
//! |---|---|
//! | `limit hits LIMITS HITS` | the verdict on each hit, behind none, and what a client is told of its limits |
//! | `limit many COUNT IDENTITIES STEP LIMITS` | how many are let through of so many hits of these identities in turn, so many milliseconds apart |
//!
//! The parts of a line stand after ` | `. A hit is the number of its row, its identity and its reading; a limit is a
//! window and its number.
#![tactic(auto)]

mod limit;

use crate::limit::put_limits;
use case_lines::{args_of, line_of, put};
use kg_text::NoMemory;
use std::alloc::Global;
use std::io;

fn main(rt: HostRuntime) -> io::Result<()> {
    for line in rt.lines(rt.alloc()) {
        let mut out = String::new(rt.alloc());
        match put_answer(rt.alloc(), &mut out, line?.as_str()) {
            Ok(()) => println!(rt; "{out}")?,
            Err(NoMemory) => println!(rt; "no memory")?,
        }
    }
    Ok(())
}

// Adds what a line gives.
fn put_answer(alloc: Global, out: &mut String, text: &str) -> Result<(), NoMemory> {
    let line = line_of(text);
    match line.subject {
        "limit" => put_limits(alloc, out, line.call, &args_of(alloc, line.rest)?),
        _ => put(out, text),
    }
}
