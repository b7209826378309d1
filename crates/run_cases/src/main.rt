//! Reads cases of whole runs, one a line, and prints what each gives: `stdin` beside this folder has the cases,
//! `stdout` what must be printed. How a line is written is said by `case_lines`; a line of another subject is
//! printed as it is.
//!
//! | Line | Prints |
//! |---|---|
//! | `run words WORDS BYTES` | the status of a run with these words over the bytes, and what it writes |
//! | `run dry BYTES` | the same with the word `dry` |
//! | `run pieces BYTES` | the same by pieces of one byte; and whether it is the same by pieces of each other length |
//! | `run failing READS WRITES BYTES` | the same while the listed calls of the source and of the sink fail |
//! | `run end READS WRITES BYTES` | how its answering of requests ends; the status, where it doesn't come to an end |
//! | `run clock BYTES` | the status, and how often the clock was read |
//! | `run timed READINGS BYTES` | the status of a run with these readings of the clock, of which the last comes again, and what it writes |
//! | `run routed SERVICE ROUTES PATH FIELDS` | of a service with this path and these routes, the first line of what a GET for the path with the fields sends upstream; the status of the reply where it sends nothing |
//!
//! The parts of a line stand after ` | `.
#![tactic(auto)]

mod answer;
mod end;
mod pieces;
mod routed;
mod whole;

use crate::answer::put_answer;
use kg_text::NoMemory;
use std::io;

fn main(rt: HostRuntime) -> io::Result<()> {
    for line in rt.lines(rt.alloc()) {
        let mut out = String::new(rt.alloc());
        match put_answer(rt.alloc(), &mut out, line?.as_str()) {
            Ok(()) => println!(rt; "{out}")?,
            Err(NoMemory) => println!(rt; "no memory")?,
        }
    }
    Ok(())
}
