//! Reads cases of a connection's bytes, one a line, and prints what each gives: `stdin` beside this folder has
//! the cases, `stdout` what must be printed. How a line is written is said by `case_lines`; a line of another
//! subject is printed as it is.
//!
//! | Line | Prints |
//! |---|---|
//! | `read requests PIECE BYTES` | the requests that the bytes hold, and how their reading ends |
//! | `read pieces BYTES` | the same, by pieces of one byte; and whether it is the same by pieces of each other length |
//! | `read failing PIECE CALLS BYTES` | the same while the listed calls of the source fail; what two more calls answer; and what was not read |
//! | `read target TEXT` | whether it is a target that is taken |
//! | `write whole MOST CALLS TEXTS` | whether each text is written whole to a sink that takes so many bytes a call, while the listed calls fail; and what was written |
//!
//! The parts of a line stand after ` | `.
#![tactic(auto)]

mod answer;
mod pieces;
mod print;
mod read;
mod short_sink;
mod write;

use crate::answer::put_answer;
use kg_text::NoMemory;
use std::io;

fn main(rt: HostRuntime) -> io::Result<()> {
    for line in rt.lines(rt.alloc()) {
        let mut out = String::new(rt.alloc());
        match put_answer(rt.alloc(), &mut out, line?.as_str()) {
            Ok(()) => println!(rt; "{out}")?,
            Err(NoMemory) => println!(rt; "no memory")?,
        }
    }
    Ok(())
}
