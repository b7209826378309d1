//! Reads cases of a store that threads share, one a line, and prints what becomes of each: `stdin` beside this folder has
//! the cases, `stdout` what must be printed. How a line is written is said by `case_lines`; a line of another subject is
//! printed as it is.
//!
//! | Line | Prints |
//! |---|---|
//! | `history told` | what one pass looks at after an entry, and what another then learns of it by a note |
//! | `store told` | the place of a commit of one seat, what another learns of it by a note, and what that one looks at |
//! | `store full` | what the first commit is answered where a kind may have no rows |
//! | `store planned NUMBERS CALLS` | which of so many calls of a seat fail, and whether one of another seat does |
//! | `store services SEATS TURNS` | so many threads commit so many services each: what each seat learns and looks at after an exchange of notes, and how many answers were wrong |
//! | `store consumers SEATS TURNS` | the same, where a thread commits a consumer in each turn, looks, loads, and asks for a page and for events |
//! | `store meanwhile SEATS TURNS` | the same, where one thread commits and all others load what it will have committed |
//! | `store looks SEATS TURNS` | the same, where all only look; their answers aren't kept |
//! | `store loads SEATS TURNS ROWS` | the same, where one thread first commits so many consumers, and all load one of them; what is loaded isn't kept |
//! | `hits shared THREADS TURNS LIMIT` | how many hits of as many threads are let through, and how many places came twice or never |
//!
//! The parts of a line stand after ` | `.
#![tactic(auto)]

mod answer;
mod check;
mod draft;
mod history;
mod hits;
mod seats;
mod told;
mod work;

use crate::answer::put_answer;
use kg_text::NoMemory;
use std::io;

fn main(rt: HostRuntime) -> io::Result<()> {
    for line in rt.lines(rt.alloc()) {
        let mut out = String::new(rt.alloc());
        match put_answer(&rt, rt.alloc(), &mut out, line?.as_str()) {
            Ok(()) => println!(rt; "{out}")?,
            Err(NoMemory) => println!(rt; "no memory")?,
        }
    }
    Ok(())
}
