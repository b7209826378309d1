//! Reads calls of the lowest crates, one a line, and prints what each gives: `stdin` beside this folder has
//! the cases, `stdout` what must be printed. How a line is written is said by `case_lines`; a line of another
//! subject is printed as it is.
//!
//! | Subject | Calls |
//! |---|---|
//! | `path`, `name`, `host`, `query`, `list`, `copy` | those of `kg_text` |
//! | `fields`, `message` | those of `kg_message`; the lines share one list of fields |
//! | `print` | replies and upstream messages as bytes, by `kg_print` |
//! | `outside` | the environment in memory, by the bounds through which the gateway calls it |
#![tactic(auto)]

mod answer;
mod changes;
mod copies;
mod ends;
mod fields;
mod lists;
mod messages;
mod outside;
mod print;
mod requests;
mod state;
mod texts;

use crate::answer::put_answer;
use crate::state::State;
use kg_text::NoMemory;
use std::io;

fn main(rt: HostRuntime) -> io::Result<()> {
    let mut state = State::new(rt.alloc());
    for line in rt.lines(rt.alloc()) {
        let mut out = String::new(rt.alloc());
        match put_answer(rt.alloc(), &mut out, &mut state, line?.as_str()) {
            Ok(()) => println!(rt; "{out}")?,
            Err(NoMemory) => println!(rt; "no memory")?,
        }
    }
    Ok(())
}
