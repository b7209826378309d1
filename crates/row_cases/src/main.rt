//! Reads changes of rows, one a line, and prints what becomes of each: `stdin` beside this folder has the
//! cases, `stdout` what must be printed.
//!
//! | Line | Prints |
//! |---|---|
//! | `POST services BODY`, `POST consumers/WORD/key-auth BODY` | the row and what it touched, or the refusal |
//! | `PUT services/WORD BODY`, `PATCH services/WORD BODY`, `DELETE services/WORD` | the same |
//! | `declare LINE` | each row of the declaration with what it touched, over no rows; or the refusal |
//! | `show services/WORD`, `show consumers/WORD/key-auth/WORD` | the row |
//! | `page SIZE routes OFFSET`, `page SIZE services/WORD/routes OFFSET` | the ids of a page, and whether more follow |
//! | `value cred KEY` | the value of a key: `cred`, `basic`, `consumer`, `named`, `acls` |
//! | `now MILLISECONDS`, `limit ROWS` | nothing but the line; the clock and the limit from then on |
//! | `fresh` | the same; no rows, and ids from the first on |
//! | any other | the line |
#![tactic(auto)]

mod answer;
mod change;
mod command;
mod declare;
mod label;
mod pages;
mod path;
mod print;
mod refusal;
mod state;

use crate::answer::put_answer;
use crate::state::State;
use kg_text::NoMemory;
use std::io;

fn main(rt: HostRuntime) -> io::Result<()> {
    let mut state = State::new(rt.alloc());
    let told = put_lines(&rt, &mut state);
    drop(state); // let go by name: a short proof
    told
}

// Prints what each line gives.
fn put_lines<R: Input + Print + AllocGlobal>(rt: &R, state: &mut State) -> io::Result<()> {
    for line in rt.lines(rt.alloc()) {
        let mut out = String::new(rt.alloc());
        match put_answer(rt.alloc(), &mut out, state, line?.as_str()) {
            Ok(()) => println!(rt; "{out}")?,
            Err(NoMemory) => println!(rt; "no memory")?,
        }
    }
    Ok(())
}
