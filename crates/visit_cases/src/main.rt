//! Reads cases of plugin rows and of single requests, one a line, and prints what each gives: `stdin` beside this
//! folder has the cases, `stdout` what must be printed. How a line is written is said by `case_lines`; a line of
//! another subject is printed as it is.
//!
//! | Line | Prints |
//! |---|---|
//! | `rows declare LINE` | `declared`, and the rows are those of this declaration; or `refused` |
//! | `rows choose NAME SERVICE ROUTE CONSUMER` | the number in the id of the row that runs for a request of these ids, or `none`; an id is written as its number, and `-` where the request has none |
//! | `request visit METHOD PATH ANSWER` | what the request wants, and behind ` -> ` what it wants once it has this answer of the upstream |
//! | `request asks METHOD TARGET FIELDS` | what the request asks, answered out of the rows: keys and a hit, one after another, and then `upstream`, or the status of its reply |
//!
//! The parts of a line stand after ` | `. An answer is `fault`, `not http`, or a status, fields as `name: value`,
//! and a body as `= BODY`, each a part of its own. Ids are drawn from 1 on, in the order of the rows.
#![tactic(auto)]

mod answer;
mod asked;
mod choose;
mod print;
mod request;
mod rows;
mod upstream;
mod visit;

use crate::answer::put_answer;
use kg_plain::Gateway;
use kg_text::NoMemory;
use std::io;

fn main(rt: HostRuntime) -> io::Result<()> {
    let mut gateway = None;
    let answered = answer_lines(rt, &mut gateway);
    drop(gateway); // let go by name: a short proof
    answered
}

// Prints what each line gives, over the rows that were declared last.
fn answer_lines(rt: HostRuntime, gateway: &mut Option<Box<Gateway>>) -> io::Result<()> {
    for line in rt.lines(rt.alloc()) {
        let mut out = String::new(rt.alloc());
        match put_answer(rt.alloc(), &mut out, gateway, line?.as_str()) {
            Ok(()) => println!(rt; "{out}")?,
            Err(NoMemory) => println!(rt; "no memory")?,
        }
    }
    Ok(())
}
