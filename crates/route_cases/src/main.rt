//! Reads cases of ids and routes, one a line, and prints what each gives: `stdin` beside this folder has the
//! cases, `stdout` what must be printed. How a line is written is said by `case_lines`; a line of another
//! subject is printed as it is.
//!
//! | Line | Prints |
//! |---|---|
//! | `id parse TEXT`, `id printed TEXT`, `id drawn BYTE`, `id number TEXT`, `id order TEXT TEXT`, `id plugin NAME` | what the calls of `kg_row_types` give for ids, and for the names of plugins |
//! | `id hash TEXT PASSWORD` | what is stored of this password of the consumer with this id |
//! | `copy key NAME`, `copy generation`, `copy groups GROUPS` | whether a copy equals what it is a copy of; no groups are no value |
//! | `route fits METHODS HOSTS HEADERS PATHS HOST FIELDS PATH` | how many bytes of the path such a route takes of a GET with this host, these fields and this path |
//! | `route order SHAPE SHAPE` | whether the first of two routes comes before or after the second |
//! | `router none`, `router service NUMBER`, `router disabled NUMBER` | `none`, and then there are no routes and services; `one more`, and then there is one more service |
//! | `router add NUMBER BODY` | whether a route with this body, to the service of the number, is taken |
//! | `router find METHOD HOST FIELDS PATH` | the route that takes such a request, its service, and how many bytes of the path it takes |
//!
//! The parts of a line stand after ` | `. The members of a list stand behind commas, and a field is
//! `name=value`. A shape is an id, hosts, names of headers, paths, a priority and a time, each behind a blank, and
//! `-` where there is nothing.
#![tactic(auto)]

mod answer;
mod copies;
mod find;
mod fits;
mod ids;
mod order;
mod request;
mod routes;
mod shape;
mod state;
mod table;

use crate::answer::put_answer;
use crate::state::State;
use kg_text::NoMemory;
use std::io;

fn main(rt: HostRuntime) -> io::Result<()> {
    let mut state = State::new(rt.alloc());
    for line in rt.lines(rt.alloc()) {
        let mut out = String::new(rt.alloc());
        match put_answer(rt.alloc(), &mut out, &mut state, line?.as_str()) {
            Ok(()) => println!(rt; "{out}")?,
            Err(NoMemory) => println!(rt; "no memory")?,
        }
    }
    Ok(())
}
