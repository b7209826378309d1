//! A demonstration of the Admin API, which is also what its tests run: requests on standard input are answered
//! on standard output, over a store in memory that begins empty.
#![tactic(auto)]

mod options;
mod streams;
mod words;

use crate::options::{Options, options_of};
use crate::streams::Streams;
use crate::words::{Words, words_of};
use kg_crew::{AdminServed, End, admin_connection};
use kg_keeper::OwnStore;
use kg_outside::{Conn, CountIds, StillClock};
use kg_text::{List, NoMemory, Text};
use std::io::{self, BufReader};
use std::process::ExitCode;

// How many bytes are asked of standard input at once.
const PIECE: usize = 65_536;

// Of how many last commits the store tells what they touched.
const FEED: u32 = 4096;

const DONE: u8 = 0;

const OTHER_WORDS: u8 = 2;

const READ_FAULT: u8 = 4;

const WRITE_FAULT: u8 = 5;

const OUT_OF_MEMORY: u8 = 6;

const BROKEN: u8 = 7;

const USAGE: &str = "\
usage: admin_demo [--requests N] [--rows N] [--fail N].. < FILE
       admin_demo --help | --version";

const HELP: &str = "\
usage: admin_demo [--requests N] [--rows N] [--fail N].. < FILE
       admin_demo --help | --version

The HTTP/1.1 requests of standard input are answered by the Admin API, one after another, and the
replies are written to standard output. The store of rows stands in memory and begins empty. The
clock stands at 0, and ids are drawn from 1 on.

--requests N   so many requests are answered, and no more (1000)
--rows N       a kind of row has so many at most (100000)
--fail N       the N-th call of the store fails, from 1; it may be given several times

Exit status: 0 the requests were answered, up to the end of standard input, the first that asks for
the end of the connection or the last that is answered; 7 a message was refused (its reply is a 400)
or cut; 4 a fault of standard input; 5 a fault of standard output; 6 want of memory. Other words are
2. For 2 and 4 to 7 a line on standard error tells the reason.
";

const VERSION: &str = "admin_demo 0.1.0\n";

/// What the program came to.
#[derive(Clone, Copy)]
enum Outcome {
    /// A connection was served up to this end.
    Served(End),
    /// This exit status, with nothing more to say of it.
    Exit(u8),
}

fn main(rt: HostRuntime) -> ExitCode {
    let outcome = run_words(&rt);
    // without standard error there is nobody to tell
    let _ = tell_reason(&rt, outcome);
    ExitCode::from(status_of(outcome))
}

fn status_of(outcome: Outcome) -> u8 {
    match outcome {
        Outcome::Served(end) => exit_status(end),
        Outcome::Exit(status) => status,
    }
}

fn exit_status(end: End) -> u8 {
    match end {
        End::Closed => DONE,
        End::Asked => DONE,
        End::Spent => DONE,
        End::ReadFault => READ_FAULT,
        End::WriteFault => WRITE_FAULT,
        End::NoMemory => OUT_OF_MEMORY,
        End::BadMessage { at: _ } => BROKEN,
        End::HeadTooLarge => BROKEN,
        End::BodyTooLarge => BROKEN,
        End::Cut { have: _ } => BROKEN,
    }
}

// Tells on standard error why the program ends so, where standard output doesn't.
fn tell_reason(rt: &HostRuntime, outcome: Outcome) -> io::Result<()> {
    match outcome {
        Outcome::Served(End::BadMessage { at }) => {
            eprintln!(rt; "admin_demo: the message at byte {at} was refused")
        }
        Outcome::Served(End::Cut { have }) => {
            eprintln!(rt; "admin_demo: the last message was cut off behind {have} bytes")
        }
        other => match reason_of(status_of(other)) {
            Some(reason) => rt.eprintln(reason),
            None => Ok(()),
        },
    }
}

// Why the program ends with this status.
fn reason_of(status: u8) -> Option<&'static str> {
    match status {
        OTHER_WORDS => Some(USAGE),
        READ_FAULT => Some("admin_demo: standard input failed"),
        WRITE_FAULT => Some("admin_demo: standard output failed"),
        OUT_OF_MEMORY => Some("admin_demo: no memory"),
        _ => None,
    }
}

// Runs the program with the words that it was given.
fn run_words(rt: &HostRuntime) -> Outcome {
    match words_of(rt) {
        Words::These(words) => answer(rt, &words),
        Words::NotText => Outcome::Exit(OTHER_WORDS),
        Words::NoMemory => Outcome::Exit(OUT_OF_MEMORY),
    }
}

fn answer(rt: &HostRuntime, words: &List<Text>) -> Outcome {
    match words.as_slice() {
        [word] if word.as_str() == "--help" => Outcome::Exit(show(rt, HELP)),
        [word] if word.as_str() == "--version" => Outcome::Exit(show(rt, VERSION)),
        _ => serve_as(rt, words),
    }
}

// Writes a text to standard output.
fn show(rt: &HostRuntime, text: &str) -> u8 {
    match rt.print(text) {
        Ok(()) => DONE,
        Err(_) => WRITE_FAULT,
    }
}

// Serves standard input and output as the words set it.
fn serve_as(rt: &HostRuntime, words: &List<Text>) -> Outcome {
    match options_of(rt.alloc(), words) {
        Ok(Some(options)) => serve(rt, options),
        Ok(None) => Outcome::Exit(OTHER_WORDS),
        Err(NoMemory) => Outcome::Exit(OUT_OF_MEMORY),
    }
}

fn serve(rt: &HostRuntime, options: Options) -> Outcome {
    let Options {
        rows,
        requests,
        fails,
    } = options;
    match OwnStore::new(rt.alloc(), rows, FEED, fails) {
        Ok(mut store) => {
            let outcome = serve_streams(rt, &mut store, requests);
            drop(store); // let go by name: a short proof
            outcome
        }
        Err(NoMemory) => Outcome::Exit(OUT_OF_MEMORY),
    }
}

fn serve_streams(rt: &HostRuntime, store: &mut OwnStore, requests: u32) -> Outcome {
    match BufReader::with_capacity(rt.alloc(), PIECE, rt.stdin()) {
        Ok(reader) => {
            let mut conn = Streams::new(reader, io::writer(rt));
            Outcome::Served(serve_store(rt, store, &mut conn, requests))
        }
        Err(_) => Outcome::Exit(OUT_OF_MEMORY),
    }
}

fn serve_store<C: Conn>(
    rt: &HostRuntime,
    store: &mut OwnStore,
    conn: &mut C,
    requests: u32,
) -> End {
    let AdminServed { calls, end } = admin_connection(
        rt.alloc(),
        store,
        conn,
        &mut StillClock(0),
        &mut CountIds::new(),
        requests,
    );
    drop(calls); // let go by name: a short proof
    end
}
