//! The program `kong_node`: hands its words and the standard streams to `run_to_end`.
#![tactic(auto)]

mod input;
mod output;
mod words;

use crate::input::Input;
use crate::output::Output;
use crate::words::{Words, words_of};
use kg_lone::status::{DONE, OTHER_WORDS, OUT_OF_MEMORY, READ_FAULT, WRITE_FAULT};
use kg_lone::{End, exit_status, run_to_end};
use kg_outside::{CountIds, StillClock};
use kg_text::{List, Text};
use std::io::{self, BufReader};
use std::process::ExitCode;

// How many bytes are asked of standard input at once.
const PIECE: usize = 65_536;

const USAGE: &str = "\
usage: kong_node dry < FILE
       kong_node --help | --version";

const HELP: &str = "\
usage: kong_node dry < FILE
       kong_node --help | --version

dry   The first line of standard input declares services, routes, consumers, credentials and plugins
      (a JSON object in Kong's declarative format 1.1, 2.1 or 3.0). The HTTP/1.1 requests after it are
      routed, each goes through the plugins of its route, and the reply to it is written to standard
      output. Limits count the requests of this run. The upstream of every service is an echo: it
      answers with the request that it was sent.

Exit status of dry: 0 the requests were answered, up to the end of standard input, the first that
asks for the end of the connection or the thousandth; 3 the first line was refused; 7 a message was
refused (its reply is a 400) or cut; 4 a fault of standard input; 5 a fault of standard output;
6 want of memory. Other words are 2. For 2 and 4 to 7 a line on standard error tells the reason.
";

const VERSION: &str = "kong_node 0.1.0\n";

/// What the program came to.
#[derive(Clone, Copy)]
enum Outcome {
    /// The requests of a run were answered up to this end.
    Answered(End),
    /// This exit status, with nothing more to say of it.
    Exit(u8),
}

fn main(rt: HostRuntime) -> ExitCode {
    let outcome = run_words(&rt);
    // without standard error there is nobody to tell
    let _ = tell_reason(&rt, outcome);
    ExitCode::from(status_of(outcome))
}

fn status_of(outcome: Outcome) -> u8 {
    match outcome {
        Outcome::Answered(end) => exit_status(end),
        Outcome::Exit(status) => status,
    }
}

// Tells on standard error why the program ends so, where standard output doesn't.
fn tell_reason(rt: &HostRuntime, outcome: Outcome) -> io::Result<()> {
    match outcome {
        Outcome::Answered(End::Bad { at }) => {
            eprintln!(rt; "kong_node: the message at byte {at} behind the first line was refused")
        }
        Outcome::Answered(End::Cut { have }) => {
            eprintln!(rt; "kong_node: the last message was cut off behind {have} bytes")
        }
        Outcome::Answered(_) => Ok(()),
        Outcome::Exit(status) => match reason_of(status) {
            Some(reason) => rt.eprintln(reason),
            None => Ok(()),
        },
    }
}

// Why the program ends with this status.
fn reason_of(status: u8) -> Option<&'static str> {
    match status {
        OTHER_WORDS => Some(USAGE),
        READ_FAULT => Some("kong_node: standard input failed"),
        WRITE_FAULT => Some("kong_node: standard output failed"),
        OUT_OF_MEMORY => Some("kong_node: no memory, or a pattern too large to build"),
        _ => None,
    }
}

// Runs the command that the program's words name.
fn run_words(rt: &HostRuntime) -> Outcome {
    match words_of(rt) {
        Words::These(words) => answer(rt, &words),
        Words::NotText => Outcome::Exit(OTHER_WORDS),
        Words::NoMemory => Outcome::Exit(OUT_OF_MEMORY),
    }
}

fn answer(rt: &HostRuntime, words: &List<Text>) -> Outcome {
    match words.as_slice() {
        [word] if word.as_str() == "--help" => Outcome::Exit(show(rt, HELP)),
        [word] if word.as_str() == "--version" => Outcome::Exit(show(rt, VERSION)),
        _ => command(rt, words),
    }
}

// Writes a text to standard output.
fn show(rt: &HostRuntime, text: &str) -> u8 {
    match rt.print(text) {
        Ok(()) => DONE,
        Err(_) => WRITE_FAULT,
    }
}

fn command(rt: &HostRuntime, words: &List<Text>) -> Outcome {
    let Ok(reader) = BufReader::with_capacity(rt.alloc(), PIECE, rt.stdin()) else {
        return Outcome::Exit(OUT_OF_MEMORY);
    };
    let mut source = Input::new(reader);
    let mut sink = Output::new(io::writer(rt));
    let end = run_to_end(
        rt.alloc(),
        words,
        &mut source,
        &mut sink,
        &mut StillClock(0),
        &mut CountIds::new(),
    );
    match end {
        Ok(end) => Outcome::Answered(end),
        Err(status) => Outcome::Exit(status),
    }
}
