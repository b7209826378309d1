//! What a line gives.

use crate::end::put_end;
use crate::pieces::put_pieces;
use crate::routed::put_routed;
use crate::whole::{put_clock, put_run, put_timed};
use case_lines::{Args, args_of, line_of, put, put_unknown};
use kg_text::NoMemory;
use std::alloc::Global;

/// Adds what a line gives.
pub fn put_answer(alloc: Global, out: &mut String, text: &str) -> Result<(), NoMemory> {
    let line = line_of(text);
    match line.subject {
        "run" => put_case(alloc, out, line.call, &args_of(alloc, line.rest)?),
        _ => put(out, text),
    }
}

fn put_case(alloc: Global, out: &mut String, call: &str, args: &Args) -> Result<(), NoMemory> {
    match call {
        "words" => put_run(alloc, out, args.text(0), args.at(1), 4096, ("", "")),
        "dry" => put_run(alloc, out, "dry", args.at(0), 4096, ("", "")),
        "pieces" => put_pieces(alloc, out, args.at(0)),
        "failing" => {
            let fails = (args.text(0), args.text(1));
            put_run(alloc, out, "dry", args.at(2), 4096, fails)
        }
        "end" => put_end(alloc, out, args),
        "clock" => put_clock(alloc, out, args.at(0)),
        "timed" => put_timed(alloc, out, args.text(0), args.at(1)),
        "routed" => put_routed(alloc, out, args),
        _ => put_unknown(out),
    }
}
