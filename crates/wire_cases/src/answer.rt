//! What a line gives.

use crate::pieces::put_pieces;
use crate::read::{put_failing, put_requests};
use crate::write::put_writes;
use case_lines::{Args, Line, args_of, line_of, put, put_truth, put_unknown};
use kg_text::NoMemory;
use kg_wire::is_target;
use std::alloc::Global;

/// Adds what a line gives.
pub fn put_answer(alloc: Global, out: &mut String, text: &str) -> Result<(), NoMemory> {
    let line = line_of(text);
    match line.subject {
        "read" | "write" => put_case(alloc, out, line),
        _ => put(out, text),
    }
}

fn put_case(alloc: Global, out: &mut String, line: Line<'_>) -> Result<(), NoMemory> {
    let args = args_of(alloc, line.rest)?;
    match line.subject {
        "read" => put_read(alloc, out, line.call, &args),
        _ => put_writes(alloc, out, &args),
    }
}

fn put_read(alloc: Global, out: &mut String, call: &str, args: &Args) -> Result<(), NoMemory> {
    match call {
        "requests" => put_requests(alloc, out, args.at(1), args.number(0)),
        "pieces" => put_pieces(alloc, out, args.at(0)),
        "failing" => put_failing(alloc, out, args),
        "target" => put_truth(out, is_target(args.at(0))),
        _ => put_unknown(out),
    }
}
