//! What a line gives.

use crate::asked::put_asked;
use crate::choose::put_chosen;
use crate::rows::put_declared;
use crate::visit::put_visit;
use case_lines::{Args, args_of, line_of, put, put_unknown};
use kg_plain::Gateway;
use kg_text::NoMemory;
use std::alloc::Global;

/// Adds what a line gives, over the rows that were declared last.
pub fn put_answer(
    alloc: Global,
    out: &mut String,
    gateway: &mut Option<Box<Gateway>>,
    text: &str,
) -> Result<(), NoMemory> {
    let line = line_of(text);
    match line.subject {
        "rows" => put_rows_answer(alloc, out, gateway, line.call, &args_of(alloc, line.rest)?),
        "request" => put_request_answer(
            alloc,
            out,
            gateway,
            line.call,
            &args_of(alloc, line.rest)?,
        ),
        _ => put(out, text),
    }
}

fn put_rows_answer(
    alloc: Global,
    out: &mut String,
    gateway: &mut Option<Box<Gateway>>,
    call: &str,
    args: &Args,
) -> Result<(), NoMemory> {
    match call {
        "declare" => put_declared(alloc, out, gateway, args.at(0)),
        "choose" => put_chosen(out, gateway, args),
        _ => put_unknown(out),
    }
}

fn put_request_answer(
    alloc: Global,
    out: &mut String,
    gateway: &Option<Box<Gateway>>,
    call: &str,
    args: &Args,
) -> Result<(), NoMemory> {
    match call {
        "visit" => put_visit(alloc, out, gateway, args),
        "asks" => put_asked(alloc, out, gateway, args),
        _ => put_unknown(out),
    }
}
