//! What a line gives.

use crate::copies::put_copy;
use crate::fields::put_fields_answer;
use crate::lists::put_list_answer;
use crate::messages::put_message_answer;
use crate::outside::put_outside_answer;
use crate::print::put_print_answer;
use crate::state::State;
use crate::texts::{put_host_answer, put_name_answer, put_path_answer, put_query_answer};
use case_lines::{Line, args_of, line_of, put};
use kg_text::NoMemory;
use std::alloc::Global;

/// Adds what a line gives.
pub fn put_answer(
    alloc: Global,
    out: &mut String,
    state: &mut State,
    text: &str,
) -> Result<(), NoMemory> {
    let line = line_of(text);
    match line.subject {
        "path" | "name" | "host" | "query" | "copy" => put_text_answer(alloc, out, line),
        "list" | "fields" | "print" => put_state_answer(alloc, out, state, line),
        "message" | "outside" => put_other_answer(alloc, out, line),
        _ => put(out, text),
    }
}

fn put_text_answer(alloc: Global, out: &mut String, line: Line<'_>) -> Result<(), NoMemory> {
    let args = args_of(alloc, line.rest)?;
    match line.subject {
        "path" => put_path_answer(alloc, out, line.call, &args),
        "name" => put_name_answer(alloc, out, line.call, &args),
        "host" => put_host_answer(alloc, out, line.call, &args),
        "query" => put_query_answer(alloc, out, line.call, &args),
        _ => put_copy(alloc, out, line.call, &args),
    }
}

fn put_state_answer(
    alloc: Global,
    out: &mut String,
    state: &mut State,
    line: Line<'_>,
) -> Result<(), NoMemory> {
    let args = args_of(alloc, line.rest)?;
    match line.subject {
        "list" => put_list_answer(out, &mut state.list, line.call, &args),
        "fields" => put_fields_answer(alloc, out, &mut state.fields, line.call, &args),
        _ => put_print_answer(alloc, out, state, line.call, &args),
    }
}

fn put_other_answer(alloc: Global, out: &mut String, line: Line<'_>) -> Result<(), NoMemory> {
    let args = args_of(alloc, line.rest)?;
    match line.subject {
        "message" => put_message_answer(alloc, out, line.call, &args),
        _ => put_outside_answer(alloc, out, line.call, &args),
    }
}
