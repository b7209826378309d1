//! What a line gives.

use crate::change::put_changed;
use crate::declare::put_declared;
use crate::pages::put_page;
use crate::print::{put_key_value, put_shown};
use crate::state::State;
use case_lines::{put, split};
use kg_text::NoMemory;
use std::alloc::Global;

/// Adds what a line gives.
pub fn put_answer(
    alloc: Global,
    out: &mut String,
    state: &mut State,
    line: &str,
) -> Result<(), NoMemory> {
    let (word, rest) = split(line, " ");
    match word {
        "POST" | "PUT" | "PATCH" | "DELETE" => put_changed(alloc, out, state, word, rest),
        "declare" => put_declared(alloc, out, state, rest),
        "show" => put_shown(alloc, out, &state.rows, rest),
        "page" => put_page(alloc, out, &state.rows, rest),
        "value" => put_key_value(alloc, out, &state.rows, rest),
        _ => {
            set(alloc, state, word, rest);
            put(out, line)
        }
    }
}

// Sets the clock or the limit, or begins anew.
fn set(alloc: Global, state: &mut State, word: &str, rest: &str) {
    match word {
        "now" => state.now = rest.parse().unwrap_or(0),
        "limit" => state.limit = rest.parse().unwrap_or(0),
        "fresh" => state.begin_anew(alloc),
        _ => {}
    }
}
