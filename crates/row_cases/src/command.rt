//! Commands, as they are done and told.

use crate::label::{put_id, put_touched};
use crate::print::put_row;
use crate::state::State;
use case_lines::put;
use kg_rows::{Command, allowed, apply};
use kg_text::NoMemory;
use std::alloc::Global;

/// Changes the rows, and adds the row and what was touched.
pub fn put_command(
    alloc: Global,
    out: &mut String,
    state: &mut State,
    command: &Command,
) -> Result<(), NoMemory> {
    put_change(alloc, out, command)?;
    put(out, " |")?;
    put_effect(alloc, out, state, command)
}

fn put_change(alloc: Global, out: &mut String, command: &Command) -> Result<(), NoMemory> {
    match command {
        Command::Insert(row) => {
            put(out, "insert ")?;
            put_row(alloc, out, row)
        }
        Command::Update(row) => {
            put(out, "update ")?;
            put_row(alloc, out, row)
        }
        Command::Delete { id, .. } => {
            put(out, "delete ")?;
            put_id(alloc, out, *id)
        }
    }
}

/// Does the command, where it is allowed, and adds what it touches.
pub fn put_effect(
    alloc: Global,
    out: &mut String,
    state: &mut State,
    command: &Command,
) -> Result<(), NoMemory> {
    if !allowed(&state.rows, command, state.limit) {
        return put(out, " not allowed");
    }
    let touched = apply(alloc, &mut state.rows, command)?;
    let told = put_touched(alloc, out, &touched);
    drop(touched); // let go by name: a short proof
    told
}
