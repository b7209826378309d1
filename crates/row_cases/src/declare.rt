//! Declarations.

use crate::command::put_effect;
use crate::label::{put_id, row_label};
use crate::refusal::put_reply;
use crate::state::State;
use case_lines::put;
use kg_declare::{DeclareError, declare};
use kg_entities::Entity;
use kg_rows::Command;
use kg_text::{List, NoMemory};
use std::alloc::Global;

/// Adds the rows of a declaration, in their order, each with what it touched; they replace the rows so far. Or
/// the refusal, which leaves them.
pub fn put_declared(
    alloc: Global,
    out: &mut String,
    state: &mut State,
    line: &str,
) -> Result<(), NoMemory> {
    let (now, limit) = (state.now, state.limit);
    let answer = declare(alloc, line.as_bytes(), &mut state.ids, now, limit);
    let told = put_outcome(alloc, out, state, &answer);
    drop(answer); // let go by name: a short proof
    told
}

fn put_outcome(
    alloc: Global,
    out: &mut String,
    state: &mut State,
    answer: &Result<List<Command>, DeclareError>,
) -> Result<(), NoMemory> {
    match answer {
        Ok(commands) => {
            state.forget_rows(alloc);
            put(out, "accepted")?;
            put_all(alloc, out, state, commands.as_slice())
        }
        Err(DeclareError::Refused(response)) => put_reply(out, response),
        Err(DeclareError::NoMemory) => Err(NoMemory),
    }
}

fn put_all(
    alloc: Global,
    out: &mut String,
    state: &mut State,
    commands: &[Command],
) -> Result<(), NoMemory> {
    for command in commands {
        put(out, "; ")?;
        put_inserted(alloc, out, command)?;
        put_effect(alloc, out, state, command)?;
    }
    Ok(())
}

fn put_inserted(alloc: Global, out: &mut String, command: &Command) -> Result<(), NoMemory> {
    match command {
        Command::Insert(row) => put_named(alloc, out, row),
        Command::Update(_) => put(out, "an update"),
        Command::Delete { .. } => put(out, "a delete"),
    }
}

fn put_named(alloc: Global, out: &mut String, row: &Entity) -> Result<(), NoMemory> {
    put(out, row_label(row))?;
    put(out, "=")?;
    put_id(alloc, out, row.id())
}
