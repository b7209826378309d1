//! Changes that are asked for, as commands.

ghost use Rattle.std.specs.Prelude.{◌≡◌, IfOk};
ghost use Rattle.kg_rows.specs.Decision.{CanStandUnder, IsProper};

use crate::command::put_command;
use crate::path::{Target, can_stand_under, target_of};
use crate::refusal::put_refusal;
use crate::state::State;
use case_lines::{put, split};
use kg_entities::{Id, Kind};
use kg_rows::{Command, DecideError, Draft, Refusal, decide};
use kg_schema::{Form, FormError, read_form};
use kg_text::NoMemory;
use serde_json::Value;
use std::alloc::Global;

/// Changes the rows as a line asks, and adds the row and what was touched, or the refusal.
pub fn put_changed(
    alloc: Global,
    out: &mut String,
    state: &mut State,
    method: &str,
    rest: &str,
) -> Result<(), NoMemory> {
    let (path, body) = split(rest, " ");
    match target_of(alloc, path)? {
        Some(target) => put_at_target(alloc, out, state, method, target, body),
        None => put(out, "no such path"),
    }
}

fn put_at_target(
    alloc: Global,
    out: &mut String,
    state: &mut State,
    method: &str,
    target: Target,
    body: &str,
) -> Result<(), NoMemory> {
    if !can_stand_under(target.kind, &target.parent) {
        drop(target); // let go by name: a short proof
        return put(out, "no such path");
    }
    if method == "DELETE" {
        return put_deleted(alloc, out, state, target);
    }
    match form_of(alloc, target.kind, body) {
        Ok(form) => put_formed(alloc, out, state, method, target, form),
        Err(error) => {
            drop(target); // let go by name: a short proof
            let told = put_refused(alloc, out, &error);
            drop(error); // let go by name: a short proof
            told
        }
    }
}

// What a body sets. No text that is no JSON stands in the cases.
fn form_of(alloc: Global, kind: Kind, body: &str) -> Result<Form, DecideError>
    ensures { IfOk result (λ form. form.kind ≡ kind) }
{
    match Value::from_slice(alloc, body.as_bytes()) {
        Ok(value) => {
            let form = form_of_value(alloc, kind, &value);
            drop(value); // let go by name: a short proof
            form
        }
        Err(_) => Err(DecideError::NoMemory),
    }
}

fn form_of_value(alloc: Global, kind: Kind, body: &Value) -> Result<Form, DecideError>
    ensures { IfOk result (λ form. form.kind ≡ kind) }
{
    match read_form(alloc, kind, body) {
        Ok(form) => Ok(form),
        Err(FormError::Violation(broken)) => Err(DecideError::Refused(Refusal::Violation(broken))),
        Err(FormError::NoMemory) => Err(DecideError::NoMemory),
    }
}

fn put_deleted(
    alloc: Global,
    out: &mut String,
    state: &mut State,
    target: Target,
) -> Result<(), NoMemory>
    requires { CanStandUnder target.kind target.parent }
{
    let Target {
        kind,
        parent,
        select,
    } = target;
    match select {
        Some(select) => {
            let draft = Draft::Delete {
                kind,
                parent,
                select,
            };
            put_decided(alloc, out, state, draft)
        }
        None => {
            drop(parent); // let go by name: a short proof
            put_refusal(alloc, out, &Refusal::NotFound)
        }
    }
}

// A change with a body. An id is drawn for each POST of a body without one, and for each PUT.
fn put_formed(
    alloc: Global,
    out: &mut String,
    state: &mut State,
    method: &str,
    target: Target,
    form: Form,
) -> Result<(), NoMemory>
    requires kind { form.kind ≡ target.kind }
    requires stands { CanStandUnder target.kind target.parent }
{
    match method {
        "POST" => put_inserted(alloc, out, state, target, form),
        "PUT" => put_over(alloc, out, state, target, form),
        _ => put_patched(alloc, out, state, target, form),
    }
}

fn put_inserted(
    alloc: Global,
    out: &mut String,
    state: &mut State,
    target: Target,
    form: Form,
) -> Result<(), NoMemory>
    requires kind { form.kind ≡ target.kind }
    requires stands { CanStandUnder target.kind target.parent }
{
    let Target {
        kind,
        parent,
        select,
    } = target;
    drop(select); // let go by name: a short proof
    let id = id_of(state, &form);
    let now = state.now;
    let draft = Draft::Insert {
        kind,
        parent,
        form,
        id,
        now,
    };
    put_decided(alloc, out, state, draft)
}

// The id that a body sets, and else the next one.
fn id_of(state: &mut State, form: &Form) -> Id {
    match form.id() {
        Some(id) => id,
        None => state.draw(),
    }
}

fn put_over(
    alloc: Global,
    out: &mut String,
    state: &mut State,
    target: Target,
    form: Form,
) -> Result<(), NoMemory>
    requires kind { form.kind ≡ target.kind }
    requires stands { CanStandUnder target.kind target.parent }
{
    let Target {
        kind,
        parent,
        select,
    } = target;
    let id = state.draw();
    let now = state.now;
    match select {
        Some(select) => {
            let draft = Draft::Put {
                kind,
                parent,
                select,
                form,
                id,
                now,
            };
            put_decided(alloc, out, state, draft)
        }
        None => {
            drop(parent); // let go by name: a short proof
            drop(form); // let go by name: a short proof
            put_refusal(alloc, out, &Refusal::NotFound)
        }
    }
}

fn put_patched(
    alloc: Global,
    out: &mut String,
    state: &mut State,
    target: Target,
    form: Form,
) -> Result<(), NoMemory>
    requires kind { form.kind ≡ target.kind }
    requires stands { CanStandUnder target.kind target.parent }
{
    let Target {
        kind,
        parent,
        select,
    } = target;
    let now = state.now;
    match select {
        Some(select) => {
            let draft = Draft::Patch {
                kind,
                parent,
                select,
                form,
                now,
            };
            put_decided(alloc, out, state, draft)
        }
        None => {
            drop(parent); // let go by name: a short proof
            drop(form); // let go by name: a short proof
            put_refusal(alloc, out, &Refusal::NotFound)
        }
    }
}

fn put_decided(
    alloc: Global,
    out: &mut String,
    state: &mut State,
    draft: Draft,
) -> Result<(), NoMemory>
    requires { IsProper draft }
{
    let answer = decide(alloc, &state.rows, &draft, state.limit);
    drop(draft); // let go by name: a short proof
    let told = put_outcome(alloc, out, state, &answer);
    drop(answer); // let go by name: a short proof
    told
}

// Does the command that was decided, or tells the refusal.
fn put_outcome(
    alloc: Global,
    out: &mut String,
    state: &mut State,
    answer: &Result<Command, DecideError>,
) -> Result<(), NoMemory> {
    match answer {
        Ok(command) => put_command(alloc, out, state, command),
        Err(error) => put_refused(alloc, out, error),
    }
}

fn put_refused(alloc: Global, out: &mut String, error: &DecideError) -> Result<(), NoMemory> {
    match error {
        DecideError::Refused(refusal) => put_refusal(alloc, out, refusal),
        DecideError::NoMemory => Err(NoMemory),
    }
}
