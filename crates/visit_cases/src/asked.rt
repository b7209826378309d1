//! What a request asks, one question after another.

ghost use Rattle.std.specs.Prelude.{◌≡◌, false, IfOk, OnOk};
ghost use Rattle.kg_row_values.specs.Values.{value_of};

use crate::request::request_with;
use case_lines::{Args, put, put_bytes};
use kg_course::Want;
use kg_level::Level;
use kg_limit::{Hit, Windows};
use kg_plain::Gateway;
use kg_row_types::id::Id;
use kg_row_types::key::Key;
use kg_row_values::value::value_of;
use kg_text::{NoMemory, TryClone};
use kg_visit::{Used, Visit};
use std::alloc::Global;
use std::sync::Arc;

// How many questions a request has at most, but for that of its upstream.
const MOST: usize = 8;

/// Adds what a request with this method, path and fields asks, answered out of the rows: keys and a hit, one after
/// another, and then `upstream`, or the status of its reply.
pub fn put_asked(
    alloc: Global,
    out: &mut String,
    gateway: &Option<Box<Gateway>>,
    args: &Args,
) -> Result<(), NoMemory> {
    match gateway {
        Some(gateway) => {
            let request = request_with(alloc, args)?;
            let mut visit = gateway.visit(alloc, request, 0)?;
            let told = put_questions(alloc, out, gateway, &mut visit);
            drop(visit); // let go by name: a short proof
            told
        }
        None => put(out, "no rows"),
    }
}

fn put_questions(
    alloc: Global,
    out: &mut String,
    gateway: &Gateway,
    visit: &mut Visit,
) -> Result<(), NoMemory>
    requires whole { visit.old.lost ≡ false }
{
    let mut windows = Windows::new(alloc);
    for _ in 0..MOST {
        put_question(alloc, out, gateway, &mut windows, visit)?;
    }
    put_end(out, visit.want())
}

// Adds what it asks, and answers that.
fn put_question(
    alloc: Global,
    out: &mut String,
    gateway: &Gateway,
    windows: &mut Windows,
    visit: &mut Visit,
) -> Result<(), NoMemory>
    requires whole { visit.old.lost ≡ false }
    ensures { OnOk result (visit.new.lost ≡ false) }
{
    match visit.want() {
        Want::Entity(key) => {
            put_key(out, key)?;
            let used = used_of(alloc, gateway, key)?;
            visit.give_entity(alloc, used)
        }
        Want::Count(hit) => {
            put_hit(out, hit)?;
            windows.reserve(alloc, hit)?;
            let verdict = windows.hit(hit);
            visit.give_verdict(alloc, verdict)
        }
        Want::Upstream(_) => Ok(()),
        Want::Done(_) => Ok(()),
    }
}

// The key with its value at the rows.
fn used_of(alloc: Global, gateway: &Gateway, key: &Key) -> Result<Used, NoMemory>
    ensures key { IfOk result (λ used. used.key ≡ key.now) }
    ensures value { IfOk result (λ used. used.value ≡ value_of gateway.now.declared key.now) }
{
    let value = value_of(alloc, gateway.rows(), key)?;
    Ok(Used {
        key: key.try_clone(alloc)?,
        value: Arc::new(alloc, value)?,
        at: gateway.commands(),
        level: Level::Loaded,
    })
}

fn put_key(out: &mut String, key: &Key) -> Result<(), NoMemory> {
    match key {
        Key::Cred(text) => put_text(out, "cred:", text.as_str()),
        Key::Basic(text) => put_text(out, "basic:", text.as_str()),
        Key::Named(text) => put_text(out, "named:", text.as_str()),
        Key::Consumer(id) => put_id(out, "consumer:", *id),
        Key::Acls(id) => put_id(out, "acls:", *id),
    }
}

fn put_text(out: &mut String, name: &'static str, text: &str) -> Result<(), NoMemory> {
    write!(out, "{name}{text}, ")?;
    Ok(())
}

// Adds what an id was drawn with, in its last byte.
fn put_id(out: &mut String, name: &'static str, id: Id) -> Result<(), NoMemory> {
    write!(out, "{name}{}, ", id.number() % 256)?;
    Ok(())
}

fn put_hit(out: &mut String, hit: &Hit) -> Result<(), NoMemory> {
    write!(out, "hit at {} of ", hit.row.number() % 256)?;
    put_bytes(out, hit.identity.as_slice())?;
    put(out, ", ")
}

fn put_end(out: &mut String, want: &Want) -> Result<(), NoMemory> {
    match want {
        Want::Upstream(_) => put(out, "upstream"),
        Want::Done(response) => {
            write!(out, "done {}", response.status)?;
            Ok(())
        }
        Want::Entity(_) => put(out, "a value"),
        Want::Count(_) => put(out, "a verdict"),
    }
}
