//! Replies that show rows.

ghost use Rattle.std.specs.Prelude.{◌≡◌, IfOk, false};
ghost use Rattle.serde_json.specs.View.{view};
ghost use Rattle.serde_json.specs.Written.{compact_text, has_float};
ghost use Rattle.kg_admin.specs.AdminAnswers.{found_response, put_response};
ghost use Rattle.kg_admin.specs.AdminRequests.{not_found};
ghost use Rattle.kg_admin.specs.AdminResponses.{admin_response, row_response};

use kg_entities::Entity;
use kg_message::{Headers, Response, message};
use kg_schema::show_entity;
use kg_text::{Bytes, NoMemory};
use serde_json::Value;
use std::alloc::Global;

/// The row that was asked for, or that it isn't there.
pub fn found_response(alloc: Global, row: Option<Entity>) -> Result<Response, NoMemory>
    ensures { IfOk result (λ response. response ≡ found_response row) }
{
    match row {
        Some(row) => shown(alloc, 200, row),
        None => not_found(alloc),
    }
}

/// What isn't there.
pub fn not_found(alloc: Global) -> Result<Response, NoMemory>
    ensures { IfOk result (λ response. response ≡ not_found) }
{
    message(alloc, 404, b"Not found")
}

/// The row that a change put; nothing where it took one out.
pub fn put_response(alloc: Global, status: u16, row: Option<Entity>) -> Result<Response, NoMemory>
    ensures { IfOk result (λ response. response ≡ put_response status row) }
{
    match row {
        Some(row) => shown(alloc, status, row),
        None => admin_response(alloc, 204, Bytes::new(alloc)),
    }
}

fn shown(alloc: Global, status: u16, row: Entity) -> Result<Response, NoMemory>
    ensures { IfOk result (λ response. response ≡ row_response status row) }
{
    let response = row_response(alloc, status, &row);
    drop(row); // let go by name: a short proof
    response
}

#[tactic(auto, using(crate::proofs::ShownLemmas::row_whole))]
fn row_response(alloc: Global, status: u16, row: &Entity) -> Result<Response, NoMemory>
    ensures { IfOk result (λ response. response ≡ row_response status row.now) }
{
    let shown = show_entity(alloc, row)?;
    let body = json_text(alloc, &shown);
    drop(shown); // let go by name: a short proof
    admin_response(alloc, status, body?)
}

/// The text of a value, in which no float stands.
pub fn json_text(alloc: Global, value: &Value) -> Result<Bytes, NoMemory>
    requires { has_float (view value.now) ≡ false }
    ensures { IfOk result (λ text. text ≡ compact_text (view value.now)) }
{
    let text = value.to_string(alloc)?;
    Ok(Bytes::from_vec(text.into_bytes()))
}

/// A reply of the Admin API, with this body.
pub fn admin_response(alloc: Global, status: u16, body: Bytes) -> Result<Response, NoMemory>
    ensures { IfOk result (λ response. response ≡ admin_response status body) }
{
    Ok(Response {
        status,
        headers: Headers::content_type(alloc, b"application/json; charset=utf-8")?,
        body,
    })
}
