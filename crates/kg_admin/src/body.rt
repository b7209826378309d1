//! The body of a request.

ghost use Rattle.std.specs.Prelude.{◌≡◌, IfOk, codes, option_and_then, option_map};
ghost use Rattle.std.specs.Str.{str_eq_ignore_ascii_case};
ghost use Rattle.serde_json.specs.Find.{as_object};
ghost use Rattle.serde_json.specs.View.{members_view, view};
ghost use Rattle.kg_admin.specs.AdminRequests.{body_of, fields_in, has_json, json_of, object_in, unless_broken};
ghost use Rattle.kg_admin.specs.Asking.{Reads};
ghost use Rattle.kg_field_tables.specs.BrokenRules.{field_violations};

use crate::asked::{AskError, refusal, violation};
use kg_entities::Kind;
use kg_message::Request;
use kg_schema::{Form, FormError, read_form};
use kg_text::NoMemory;
use serde_json::{Map, Value};
use std::alloc::Global;

/// The body, where it breaks no rule of a field of this kind.
pub fn fields_in(alloc: Global, kind: Kind, request: &Request) -> Result<Form, AskError>
    ensures body { Reads (λ form. view form.body) result (fields_in kind request.now) }
    ensures kind { IfOk result (λ form. form.kind ≡ kind) }
{
    let body = body_of(alloc, request)?;
    let form = form_of(alloc, kind, &body);
    drop(body); // let go by name: a short proof
    form
}

fn form_of(alloc: Global, kind: Kind, body: &Value) -> Result<Form, AskError>
    ensures body { Reads (λ form. view form.body) result (unless_broken (field_violations kind (view body.now)) (view body.now)) }
    ensures kind { IfOk result (λ form. form.kind ≡ kind) }
{
    match read_form(alloc, kind, body) {
        Ok(form) => Ok(form),
        Err(FormError::Violation(broken)) => Err(violation(alloc, broken)),
        Err(FormError::NoMemory) => Err(AskError::NoMemory),
    }
}

/// The body of a request as an object of JSON. An empty one has no members.
pub fn body_of(alloc: Global, request: &Request) -> Result<Value, AskError>
    ensures { Reads view result (body_of request.now) }
{
    if request.body.is_empty() {
        return Ok(Value::from(Map::new(alloc)));
    }
    if !has_json(request) {
        return Err(refusal(alloc, 400, b"Only JSON bodies are read"));
    }
    object_in(alloc, request.body.as_slice())
}

// A request that doesn't tell the type of its body has JSON.
fn has_json(request: &Request) -> bool
    ensures { result ≡ has_json request.now }
{
    match request.headers.media_type() {
        Some(given) => is_json(given),
        None => true,
    }
}

fn is_json(given: &[u8]) -> bool
    ensures { result ≡ str_eq_ignore_ascii_case given.now (codes "application/json") }
{
    given.eq_ignore_ascii_case(b"application/json")
}

fn object_in(alloc: Global, body: &[u8]) -> Result<Value, AskError>
    ensures { Reads view result (object_in body.now) }
{
    match members_of(alloc, body)? {
        Some(members) => Ok(Value::from(members)),
        None => Err(refusal(alloc, 400, b"Cannot parse JSON body")),
    }
}

fn members_of(alloc: Global, body: &[u8]) -> Result<Option<Map<String, Value>>, NoMemory>
    ensures { IfOk result (λ found. option_map (λ members. members_view members.entries) found ≡ option_and_then as_object (json_of body.now)) }
{
    match json_of(alloc, body)? {
        Some(value) => Ok(object_of(value)),
        None => Ok(None),
    }
}

fn object_of(value: Value) -> Option<Map<String, Value>>
    ensures { option_map (λ members. members_view members.entries) result ≡ as_object (view value) }
{
    let Value::Object(members) = value else {
        return None;
    };
    Some(members)
}

fn json_of(alloc: Global, bytes: &[u8]) -> Result<Option<Value>, NoMemory>
    ensures { IfOk result (λ found. option_map view found ≡ json_of bytes.now) }
{
    match Value::from_slice(alloc, bytes) {
        Ok(value) => Ok(Some(value)),
        Err(e) => {
            if e.is_memory() {
                Err(NoMemory)
            } else {
                Ok(None)
            }
        }
    }
}
