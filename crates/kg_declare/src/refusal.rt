//! The replies to requests that are refused.

ghost use Rattle.std.specs.Prelude.{◌≡◌, IfOk, false};
ghost use Rattle.serde_json.specs.Data.{string};
ghost use Rattle.serde_json.specs.View.{members_view, view};
ghost use Rattle.serde_json.specs.Written.{compact_text, has_float, members_have_float};
ghost use Rattle.kg_declare.specs.RefusalBody.{coded_response, one_word, presence_word, refusal_object, refusal_response, rules_of, violation_response};

use kg_message::{Headers, Response, message};
use kg_rows::Refusal;
use kg_schema::Broken;
use kg_text::{Bytes, NoMemory};
use serde_json::{Map, Value, json, put};
use std::alloc::{AllocError, Global};

/// The reply to a request that is refused.
///
/// A violation is 400 with the word of each broken rule at its path, a foreign key 400 with `missing`
/// at its field or `present` at `routes`, a unique field 409 with `taken` there: these are objects
/// with a `code`, the `fields`, a `message` and a `name`. What isn't there is 404; a full kind and a
/// full history are 507.
#[tactic(auto, unfolding(crate::specs::RefusalBody::refusal_response))]
pub fn refusal_response(alloc: Global, refusal: &Refusal) -> Result<Response, NoMemory>
    ensures { IfOk result (λ response. response ≡ refusal_response refusal.now) }
{
    match refusal {
        Refusal::NotFound => message(alloc, 404, b"Not found"),
        Refusal::Violation(broken) => violation_response(alloc, broken.as_slice()),
        Refusal::Foreign { field, present } => {
            let fields = one_word(alloc, field.as_str(), presence_word(*present))?;
            coded_response(alloc, 400, 4, fields, "foreign key violation")
        }
        Refusal::Unique { field, .. } => {
            let fields = one_word(alloc, field.as_str(), "taken")?;
            coded_response(alloc, 409, 5, fields, "unique constraint violation")
        }
        Refusal::Full => message(alloc, 507, b"Too many rows of this kind"),
        Refusal::HistoryFull => message(alloc, 507, b"Too many commits"),
    }
}

/// The reply to a body that breaks these rules.
#[tactic(auto, using(crate::proofs::RefusalLemmas::rules_have_no_float), unfolding(crate::specs::RefusalBody::violation_response))]
pub fn violation_response(alloc: Global, broken: &[Broken]) -> Result<Response, NoMemory>
    ensures { IfOk result (λ response. response ≡ violation_response broken.now) }
{
    let fields = rules_of(alloc, broken)?;
    coded_response(alloc, 400, 2, fields, "schema violation")
}

fn coded_response(
    alloc: Global,
    status: u16,
    code: u64,
    fields: Map<String, Value>,
    text: &str,
) -> Result<Response, NoMemory>
    requires { members_have_float (members_view fields.entries) ≡ false }
    ensures { IfOk result (λ response. response ≡ coded_response status code (members_view fields.entries) text.now) }
{
    Ok(Response {
        status,
        headers: Headers::content_type(alloc, b"application/json; charset=utf-8")?,
        body: compact_text(alloc, &refusal_object(alloc, code, fields, text)?)?,
    })
}

fn compact_text(alloc: Global, value: &Value) -> Result<Bytes, NoMemory>
    requires { has_float (view value.now) ≡ false }
    ensures { IfOk result (λ body. body ≡ compact_text (view value.now)) }
{
    let text = value.to_string(alloc)?;
    Ok(Bytes::from_vec(text.into_bytes()))
}

fn refusal_object(
    alloc: Global,
    code: u64,
    fields: Map<String, Value>,
    text: &str,
) -> Result<Value, AllocError>
    ensures { IfOk result (λ v. view v ≡ refusal_object code (members_view fields.entries) text.now) }
{
    let fields = Value::from(fields);
    json!(in alloc; {"code": code, "fields": fields, "message": text, "name": text})
}

fn rules_of(alloc: Global, broken: &[Broken]) -> Result<Map<String, Value>, AllocError>
    ensures { IfOk result (λ fields. members_view fields.entries ≡ rules_of broken.now) }
{
    let mut fields = Map::new(alloc);
    for violation in broken {
        let word = text_value(alloc, violation.rule.as_str())?;
        put(&mut fields, alloc, violation.path.as_str(), word)?;
    }
    Ok(fields)
}

fn one_word(alloc: Global, field: &str, word: &str) -> Result<Map<String, Value>, AllocError>
    ensures { IfOk result (λ fields. members_view fields.entries ≡ one_word field.now word.now) }
{
    let mut fields = Map::new(alloc);
    put(&mut fields, alloc, field, text_value(alloc, word)?)?;
    Ok(fields)
}

fn text_value(alloc: Global, text: &str) -> Result<Value, AllocError>
    ensures { IfOk result (λ v. view v ≡ string text.now) }
{
    Ok(Value::String(String::from_str(alloc, text)?))
}

fn presence_word(present: bool) -> &'static str
    ensures { result.now ≡ presence_word present }
{
    if present { "present" } else { "missing" }
}
