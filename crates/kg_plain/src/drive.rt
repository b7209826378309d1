//! What a request wants of a gateway, until it has its reply.

ghost use Rattle.std.specs.Prelude.{◌≡◌, ℕ, List as Sequence, true, false, IfOk, OnOk};
ghost use Rattle.kg_course.specs.Wants.{IsReply};
ghost use Rattle.kg_course.specs.declared.want.Want.TheVariants as AWant;
ghost use Rattle.kg_limit.specs.Representing.{Represents};
ghost use Rattle.kg_limit.specs.declared.hit.Hit.{Hit as AHit};
ghost use Rattle.kg_message.specs.declared.request.Request.{Request as ARequest};
ghost use Rattle.kg_visit.specs.Told.{begun, want_after};
ghost use Rattle.kg_plain.specs.Driving.{AnswersOwn, Begins, RepliesLast, Responds, is_own, use_of};

use crate::gateway::Gateway;
use kg_level::Level;
use kg_limit::Windows;
use kg_message::Response;
use kg_row_types::key::Key;
use kg_row_values::value::value_of;
use kg_text::{NoMemory, TryClone};
use kg_visit::{Used, Visit, Visited, Want};
use std::alloc::Global;
use std::sync::Arc;

/// The response to a request that begins: each key that it asks is answered by the gateway's rows, its hit by the
/// windows, which count it, and its message by the echo.
pub fn drive(
    alloc: Global,
    gateway: &Gateway,
    windows: &mut Windows,
    visit: Visit,
) -> Result<Response, NoMemory>
    requires { Begins visit }
    ensures { (time : ℕ) (request : ARequest) → visit ≡ begun gateway.now.router gateway.now.plugins request (record { time = time; who = 1 })
        → (hits : Sequence AHit) → Represents windows.old hits → IfOk result (λ response. Responds gateway.now hits time request response windows.new) }
{
    let mut visit = visit;
    while is_own(visit.want()) {
        match answer_own(alloc, gateway, windows, &mut visit) {
            Ok(()) => {}
            Err(e) => {
                drop(visit); // let go by name: a short proof
                return Err(e);
            }
        }
    }
    last_reply(alloc, visit)
}

// Is it a question that the gateway answers by itself?
fn is_own(want: &Want) -> bool
    ensures { result ≡ is_own want.now }
{
    match want {
        Want::Entity(_) => true,
        Want::Count(_) => true,
        Want::Upstream(_) => false,
        Want::Done(_) => false,
    }
}

// Answers a key or a hit.
fn answer_own(
    alloc: Global,
    gateway: &Gateway,
    windows: &mut Windows,
    visit: &mut Visit,
) -> Result<(), NoMemory>
    requires whole { visit.old.lost ≡ false }
    requires own { is_own (want_after visit.old) ≡ true }
    ensures { OnOk result (AnswersOwn gateway.now (want_after visit.old) visit.old windows.old visit.new windows.new) }
{
    match visit.want() {
        Want::Entity(key) => {
            let used = use_of(alloc, gateway, key)?;
            visit.give_entity(alloc, used)
        }
        Want::Count(hit) => {
            windows.reserve(alloc, hit)?;
            let verdict = windows.hit(hit);
            visit.give_verdict(alloc, verdict)
        }
        Want::Upstream(_) => unreachable!(),
        Want::Done(_) => unreachable!(),
    }
}

// A key with its value at the rows, which count all commands.
fn use_of(alloc: Global, gateway: &Gateway, key: &Key) -> Result<Used, NoMemory>
    ensures { IfOk result (λ used. used ≡ use_of gateway.now key.now) }
{
    let value = value_of(alloc, gateway.rows(), key)?;
    Ok(Used {
        key: key.try_clone(alloc)?,
        value: Arc::new(alloc, value)?,
        at: gateway.commands(),
        level: Level::Loaded,
    })
}

// The reply to a request that has no further question, or the echo's alone.
fn last_reply(alloc: Global, visit: Visit) -> Result<Response, NoMemory>
    requires whole { visit.lost ≡ false }
    requires last { is_own (want_after visit) ≡ false }
    ensures { IfOk result (RepliesLast visit (want_after visit)) }
{
    if visit.is_done() {
        Ok(response_of(visit))
    } else {
        visit.finish_by_echo(alloc)
    }
}

// The response to a request that wants nothing more.
fn response_of(visit: Visit) -> Response
    requires whole { visit.lost ≡ false }
    requires done { IsReply (want_after visit) }
    ensures { want_after visit ≡ AWant.Done result }
{
    let Visited {
        response,
        uses,
        verdicts,
        upstream,
    } = visit.finish();
    // let go by name: a short proof
    drop((uses, verdicts, upstream));
    response
}
