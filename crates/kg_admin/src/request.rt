//! One request of the Admin API.

ghost use Rattle.std.specs.Prelude.{◌≡◌, ℕ, List, None, true, IfOk};
ghost use Rattle.kg_admin.specs.AdminAnswers.{answer_to, status_of};
ghost use Rattle.kg_admin.specs.AdminCalls.{IsAdminRun, Runs, draws_id, drawn_for, fault_response};
ghost use Rattle.kg_admin.specs.AdminRequests.{Changed, Row, Rows};
ghost use Rattle.kg_admin.specs.Asking.{MayAsk, asked_by, change_of, done_at};
ghost use Rattle.kg_declare.specs.RefusalBody.{refusal_response};
ghost use Rattle.kg_rows.specs.Decision.{CanStandUnder, IsProper};

use crate::asked::{AskError, Wanted, asked};
use crate::done::AdminDone;
use crate::page::listed_response;
use crate::reply::{found_response, put_response};
use kg_declare::refusal_response;
use kg_entities::{Id, Kind};
use kg_keeper::{CommitError, KeepError, Keeper, PageAsk, Seen};
use kg_message::{Request, Response, message};
use kg_outside::Ids;
use kg_rows::{Draft, Parent, Refusal, Select};
use kg_text::NoMemory;
use std::alloc::Global;

/// Answers one request of the Admin API, at a time in milliseconds.
///
/// The rows are asked at most once. The reply is the answer at all commits that the store has seen by then;
/// of a change that is accepted, at all before it, and that change is the last commit. It is 500 where the
/// store failed. An id is drawn for each POST and PUT. After `NoMemory` that one commit may stand.
pub fn admin_request<P: Keeper, I: Ids>(
    alloc: Global,
    keeper: &mut P,
    request: &Request,
    ids: &mut I,
    now: u64,
) -> Result<AdminDone, NoMemory>
    ensures { IsAdminRun I.draws ids.old ids.new (P.observed keeper.old) (P.observed keeper.new) request.now now result }
{
    let bytes = drawn(request, ids);
    match asked(alloc, request, Id::from_drawn(bytes), now) {
        Ok(wanted) => answered(alloc, keeper, request.path.as_str(), wanted),
        Err(AskError::Refused(response)) => Ok(AdminDone {
            response,
            at: None,
            faulted: false,
        }),
        Err(AskError::NoMemory) => Err(NoMemory),
    }
}

// The bytes of an id, where the request may need one.
fn drawn<I: Ids>(request: &Request, ids: &mut I) -> [u8; 16]
    ensures { I.draws ids.old ids.new (drawn_for request.now result) }
{
    if draws_id(request) {
        ids.draw()
    } else {
        [0; 16]
    }
}

fn draws_id(request: &Request) -> bool
    ensures { result ≡ draws_id request.now }
{
    request.method.as_slice() == b"POST".as_slice()
        || request.method.as_slice() == b"PUT".as_slice()
}

fn answered<P: Keeper>(
    alloc: Global,
    keeper: &mut P,
    path: &str,
    wanted: Wanted,
) -> Result<AdminDone, NoMemory>
    requires { MayAsk wanted }
    ensures { Runs (P.observed keeper.old) (P.observed keeper.new) (answer_to path.now (P.observed keeper.old).limit (asked_by wanted)) result }
{
    match wanted {
        Wanted::Change(draft) => {
            let done = changed(alloc, keeper, &draft);
            drop(draft); // let go by name: a short proof
            done
        }
        Wanted::Find {
            kind,
            parent,
            select,
        } => {
            let done = found(alloc, keeper, kind, &parent, &select);
            // let go by name: a short proof
            drop(parent);
            drop(select);
            done
        }
        Wanted::Page(ask) => {
            let done = listed(alloc, keeper, path, &ask);
            drop(ask);
            done
        }
    }
}

fn changed<P: Keeper>(alloc: Global, keeper: &mut P, draft: &Draft) -> Result<AdminDone, NoMemory>
    requires { IsProper draft.now }
    ensures { (path : List ℕ) → Runs (P.observed keeper.old) (P.observed keeper.new) (answer_to path (P.observed keeper.old).limit (Changed (change_of draft.now))) result }
{
    match keeper.commit(alloc, draft) {
        Ok(done) => told(put_response(alloc, status_of(draft), done.row), done.at),
        Err(CommitError::Refused { why, at }) => told(refused(alloc, why), at),
        Err(CommitError::Fault) => failed(alloc),
        Err(CommitError::NoMemory) => Err(NoMemory),
    }
}

fn found<P: Keeper>(
    alloc: Global,
    keeper: &mut P,
    kind: Kind,
    parent: &Option<Parent>,
    select: &Select,
) -> Result<AdminDone, NoMemory>
    requires { CanStandUnder kind parent.now }
    ensures { (path : List ℕ) → Runs (P.observed keeper.old) (P.observed keeper.new) (answer_to path (P.observed keeper.old).limit (Row kind parent.now select.now)) result }
{
    match keeper.find(alloc, kind, parent, select) {
        Ok(Seen { row, at }) => told(found_response(alloc, row), at),
        Err(KeepError::Fault) => failed(alloc),
        Err(KeepError::NoMemory) => Err(NoMemory),
    }
}

fn listed<P: Keeper>(
    alloc: Global,
    keeper: &mut P,
    path: &str,
    ask: &PageAsk,
) -> Result<AdminDone, NoMemory>
    requires { CanStandUnder ask.now.kind ask.now.parent }
    ensures { Runs (P.observed keeper.old) (P.observed keeper.new) (answer_to path.now (P.observed keeper.old).limit (Rows ask.now.kind ask.now.parent ask.now.after ask.now.size)) result }
{
    match keeper.page(alloc, ask) {
        Ok(got) => {
            let response = listed_response(alloc, path, ask.size, &got);
            let at = got.at;
            drop(got); // let go by name: a short proof
            told(response, at)
        }
        Err(KeepError::Fault) => failed(alloc),
        Err(KeepError::NoMemory) => Err(NoMemory),
    }
}

fn status_of(draft: &Draft) -> u16
    ensures { result ≡ status_of (change_of draft.now) }
{
    match draft {
        Draft::Insert { .. } => 201,
        _ => 200,
    }
}

fn refused(alloc: Global, why: Refusal) -> Result<Response, NoMemory>
    ensures { IfOk result (λ response. response ≡ refusal_response why) }
{
    let response = refusal_response(alloc, &why);
    drop(why); // let go by name: a short proof
    response
}

// The reply at a place of the history.
fn told(response: Result<Response, NoMemory>, at: u64) -> Result<AdminDone, NoMemory>
    ensures { result ≡ done_at response at }
{
    Ok(AdminDone {
        response: response?,
        at: Some(at),
        faulted: false,
    })
}

// The reply where the store failed.
fn failed(alloc: Global) -> Result<AdminDone, NoMemory>
    ensures { IfOk result (λ done. done ≡ record { response = fault_response; at = None; faulted = true }) }
{
    Ok(AdminDone {
        response: message(alloc, 500, b"An unexpected error occurred")?,
        at: None,
        faulted: true,
    })
}
