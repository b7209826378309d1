//! What a request asks of the rows.

ghost use Rattle.std.specs.Prelude.{◌≡◌, ℕ, Ok, IfOk, drop};
ghost use Rattle.kg_admin.specs.AdminRequests.{asked, asked_of, body_of, operation_in, or_violation, page_in, unless_refused};
ghost use Rattle.kg_admin.specs.Asking.{MayAsk, Reads, RefusesWith, asked_by};
ghost use Rattle.kg_admin.specs.declared.asked.AskError.TheVariants.{NoMemory as OutOfMemory};
ghost use Rattle.kg_admin_paths.specs.ListQueries.{pairs_of, window_of};
ghost use Rattle.kg_admin_paths.specs.Paths.{FitsOperation};
ghost use Rattle.kg_admin_paths.specs.declared.operation.Operation.TheVariants as operation;
ghost use Rattle.kg_declare.specs.RefusalBody.{violation_response};
ghost use Rattle.kg_message.specs.GatewayMessage.{gateway_message};
ghost use Rattle.kg_rows.specs.Decision.{CanStandUnder};

use crate::body::{body_of, fields_in};
use kg_admin_paths::{Operation, QueryError, Window, operation_of, place_of, window_of};
use kg_declare::refusal_response;
use kg_entities::{Id, Kind};
use kg_keeper::PageAsk;
use kg_message::{Request, Response, message};
use kg_rows::{Draft, Parent, Refusal, Select};
use kg_schema::Broken;
use kg_text::{Bytes, List, NoMemory};
use std::alloc::Global;

/// What is asked of the rows.
#[derive(Drop)]
pub enum Wanted {
    Change(Draft),
    Find {
        kind: Kind,
        parent: Option<Parent>,
        select: Select,
    },
    Page(PageAsk),
}

/// Why nothing is asked of the rows.
#[derive(Drop)]
pub enum AskError {
    /// The request is refused with this reply.
    Refused(Response),
    NoMemory,
}

impl From<NoMemory> for AskError {
    ghost from_gives = { λ _ e. e ≡ OutOfMemory };

    fn from(_: NoMemory) -> AskError {
        AskError::NoMemory
    }
}

/// What a request asks of the rows, or the first refusal that needs no rows: of its path, its method, the
/// query of a list, the type of its body, its body, the fields of its body. `id` is one that was drawn, and
/// `now` the clock in milliseconds.
pub fn asked(alloc: Global, request: &Request, id: Id, now: u64) -> Result<Wanted, AskError>
    ensures wanted { Reads asked_by result (asked request.now id now) }
    ensures may { IfOk result MayAsk }
{
    match operation_in(alloc, request) {
        Ok(operation) => asked_of(alloc, operation, request, id, now),
        Err(e) => Err(e),
    }
}

// What the method asks for at the place that the path means.
fn operation_in(alloc: Global, request: &Request) -> Result<Operation, AskError>
    ensures operation { Reads (λ x. x) result (operation_in request.now) }
    ensures fits { IfOk result FitsOperation }
{
    match place_of(alloc, behind_slash(request.path.as_bytes()))? {
        Some(place) => match operation_of(place, request.method.as_slice()) {
            Some(operation) => Ok(operation),
            None => Err(refusal(alloc, 405, b"Method not allowed")),
        },
        None => Err(refusal(alloc, 404, b"Not found")),
    }
}

fn behind_slash(path: &[u8]) -> &[u8]
    ensures { result.now ≡ drop 1 path.now }
{
    match path {
        [] => path,
        [_, rest @ ..] => rest,
    }
}

fn asked_of(
    alloc: Global,
    operation: Operation,
    request: &Request,
    id: Id,
    now: u64,
) -> Result<Wanted, AskError>
    requires { FitsOperation operation }
    ensures wanted { Reads asked_by result (asked_of operation request.now id now) }
    ensures may { IfOk result MayAsk }
{
    match operation {
        Operation::Page { kind, parent } => page_of(alloc, kind, parent, request),
        Operation::Insert { kind, parent } => insertion(alloc, kind, parent, request, id, now),
        Operation::Find {
            kind,
            parent,
            select,
        } => find_of(alloc, kind, parent, select, request),
        Operation::Patch {
            kind,
            parent,
            select,
        } => patch_of(alloc, kind, parent, select, request, now),
        Operation::Put {
            kind,
            parent,
            select,
        } => put_of(alloc, kind, parent, select, request, id, now),
        Operation::Delete {
            kind,
            parent,
            select,
        } => deletion(alloc, kind, parent, select, request),
    }
}

fn page_of(
    alloc: Global,
    kind: Kind,
    parent: Option<Parent>,
    request: &Request,
) -> Result<Wanted, AskError>
    requires { CanStandUnder kind parent }
    ensures wanted { (id now : ℕ) → Reads asked_by result (asked_of (operation.Page kind parent) request.now id now) }
    ensures may { IfOk result MayAsk }
{
    match page_in(alloc, request) {
        Ok(Window { after, size }) => Ok(Wanted::Page(PageAsk {
            kind,
            parent,
            after,
            size,
        })),
        Err(e) => {
            drop(parent); // let go by name: a short proof
            Err(e)
        }
    }
}

fn insertion(
    alloc: Global,
    kind: Kind,
    parent: Option<Parent>,
    request: &Request,
    id: Id,
    now: u64,
) -> Result<Wanted, AskError>
    requires { CanStandUnder kind parent }
    ensures wanted { Reads asked_by result (asked_of (operation.Insert kind parent) request.now id now) }
    ensures may { IfOk result MayAsk }
{
    match fields_in(alloc, kind, request) {
        Ok(form) => Ok(Wanted::Change(Draft::Insert {
            kind,
            parent,
            form,
            id,
            now,
        })),
        Err(e) => {
            drop(parent); // let go by name: a short proof
            Err(e)
        }
    }
}

fn find_of(
    alloc: Global,
    kind: Kind,
    parent: Option<Parent>,
    select: Select,
    request: &Request,
) -> Result<Wanted, AskError>
    requires { CanStandUnder kind parent }
    ensures wanted { (id now : ℕ) → Reads asked_by result (asked_of (operation.Find kind parent select) request.now id now) }
    ensures may { IfOk result MayAsk }
{
    match body_is_read(alloc, request) {
        Ok(()) => Ok(Wanted::Find {
            kind,
            parent,
            select,
        }),
        Err(e) => {
            // let go by name: a short proof
            drop(parent);
            drop(select);
            Err(e)
        }
    }
}

fn patch_of(
    alloc: Global,
    kind: Kind,
    parent: Option<Parent>,
    select: Select,
    request: &Request,
    now: u64,
) -> Result<Wanted, AskError>
    requires { CanStandUnder kind parent }
    ensures wanted { (id : ℕ) → Reads asked_by result (asked_of (operation.Patch kind parent select) request.now id now) }
    ensures may { IfOk result MayAsk }
{
    match fields_in(alloc, kind, request) {
        Ok(form) => Ok(Wanted::Change(Draft::Patch {
            kind,
            parent,
            select,
            form,
            now,
        })),
        Err(e) => {
            // let go by name: a short proof
            drop(parent);
            drop(select);
            Err(e)
        }
    }
}

fn put_of(
    alloc: Global,
    kind: Kind,
    parent: Option<Parent>,
    select: Select,
    request: &Request,
    id: Id,
    now: u64,
) -> Result<Wanted, AskError>
    requires { CanStandUnder kind parent }
    ensures wanted { Reads asked_by result (asked_of (operation.Put kind parent select) request.now id now) }
    ensures may { IfOk result MayAsk }
{
    match fields_in(alloc, kind, request) {
        Ok(form) => Ok(Wanted::Change(Draft::Put {
            kind,
            parent,
            select,
            form,
            id,
            now,
        })),
        Err(e) => {
            // let go by name: a short proof
            drop(parent);
            drop(select);
            Err(e)
        }
    }
}

fn deletion(
    alloc: Global,
    kind: Kind,
    parent: Option<Parent>,
    select: Select,
    request: &Request,
) -> Result<Wanted, AskError>
    requires { CanStandUnder kind parent }
    ensures wanted { (id now : ℕ) → Reads asked_by result (asked_of (operation.Delete kind parent select) request.now id now) }
    ensures may { IfOk result MayAsk }
{
    match body_is_read(alloc, request) {
        Ok(()) => Ok(Wanted::Change(Draft::Delete {
            kind,
            parent,
            select,
        })),
        Err(e) => {
            // let go by name: a short proof
            drop(parent);
            drop(select);
            Err(e)
        }
    }
}

// The page that is asked for, where the query and then the body are accepted.
fn page_in(alloc: Global, request: &Request) -> Result<Window, AskError>
    ensures { Reads (λ x. x) result (page_in request.now) }
{
    let window = window_in(alloc, &request.query)?;
    body_is_read(alloc, request)?;
    Ok(window)
}

fn window_in(alloc: Global, query: &Option<Bytes>) -> Result<Window, AskError>
    ensures { Reads (λ x. x) result (or_violation (window_of (pairs_of query.now))) }
{
    match window_of(alloc, query) {
        Ok(window) => Ok(window),
        Err(QueryError::Violation(broken)) => Err(violation(alloc, broken)),
        Err(QueryError::NoMemory) => Err(AskError::NoMemory),
    }
}

// The body is accepted, whatever is in it.
fn body_is_read(alloc: Global, request: &Request) -> Result<(), AskError>
    ensures { Reads (λ x. x) result (unless_refused (λ body. Ok tt) (body_of request.now)) }
{
    let body = body_of(alloc, request)?;
    drop(body);
    Ok(())
}

// ---- refusals

/// The refusal with this status and text.
pub fn refusal(alloc: Global, status: u16, text: &[u8]) -> AskError
    ensures { RefusesWith result (gateway_message status text.now) }
{
    match message(alloc, status, text) {
        Ok(response) => AskError::Refused(response),
        Err(NoMemory) => AskError::NoMemory,
    }
}

/// The refusal of what breaks these rules.
#[tactic(auto, unfolding(kg_declare::specs::RefusalBody::refusal_response))]
pub fn violation(alloc: Global, broken: List<Broken>) -> AskError
    ensures { RefusesWith result (violation_response broken) }
{
    let refusal = Refusal::Violation(broken);
    let response = refusal_response(alloc, &refusal);
    drop(refusal); // let go by name: a short proof
    match response {
        Ok(response) => AskError::Refused(response),
        Err(NoMemory) => AskError::NoMemory,
    }
}
