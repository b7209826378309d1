//! What is written to a connection.

ghost use Rattle.std.specs.Prelude.{◌≡◌, ◌-◌, IfOk};
ghost use Rattle.kg_crew.specs.AdminReplies.{bad_request, is_bodiless, refusal_text, text_of};
ghost use Rattle.kg_crew.specs.AdminServing.{Counts, is_write_fault};
ghost use Rattle.kg_crew.specs.ServingSteps.{FaultsBy, PutsReply, Refuses, Writes};

use crate::allowance::Allowance;
use crate::end::End;
use kg_admin::AdminDone;
use kg_message::{Request, Response, message};
use kg_outside::{Failed, Sink};
use kg_text::{Bytes, List, NoMemory};
use kg_wire::{Keeping, asks_for_end, keeping_of, render_response, write_whole};
use std::alloc::Global;

/// Notes a call, and writes its reply. It answers what is left then.
pub fn put_reply<K: Sink>(
    alloc: Global,
    request: &Request,
    done: AdminDone,
    sink: &mut K,
    left: Allowance,
    calls: &mut List<AdminDone>,
) -> Result<Allowance, End>
    ensures spends { IfOk result (λ more. more.requests ≡ left.requests - 1) }
    ensures put { PutsReply request.now done left calls.old calls.new (K.written sink.old) (K.written sink.new) result }
    ensures faults { FaultsBy is_write_fault (K.faults sink.old) (K.faults sink.new) result }
    ensures beside { K.beside sink.new ≡ K.beside sink.old }
{
    let left = left.less(&done.response);
    match reply_text(alloc, request, &done.response, left) {
        Ok(text) => match calls.push(done) {
            Ok(()) => write_reply(request, text.as_slice(), sink, left),
            Err(NoMemory) => Err(End::NoMemory),
        },
        Err(NoMemory) => {
            drop(done); // let go by name: a short proof
            Err(End::NoMemory)
        }
    }
}

// Writes the reply to a request. It answers what is left.
fn write_reply<K: Sink>(
    request: &Request,
    text: &[u8],
    sink: &mut K,
    left: Allowance,
) -> Result<Allowance, End>
    ensures same { IfOk result (λ more. more ≡ left) }
    ensures written { Writes request.now text.now left (K.written sink.old) (K.written sink.new) result }
    ensures faults { FaultsBy is_write_fault (K.faults sink.old) (K.faults sink.new) result }
    ensures beside { K.beside sink.new ≡ K.beside sink.old }
{
    match write_whole(sink, text) {
        Ok(()) => {
            if asks_for_end(request) {
                Err(End::Asked)
            } else {
                Ok(left)
            }
        }
        Err(Failed) => Err(End::WriteFault),
    }
}

// The text of a reply, behind which this is left. The connection ends with it where no further request is answered.
#[tactic(auto, unfolding(crate::specs::AdminReplies::text_of))]
fn reply_text(
    alloc: Global,
    request: &Request,
    response: &Response,
    left: Allowance,
) -> Result<Bytes, NoMemory>
    ensures { IfOk result (λ text. text ≡ text_of left request.now response.now) }
{
    let keeping = keeping_of(left.is_spent(), request);
    render_response(alloc, response, is_bodiless(request), keeping)
}

// A reply to HEAD has no body.
fn is_bodiless(request: &Request) -> bool
    ensures { result ≡ is_bodiless request.now }
{
    request.method.as_slice() == b"HEAD".as_slice()
}

/// Answers a message that is refused, behind so many bytes.
pub fn refuse<K: Sink>(alloc: Global, at: u64, sink: &mut K) -> End
    ensures refused { Refuses at (K.written sink.old) (K.written sink.new) result }
    ensures faults { Counts (is_write_fault result) (K.faults sink.old) (K.faults sink.new) }
    ensures beside { K.beside sink.new ≡ K.beside sink.old }
{
    match refusal_text(alloc) {
        Ok(text) => match write_whole(sink, text.as_slice()) {
            Ok(()) => End::BadMessage { at },
            Err(Failed) => End::WriteFault,
        },
        Err(NoMemory) => End::NoMemory,
    }
}

// The text that answers a message which is refused.
#[tactic(auto, unfolding(crate::specs::AdminReplies::refusal_text))]
fn refusal_text(alloc: Global) -> Result<Bytes, NoMemory>
    ensures { IfOk result (λ text. text ≡ refusal_text) }
{
    let response = bad_request(alloc)?;
    render_response(alloc, &response, false, Keeping::Close)
}

#[tactic(auto, unfolding(crate::specs::AdminReplies::bad_request))]
fn bad_request(alloc: Global) -> Result<Response, NoMemory>
    ensures { IfOk result (λ response. response ≡ bad_request) }
{
    message(alloc, 400, b"Bad request")
}
