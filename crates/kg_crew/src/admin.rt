//! The requests of the Admin API that come over one connection.

ghost use Rattle.std.specs.Prelude.{◌≡◌, ◌+◌, ◌-◌, ◌^◌, ◌≤◌, true, false, [], None, IfOk, IfSome, OnOk, length, min};
ghost use Rattle.kg_crew.specs.AdminLaws.{NeverFall, faulted_in};
ghost use Rattle.kg_crew.specs.AdminReplies.{allowance_of, is_spent, local_address};
ghost use Rattle.kg_crew.specs.AdminServing.{Counts, Serves, is_read_fault, is_write_fault};
ghost use Rattle.kg_crew.specs.ServingSteps.{FaultsBy, RepliesTo, ServesNext};
ghost use Rattle.kg_outside.specs.Moves.{with_front};

use crate::allowance::Allowance;
use crate::end::End;
use crate::reply::{put_reply, refuse};
use kg_admin::{AdminDone, admin_request};
use kg_keeper::Keeper;
use kg_message::Request;
use kg_outside::{Clock, Conn, Ids, Sink};
use kg_text::{List, NoMemory};
use kg_wire::{ReadError, Reader};
use std::alloc::Global;

// The address that requests are taken to come from. No answer depends on it.
const LOCAL_ADDRESS: [u8; 4] = [127, 0, 0, 1];

/// The requests that were answered, in their order, and how the serving ended.
#[derive(Drop)]
pub struct AdminServed {
    pub calls: List<AdminDone>,
    pub end: End,
}

/// Answers the requests of a connection one after another, at most so many, up to the first that asks for the
/// end, and up to the one with which the replies' bodies have 67,108,864 bytes. The clock is read once for each,
/// before it is answered. A message that is refused is answered with 400, and no more is read.
///
/// After a fault of writing, a front of the text is written. Without memory nothing is written of the reply that
/// wanted it; that request's change may stand.
pub fn admin_connection<P: Keeper, C: Conn, T: Clock, I: Ids>(
    alloc: Global,
    keeper: &mut P,
    conn: &mut C,
    clock: &mut T,
    ids: &mut I,
    requests: u32,
) -> AdminServed
    ensures serves { Serves (I.draws ids.old ids.new) (T.reads clock.old clock.new) 0 (allowance_of requests)
        (record { ahead = C.left conn.old; ahead_now = C.left conn.new; written = C.written conn.old; written_now = C.written conn.new; store = P.observed keeper.old; store_now = P.observed keeper.new })
        result.calls result.end }

    // The places of the history where the calls were answered never fall.
    ensures places { IfSome (P.observed keeper.old).seen (λ seen. NeverFall (length seen) result.calls) }

    // As many calls are told as faulted as the store failed since then at the most, as far as 64 bits hold it.
    ensures faulted { min ((P.observed keeper.old).faults + faulted_in result.calls) (2 ^ 64 - 1) ≤ (P.observed keeper.new).faults }

    // Nothing is read or written where no request is to be answered.
    ensures at_once { requests ≡ 0 → conn.new ≡ conn.old }

    // A fault is told exactly where the connection failed.
    ensures read { Counts (is_read_fault result.end) (C.Source.faults conn.old) (C.Source.faults conn.new) }
    ensures write { Counts (is_write_fault result.end) (C.Sink.faults conn.old) (C.Sink.faults conn.new) }
{
    let mut calls = List::new(alloc);
    let end = serve(
        alloc,
        keeper,
        conn,
        clock,
        ids,
        Allowance::new(requests),
        &mut calls,
    );
    AdminServed { calls, end }
}

// Serves a connection of which so much is allowed, and notes each call.
fn serve<P: Keeper, C: Conn, T: Clock, I: Ids>(
    alloc: Global,
    keeper: &mut P,
    conn: &mut C,
    clock: &mut T,
    ids: &mut I,
    allowed: Allowance,
    calls: &mut List<AdminDone>,
) -> End
    requires { calls.old ≡ [] }
    ensures serves { Serves (I.draws ids.old ids.new) (T.reads clock.old clock.new) 0 allowed
        (record { ahead = C.left conn.old; ahead_now = C.left conn.new; written = C.written conn.old; written_now = C.written conn.new; store = P.observed keeper.old; store_now = P.observed keeper.new })
        calls.new result }
    ensures at_once { is_spent allowed ≡ true → conn.new ≡ conn.old }
    ensures read { Counts (is_read_fault result) (C.Source.faults conn.old) (C.Source.faults conn.new) }
    ensures write { Counts (is_write_fault result) (C.Sink.faults conn.old) (C.Sink.faults conn.new) }
{
    let mut reader = match Reader::new(alloc, LOCAL_ADDRESS) {
        Ok(reader) => reader,
        Err(NoMemory) => return End::NoMemory,
    };
    let mut left = allowed;
    while !left.is_spent() {
        match serve_next(alloc, keeper, &mut reader, conn, clock, ids, left, calls) {
            Ok(less) => left = less,
            Err(end) => return end,
        }
    }
    End::Spent
}

// Reads and answers the next request, where so much is left. `Err`: the connection ends so.
fn serve_next<P: Keeper, C: Conn, T: Clock, I: Ids>(
    alloc: Global,
    keeper: &mut P,
    reader: &mut Reader,
    conn: &mut C,
    clock: &mut T,
    ids: &mut I,
    left: Allowance,
    calls: &mut List<AdminDone>,
) -> Result<Allowance, End>
    requires fresh { reader.old.error ≡ None }
    requires address { reader.old.address ≡ local_address }
    requires more { is_spent left ≡ false }
    ensures address { reader.new.address ≡ reader.old.address }
    ensures fresh { OnOk result (reader.new.error ≡ None) }
    ensures spends { IfOk result (λ more. more.requests ≡ left.requests - 1) }
    ensures serves { ServesNext (I.draws ids.old ids.new) (T.reads clock.old clock.new) reader.old.at reader.new.at left
        (record { ahead = with_front reader.old.held (C.left conn.old); ahead_now = C.left conn.new; written = C.written conn.old; written_now = C.written conn.new; store = P.observed keeper.old; store_now = P.observed keeper.new })
        (with_front reader.new.held (C.left conn.new)) calls.old calls.new result }
    ensures read { FaultsBy is_read_fault (C.Source.faults conn.old) (C.Source.faults conn.new) result }
    ensures write { FaultsBy is_write_fault (C.Sink.faults conn.old) (C.Sink.faults conn.new) result }
{
    match reader.next_request(alloc, conn) {
        Ok(Some(request)) => {
            let served = serve_request(alloc, keeper, &request, conn, clock, ids, left, calls);
            drop(request); // let go by name: a short proof
            served
        }
        Ok(None) => Err(End::Closed),
        Err(ReadError::Bad { at }) => Err(refuse(alloc, at, conn)),
        Err(ReadError::HeadTooLarge) => unreachable!(),
        Err(ReadError::BodyTooLarge) => unreachable!(),
        Err(ReadError::Cut { have }) => Err(End::Cut { have }),
        Err(ReadError::ReadFault) => Err(End::ReadFault),
        Err(ReadError::NoMemory) => Err(End::NoMemory),
    }
}

// Answers a request that was read, with the clock read once before it.
fn serve_request<P: Keeper, K: Sink, T: Clock, I: Ids>(
    alloc: Global,
    keeper: &mut P,
    request: &Request,
    sink: &mut K,
    clock: &mut T,
    ids: &mut I,
    left: Allowance,
    calls: &mut List<AdminDone>,
) -> Result<Allowance, End>
    ensures spends { IfOk result (λ more. more.requests ≡ left.requests - 1) }
    ensures replies { RepliesTo (I.draws ids.old ids.new) (T.reads clock.old clock.new) request.now left (P.observed keeper.old) (P.observed keeper.new)
        calls.old calls.new (K.written sink.old) (K.written sink.new) result }
    ensures faults { FaultsBy is_write_fault (K.faults sink.old) (K.faults sink.new) result }
    ensures beside { K.beside sink.new ≡ K.beside sink.old }
{
    let now = clock.now();
    match admin_request(alloc, keeper, request, ids, now) {
        Ok(done) => put_reply(alloc, request, done, sink, left, calls),
        Err(NoMemory) => Err(End::NoMemory),
    }
}
