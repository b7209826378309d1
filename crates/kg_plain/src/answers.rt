//! The requests of one connection, answered one after another.

ghost use Rattle.std.specs.Prelude.{◌≡◌, ◌<◌, ◌+◌, ◌==◌, ℕ, List as Sequence, None, Ok, IfOk, OnOk, OnErr, IsErrOf};
ghost use Rattle.kg_outside.specs.Causes.{Rose};
ghost use Rattle.kg_outside.specs.Moves.{with_end, with_front};
ghost use Rattle.kg_limit.specs.Representing.{Represents};
ghost use Rattle.kg_limit.specs.declared.hit.Hit.{Hit as AHit};
ghost use Rattle.kg_print.specs.Connection.{asks_for_end};
ghost use Rattle.kg_plain.specs.Answered.{AnswersAll, AnswersFront};
ghost use Rattle.kg_plain.specs.AnsweringSteps.{AnswersNext, Replied, RepliedFront, StopsNext, asked_end};
ghost use Rattle.kg_plain.specs.Fronts.{IsFront};
ghost use Rattle.kg_plain.specs.DryReply.{bad_request_text};
ghost use Rattle.kg_plain.specs.Replies.{local_address, most_requests};
ghost use Rattle.kg_plain.specs.declared.answers.End.{End as AnEnd};

use crate::gateway::{Gateway, bad_request_text};
use kg_limit::Windows;
use kg_message::Request;
use kg_outside::{Clock, Failed, Sink, Source};
use kg_text::NoMemory;
use kg_wire::{ReadError, Reader, asks_for_end, write_whole};
use std::alloc::Global;

// How many requests one connection answers.
const MOST_REQUESTS: u32 = 1000;

// The address that every request comes from.
const LOCAL_ADDRESS: [u8; 4] = [127, 0, 0, 1];

/// How the answering ended that was not cut short.
#[derive(Clone, Copy)]
pub enum End {
    /// The stream ended between two messages.
    Closed,
    /// The last request asked for the end of the connection.
    Asked,
    /// As many requests were answered as one connection may have.
    Spent,
    /// The next message was refused. It begins behind `at` bytes.
    Bad { at: u64 },
    /// The stream ended inside a message, of which there are `have` bytes.
    Cut { have: u64 },
}

/// Why the answering was cut short.
#[derive(Clone, Copy)]
pub enum Stop {
    /// The source failed.
    ReadFault,
    /// The sink failed.
    WriteFault,
    /// There was no memory.
    NoMemory,
}

impl From<NoMemory> for Stop {
    ghost use Rattle.kg_plain.specs.declared.answers.Stop.TheVariants.{NoMemory as OutOfMemory};

    ghost from_gives = { λ _ stop. stop ≡ OutOfMemory };

    fn from(_: NoMemory) -> Stop {
        Stop::NoMemory
    }
}

impl From<Failed> for Stop {
    ghost use Rattle.kg_plain.specs.declared.answers.Stop.TheVariants.{WriteFault};

    ghost from_gives = { λ _ stop. stop ≡ WriteFault };

    fn from(_: Failed) -> Stop {
        Stop::WriteFault
    }
}

/// Answers the requests of the source one after another, each with the gateway's reply, up to the first that
/// asks for the end of the connection or the thousandth. The clock is read once for each, and their hits are counted
/// one after another, from none on. A message that is refused before is answered with 400, and no more is read.
///
/// An error is a fault of the source, one of the sink, or want of memory: then whole replies are written, and a
/// front of what comes next.
pub fn answer_all<S: Source, K: Sink, T: Clock>(
    alloc: Global,
    gateway: &Gateway,
    source: &mut S,
    sink: &mut K,
    clock: &mut T,
) -> Result<End, Stop>
    ensures ok { IfOk result (AnswersAll gateway.now (T.reads clock.old clock.new) (S.left source.old) (K.written sink.old) (K.written sink.new)) }
    ensures err { OnErr result (AnswersFront gateway.now (T.reads clock.old clock.new) (S.left source.old) (K.written sink.old) (K.written sink.new)) }

    // A fault is told exactly where the environment failed.
    ensures kept_read { OnOk result (S.faults source.new ≡ S.faults source.old) }
    ensures kept_write { OnOk result (K.faults sink.new ≡ K.faults sink.old) }
    ensures read { IsErrOf result Stop.ReadFault → Rose (S.faults source.old) (S.faults source.new) }
    ensures write { IsErrOf result Stop.WriteFault → Rose (K.faults sink.old) (K.faults sink.new) }
{
    let mut reader = Reader::new(alloc, LOCAL_ADDRESS)?;
    let mut windows = Windows::new(alloc);
    let mut count = 0;
    while count < MOST_REQUESTS {
        match answer_next(
            alloc,
            gateway,
            &mut windows,
            &mut reader,
            source,
            sink,
            clock,
            count,
        )? {
            Some(end) => return Ok(end),
            None => count += 1,
        }
    }
    Ok(End::Spent)
}

// Reads and answers the next request, behind so many that were answered. `None`: the connection goes on.
fn answer_next<S: Source, K: Sink, T: Clock>(
    alloc: Global,
    gateway: &Gateway,
    windows: &mut Windows,
    reader: &mut Reader,
    source: &mut S,
    sink: &mut K,
    clock: &mut T,
    answered: u32,
) -> Result<Option<End>, Stop>
    requires fresh { reader.old.error ≡ None }
    requires address { reader.old.address ≡ local_address }
    requires few { answered < most_requests }
    ensures address { reader.new.address ≡ reader.old.address }
    ensures on { result ≡ Ok None → reader.new.error ≡ None }
    ensures ok { (hits : Sequence AHit) → Represents windows.old hits
        → IfOk result (AnswersNext gateway.now hits (T.reads clock.old clock.new) (Represents windows.new) answered reader.old.at reader.new.at
        (with_front reader.old.held (S.left source.old)) (with_front reader.new.held (S.left source.new)) (K.written sink.old) (K.written sink.new)) }
    ensures err { (hits : Sequence AHit) → Represents windows.old hits → OnErr result (StopsNext gateway.now hits (T.reads clock.old clock.new) answered (with_front reader.old.held (S.left source.old))
        (K.written sink.old) (K.written sink.new)) }
    ensures kept_read { OnOk result (S.faults source.new ≡ S.faults source.old) }
    ensures kept_write { OnOk result (K.faults sink.new ≡ K.faults sink.old) }
    ensures read { IsErrOf result Stop.ReadFault → Rose (S.faults source.old) (S.faults source.new) }
    ensures write { IsErrOf result Stop.WriteFault → Rose (K.faults sink.old) (K.faults sink.new) }
{
    match reader.next_request(alloc, source) {
        Ok(Some(request)) => {
            let last = answered + 1 == MOST_REQUESTS;
            answer_request(alloc, gateway, windows, request, last, sink, clock)
        }
        Ok(None) => Ok(Some(End::Closed)),
        Err(ReadError::Bad { at }) => answer_bad(alloc, at, sink),
        Err(ReadError::HeadTooLarge) => unreachable!(),
        Err(ReadError::BodyTooLarge) => unreachable!(),
        Err(ReadError::Cut { have }) => Ok(Some(End::Cut { have })),
        Err(ReadError::ReadFault) => Err(Stop::ReadFault),
        Err(ReadError::NoMemory) => Err(Stop::NoMemory),
    }
}

// Answers a request that was read, with the clock read once before it. `None`: it doesn't ask for the end.
fn answer_request<K: Sink, T: Clock>(
    alloc: Global,
    gateway: &Gateway,
    windows: &mut Windows,
    request: Request,
    last: bool,
    sink: &mut K,
    clock: &mut T,
) -> Result<Option<End>, Stop>
    ensures end { IfOk result (λ end. end ≡ asked_end (asks_for_end request)) }
    ensures ok { (hits : Sequence AHit) → Represents windows.old hits
        → OnOk result (Replied gateway.now hits last request (T.reads clock.old clock.new) (Represents windows.new) (K.written sink.old) (K.written sink.new)) }
    ensures err { (hits : Sequence AHit) → Represents windows.old hits
        → OnErr result (RepliedFront gateway.now hits last request (T.reads clock.old clock.new) (K.written sink.old) (K.written sink.new)) }
    ensures kept { OnOk result (K.faults sink.new ≡ K.faults sink.old) }
    ensures read { IsErrOf result Stop.ReadFault → ⊥ }
    ensures write { IsErrOf result Stop.WriteFault → Rose (K.faults sink.old) (K.faults sink.new) }
{
    let asks = asks_for_end(&request);
    let time = clock.now();
    let text = gateway.reply_to(alloc, windows, request, time, last)?;
    write_whole(sink, text.as_slice())?;
    if asks { Ok(Some(End::Asked)) } else { Ok(None) }
}

// Answers a message that is refused, behind so many bytes.
fn answer_bad<K: Sink>(alloc: Global, at: u64, sink: &mut K) -> Result<Option<End>, Stop>
    ensures ok { IfOk result (λ end. (end ≡ Some (AnEnd.Bad at)) × (K.written sink.new ≡ with_end (K.written sink.old) bad_request_text)) }
    ensures err { OnErr result ((front : Sequence ℕ) × (IsFront front bad_request_text)
        × (K.written sink.new ≡ with_end (K.written sink.old) front)) }
    ensures kept { OnOk result (K.faults sink.new ≡ K.faults sink.old) }
    ensures read { IsErrOf result Stop.ReadFault → ⊥ }
    ensures write { IsErrOf result Stop.WriteFault → Rose (K.faults sink.old) (K.faults sink.new) }
{
    let refusal = bad_request_text(alloc)?;
    write_whole(sink, refusal.as_slice())?;
    Ok(Some(End::Bad { at }))
}
