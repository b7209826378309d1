//! The commands of a first line.

ghost use Rattle.std.specs.Prelude.{◌≡◌, ◌⊎◌, ℕ, List as Sequence, Some, IfErr, IfOk, OnOk};
ghost use Rattle.kg_declare.specs.Histories.{AreInsertions};
ghost use Rattle.kg_message.specs.GatewayMessage.{gateway_message};
ghost use Rattle.kg_outside.specs.Causes.{Rose};
ghost use Rattle.kg_outside.specs.Moves.{with_end};
ghost use Rattle.kg_plain.specs.Fronts.{IsFront};
ghost use Rattle.kg_lone.specs.FirstCommands.{AnswersFirst, Drew, FirstLineCall, IsFirstStatus, refusal_line};
ghost use Rattle.kg_lone.specs.LineSteps.{AnswersLine, RefusesWith, read_outcome};

use crate::line::{FirstLine, LineError, first_line};
use crate::status::{OUT_OF_MEMORY, READ_FAULT, REFUSED, WRITE_FAULT};
use kg_declare::{DeclareError, declare};
use kg_message::{Response, message};
use kg_outside::{Failed, Ids, Sink, Source};
use kg_rows::Command;
use kg_text::{Bytes, List, NoMemory};
use kg_wire::write_whole;
use std::alloc::Global;

// How many bytes the first line may have, its line feed left aside.
const MOST_LINE: usize = 67_108_864;

/// The commands of the declaration in the first line of the source, over no rows. What stands behind the
/// line is left.
///
/// `now` is the clock in milliseconds, and of each kind there are at most `limit` rows. An error is an exit
/// status: 3 where the line is refused, and then `line 1 refused: `, the body of the refusal and a line feed
/// are written; 4 by a fault of the source, 5 by one of the sink, and 6 for want of memory. A line of more than
/// 67,108,864 bytes is refused.
pub fn first_commands<S: Source, K: Sink, I: Ids>(
    alloc: Global,
    source: &mut S,
    sink: &mut K,
    ids: &mut I,
    now: u64,
    limit: u32,
) -> Result<List<Command>, u8>
    ensures statuses { IfErr result IsFirstStatus }

    // What the line declares, or its refusal, or what was written where the call was cut short.
    ensures line { Drew I.draws ids.old ids.new (λ drawn. (bytes : Sequence ℕ) → S.left source.old ≡ Some bytes
        → let call : FirstLineCall = record {
          now = now;
          limit = limit;
          bytes = bytes;
          left = S.left source.new;
          before = K.written sink.old;
          written = K.written sink.new;
          drawn = drawn;
        } in AnswersFirst call result) }
    ensures commands { IfOk result (AreInsertions limit) }
    ensures unwritten { OnOk result (sink.new ≡ sink.old) }

    // A fault is told exactly where the environment failed.
    ensures kept { OnOk result (S.faults source.new ≡ S.faults source.old) }
    ensures refused { IfErr result (λ status. status ≡ 3 → (S.faults source.new ≡ S.faults source.old) × (K.faults sink.new ≡ K.faults sink.old)) }
    ensures read { IfErr result (λ status. status ≡ 4 → Rose (S.faults source.old) (S.faults source.new)) }
    ensures write { IfErr result (λ status. status ≡ 5 → Rose (K.faults sink.old) (K.faults sink.new)) }
{
    match first_line(alloc, source, MOST_LINE) {
        Ok(line) => match accepted(alloc, line, ids, now, limit) {
            Ok(commands) => Ok(commands),
            Err(DeclareError::Refused(response)) => Err(refuse(alloc, sink, &response)),
            Err(DeclareError::NoMemory) => Err(OUT_OF_MEMORY),
        },
        Err(LineError::ReadFault) => Err(READ_FAULT),
        Err(LineError::NoMemory) => Err(OUT_OF_MEMORY),
    }
}

// The commands of a line that was read.
#[tactic(auto, unfolding(crate::specs::FirstCommands::bad_line))]
fn accepted<I: Ids>(
    alloc: Global,
    line: FirstLine,
    ids: &mut I,
    now: u64,
    limit: u32,
) -> Result<List<Command>, DeclareError>
    ensures line { Drew I.draws ids.old ids.new (AnswersLine result (read_outcome line now limit)) }
    ensures commands { IfOk result (AreInsertions limit) }
{
    match line {
        FirstLine::Whole(line) => declare(alloc, line.as_slice(), ids, now, limit),
        FirstLine::TooLong => Err(refusal(alloc, b"Bad line")),
    }
}

// The refusal by the gateway's message of this text.
fn refusal(alloc: Global, text: &[u8]) -> DeclareError
    ensures { RefusesWith (gateway_message 400 text.now) result }
{
    match message(alloc, 400, text) {
        Ok(response) => DeclareError::Refused(response),
        Err(NoMemory) => DeclareError::NoMemory,
    }
}

// Writes the refusal of the first line, and gives the status.
fn refuse<K: Sink>(alloc: Global, sink: &mut K, response: &Response) -> u8
    ensures statuses { (result ≡ 3) ⊎ (result ≡ 5) ⊎ (result ≡ 6) }
    ensures whole { result ≡ 3 → K.written sink.new ≡ with_end (K.written sink.old) (refusal_line response.now) }
    ensures front { result ≡ 5 → (front : Sequence ℕ) × (IsFront front (refusal_line response.now))
        × (K.written sink.new ≡ with_end (K.written sink.old) front) }
    ensures unwritten { result ≡ 6 → sink.new ≡ sink.old }
    ensures kept { result ≡ 3 → K.faults sink.new ≡ K.faults sink.old }
    ensures write { result ≡ 5 → Rose (K.faults sink.old) (K.faults sink.new) }
{
    match refusal_line(alloc, response) {
        Ok(line) => match write_whole(sink, line.as_slice()) {
            Ok(()) => REFUSED,
            Err(Failed) => WRITE_FAULT,
        },
        Err(NoMemory) => OUT_OF_MEMORY,
    }
}

#[tactic(auto, unfolding(crate::specs::FirstCommands::refusal_line))]
fn refusal_line(alloc: Global, response: &Response) -> Result<Bytes, NoMemory>
    ensures { IfOk result (λ line. line ≡ refusal_line response.now) }
{
    let mut line = Bytes::from_slice(alloc, b"line 1 refused: ")?;
    line.extend_from_slice(response.body.as_slice())?;
    line.push(b'\n')?;
    Ok(line)
}
